//! What replicas of a log, and of a machine, may conclude.

ghost use Rattle.std.specs.Prelude.{◌≡◌, ◌≢◌, ◌≤◌, ◌⊎◌, ℕ, List, Option, length};
ghost use Rattle.std.specs.Prelude.{IfOk, IfErr, OnOk, OnErr};
ghost use Rattle.std.specs.Prelude.{[], Some, drop, false, is_ok, take, true};
ghost use Rattle.bohm.specs.Agreeing.{AskTheSame, IsOfTheLog};
ghost use Rattle.bohm.specs.Digests.{Collide};
ghost use Rattle.bohm.specs.Headline.{Answers, Refuses};
ghost use Rattle.bohm.specs.Machines.{GoesOn, floor_of, now_of, top_of};
ghost use Rattle.bohm.specs.Segments.{IsRefused};
ghost use Rattle.bohm.specs.Txn.{Txn};
ghost use Rattle.bohm.specs.Versions.{Timeline, versions};
ghost use Rattle.bohm_uses.specs.Holding.{HaveValues};

use bohm::laws::{
    one_answer, one_digest, one_refusal, rest_completes, restored_goes_on, same_digest,
};
use bohm::{
    Applied, Checked, Machine, NoMemory, Replies, RunFault, SegmentFault, Settings, StoreFault,
    run_text,
};
use std::alloc::Global;
use std::random::RandomSource;
use std::sync::Wait;
use std::thread::Threads;

/// The answer to a log's text.
pub fn answer<T: Threads + Wait + Sync + RandomSource + Copy + Send + 'static>(
    rt: &T,
    alloc: Global,
    text: &[u8],
    settings: Settings,
) -> Result<Vec<u8>, RunFault>
    ensures ok { IfOk result (λ answer. (left : Option (List ℕ))
        × Answers settings (Some text.now) left (Some []) (Some answer.items)) }
    ensures err { IfErr result (λ fault. (left : Option (List ℕ)) × (written : Option (List ℕ))
        × Refuses settings (Some text.now) left (Some []) written fault) }
{
    let mut reader = text;
    let mut answer = Vec::new(alloc);
    run_text(rt, alloc, &mut reader, &mut answer, settings)?;
    Ok(answer)
}

/// Two replicas that run the same text, with any workers, give the same answer or the same
/// refusal, unless an allocation fails.
pub fn answer_twice<T: Threads + Wait + Sync + RandomSource + Copy + Send + 'static>(
    rt: &T,
    alloc: Global,
    text: &[u8],
    one: Settings,
    other: Settings,
) -> (Result<Vec<u8>, RunFault>, Result<Vec<u8>, RunFault>)
    requires { AskTheSame one other }
    ensures answers { IfOk result.0 (λ a. IfOk result.1 (λ b. a.items ≡ b.items)) }
    ensures refusals { IfErr result.0 (λ e. IfErr result.1
        (λ f. IsOfTheLog e → IsOfTheLog f → e ≡ f)) }
    ensures either { IfOk result.0 (λ a. IfErr result.1 (λ f. ¬ IsOfTheLog f)) }
{
    one_answer();
    (answer(rt, alloc, text, one), answer(rt, alloc, text, other))
}

/// Runs the rest of a segment that stopped after these replies, and appends the replies to it.
/// Returns whether the whole segment is done and answered: then the machine is as if the segment
/// had run at once.
pub fn finish(
    machine: &mut Machine,
    alloc: Global,
    replies: &mut Replies,
    rest: &Checked,
) -> Result<bool, SegmentFault>
    ensures { (was : Timeline) (n : ℕ) (log : List Txn) → floor_of was ≤ top_of was
        → GoesOn was machine.old (take n log) replies.old → rest.now.log ≡ drop n log
        → IfOk result (λ done. done ≡ true → GoesOn was machine.new log replies.new) }
{
    rest_completes();
    let Applied { replies: more, end } = machine.apply(alloc, rest)?;
    let appended = replies.append(more);
    Ok(end.is_ok() && appended.is_ok())
}

/// Whether two machines have one digest at their tops: then each key holds the same in both, or two
/// texts collide under SHA-256. Otherwise some key doesn't.
pub fn agree(alloc: Global, one: &Machine, other: &Machine) -> Result<bool, StoreFault>
    ensures same { IfOk result (λ same. same ≡ true → (now_of one.now ≡ now_of other.now)
        ⊎ ((a : List ℕ) × (b : List ℕ) × Collide a b)) }
    ensures apart { IfOk result (λ same. same ≡ false → now_of one.now ≢ now_of other.now) }
{
    same_digest();
    one_digest();
    let first = one.digest(alloc, one.top())?;
    let second = other.digest(alloc, other.top())?;
    Ok(first == second)
}

/// A machine that is restored from another one's store at the top.
pub fn copy(alloc: Global, machine: &Machine) -> Result<Machine, StoreFault>
    ensures top { IfOk result (λ copy. top_of copy ≡ top_of machine.now) }
    ensures now { IfOk result (λ copy. now_of copy ≡ now_of machine.now) }
{
    let top = machine.top();
    let store = machine.store_at(alloc, top)?;
    match Machine::restore(alloc, machine.seed(), &store, top) {
        Ok(copy) => Ok(copy),
        Err(NoMemory) => Err(StoreFault::NoMemory),
    }
}

/// Runs a segment on two machines with the same top. Both take it, or both refuse it for the same
/// reason, and are unchanged. If they hold the same and both run all of it, as a machine and its copy
/// do, their replies are the same, and so is what they hold then.
pub fn apply_to_both(
    alloc: Global,
    one: &mut Machine,
    other: &mut Machine,
    segment: &Checked,
) -> Result<(Applied, Applied), SegmentFault>
    requires { top_of one.old ≡ top_of other.old }
    ensures refused { IfErr result
        (λ fault. IsRefused one.old segment.now fault × IsRefused other.old segment.now fault) }
    ensures unchanged { OnErr result ((one.new ≡ one.old) × (other.new ≡ other.old)) }
    ensures replies { now_of one.old ≡ now_of other.old → IfOk result
        (λ both. is_ok both.0.end ≡ true → is_ok both.1.end ≡ true
        → both.0.replies ≡ both.1.replies) }
    ensures top { IfOk result (λ both. is_ok both.0.end ≡ true → is_ok both.1.end ≡ true
        → top_of one.new ≡ top_of other.new) }
    ensures now { now_of one.old ≡ now_of other.old → IfOk result
        (λ both. is_ok both.0.end ≡ true → is_ok both.1.end ≡ true
        → now_of one.new ≡ now_of other.new) }
{
    one_refusal();
    restored_goes_on();
    match (one.apply(alloc, segment), other.apply(alloc, segment)) {
        (Ok(first), Ok(second)) => Ok((first, second)),
        (Err(fault), Err(_)) => Err(fault),
        _ => unreachable!(),
    }
}

/// Forgets the past of a machine.
pub fn forget_past(machine: &mut Machine)
    ensures { (k : List ℕ) → length (versions machine.new k) ≤ 1 }
{
    let top = machine.top();
    machine.trim(top);
}

/// Forgets the past of a machine, and all keys without a value. Returns the number of keys that take
/// memory then, which is that of the keys with a value.
pub fn shrink(machine: &mut Machine, alloc: Global) -> Result<usize, NoMemory>
    ensures now { OnOk result (now_of machine.new ≡ now_of machine.old) }
    ensures count { IfOk result (λ count. HaveValues machine.new count) }
{
    machine.compact(alloc)?;
    Ok(machine.key_count())
}
