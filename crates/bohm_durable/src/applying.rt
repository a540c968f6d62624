//! One transaction on a machine.

ghost use Rattle.std.specs.Prelude.{◌≡◌, ◌+◌, ◌<◌, ◌≤◌, ◌^◌, ◌∷◌, ◌≢◌, [], ℕ, List, true, Err, IfOk, OnOk, length};
ghost use Rattle.bohm_types.specs.Appending.{empty_document};
ghost use Rattle.bohm_types.specs.Keys.{is_among, names_of, rising};
ghost use Rattle.bohm_types.specs.Procedure.{instance};
ghost use Rattle.bohm_types.specs.Txn.{Txn};
ghost use Rattle.bohm_txn.specs.Meaning.{body};
ghost use Rattle.bohm_txn.specs.Serial.{after, reply_of};
ghost use Rattle.bohm_ledger.specs.declared.error.MachineFault.TheVariants as fault_is;
ghost use Rattle.bohm_machine.specs.Machines.{floor_of, now_of, past_of, top_of};
ghost use Rattle.bohm_durable.specs.Entering.{IsSince, KeepsCheckpoint};

use bohm_ledger::MachineFault;
use bohm_machine::{BatchFault, Machine, SegmentFault};
use bohm_procedures::{Calls, Procedure};
use bohm_txn::{Checked, Replies};
use bohm_types::{Edition, Key, NoMemory, Value};
use std::alloc::Global;

/// Whether the keys are in ascending order.
pub(crate) fn is_rising(entries: &[(Key, Value)]) -> bool
    ensures { result ≡ rising (names_of entries.now) }
{
    let mut last: Option<Key> = None;
    for (key, _) in entries {
        if let Some(before) = last {
            if !(before < *key) {
                return false;
            }
        }
        last = Some(*key);
    }
    true
}

/// Brings keys into ascending order, each of them once.
pub(crate) fn sort_keys(keys: &mut Vec<Key>)
    ensures kept { (k : List ℕ) → is_among keys.old.items k ≡ true → is_among keys.new.items k ≡ true }
{
    keys.sort_unstable();
    keys.dedup();
}

/// Takes away keys that are there twice where there is no room for another one. There is room for as
/// many keys again then, so that the time for a key is that of sorting it in a few times.
fn make_room(changed: &mut Vec<Key>) -> Result<(), NoMemory>
    ensures kept { (k : List ℕ) → is_among changed.old.items k ≡ true → is_among changed.new.items k ≡ true }
{
    if changed.len() < changed.capacity() {
        return Ok(());
    }
    sort_keys(changed);
    changed.reserve(changed.len())?;
    Ok(())
}

/// Adds the keys that the only transaction of a log declares to write, behind those that are there.
fn push_writes(changed: &mut Vec<Key>, log: &Checked) -> Result<(), NoMemory>
    requires { length log.now.log ≡ 1 }
    ensures kept { (k : List ℕ) → is_among changed.old.items k ≡ true → is_among changed.new.items k ≡ true }
    ensures noted { OnOk result ((t : Txn) → log.now.log ≡ t ∷ [] → (k : List ℕ) → is_among t.writes k ≡ true
        → is_among changed.new.items k ≡ true) }
{
    let writes = log.log().txn(0).writes();
    'keys: for place in 0..writes.len() {
        changed.push(*writes.key(place))?;
    }
    Ok(())
}

/// Adds the keys that the only transaction of a log declares to write. A key that changes again and
/// again takes room a few times.
pub(crate) fn note_writes(changed: &mut Vec<Key>, log: &Checked) -> Result<(), NoMemory>
    requires { length log.now.log ≡ 1 }
    ensures kept { (k : List ℕ) → is_among changed.old.items k ≡ true → is_among changed.new.items k ≡ true }
    ensures noted { OnOk result ((t : Txn) → log.now.log ≡ t ∷ [] → (k : List ℕ) → is_among t.writes k ≡ true
        → is_among changed.new.items k ≡ true) }
{
    make_room(changed)?;
    push_writes(changed, log)
}

/// Runs the only transaction of a log after the top.
pub(crate) fn apply_one(
    machine: &mut Machine,
    alloc: Global,
    log: &Checked,
) -> Result<Replies, MachineFault>
    requires { length log.now.log ≡ 1 }
    ensures one { IfOk result (λ replies. length replies ≡ 1) }
    ensures replies { IfOk result (λ replies. (t : Txn) → log.now.log ≡ t ∷ []
        → replies ≡ reply_of (body (now_of machine.old) t) ∷ []) }
    ensures now { OnOk result ((t : Txn) → log.now.log ≡ t ∷ []
        → now_of machine.new ≡ after (now_of machine.old) t) }
    ensures since { (changed : List (List ℕ)) → IsSince machine.old changed
        → ((t : Txn) → log.now.log ≡ t ∷ [] → (k : List ℕ) → is_among t.writes k ≡ true → is_among changed k ≡ true)
        → IsSince machine.new changed }
    ensures checkpoint { KeepsCheckpoint machine.old machine.new }
    ensures earlier { (ts : ℕ) → floor_of machine.old ≤ ts → ts ≤ top_of machine.old
        → past_of machine.new ts ≡ past_of machine.old ts }
    ensures top { OnOk result (top_of machine.new ≡ top_of machine.old + 1) }
    ensures unreadable { result ≡ Err fault_is.Unreadable → 0 < length log.now.store }
    ensures full { result ≡ Err fault_is.Full → 2 ^ 32 ≤ top_of machine.old + 1 }
{
    let _well_formed = log.log();
    match machine.apply(alloc, log) {
        Ok(applied) => match applied.end {
            Ok(()) => Ok(applied.replies),
            Err(_) => Err(MachineFault::OutOfMemory),
        },
        Err(SegmentFault::Store) => Err(MachineFault::Unreadable),
        Err(SegmentFault::Timestamps) => Err(MachineFault::Full),
    }
}

/// Makes a list of calls empty, for a procedure of this edition.
fn clear_for(
    calls: &mut Calls,
    machine: &Machine,
    alloc: Global,
    edition: Edition,
) -> Result<(), NoMemory>
    ensures { OnOk result (calls.new ≡ empty_document edition) }
{
    if calls.segment().edition() == edition {
        calls.clear();
        return Ok(());
    }
    *calls = machine.calls(alloc, edition)?;
    Ok(())
}

/// Makes a list hold the call of a procedure alone.
pub(crate) fn hold_call(
    calls: &mut Calls,
    machine: &Machine,
    alloc: Global,
    procedure: &Procedure,
    keys: &[Key],
    values: &[Value],
) -> Result<(), NoMemory>
    requires keys { length keys.now ≡ length procedure.now.keys }
    requires values { length values.now ≡ length procedure.now.values }
    ensures log { OnOk result (calls.new.log ≡ instance procedure.now keys.now values.now ∷ []) }
    ensures store { OnOk result (calls.new.store ≡ []) }
{
    clear_for(calls, machine, alloc, procedure.edition())?;
    calls.push(procedure, keys, values)
}

/// Runs the only call of a list after the top, and puts its reply in the place of those that are
/// there.
pub(crate) fn apply_call(
    machine: &mut Machine,
    calls: &Calls,
    answered: &mut Replies,
) -> Result<(), MachineFault>
    requires one { length calls.now.log ≡ 1 }
    requires storeless { calls.now.store ≡ [] }
    ensures replies { OnOk result ((t : Txn) → calls.now.log ≡ t ∷ []
        → answered.new ≡ reply_of (body (now_of machine.old) t) ∷ []) }
    ensures now { OnOk result ((t : Txn) → calls.now.log ≡ t ∷ []
        → now_of machine.new ≡ after (now_of machine.old) t) }
    ensures since { (changed : List (List ℕ)) → IsSince machine.old changed
        → ((t : Txn) → calls.now.log ≡ t ∷ [] → (k : List ℕ) → is_among t.writes k ≡ true → is_among changed k ≡ true)
        → IsSince machine.new changed }
    ensures checkpoint { KeepsCheckpoint machine.old machine.new }
    ensures earlier { (ts : ℕ) → floor_of machine.old ≤ ts → ts ≤ top_of machine.old
        → past_of machine.new ts ≡ past_of machine.old ts }
    ensures top { OnOk result (top_of machine.new ≡ top_of machine.old + 1) }
    ensures readable { result ≢ Err fault_is.Unreadable }
    ensures full { result ≡ Err fault_is.Full → 2 ^ 32 ≤ top_of machine.old + 1 }
{
    let _well_formed = calls.segment().log();
    answered.clear();
    match machine.run_batch(calls, answered) {
        Ok(()) => Ok(()),
        Err(BatchFault::NoMemory) => Err(MachineFault::OutOfMemory),
        Err(BatchFault::Segment(SegmentFault::Store)) => Err(MachineFault::Unreadable),
        Err(BatchFault::Segment(SegmentFault::Timestamps)) => Err(MachineFault::Full),
    }
}
