//! What follows for callers of two machines, and of a segment in two parts: laws over the
//! definitions alone, and calls that cite them. No export uses them.

ghost use Rattle.std.specs.Prelude.{◌≡◌, ◌≤◌, ◌++◌, ℕ, List};
ghost use Rattle.bohm_machine.specs.Machines.{floor_of, top_of};
ghost use Rattle.bohm_machine.specs.declared.fault.SegmentFault.{SegmentFault};
ghost use Rattle.bohm_store.specs.Versions.{Timeline};
ghost use Rattle.bohm_c.specs.Agreeing.{AreAlike, IsOfTheText, IsRest};
ghost use Rattle.bohm_c.specs.Keeping.{IsDone, IsOpening, IsSnapshot, IsStopped, IsUntaken};
ghost use Rattle.bohm_c.specs.Reading.{IsRefusal};
ghost use Rattle.bohm_c.specs.declared.session.Session.{Session};

use crate::laws::snapshot_goes_on;
use crate::session::Session;
use crate::status::{DONE, REFUSED};
use bohm_machine::laws::{one_refusal, rest_completes};
use bohm_text::laws::one_text;
use std::alloc::Global;

// ---- laws

/// Two machines with one top and one store there give one answer to a text, and stay alike; a text
/// has one refusal; and at most one of an answer, a refusal and a status for its segment is given.
pub fn one_status()
    ensures answer { (one other after1 after2 : Session) (text a b : List ℕ) → AreAlike one other
        → IsDone one after1 text a → IsDone other after2 text b → (a ≡ b) × AreAlike after1 after2 }
    ensures refusal { (text a b : List ℕ) → IsRefusal text a → IsRefusal text b → a ≡ b }
    ensures untaken { (m n : Timeline) (text : List ℕ) (e f : SegmentFault) → top_of m ≡ top_of n
        → IsUntaken m text e → IsUntaken n text f → e ≡ f }
    ensures read { (was now : Session) (text a b : List ℕ) → IsDone was now text a
        → ¬ IsRefusal text b }
    ensures formed { (m : Timeline) (text a : List ℕ) (f : SegmentFault) → IsUntaken m text f
        → ¬ IsRefusal text a }
    ensures taken { (was now : Session) (m : Timeline) (text a : List ℕ) (f : SegmentFault)
        → top_of was.machine ≡ top_of m → IsDone was now text a → ¬ IsUntaken m text f }
{
    one_text();
    one_refusal();
}

/// A machine that is opened on a snapshot of another one's top answers the next text as that one
/// does, and the two stay alike.
pub fn snapshot_answers_alike()
    ensures { (one other after1 after2 : Session) (snapshot text a b : List ℕ)
        → IsSnapshot one.machine (top_of one.machine) snapshot
        → IsOpening snapshot (top_of one.machine) other → IsDone one after1 text a
        → IsDone other after2 text b → (a ≡ b) × AreAlike after1 after2 }
{
    snapshot_goes_on();
    one_status();
}

/// A segment that stopped part way is done once the rest of it is: the two texts of replies,
/// joined, and the machine are those of the whole segment.
pub fn rest_is_done()
    ensures { (was mid now : Session) (text rest a b : List ℕ)
        → floor_of was.machine ≤ top_of was.machine → (stopped : IsStopped was mid text a)
        → IsRest was mid stopped.document rest → IsDone mid now rest b
        → IsDone was now text (a ++ b) }
{
    one_text();
    rest_completes();
}

// ---- calls

/// Runs the segment of a text on two machines.
pub fn apply_to_both<'a>(
    alloc: Global,
    one: &mut Session,
    other: &mut Session,
    text: &[u8],
    first: &mut &'a mut [u8],
    second: &mut &'a mut [u8],
) -> (u32, u32)
    ensures status { AreAlike one.old other.old → IsOfTheText result.0 → IsOfTheText result.1
        → result.0 ≡ result.1 }
    ensures answer { AreAlike one.old other.old → result.0 ≡ DONE → result.1 ≡ DONE
        → first.new.now ≡ second.new.now }
    ensures refusal { result.0 ≡ REFUSED → result.1 ≡ REFUSED
        → first.new.now ≡ second.new.now }
    ensures alike { AreAlike one.old other.old → result.0 ≡ DONE → result.1 ≡ DONE
        → AreAlike one.new other.new }
{
    one_status();
    let told = one.apply(alloc, text, first);
    (told, other.apply(alloc, text, second))
}

/// Runs the rest of a segment that stopped.
pub fn apply_rest<'a>(
    session: &mut Session,
    alloc: Global,
    rest: &[u8],
    out: &mut &'a mut [u8],
) -> u32
    ensures { (was : Session) (text a : List ℕ) → floor_of was.machine ≤ top_of was.machine
        → (stopped : IsStopped was session.old text a)
        → IsRest was session.old stopped.document rest.now → result ≡ DONE
        → IsDone was session.new text (a ++ out.new.now) }
{
    rest_is_done();
    session.apply(alloc, rest, out)
}
