//! The C functions that add and run calls of procedures.

ghost use Rattle.std.specs.Prelude.{◌≡◌, ◌≢◌, ◌<◌, ◌⊎◌, ◌↔◌, [], length, map, None, Some};
ghost use Rattle.std.specs.List.{Any};
ghost use Rattle.bohm_types.specs.Name.{key_of};
ghost use Rattle.bohm_machine.specs.Segments.{IsRefused};
ghost use Rattle.bohm_machine.specs.declared.fault.SegmentFault.TheVariants as segment_is;
ghost use Rattle.bohm_procedures.specs.Accepting.{Takes};
ghost use Rattle.bohm_c.specs.Calling.{IsPushed};
ghost use Rattle.bohm_c.specs.Handles.{AreShared, HasCalls, HasMachine, IsLent, IsProcedure};
ghost use Rattle.bohm_c.specs.Handles.{OnCalls, OnMachine, OnProcedure};
ghost use Rattle.bohm_c.specs.Keeping.{IsRunKept, IsRunPartly, IsRunWhole};

use crate::call_list::PushFault;
use crate::handle::{BohmHandle, put_back, take_back};
use crate::kept::Kept;
use crate::key_fault::KeyFault;
use crate::status::{
    DONE, KEPT, MISUSE, NO_KEY, NO_MEMORY, SHARED, STOPPED, TIMESTAMPS, UNFIT, WAITING,
};
use std::alloc::Global;

/// Adds the call of a procedure to a list; `MISUSE` if either is something else.
fn push_on(calls: &mut Kept, procedure: &Kept, keys: &[&[u8]], values: &[i64]) -> u32
    ensures status { (result ≡ DONE) ⊎ (result ≡ NO_MEMORY) ⊎ (result ≡ NO_KEY)
        ⊎ (result ≡ UNFIT)
        ⊎ (result ≡ MISUSE) ⊎ (result ≡ SHARED) }
    ensures misuse { (result ≡ MISUSE)
        ↔ ¬ (HasCalls (Some calls.old) × IsProcedure (Some procedure.now)) }
    ensures shared { (result ≡ SHARED)
        ↔ (IsLent (Some calls.old) × IsProcedure (Some procedure.now)) }
    ensures done { result ≡ DONE → OnProcedure (Some procedure.now) (λ p.
        OnCalls (Some calls.old) (λ was.
        OnCalls (Some calls.new) (λ now.
        IsPushed p (map (λ k. k.now) keys.now) values.now was now))) }
    ensures no_key { result ≡ NO_KEY → Any (λ k. key_of k.now ≡ None) keys.now }
    ensures fits { result ≡ NO_KEY → OnProcedure (Some procedure.now) (λ p.
        OnCalls (Some calls.old) (λ was.
        Takes was.calls p (map (λ k. k.now) keys.now) values.now)) }
    ensures unfit { result ≡ UNFIT → OnProcedure (Some procedure.now) (λ p.
        OnCalls (Some calls.old) (λ was.
        ¬ Takes was.calls p (map (λ k. k.now) keys.now) values.now)) }
    ensures unchanged { 0 < result → calls.new ≡ calls.old }
{
    let Kept::Prepared(procedure) = procedure else {
        return MISUSE;
    };
    match calls {
        Kept::Calls(list) => match list.push(procedure, keys, values) {
            Ok(()) => DONE,
            Err(PushFault::Unfit) => UNFIT,
            Err(PushFault::Key(KeyFault::NoKey)) => NO_KEY,
            Err(PushFault::Key(KeyFault::NoMemory)) => NO_MEMORY,
        },
        Kept::Lent => SHARED,
        Kept::Machine(_) | Kept::Prepared(_) | Kept::Shared(_) | Kept::Worker(_) => MISUSE,
    }
}

/// Adds a call of the procedure with these arguments.
#[unsafe(no_mangle)]
pub extern "C" fn bohm_push(
    alloc: Global,
    calls: &mut BohmHandle,
    procedure: &mut BohmHandle,
    keys: &[&[u8]],
    values: &[i64],
) -> u32
    ensures same { procedure.new.value ≡ procedure.old.value }
    ensures status { (result ≡ DONE) ⊎ (result ≡ NO_MEMORY) ⊎ (result ≡ NO_KEY)
        ⊎ (result ≡ UNFIT)
        ⊎ (result ≡ MISUSE) ⊎ (result ≡ SHARED) }
    ensures misuse { (result ≡ MISUSE)
        ↔ ¬ (HasCalls calls.old.value × IsProcedure procedure.old.value) }
    ensures shared { (result ≡ SHARED)
        ↔ (IsLent calls.old.value × IsProcedure procedure.old.value) }
    ensures done { result ≡ DONE → OnProcedure procedure.old.value (λ p.
        OnCalls calls.old.value (λ was.
        OnCalls calls.new.value (λ now.
        IsPushed p (map (λ k. k.now) keys.now) values.now was now))) }
    ensures no_key { result ≡ NO_KEY → Any (λ k. key_of k.now ≡ None) keys.now }
    ensures fits { result ≡ NO_KEY → OnProcedure procedure.old.value (λ p.
        OnCalls calls.old.value (λ was.
        Takes was.calls p (map (λ k. k.now) keys.now) values.now)) }
    ensures unfit { result ≡ UNFIT → OnProcedure procedure.old.value (λ p.
        OnCalls calls.old.value (λ was.
        ¬ Takes was.calls p (map (λ k. k.now) keys.now) values.now)) }
    ensures unchanged { 0 < result → calls.new.value ≡ calls.old.value }
{
    let Some(mut list) = take_back(alloc, calls) else {
        return MISUSE;
    };
    let status = match take_back(alloc, procedure) {
        Some(prepared) => {
            let status = push_on(&mut *list, &*prepared, keys, values);
            put_back(procedure, prepared);
            status
        }
        None => MISUSE,
    };
    put_back(calls, list);
    status
}

/// Runs calls on a machine; `MISUSE` if either is something else.
fn run_on<'a>(machine: &mut Kept, alloc: Global, calls: &Kept, out: &mut &'a mut [u8]) -> u32
    ensures status { (result ≡ DONE) ⊎ (result ≡ TIMESTAMPS) ⊎ (result ≡ WAITING)
        ⊎ (result ≡ STOPPED) ⊎ (result ≡ KEPT)
        ⊎ (result ≡ MISUSE) ⊎ (result ≡ SHARED) }
    ensures misuse { (result ≡ MISUSE)
        ↔ ¬ (HasMachine (Some machine.old) × HasCalls (Some calls.now)) }
    ensures shared { (result ≡ SHARED) ↔ AreShared (Some machine.old) (Some calls.now) }
    ensures done { result ≡ DONE → OnMachine (Some machine.old) (λ was.
        OnMachine (Some machine.new) (λ now.
        OnCalls (Some calls.now) (λ list. IsRunWhole was now list.calls out.new.now))) }
    ensures stopped { result ≡ STOPPED → OnMachine (Some machine.old) (λ was.
        OnMachine (Some machine.new) (λ now.
        OnCalls (Some calls.now) (λ list. IsRunPartly was now list.calls out.new.now))) }
    ensures kept { result ≡ KEPT → OnMachine (Some machine.old) (λ was.
        OnMachine (Some machine.new) (λ now.
        OnCalls (Some calls.now) (λ list. IsRunKept was now list.calls))) }
    ensures timestamps { result ≡ TIMESTAMPS → OnMachine (Some machine.old) (λ was.
        OnCalls (Some calls.now) (λ list. IsRefused was.machine list.calls segment_is.Timestamps)) }
    ensures waiting { result ≡ WAITING
        → OnMachine (Some machine.old) (λ was. 0 < length was.waiting) }
    ensures told { result ≡ TIMESTAMPS
        → OnMachine (Some machine.old) (λ was. was.waiting ≡ []) }
    ensures unchanged { result ≢ DONE → result ≢ STOPPED → result ≢ KEPT
        → machine.new ≡ machine.old }
    ensures untouched { result ≢ DONE → result ≢ STOPPED → out.new ≡ out.old }
{
    match machine {
        Kept::Machine(session) => match calls {
            Kept::Calls(list) => session.run_calls(alloc, list, out),
            Kept::Lent => SHARED,
            Kept::Machine(_) | Kept::Prepared(_) | Kept::Shared(_) | Kept::Worker(_) => MISUSE,
        },
        Kept::Shared(_) => match calls {
            Kept::Calls(_) | Kept::Lent => SHARED,
            Kept::Machine(_) | Kept::Prepared(_) | Kept::Shared(_) | Kept::Worker(_) => MISUSE,
        },
        Kept::Prepared(_) | Kept::Calls(_) | Kept::Lent | Kept::Worker(_) => MISUSE,
    }
}

/// Runs the calls as a segment, and returns the text of its replies, numbered on from the top. The
/// list keeps its calls.
#[unsafe(no_mangle)]
pub extern "C" fn bohm_run_calls<'a>(
    alloc: Global,
    machine: &mut BohmHandle,
    calls: &mut BohmHandle,
    out: &mut &'a mut [u8],
) -> u32
    ensures same { calls.new.value ≡ calls.old.value }
    ensures status { (result ≡ DONE) ⊎ (result ≡ TIMESTAMPS) ⊎ (result ≡ WAITING)
        ⊎ (result ≡ STOPPED) ⊎ (result ≡ KEPT)
        ⊎ (result ≡ MISUSE) ⊎ (result ≡ SHARED) }
    ensures misuse { (result ≡ MISUSE)
        ↔ ¬ (HasMachine machine.old.value × HasCalls calls.old.value) }
    ensures shared { (result ≡ SHARED) ↔ AreShared machine.old.value calls.old.value }
    ensures done { result ≡ DONE → OnMachine machine.old.value (λ was.
        OnMachine machine.new.value (λ now.
        OnCalls calls.old.value (λ list. IsRunWhole was now list.calls out.new.now))) }
    ensures stopped { result ≡ STOPPED → OnMachine machine.old.value (λ was.
        OnMachine machine.new.value (λ now.
        OnCalls calls.old.value (λ list. IsRunPartly was now list.calls out.new.now))) }
    ensures kept { result ≡ KEPT → OnMachine machine.old.value (λ was.
        OnMachine machine.new.value (λ now.
        OnCalls calls.old.value (λ list. IsRunKept was now list.calls))) }
    ensures timestamps { result ≡ TIMESTAMPS → OnMachine machine.old.value (λ was.
        OnCalls calls.old.value (λ list. IsRefused was.machine list.calls segment_is.Timestamps)) }
    ensures waiting { result ≡ WAITING
        → OnMachine machine.old.value (λ was. 0 < length was.waiting) }
    ensures told { result ≡ TIMESTAMPS
        → OnMachine machine.old.value (λ was. was.waiting ≡ []) }
    ensures unchanged { result ≢ DONE → result ≢ STOPPED → result ≢ KEPT
        → machine.new.value ≡ machine.old.value }
    ensures untouched { result ≢ DONE → result ≢ STOPPED → out.new ≡ out.old }
{
    let Some(mut kept) = take_back(alloc, machine) else {
        return MISUSE;
    };
    let status = match take_back(alloc, calls) {
        Some(list) => {
            let status = run_on(&mut *kept, alloc, &*list, out);
            put_back(calls, list);
            status
        }
        None => MISUSE,
    };
    put_back(machine, kept);
    status
}
