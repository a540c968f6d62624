//! The C functions that return replies as rows.

ghost use Rattle.std.specs.Prelude.{◌≡◌, ◌≢◌, ◌<◌, ◌⊎◌, ◌↔◌, [], length, Some};
ghost use Rattle.std.specs.List.{flat_map};
ghost use Rattle.bohm_machine.specs.Segments.{IsRefused};
ghost use Rattle.bohm_machine.specs.declared.fault.SegmentFault.TheVariants as segment_is;
ghost use Rattle.bohm_c.specs.Handles.{AreShared, HasCalls, HasMachine, IsShared, OnCalls};
ghost use Rattle.bohm_c.specs.Handles.{OnMachine};
ghost use Rattle.bohm_c.specs.Keeping.{IsHeld, IsHeldPartly, IsRunUntold, IsUntaken};
ghost use Rattle.bohm_c.specs.Reading.{IsRefusal};
ghost use Rattle.bohm_c.specs.Rows.{rows_from, shows_of};

use crate::handle::{BohmHandle, put_back, take_back};
use crate::kept::Kept;
use crate::rows::BohmReply;
use crate::status::{
    DONE, HAS_STORE, MISUSE, NO_MEMORY, REFUSED, SHARED, STOPPED, TIMESTAMPS, WAITING,
};
use std::alloc::Global;

/// Runs a segment, as `bohm_apply` does, and keeps its replies waiting.
#[unsafe(no_mangle)]
pub extern "C" fn bohm_apply_held<'a>(
    alloc: Global,
    machine: &mut BohmHandle,
    text: &[u8],
    out: &mut &'a mut [u8],
) -> u32
    ensures status { (result ≡ DONE) ⊎ (result ≡ REFUSED) ⊎ (result ≡ NO_MEMORY)
        ⊎ (result ≡ HAS_STORE)
        ⊎ (result ≡ TIMESTAMPS) ⊎ (result ≡ WAITING) ⊎ (result ≡ STOPPED)
        ⊎ (result ≡ MISUSE) ⊎ (result ≡ SHARED) }
    ensures misuse { (result ≡ MISUSE) ↔ ¬ HasMachine machine.old.value }
    ensures shared { (result ≡ SHARED) ↔ IsShared machine.old.value }
    ensures done { result ≡ DONE → OnMachine machine.old.value (λ was.
        OnMachine machine.new.value (λ now. IsHeld was now text.now)) }
    ensures stopped { result ≡ STOPPED → OnMachine machine.old.value (λ was.
        OnMachine machine.new.value (λ now. IsHeldPartly was now text.now)) }
    ensures refused { result ≡ REFUSED → IsRefusal text.now out.new.now }
    ensures has_store { result ≡ HAS_STORE
        → OnMachine machine.old.value (λ was. IsUntaken was.machine text.now segment_is.Store) }
    ensures timestamps { result ≡ TIMESTAMPS → OnMachine machine.old.value
        (λ was. IsUntaken was.machine text.now segment_is.Timestamps) }
    ensures waiting { result ≡ WAITING
        → OnMachine machine.old.value (λ was. 0 < length was.waiting) }
    ensures told { (result ≡ REFUSED) ⊎ (result ≡ HAS_STORE) ⊎ (result ≡ TIMESTAMPS)
        → OnMachine machine.old.value (λ was. was.waiting ≡ []) }
    ensures unchanged { result ≢ DONE → result ≢ STOPPED
        → machine.new.value ≡ machine.old.value }
    ensures untouched { result ≢ REFUSED → out.new ≡ out.old }
{
    let Some(mut kept) = take_back(alloc, machine) else {
        return MISUSE;
    };
    let status = match &mut *kept {
        Kept::Machine(session) => session.apply_held(alloc, text, out),
        Kept::Shared(_) => SHARED,
        Kept::Prepared(_) | Kept::Calls(_) | Kept::Lent | Kept::Worker(_) => MISUSE,
    };
    put_back(machine, kept);
    status
}

/// Runs calls on a machine and keeps the replies waiting; `MISUSE` if either is something else.
fn hold_on(machine: &mut Kept, alloc: Global, calls: &Kept) -> u32
    ensures status { (result ≡ DONE) ⊎ (result ≡ TIMESTAMPS) ⊎ (result ≡ WAITING)
        ⊎ (result ≡ STOPPED)
        ⊎ (result ≡ MISUSE) ⊎ (result ≡ SHARED) }
    ensures misuse { (result ≡ MISUSE)
        ↔ ¬ (HasMachine (Some machine.old) × HasCalls (Some calls.now)) }
    ensures shared { (result ≡ SHARED) ↔ AreShared (Some machine.old) (Some calls.now) }
    ensures ran { (result ≡ DONE) ⊎ (result ≡ STOPPED) → OnMachine (Some machine.old) (λ was.
        OnMachine (Some machine.new) (λ now.
        OnCalls (Some calls.now) (λ list. IsRunUntold was now list.calls))) }
    ensures whole { result ≡ DONE → OnMachine (Some machine.new) (λ now.
        OnCalls (Some calls.now) (λ list. length now.waiting ≡ length list.calls.log)) }
    ensures part { result ≡ STOPPED → OnMachine (Some machine.new) (λ now.
        OnCalls (Some calls.now) (λ list. length now.waiting < length list.calls.log)) }
    ensures timestamps { result ≡ TIMESTAMPS → OnMachine (Some machine.old) (λ was.
        OnCalls (Some calls.now) (λ list. IsRefused was.machine list.calls segment_is.Timestamps)) }
    ensures waiting { result ≡ WAITING
        → OnMachine (Some machine.old) (λ was. 0 < length was.waiting) }
    ensures told { result ≡ TIMESTAMPS
        → OnMachine (Some machine.old) (λ was. was.waiting ≡ []) }
    ensures unchanged { result ≢ DONE → result ≢ STOPPED → machine.new ≡ machine.old }
{
    match machine {
        Kept::Machine(session) => match calls {
            Kept::Calls(list) => session.run_calls_held(alloc, list),
            Kept::Lent => SHARED,
            Kept::Machine(_) | Kept::Prepared(_) | Kept::Shared(_) | Kept::Worker(_) => MISUSE,
        },
        Kept::Shared(_) => match calls {
            Kept::Calls(_) | Kept::Lent => SHARED,
            Kept::Machine(_) | Kept::Prepared(_) | Kept::Shared(_) | Kept::Worker(_) => MISUSE,
        },
        Kept::Prepared(_) | Kept::Calls(_) | Kept::Lent | Kept::Worker(_) => MISUSE,
    }
}

/// Runs calls, as `bohm_run_calls` does, and keeps their replies waiting.
#[unsafe(no_mangle)]
pub extern "C" fn bohm_run_calls_held(
    alloc: Global,
    machine: &mut BohmHandle,
    calls: &mut BohmHandle,
) -> u32
    ensures same { calls.new.value ≡ calls.old.value }
    ensures status { (result ≡ DONE) ⊎ (result ≡ TIMESTAMPS) ⊎ (result ≡ WAITING)
        ⊎ (result ≡ STOPPED)
        ⊎ (result ≡ MISUSE) ⊎ (result ≡ SHARED) }
    ensures misuse { (result ≡ MISUSE)
        ↔ ¬ (HasMachine machine.old.value × HasCalls calls.old.value) }
    ensures shared { (result ≡ SHARED) ↔ AreShared machine.old.value calls.old.value }
    ensures ran { (result ≡ DONE) ⊎ (result ≡ STOPPED) → OnMachine machine.old.value (λ was.
        OnMachine machine.new.value (λ now.
        OnCalls calls.old.value (λ list. IsRunUntold was now list.calls))) }
    ensures whole { result ≡ DONE → OnMachine machine.new.value (λ now.
        OnCalls calls.old.value (λ list. length now.waiting ≡ length list.calls.log)) }
    ensures part { result ≡ STOPPED → OnMachine machine.new.value (λ now.
        OnCalls calls.old.value (λ list. length now.waiting < length list.calls.log)) }
    ensures timestamps { result ≡ TIMESTAMPS → OnMachine machine.old.value (λ was.
        OnCalls calls.old.value (λ list. IsRefused was.machine list.calls segment_is.Timestamps)) }
    ensures waiting { result ≡ WAITING
        → OnMachine machine.old.value (λ was. 0 < length was.waiting) }
    ensures told { result ≡ TIMESTAMPS
        → OnMachine machine.old.value (λ was. was.waiting ≡ []) }
    ensures unchanged { result ≢ DONE → result ≢ STOPPED
        → machine.new.value ≡ machine.old.value }
{
    let Some(mut kept) = take_back(alloc, machine) else {
        return MISUSE;
    };
    let status = match take_back(alloc, calls) {
        Some(list) => {
            let status = hold_on(&mut *kept, alloc, &*list);
            put_back(calls, list);
            status
        }
        None => MISUSE,
    };
    put_back(machine, kept);
    status
}

/// Returns the waiting replies as rows, and the values that they show in one array.
#[unsafe(no_mangle)]
pub extern "C" fn bohm_rows<'a>(
    alloc: Global,
    machine: &mut BohmHandle,
    replies: &mut &'a mut [BohmReply],
    values: &mut &'a mut [i64],
) -> u32
    ensures status { (result ≡ DONE) ⊎ (result ≡ NO_MEMORY)
        ⊎ (result ≡ MISUSE) ⊎ (result ≡ SHARED) }
    ensures misuse { (result ≡ MISUSE) ↔ ¬ HasMachine machine.old.value }
    ensures shared { (result ≡ SHARED) ↔ IsShared machine.old.value }
    ensures done { result ≡ DONE → OnMachine machine.old.value (λ was.
        OnMachine machine.new.value (λ now. (now.machine ≡ was.machine) × (now.waiting ≡ [])
        × (now.single ≡ was.single))) }
    ensures replies { result ≡ DONE → OnMachine machine.old.value
        (λ was. replies.new.now ≡ rows_from 0 was.waiting) }
    ensures values { result ≡ DONE → OnMachine machine.old.value
        (λ was. values.new.now ≡ flat_map shows_of was.waiting) }
    ensures unchanged { 0 < result → machine.new.value ≡ machine.old.value }
    ensures untouched { 0 < result → replies.new ≡ replies.old }
    ensures same_values { 0 < result → values.new ≡ values.old }
{
    let Some(mut kept) = take_back(alloc, machine) else {
        return MISUSE;
    };
    let status = match &mut *kept {
        Kept::Machine(session) => session.rows(alloc, replies, values),
        Kept::Shared(_) => SHARED,
        Kept::Prepared(_) | Kept::Calls(_) | Kept::Lent | Kept::Worker(_) => MISUSE,
    };
    put_back(machine, kept);
    status
}
