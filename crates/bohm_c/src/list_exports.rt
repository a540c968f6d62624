//! The C functions that open, print and clear lists of calls.

ghost use Rattle.std.specs.Prelude.{◌≡◌, ◌≢◌, ◌<◌, ◌⊎◌, ◌↔◌, IfSome, IfNone, None, Some};
ghost use Rattle.bohm_text.specs.Print.{print_doc};
ghost use Rattle.bohm_procedures.specs.Accepting.{TakesCounts};
ghost use Rattle.bohm_c.specs.Handles.{HasCalls, HasMachine, IsLent, IsProcedure, IsShared};
ghost use Rattle.bohm_c.specs.Handles.{OnCalls, OnProcedure};
ghost use Rattle.bohm_c.specs.Listed.{IsNew, cleared, edition_number};

use crate::call_list::CallList;
use crate::handle::{BohmHandle, put_back, take_back};
use crate::kept::Kept;
use crate::seeds::draw;
use crate::session::Session;
use crate::status::{DONE, MISUSE, NO_MEMORY, SHARED, UNFIT};
use bohm_types::Edition;
use std::alloc::Global;

/// The edition with a number.
fn edition_numbered(number: u32) -> Option<Edition>
    ensures some { IfSome result (λ e. edition_number e ≡ number) }
    ensures none { IfNone result ((number ≢ 1) × (number ≢ 2)) }
{
    match number {
        1 => Some(Edition::One),
        2 => Some(Edition::Two),
        _ => None,
    }
}

/// Stores a list in a closed handle, which opens it.
fn keep_list(alloc: Global, calls: &mut BohmHandle, list: CallList) -> u32
    requires { calls.old.value ≡ None }
    ensures status { (result ≡ DONE) ⊎ (result ≡ NO_MEMORY) }
    ensures done { result ≡ DONE → OnCalls calls.new.value (λ kept. kept ≡ list) }
    ensures unchanged { 0 < result → calls.new.value ≡ calls.old.value }
{
    match Box::new(alloc, Kept::Calls(list)) {
        Ok(kept) => {
            put_back(calls, kept);
            DONE
        }
        Err(_) => NO_MEMORY,
    }
}

/// Opens an empty list for calls of procedures of edition 1 or 2. Keys are hashed with the seed.
#[unsafe(no_mangle)]
pub extern "C" fn bohm_open_calls(
    alloc: Global,
    calls: &mut BohmHandle,
    seed: &[u8; 16],
    edition: u32,
) -> u32
    ensures status { (result ≡ DONE) ⊎ (result ≡ UNFIT) ⊎ (result ≡ NO_MEMORY)
        ⊎ (result ≡ MISUSE) }
    ensures misuse { (result ≡ MISUSE) ↔ (calls.old.value ≢ None) }
    ensures done { result ≡ DONE → OnCalls calls.new.value (IsNew edition) }
    ensures unfit { result ≡ UNFIT → (edition ≢ 1) × (edition ≢ 2) }
    ensures unchanged { 0 < result → calls.new.value ≡ calls.old.value }
{
    if let Some(kept) = take_back(alloc, calls) {
        put_back(calls, kept);
        return MISUSE;
    }
    let Some(edition) = edition_numbered(edition) else {
        return UNFIT;
    };
    keep_list(alloc, calls, CallList::new(alloc, draw(seed), edition))
}

/// Opens an empty list, in a closed handle, that shares the names of a session's machine.
fn open_list_of(alloc: Global, session: &Session, calls: &mut BohmHandle, edition: u32) -> u32
    requires { calls.old.value ≡ None }
    ensures status { (result ≡ DONE) ⊎ (result ≡ UNFIT) ⊎ (result ≡ NO_MEMORY) }
    ensures done { result ≡ DONE → OnCalls calls.new.value (IsNew edition) }
    ensures unfit { result ≡ UNFIT → (edition ≢ 1) × (edition ≢ 2) }
    ensures unchanged { 0 < result → calls.new.value ≡ calls.old.value }
{
    let Some(edition) = edition_numbered(edition) else {
        return UNFIT;
    };
    match CallList::of(alloc, &session.machine, edition) {
        Ok(list) => keep_list(alloc, calls, list),
        Err(_) => NO_MEMORY,
    }
}

/// Opens an empty list for calls of procedures of edition 1 or 2, which shares the names of the
/// keys that a machine's store had when it was opened. The list runs on any machine, even after
/// this one is closed.
#[unsafe(no_mangle)]
pub extern "C" fn bohm_open_calls_for(
    alloc: Global,
    machine: &mut BohmHandle,
    calls: &mut BohmHandle,
    edition: u32,
) -> u32
    ensures same { machine.new.value ≡ machine.old.value }
    ensures status { (result ≡ DONE) ⊎ (result ≡ UNFIT) ⊎ (result ≡ NO_MEMORY)
        ⊎ (result ≡ MISUSE) ⊎ (result ≡ SHARED) }
    ensures misuse { (result ≡ MISUSE)
        ↔ ¬ (HasMachine machine.old.value × (calls.old.value ≡ None)) }
    ensures shared { (result ≡ SHARED) ↔ (IsShared machine.old.value × (calls.old.value ≡ None)) }
    ensures done { result ≡ DONE → OnCalls calls.new.value (IsNew edition) }
    ensures unfit { result ≡ UNFIT → (edition ≢ 1) × (edition ≢ 2) }
    ensures unchanged { 0 < result → calls.new.value ≡ calls.old.value }
{
    if let Some(kept) = take_back(alloc, calls) {
        put_back(calls, kept);
        return MISUSE;
    }
    let Some(kept) = take_back(alloc, machine) else {
        return MISUSE;
    };
    let status = match &*kept {
        Kept::Machine(session) => open_list_of(alloc, session, calls, edition),
        Kept::Shared(_) => SHARED,
        Kept::Prepared(_) | Kept::Calls(_) | Kept::Lent | Kept::Worker(_) => MISUSE,
    };
    put_back(machine, kept);
    status
}

/// Returns the text of the log of an open list's calls.
#[unsafe(no_mangle)]
pub extern "C" fn bohm_calls_text<'a>(
    alloc: Global,
    calls: &mut BohmHandle,
    out: &mut &'a mut [u8],
) -> u32
    ensures same { calls.new.value ≡ calls.old.value }
    ensures status { (result ≡ DONE) ⊎ (result ≡ NO_MEMORY)
        ⊎ (result ≡ MISUSE) ⊎ (result ≡ SHARED) }
    ensures misuse { (result ≡ MISUSE) ↔ ¬ HasCalls calls.old.value }
    ensures shared { (result ≡ SHARED) ↔ IsLent calls.old.value }
    ensures done { result ≡ DONE
        → OnCalls calls.old.value (λ list. out.new.now ≡ print_doc list.calls) }
    ensures untouched { 0 < result → out.new ≡ out.old }
{
    let Some(kept) = take_back(alloc, calls) else {
        return MISUSE;
    };
    let status = match &*kept {
        Kept::Calls(list) => match list.text(alloc) {
            Ok(text) => {
                *out = text.hand_over(alloc);
                DONE
            }
            Err(_) => NO_MEMORY,
        },
        Kept::Lent => SHARED,
        Kept::Machine(_) | Kept::Prepared(_) | Kept::Shared(_) | Kept::Worker(_) => MISUSE,
    };
    put_back(calls, kept);
    status
}

/// Whether a list takes a call with this many arguments of each kind: `DONE`, or the status that
/// tells why not.
fn takes_on(calls: &Kept, procedure: &Kept, keys: usize, values: usize) -> u32
    ensures status { (result ≡ DONE) ⊎ (result ≡ UNFIT) ⊎ (result ≡ MISUSE) ⊎ (result ≡ SHARED) }
    ensures misuse { (result ≡ MISUSE)
        ↔ ¬ (HasCalls (Some calls.now) × IsProcedure (Some procedure.now)) }
    ensures shared { (result ≡ SHARED)
        ↔ (IsLent (Some calls.now) × IsProcedure (Some procedure.now)) }
    ensures unfit { result ≡ UNFIT → OnProcedure (Some procedure.now) (λ p.
        OnCalls (Some calls.now) (λ was. ¬ TakesCounts was.calls p keys values)) }
    ensures done { result ≡ DONE → OnProcedure (Some procedure.now) (λ p.
        OnCalls (Some calls.now) (λ was. TakesCounts was.calls p keys values)) }
{
    let Kept::Prepared(procedure) = procedure else {
        return MISUSE;
    };
    match calls {
        Kept::Calls(list) => {
            if list.takes(procedure, keys, values) {
                DONE
            } else {
                UNFIT
            }
        }
        Kept::Lent => SHARED,
        Kept::Machine(_) | Kept::Prepared(_) | Kept::Shared(_) | Kept::Worker(_) => MISUSE,
    }
}

/// Whether a list takes a call with this many arguments of each kind, before its keys are read.
#[unsafe(no_mangle)]
pub extern "C" fn bohm_takes(
    alloc: Global,
    calls: &mut BohmHandle,
    procedure: &mut BohmHandle,
    keys: usize,
    values: usize,
) -> u32
    ensures same { calls.new.value ≡ calls.old.value }
    ensures same_procedure { procedure.new.value ≡ procedure.old.value }
    ensures status { (result ≡ DONE) ⊎ (result ≡ UNFIT) ⊎ (result ≡ MISUSE) ⊎ (result ≡ SHARED) }
    ensures misuse { (result ≡ MISUSE)
        ↔ ¬ (HasCalls calls.old.value × IsProcedure procedure.old.value) }
    ensures shared { (result ≡ SHARED)
        ↔ (IsLent calls.old.value × IsProcedure procedure.old.value) }
    ensures unfit { result ≡ UNFIT → OnProcedure procedure.old.value (λ p.
        OnCalls calls.old.value (λ was. ¬ TakesCounts was.calls p keys values)) }
    ensures done { result ≡ DONE → OnProcedure procedure.old.value (λ p.
        OnCalls calls.old.value (λ was. TakesCounts was.calls p keys values)) }
{
    let Some(list) = take_back(alloc, calls) else {
        return MISUSE;
    };
    let status = match take_back(alloc, procedure) {
        Some(prepared) => {
            let status = takes_on(&*list, &*prepared, keys, values);
            put_back(procedure, prepared);
            status
        }
        None => MISUSE,
    };
    put_back(calls, list);
    status
}

/// Removes all calls of an open list. Its handles of keys stay valid.
#[unsafe(no_mangle)]
pub extern "C" fn bohm_clear_calls(alloc: Global, calls: &mut BohmHandle) -> u32
    ensures status { (result ≡ DONE) ⊎ (result ≡ MISUSE) ⊎ (result ≡ SHARED) }
    ensures misuse { (result ≡ MISUSE) ↔ ¬ HasCalls calls.old.value }
    ensures shared { (result ≡ SHARED) ↔ IsLent calls.old.value }
    ensures done { result ≡ DONE → OnCalls calls.old.value (λ was.
        OnCalls calls.new.value (λ now. now ≡ cleared was)) }
    ensures unchanged { 0 < result → calls.new.value ≡ calls.old.value }
{
    let Some(mut kept) = take_back(alloc, calls) else {
        return MISUSE;
    };
    let status = match &mut *kept {
        Kept::Calls(list) => {
            list.clear();
            DONE
        }
        Kept::Lent => SHARED,
        Kept::Machine(_) | Kept::Prepared(_) | Kept::Shared(_) | Kept::Worker(_) => MISUSE,
    };
    put_back(calls, kept);
    status
}
