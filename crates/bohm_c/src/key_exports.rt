//! The C functions that name keys by handles in calls.

ghost use Rattle.std.specs.Prelude.{◌≡◌, ◌≢◌, ◌<◌, ◌⊎◌, ◌↔◌, length, None, Some};
ghost use Rattle.bohm_types.specs.Name.{key_of};
ghost use Rattle.bohm_procedures.specs.Accepting.{Takes};
ghost use Rattle.bohm_c.specs.Calling.{IsPushed};
ghost use Rattle.bohm_c.specs.Handles.{HasCalls, IsLent, IsProcedure, OnCalls, OnProcedure};
ghost use Rattle.bohm_c.specs.Listed.{Knows, named_by, with_name};

use crate::call_list::PushFault;
use crate::handle::{BohmHandle, put_back, take_back};
use crate::kept::Kept;
use crate::key_fault::KeyFault;
use crate::status::{DONE, MISUSE, NO_KEY, NO_MEMORY, SHARED, UNFIT};
use bohm_types::{Key, NoMemory};
use std::alloc::Global;

/// Makes a handle of a key in a list; `MISUSE` if it is no list.
fn key_handle_on(calls: &mut Kept, name: &[u8], handle: &mut u32) -> u32
    ensures status { (result ≡ DONE) ⊎ (result ≡ NO_MEMORY) ⊎ (result ≡ NO_KEY)
        ⊎ (result ≡ MISUSE) ⊎ (result ≡ SHARED) }
    ensures misuse { (result ≡ MISUSE) ↔ ¬ HasCalls (Some calls.old) }
    ensures shared { (result ≡ SHARED) ↔ IsLent (Some calls.old) }
    ensures done { result ≡ DONE → OnCalls (Some calls.old) (λ was.
        OnCalls (Some calls.new) (λ now. now ≡ with_name was name.now)) }
    ensures handle { result ≡ DONE → OnCalls (Some calls.old)
        (λ was. handle.new ≡ length was.names) }
    ensures key { result ≡ DONE → key_of name.now ≡ Some name.now }
    ensures no_key { result ≡ NO_KEY → key_of name.now ≡ None }
    ensures unchanged { 0 < result → calls.new ≡ calls.old }
    ensures untouched { 0 < result → handle.new ≡ handle.old }
{
    match calls {
        Kept::Calls(list) => {
            let Some(key) = Key::new(name) else {
                return NO_KEY;
            };
            match list.handle(&key) {
                Ok(number) => {
                    *handle = number;
                    DONE
                }
                Err(NoMemory) => NO_MEMORY,
            }
        }
        Kept::Lent => SHARED,
        Kept::Machine(_) | Kept::Prepared(_) | Kept::Shared(_) | Kept::Worker(_) => MISUSE,
    }
}

/// Makes a handle of a key in an open list, by which `bohm_push_named` names the key. Its number is
/// the count of the handles made before, and it stays valid when the calls are cleared.
#[unsafe(no_mangle)]
pub extern "C" fn bohm_key_handle(
    alloc: Global,
    calls: &mut BohmHandle,
    name: &[u8],
    handle: &mut u32,
) -> u32
    ensures status { (result ≡ DONE) ⊎ (result ≡ NO_MEMORY) ⊎ (result ≡ NO_KEY)
        ⊎ (result ≡ MISUSE) ⊎ (result ≡ SHARED) }
    ensures misuse { (result ≡ MISUSE) ↔ ¬ HasCalls calls.old.value }
    ensures shared { (result ≡ SHARED) ↔ IsLent calls.old.value }
    ensures done { result ≡ DONE → OnCalls calls.old.value (λ was.
        OnCalls calls.new.value (λ now. now ≡ with_name was name.now)) }
    ensures handle { result ≡ DONE → OnCalls calls.old.value
        (λ was. handle.new ≡ length was.names) }
    ensures key { result ≡ DONE → key_of name.now ≡ Some name.now }
    ensures no_key { result ≡ NO_KEY → key_of name.now ≡ None }
    ensures unchanged { 0 < result → calls.new.value ≡ calls.old.value }
    ensures untouched { 0 < result → handle.new ≡ handle.old }
{
    let Some(mut kept) = take_back(alloc, calls) else {
        return MISUSE;
    };
    let status = key_handle_on(&mut *kept, name, handle);
    put_back(calls, kept);
    status
}

/// Adds the call of a procedure to a list; `MISUSE` if either is something else, or a handle isn't
/// the list's.
fn push_named_on(calls: &mut Kept, procedure: &Kept, handles: &[u32], values: &[i64]) -> u32
    ensures status { (result ≡ DONE) ⊎ (result ≡ NO_MEMORY) ⊎ (result ≡ UNFIT)
        ⊎ (result ≡ MISUSE) ⊎ (result ≡ SHARED) }
    ensures misuse { (result ≡ MISUSE) ↔ ¬ ((IsLent (Some calls.old)
        ⊎ OnCalls (Some calls.old) (λ was. Knows was handles.now))
        × IsProcedure (Some procedure.now)) }
    ensures shared { (result ≡ SHARED)
        ↔ (IsLent (Some calls.old) × IsProcedure (Some procedure.now)) }
    ensures done { result ≡ DONE → OnProcedure (Some procedure.now) (λ p.
        OnCalls (Some calls.old) (λ was.
        OnCalls (Some calls.new) (λ now.
        IsPushed p (named_by was handles.now) values.now was now))) }
    ensures unfit { result ≡ UNFIT → OnProcedure (Some procedure.now) (λ p.
        OnCalls (Some calls.old) (λ was.
        ¬ Takes was.calls p (named_by was handles.now) values.now)) }
    ensures unchanged { 0 < result → calls.new ≡ calls.old }
{
    let Kept::Prepared(procedure) = procedure else {
        return MISUSE;
    };
    match calls {
        Kept::Calls(list) => {
            if !list.knows(handles) {
                return MISUSE;
            }
            match list.push_named(procedure, handles, values) {
                Ok(()) => DONE,
                Err(PushFault::Unfit) => UNFIT,
                Err(PushFault::Key(KeyFault::NoMemory)) => NO_MEMORY,
                Err(PushFault::Key(KeyFault::NoKey)) => unreachable!(),
            }
        }
        Kept::Lent => SHARED,
        Kept::Machine(_) | Kept::Prepared(_) | Kept::Shared(_) | Kept::Worker(_) => MISUSE,
    }
}

/// Adds a call of the procedure with these arguments, whose keys are given by handles of the list.
#[unsafe(no_mangle)]
pub extern "C" fn bohm_push_named(
    alloc: Global,
    calls: &mut BohmHandle,
    procedure: &mut BohmHandle,
    handles: &[u32],
    values: &[i64],
) -> u32
    ensures same { procedure.new.value ≡ procedure.old.value }
    ensures status { (result ≡ DONE) ⊎ (result ≡ NO_MEMORY) ⊎ (result ≡ UNFIT)
        ⊎ (result ≡ MISUSE) ⊎ (result ≡ SHARED) }
    ensures misuse { (result ≡ MISUSE) ↔ ¬ ((IsLent calls.old.value
        ⊎ OnCalls calls.old.value (λ was. Knows was handles.now))
        × IsProcedure procedure.old.value) }
    ensures shared { (result ≡ SHARED)
        ↔ (IsLent calls.old.value × IsProcedure procedure.old.value) }
    ensures done { result ≡ DONE → OnProcedure procedure.old.value (λ p.
        OnCalls calls.old.value (λ was.
        OnCalls calls.new.value (λ now.
        IsPushed p (named_by was handles.now) values.now was now))) }
    ensures unfit { result ≡ UNFIT → OnProcedure procedure.old.value (λ p.
        OnCalls calls.old.value (λ was.
        ¬ Takes was.calls p (named_by was handles.now) values.now)) }
    ensures unchanged { 0 < result → calls.new.value ≡ calls.old.value }
{
    let Some(mut list) = take_back(alloc, calls) else {
        return MISUSE;
    };
    let status = match take_back(alloc, procedure) {
        Some(prepared) => {
            let status = push_named_on(&mut *list, &*prepared, handles, values);
            put_back(procedure, prepared);
            status
        }
        None => MISUSE,
    };
    put_back(calls, list);
    status
}
