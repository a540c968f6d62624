//! The C functions that run single calls on a machine.

ghost use Rattle.std.specs.Prelude.{◌≡◌, ◌≢◌, ◌<◌, ◌⊎◌, ◌↔◌, [], ◌∷◌, ◌++◌, length, map, None, Some};
ghost use Rattle.std.specs.List.{Any};
ghost use Rattle.bohm_types.specs.Name.{key_of};
ghost use Rattle.bohm_log.specs.Columns.{AllNamed};
ghost use Rattle.bohm_log.specs.Parts.{names_at};
ghost use Rattle.bohm_c.specs.Calling.{Fits, HasNoTime};
ghost use Rattle.bohm_c.specs.Handles.{HasMachine, IsProcedure, IsShared, OnMachine, OnProcedure};
ghost use Rattle.bohm_c.specs.Singles.{IsCallDone, IsCallKept, IsNamed, IsStill};

use crate::calling::fits;
use crate::handle::{BohmHandle, put_back, take_back};
use crate::kept::Kept;
use crate::rows::BohmReply;
use crate::status::{DONE, KEPT, MISUSE, NO_KEY, NO_MEMORY, SHARED, TIMESTAMPS, UNFIT, WAITING};
use std::alloc::Global;

/// Whether a call with this many arguments of each kind can run next: `DONE`, or the status that
/// tells why not.
fn fits_on(machine: &Kept, procedure: &Kept, keys: usize, values: usize) -> u32
    ensures status { (result ≡ DONE) ⊎ (result ≡ WAITING) ⊎ (result ≡ UNFIT)
        ⊎ (result ≡ MISUSE) ⊎ (result ≡ SHARED) }
    ensures misuse { (result ≡ MISUSE)
        ↔ ¬ (HasMachine (Some machine.now) × IsProcedure (Some procedure.now)) }
    ensures shared { (result ≡ SHARED)
        ↔ (IsShared (Some machine.now) × IsProcedure (Some procedure.now)) }
    ensures waiting { result ≡ WAITING
        → OnMachine (Some machine.now) (λ was. 0 < length was.waiting) }
    ensures told { (result ≡ DONE) ⊎ (result ≡ UNFIT)
        → OnMachine (Some machine.now) (λ was. was.waiting ≡ []) }
    ensures unfit { result ≡ UNFIT → OnProcedure (Some procedure.now) (λ p. ¬ Fits p keys values) }
    ensures fits { result ≡ DONE → OnProcedure (Some procedure.now) (λ p. Fits p keys values) }
{
    let Kept::Prepared(procedure) = procedure else {
        return MISUSE;
    };
    match machine {
        Kept::Machine(session) => {
            if !session.waiting.is_empty() {
                return WAITING;
            }
            if fits(procedure, keys, values) {
                DONE
            } else {
                UNFIT
            }
        }
        Kept::Shared(_) => SHARED,
        Kept::Prepared(_) | Kept::Calls(_) | Kept::Lent | Kept::Worker(_) => MISUSE,
    }
}

/// Whether a call with this many arguments of each kind can run next, before its keys are read.
#[unsafe(no_mangle)]
pub extern "C" fn bohm_fits(
    alloc: Global,
    machine: &mut BohmHandle,
    procedure: &mut BohmHandle,
    keys: usize,
    values: usize,
) -> u32
    ensures same { machine.new.value ≡ machine.old.value }
    ensures same_procedure { procedure.new.value ≡ procedure.old.value }
    ensures status { (result ≡ DONE) ⊎ (result ≡ WAITING) ⊎ (result ≡ UNFIT)
        ⊎ (result ≡ MISUSE) ⊎ (result ≡ SHARED) }
    ensures misuse { (result ≡ MISUSE)
        ↔ ¬ (HasMachine machine.old.value × IsProcedure procedure.old.value) }
    ensures shared { (result ≡ SHARED)
        ↔ (IsShared machine.old.value × IsProcedure procedure.old.value) }
    ensures waiting { result ≡ WAITING
        → OnMachine machine.old.value (λ was. 0 < length was.waiting) }
    ensures told { (result ≡ DONE) ⊎ (result ≡ UNFIT)
        → OnMachine machine.old.value (λ was. was.waiting ≡ []) }
    ensures unfit { result ≡ UNFIT → OnProcedure procedure.old.value (λ p. ¬ Fits p keys values) }
    ensures fits { result ≡ DONE → OnProcedure procedure.old.value (λ p. Fits p keys values) }
{
    let Some(kept) = take_back(alloc, machine) else {
        return MISUSE;
    };
    let status = match take_back(alloc, procedure) {
        Some(prepared) => {
            let status = fits_on(&*kept, &*prepared, keys, values);
            put_back(procedure, prepared);
            status
        }
        None => MISUSE,
    };
    put_back(machine, kept);
    status
}

/// Runs the call of a procedure on a machine; `MISUSE` if either is something else.
fn call_on(
    machine: &mut Kept,
    procedure: &Kept,
    keys: &[&[u8]],
    values: &[i64],
    row: &mut BohmReply,
    shown: &mut [i64],
) -> u32
    ensures status { (result ≡ DONE) ⊎ (result ≡ KEPT) ⊎ (result ≡ WAITING) ⊎ (result ≡ UNFIT)
        ⊎ (result ≡ NO_KEY) ⊎ (result ≡ TIMESTAMPS) ⊎ (result ≡ NO_MEMORY)
        ⊎ (result ≡ MISUSE) ⊎ (result ≡ SHARED) }
    ensures misuse { (result ≡ MISUSE)
        ↔ ¬ (HasMachine (Some machine.old) × IsProcedure (Some procedure.now)) }
    ensures shared { (result ≡ SHARED)
        ↔ (IsShared (Some machine.old) × IsProcedure (Some procedure.now)) }
    ensures done { result ≡ DONE → OnProcedure (Some procedure.now) (λ p.
        OnMachine (Some machine.old) (λ was. OnMachine (Some machine.new) (λ now.
        IsCallDone was now p (map (λ k. k.now) keys.now) values.now row.new shown.old shown.new))) }
    ensures kept { result ≡ KEPT → OnProcedure (Some procedure.now) (λ p.
        OnMachine (Some machine.old) (λ was. OnMachine (Some machine.new) (λ now.
        IsCallKept was now p (map (λ k. k.now) keys.now) values.now (length shown.old)))) }
    ensures waiting { result ≡ WAITING
        → OnMachine (Some machine.old) (λ was. 0 < length was.waiting) }
    ensures told { result ≢ WAITING → result ≢ MISUSE → result ≢ SHARED
        → OnMachine (Some machine.old) (λ was. was.waiting ≡ []) }
    ensures unfit { result ≡ UNFIT → OnProcedure (Some procedure.now)
        (λ p. ¬ Fits p (length keys.now) (length values.now)) }
    ensures fits { (result ≡ NO_KEY) ⊎ (result ≡ TIMESTAMPS) → OnProcedure (Some procedure.now)
        (λ p. Fits p (length keys.now) (length values.now)) }
    ensures no_key { result ≡ NO_KEY → Any (λ k. key_of k.now ≡ None) keys.now }
    ensures timestamps { result ≡ TIMESTAMPS
        → OnMachine (Some machine.old) (λ was. HasNoTime was.machine) }
    ensures still { result ≡ NO_MEMORY → OnMachine (Some machine.old) (λ was.
        OnMachine (Some machine.new) (λ now. IsStill was now)) }
    ensures unchanged { result ≢ DONE → result ≢ KEPT → result ≢ NO_MEMORY
        → machine.new ≡ machine.old }
    ensures untouched { 0 < result → row.new ≡ row.old }
    ensures same_shown { 0 < result → shown.new ≡ shown.old }
{
    let Kept::Prepared(procedure) = procedure else {
        return MISUSE;
    };
    match machine {
        Kept::Machine(session) => session.call(procedure, keys, values, row, shown),
        Kept::Shared(_) => SHARED,
        Kept::Prepared(_) | Kept::Calls(_) | Kept::Lent | Kept::Worker(_) => MISUSE,
    }
}

/// Runs the call of a procedure with these arguments, as a segment of its own, and returns its
/// reply: a row, and the shown values at the front of an array.
#[unsafe(no_mangle)]
pub extern "C" fn bohm_call(
    alloc: Global,
    machine: &mut BohmHandle,
    procedure: &mut BohmHandle,
    keys: &[&[u8]],
    values: &[i64],
    row: &mut BohmReply,
    shown: &mut [i64],
) -> u32
    ensures same { procedure.new.value ≡ procedure.old.value }
    ensures status { (result ≡ DONE) ⊎ (result ≡ KEPT) ⊎ (result ≡ WAITING) ⊎ (result ≡ UNFIT)
        ⊎ (result ≡ NO_KEY) ⊎ (result ≡ TIMESTAMPS) ⊎ (result ≡ NO_MEMORY)
        ⊎ (result ≡ MISUSE) ⊎ (result ≡ SHARED) }
    ensures misuse { (result ≡ MISUSE)
        ↔ ¬ (HasMachine machine.old.value × IsProcedure procedure.old.value) }
    ensures shared { (result ≡ SHARED)
        ↔ (IsShared machine.old.value × IsProcedure procedure.old.value) }
    ensures done { result ≡ DONE → OnProcedure procedure.old.value (λ p.
        OnMachine machine.old.value (λ was. OnMachine machine.new.value (λ now.
        IsCallDone was now p (map (λ k. k.now) keys.now) values.now row.new shown.old shown.new))) }
    ensures kept { result ≡ KEPT → OnProcedure procedure.old.value (λ p.
        OnMachine machine.old.value (λ was. OnMachine machine.new.value (λ now.
        IsCallKept was now p (map (λ k. k.now) keys.now) values.now (length shown.old)))) }
    ensures waiting { result ≡ WAITING
        → OnMachine machine.old.value (λ was. 0 < length was.waiting) }
    ensures told { result ≢ WAITING → result ≢ MISUSE → result ≢ SHARED
        → OnMachine machine.old.value (λ was. was.waiting ≡ []) }
    ensures unfit { result ≡ UNFIT → OnProcedure procedure.old.value
        (λ p. ¬ Fits p (length keys.now) (length values.now)) }
    ensures fits { (result ≡ NO_KEY) ⊎ (result ≡ TIMESTAMPS) → OnProcedure procedure.old.value
        (λ p. Fits p (length keys.now) (length values.now)) }
    ensures no_key { result ≡ NO_KEY → Any (λ k. key_of k.now ≡ None) keys.now }
    ensures timestamps { result ≡ TIMESTAMPS
        → OnMachine machine.old.value (λ was. HasNoTime was.machine) }
    ensures still { result ≡ NO_MEMORY → OnMachine machine.old.value (λ was.
        OnMachine machine.new.value (λ now. IsStill was now)) }
    ensures unchanged { result ≢ DONE → result ≢ KEPT → result ≢ NO_MEMORY
        → machine.new.value ≡ machine.old.value }
    ensures untouched { 0 < result → row.new ≡ row.old }
    ensures same_shown { 0 < result → shown.new ≡ shown.old }
{
    let Some(mut kept) = take_back(alloc, machine) else {
        return MISUSE;
    };
    let status = match take_back(alloc, procedure) {
        Some(prepared) => {
            let status = call_on(&mut *kept, &*prepared, keys, values, row, shown);
            put_back(procedure, prepared);
            status
        }
        None => MISUSE,
    };
    put_back(machine, kept);
    status
}

/// Runs the call with keys given by handles of the machine; `MISUSE` also if one isn't.
fn call_named_on(
    machine: &mut Kept,
    procedure: &Kept,
    handles: &[u32],
    values: &[i64],
    row: &mut BohmReply,
    shown: &mut [i64],
) -> u32
    ensures status { (result ≡ DONE) ⊎ (result ≡ KEPT) ⊎ (result ≡ WAITING) ⊎ (result ≡ UNFIT)
        ⊎ (result ≡ TIMESTAMPS) ⊎ (result ≡ NO_MEMORY) ⊎ (result ≡ MISUSE) ⊎ (result ≡ SHARED) }
    ensures misuse { (result ≡ MISUSE) ↔ ¬ ((IsShared (Some machine.old)
        ⊎ OnMachine (Some machine.old) (λ was. AllNamed was.single handles.now))
        × IsProcedure (Some procedure.now)) }
    ensures shared { (result ≡ SHARED)
        ↔ (IsShared (Some machine.old) × IsProcedure (Some procedure.now)) }
    ensures done { result ≡ DONE → OnProcedure (Some procedure.now) (λ p.
        OnMachine (Some machine.old) (λ was. OnMachine (Some machine.new) (λ now. IsCallDone was now
        p (names_at was.single handles.now) values.now row.new shown.old shown.new))) }
    ensures kept { result ≡ KEPT → OnProcedure (Some procedure.now) (λ p.
        OnMachine (Some machine.old) (λ was. OnMachine (Some machine.new) (λ now.
        IsCallKept was now p (names_at was.single handles.now) values.now (length shown.old)))) }
    ensures waiting { result ≡ WAITING
        → OnMachine (Some machine.old) (λ was. 0 < length was.waiting) }
    ensures told { result ≢ WAITING → result ≢ MISUSE → result ≢ SHARED
        → OnMachine (Some machine.old) (λ was. was.waiting ≡ []) }
    ensures unfit { result ≡ UNFIT → OnProcedure (Some procedure.now)
        (λ p. ¬ Fits p (length handles.now) (length values.now)) }
    ensures fits { result ≡ TIMESTAMPS → OnProcedure (Some procedure.now)
        (λ p. Fits p (length handles.now) (length values.now)) }
    ensures timestamps { result ≡ TIMESTAMPS
        → OnMachine (Some machine.old) (λ was. HasNoTime was.machine) }
    ensures still { result ≡ NO_MEMORY → OnMachine (Some machine.old) (λ was.
        OnMachine (Some machine.new) (λ now. IsStill was now)) }
    ensures unchanged { result ≢ DONE → result ≢ KEPT → result ≢ NO_MEMORY
        → machine.new ≡ machine.old }
    ensures untouched { 0 < result → row.new ≡ row.old }
    ensures same_shown { 0 < result → shown.new ≡ shown.old }
{
    let Kept::Prepared(procedure) = procedure else {
        return MISUSE;
    };
    match machine {
        Kept::Machine(session) => {
            if !session.single.knows(handles) {
                return MISUSE;
            }
            session.call_named(procedure, handles, values, row, shown)
        }
        Kept::Shared(_) => SHARED,
        Kept::Prepared(_) | Kept::Calls(_) | Kept::Lent | Kept::Worker(_) => MISUSE,
    }
}

/// Runs the call as `bohm_call` does, with its keys given by handles of the machine.
#[unsafe(no_mangle)]
pub extern "C" fn bohm_call_named(
    alloc: Global,
    machine: &mut BohmHandle,
    procedure: &mut BohmHandle,
    handles: &[u32],
    values: &[i64],
    row: &mut BohmReply,
    shown: &mut [i64],
) -> u32
    ensures same { procedure.new.value ≡ procedure.old.value }
    ensures status { (result ≡ DONE) ⊎ (result ≡ KEPT) ⊎ (result ≡ WAITING) ⊎ (result ≡ UNFIT)
        ⊎ (result ≡ TIMESTAMPS) ⊎ (result ≡ NO_MEMORY) ⊎ (result ≡ MISUSE) ⊎ (result ≡ SHARED) }
    ensures misuse { (result ≡ MISUSE) ↔ ¬ ((IsShared machine.old.value
        ⊎ OnMachine machine.old.value (λ was. AllNamed was.single handles.now))
        × IsProcedure procedure.old.value) }
    ensures shared { (result ≡ SHARED)
        ↔ (IsShared machine.old.value × IsProcedure procedure.old.value) }
    ensures done { result ≡ DONE → OnProcedure procedure.old.value (λ p.
        OnMachine machine.old.value (λ was. OnMachine machine.new.value (λ now. IsCallDone was now
        p (names_at was.single handles.now) values.now row.new shown.old shown.new))) }
    ensures kept { result ≡ KEPT → OnProcedure procedure.old.value (λ p.
        OnMachine machine.old.value (λ was. OnMachine machine.new.value (λ now.
        IsCallKept was now p (names_at was.single handles.now) values.now (length shown.old)))) }
    ensures waiting { result ≡ WAITING
        → OnMachine machine.old.value (λ was. 0 < length was.waiting) }
    ensures told { result ≢ WAITING → result ≢ MISUSE → result ≢ SHARED
        → OnMachine machine.old.value (λ was. was.waiting ≡ []) }
    ensures unfit { result ≡ UNFIT → OnProcedure procedure.old.value
        (λ p. ¬ Fits p (length handles.now) (length values.now)) }
    ensures fits { result ≡ TIMESTAMPS → OnProcedure procedure.old.value
        (λ p. Fits p (length handles.now) (length values.now)) }
    ensures timestamps { result ≡ TIMESTAMPS
        → OnMachine machine.old.value (λ was. HasNoTime was.machine) }
    ensures still { result ≡ NO_MEMORY → OnMachine machine.old.value (λ was.
        OnMachine machine.new.value (λ now. IsStill was now)) }
    ensures unchanged { result ≢ DONE → result ≢ KEPT → result ≢ NO_MEMORY
        → machine.new.value ≡ machine.old.value }
    ensures untouched { 0 < result → row.new ≡ row.old }
    ensures same_shown { 0 < result → shown.new ≡ shown.old }
{
    let Some(mut kept) = take_back(alloc, machine) else {
        return MISUSE;
    };
    let status = match take_back(alloc, procedure) {
        Some(prepared) => {
            let status = call_named_on(&mut *kept, &*prepared, handles, values, row, shown);
            put_back(procedure, prepared);
            status
        }
        None => MISUSE,
    };
    put_back(machine, kept);
    status
}

/// Makes a handle of a key on a machine; `MISUSE` if it is no machine.
fn machine_key_on(machine: &mut Kept, name: &[u8], handle: &mut u32) -> u32
    ensures status { (result ≡ DONE) ⊎ (result ≡ NO_MEMORY) ⊎ (result ≡ NO_KEY)
        ⊎ (result ≡ MISUSE) ⊎ (result ≡ SHARED) }
    ensures misuse { (result ≡ MISUSE) ↔ ¬ HasMachine (Some machine.old) }
    ensures shared { (result ≡ SHARED) ↔ IsShared (Some machine.old) }
    ensures done { result ≡ DONE → OnMachine (Some machine.old) (λ was.
        OnMachine (Some machine.new) (λ now. IsNamed was now name.now handle.new)) }
    ensures no_key { result ≡ NO_KEY → key_of name.now ≡ None }
    ensures unchanged { 0 < result → machine.new ≡ machine.old }
    ensures untouched { 0 < result → handle.new ≡ handle.old }
{
    match machine {
        Kept::Machine(session) => session.name_key(name, handle),
        Kept::Shared(_) => SHARED,
        Kept::Prepared(_) | Kept::Calls(_) | Kept::Lent | Kept::Worker(_) => MISUSE,
    }
}

/// Makes a handle of a key, by which `bohm_call_named` names the key on this machine. Its number is
/// the count of the handles made before.
#[unsafe(no_mangle)]
pub extern "C" fn bohm_machine_key(
    alloc: Global,
    machine: &mut BohmHandle,
    name: &[u8],
    handle: &mut u32,
) -> u32
    ensures status { (result ≡ DONE) ⊎ (result ≡ NO_MEMORY) ⊎ (result ≡ NO_KEY)
        ⊎ (result ≡ MISUSE) ⊎ (result ≡ SHARED) }
    ensures misuse { (result ≡ MISUSE) ↔ ¬ HasMachine machine.old.value }
    ensures shared { (result ≡ SHARED) ↔ IsShared machine.old.value }
    ensures done { result ≡ DONE → OnMachine machine.old.value (λ was.
        OnMachine machine.new.value (λ now. IsNamed was now name.now handle.new)) }
    ensures no_key { result ≡ NO_KEY → key_of name.now ≡ None }
    ensures unchanged { 0 < result → machine.new.value ≡ machine.old.value }
    ensures untouched { 0 < result → handle.new ≡ handle.old }
{
    let Some(mut kept) = take_back(alloc, machine) else {
        return MISUSE;
    };
    let status = machine_key_on(&mut *kept, name, handle);
    put_back(machine, kept);
    status
}
