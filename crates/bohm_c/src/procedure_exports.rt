//! The C functions that prepare procedures, and those by which procedures explain themselves.

ghost use Rattle.std.specs.Prelude.{◌≡◌, ◌≢◌, ◌<◌, ◌⊎◌, ◌↔◌, None};
ghost use Rattle.bohm_procedures.specs.Statements.{IsStatement, statement_text};
ghost use Rattle.bohm_c.specs.Calling.{IsPrepared, IsProcedureRefusal, IsProcedureReport};
ghost use Rattle.bohm_c.specs.Handles.{IsProcedure, OnProcedure};

use crate::handle::{BohmHandle, put_back, take_back};
use crate::kept::Kept;
use crate::prepared::{prepare, prepare_reported, refuse_procedure, report_procedure, state};
use crate::seeds::draw;
use crate::status::{DONE, MISUSE, NO_MEMORY, REFUSED, UNFIT};
use bohm_procedures::Procedure;
use std::alloc::Global;

/// Stores a procedure in a closed handle, which opens it.
fn keep_procedure(alloc: Global, procedure: &mut BohmHandle, prepared: Procedure) -> u32
    requires { procedure.old.value ≡ None }
    ensures status { (result ≡ DONE) ⊎ (result ≡ NO_MEMORY) }
    ensures done { result ≡ DONE → OnProcedure procedure.new.value (λ kept. kept ≡ prepared) }
    ensures unchanged { 0 < result → procedure.new.value ≡ procedure.old.value }
{
    match Box::new(alloc, Kept::Prepared(prepared)) {
        Ok(kept) => {
            put_back(procedure, kept);
            DONE
        }
        Err(_) => NO_MEMORY,
    }
}

/// Parses a procedure's text, hashing its names with the seed, and opens its handle.
#[unsafe(no_mangle)]
pub extern "C" fn bohm_prepare<'a>(
    alloc: Global,
    procedure: &mut BohmHandle,
    seed: &[u8; 16],
    text: &[u8],
    out: &mut &'a mut [u8],
) -> u32
    ensures status { (result ≡ DONE) ⊎ (result ≡ REFUSED) ⊎ (result ≡ NO_MEMORY)
        ⊎ (result ≡ MISUSE) }
    ensures misuse { (result ≡ MISUSE) ↔ (procedure.old.value ≢ None) }
    ensures done { result ≡ DONE → OnProcedure procedure.new.value (IsPrepared text.now) }
    ensures refused { result ≡ REFUSED → IsProcedureRefusal text.now out.new.now }
    ensures unchanged { 0 < result → procedure.new.value ≡ procedure.old.value }
    ensures untouched { result ≢ REFUSED → out.new ≡ out.old }
{
    if let Some(kept) = take_back(alloc, procedure) {
        put_back(procedure, kept);
        return MISUSE;
    }
    match prepare(alloc, draw(seed), text) {
        Ok(prepared) => keep_procedure(alloc, procedure, prepared),
        Err(fault) => refuse_procedure(alloc, fault, text, out),
    }
}

/// Prepares a procedure as `bohm_prepare` does, and returns a report on one that is refused: the
/// line of `bohm_prepare`, then messages for people, as long as allocations succeed.
#[unsafe(no_mangle)]
pub extern "C" fn bohm_prepare_report<'a>(
    alloc: Global,
    procedure: &mut BohmHandle,
    seed: &[u8; 16],
    text: &[u8],
    out: &mut &'a mut [u8],
) -> u32
    ensures status { (result ≡ DONE) ⊎ (result ≡ REFUSED) ⊎ (result ≡ NO_MEMORY)
        ⊎ (result ≡ MISUSE) }
    ensures misuse { (result ≡ MISUSE) ↔ (procedure.old.value ≢ None) }
    ensures done { result ≡ DONE → OnProcedure procedure.new.value (IsPrepared text.now) }
    ensures refused { result ≡ REFUSED → IsProcedureReport text.now out.new.now }
    ensures unchanged { 0 < result → procedure.new.value ≡ procedure.old.value }
    ensures untouched { result ≢ REFUSED → out.new ≡ out.old }
{
    if let Some(kept) = take_back(alloc, procedure) {
        put_back(procedure, kept);
        return MISUSE;
    }
    let mut messages = Vec::new(alloc);
    match prepare_reported(alloc, draw(seed), text, &mut messages) {
        Ok(prepared) => keep_procedure(alloc, procedure, prepared),
        Err(fault) => report_procedure(alloc, fault, text, messages.as_slice(), out),
    }
}

/// Returns a statement of an open procedure by its number in replies, and the line of the
/// procedure's text where it is.
#[unsafe(no_mangle)]
pub extern "C" fn bohm_statement_text<'a>(
    alloc: Global,
    procedure: &mut BohmHandle,
    number: u32,
    line: &mut usize,
    out: &mut &'a mut [u8],
) -> u32
    ensures same { procedure.new.value ≡ procedure.old.value }
    ensures status { (result ≡ DONE) ⊎ (result ≡ UNFIT) ⊎ (result ≡ NO_MEMORY)
        ⊎ (result ≡ MISUSE) }
    ensures misuse { (result ≡ MISUSE) ↔ ¬ IsProcedure procedure.old.value }
    ensures done { result ≡ DONE → OnProcedure procedure.old.value
        (λ p. IsStatement p number line.new out.new.now) }
    ensures unfit { result ≡ UNFIT → OnProcedure procedure.old.value
        (λ p. statement_text p number ≡ None) }
    ensures untouched { 0 < result → out.new ≡ out.old }
    ensures same_line { 0 < result → line.new ≡ line.old }
{
    let Some(kept) = take_back(alloc, procedure) else {
        return MISUSE;
    };
    let status = match &*kept {
        Kept::Prepared(prepared) => state(alloc, prepared, number, line, out),
        Kept::Machine(_) | Kept::Calls(_) | Kept::Shared(_) | Kept::Lent | Kept::Worker(_) => {
            MISUSE
        }
    };
    put_back(procedure, kept);
    status
}
