//! Procedures read from C's texts.

ghost use Rattle.std.specs.Prelude.{◌≡◌, ◌≢◌, ◌<◌, ◌⊎◌, ◌++◌, None, IfOk, IfErr};
ghost use Rattle.bohm_answer.specs.FaultLine.{fault_line};
ghost use Rattle.bohm_procedures.specs.Statements.{IsStatement, statement_text};
ghost use Rattle.bohm_c.specs.Calling.{IsPrepared, IsProcedureRefusal, IsProcedureReport};
ghost use Rattle.bohm_c.specs.Calling.{IsUnprepared, told_as};

use crate::handing::Text;
use crate::session::refuse;
use crate::status::{DONE, NO_MEMORY, REFUSED, UNFIT};
use bohm_answer::{RunFault, print_fault};
use bohm_check::check_procedure;
use bohm_log::DrawnSeed;
use bohm_procedures::{Procedure, ProcedureFault};
use bohm_text::TextFault;
use bohm_types::NoMemory;
use std::alloc::Global;

/// The accepted procedure of a text.
pub fn prepare(alloc: Global, seed: DrawnSeed, text: &[u8]) -> Result<Procedure, ProcedureFault>
    ensures ok { IfOk result (IsPrepared text.now) }
    ensures err { IfErr result (IsUnprepared text.now) }
{
    Procedure::read(alloc, seed, text)
}

/// The accepted procedure of a text. If it is refused, messages for people are added to the
/// report, as long as allocations succeed.
pub fn prepare_reported(
    alloc: Global,
    seed: DrawnSeed,
    text: &[u8],
    report: &mut Vec<u8>,
) -> Result<Procedure, ProcedureFault>
    ensures ok { IfOk result (IsPrepared text.now) }
    ensures err { IfErr result (IsUnprepared text.now) }
{
    check_procedure(alloc, seed, text, report)
}

/// The fault of a log that the same line reports.
fn told_as(fault: ProcedureFault) -> RunFault
    ensures { result ≡ told_as fault }
{
    match fault {
        ProcedureFault::Line(n) => RunFault::Text(TextFault::Line(n)),
        ProcedureFault::Short => RunFault::Text(TextFault::Short),
        ProcedureFault::Check(fault) => RunFault::Check(fault),
        ProcedureFault::NoMemory => RunFault::NoMemory,
    }
}

/// Returns the line that reports a fault of a procedure's text.
pub fn refuse_procedure<'a>(
    alloc: Global,
    fault: ProcedureFault,
    text: &[u8],
    out: &mut &'a mut [u8],
) -> u32
    requires { IsUnprepared text.now fault }
    ensures status { (result ≡ REFUSED) ⊎ (result ≡ NO_MEMORY) }
    ensures refused { result ≡ REFUSED → IsProcedureRefusal text.now out.new.now }
    ensures untouched { result ≢ REFUSED → out.new ≡ out.old }
{
    refuse(alloc, told_as(fault), out)
}

/// The line that reports a fault, and messages after it.
fn report_of(alloc: Global, fault: &RunFault, messages: &[u8]) -> Result<Text, NoMemory>
    ensures { IfOk result (λ report. report ≡ fault_line fault.now ++ messages.now) }
{
    let mut report = print_fault(alloc, fault)?;
    report.extend_from_slice(messages)?;
    Text::new(report)
}

/// Returns the line that reports a fault of a procedure's text, and messages after it.
pub fn report_procedure<'a>(
    alloc: Global,
    fault: ProcedureFault,
    text: &[u8],
    messages: &[u8],
    out: &mut &'a mut [u8],
) -> u32
    requires { IsUnprepared text.now fault }
    ensures status { (result ≡ REFUSED) ⊎ (result ≡ NO_MEMORY) }
    ensures refused { result ≡ REFUSED → IsProcedureReport text.now out.new.now }
    ensures untouched { result ≢ REFUSED → out.new ≡ out.old }
{
    if let ProcedureFault::NoMemory = fault {
        return NO_MEMORY;
    }
    match report_of(alloc, &told_as(fault), messages) {
        Ok(report) => {
            *out = report.hand_over(alloc);
            REFUSED
        }
        Err(_) => NO_MEMORY,
    }
}

/// A text of these bytes.
fn copy_of(alloc: Global, bytes: &[u8]) -> Result<Text, NoMemory>
    ensures { IfOk result (λ text. text ≡ bytes.now) }
{
    Text::new(Vec::from_slice(alloc, bytes)?)
}

/// Returns the statement of a procedure with a number, and writes its line.
pub fn state<'a>(
    alloc: Global,
    procedure: &Procedure,
    number: u32,
    line: &mut usize,
    out: &mut &'a mut [u8],
) -> u32
    ensures status { (result ≡ DONE) ⊎ (result ≡ UNFIT) ⊎ (result ≡ NO_MEMORY) }
    ensures done { result ≡ DONE → IsStatement procedure.now number line.new out.new.now }
    ensures unfit { result ≡ UNFIT → statement_text procedure.now number ≡ None }
    ensures untouched { 0 < result → out.new ≡ out.old }
    ensures same_line { 0 < result → line.new ≡ line.old }
{
    let Some(statement) = procedure.statement(number) else {
        return UNFIT;
    };
    match copy_of(alloc, statement.text) {
        Ok(text) => {
            *out = text.hand_over(alloc);
            *line = statement.line;
            DONE
        }
        Err(_) => NO_MEMORY,
    }
}
