//! Reads a procedure and reports its faults.

ghost use Rattle.std.specs.Prelude.{◌≡◌, OnOk, IfOk, IfErr};
ghost use Rattle.bohm_procedures.specs.Accepting.{IsAccepted};
ghost use Rattle.bohm_report.specs.Procedures.{RefusesProcedure, procedure_refusal};
ghost use Rattle.bohm_run.specs.Headline.{IsBeforeWriting};
ghost use Rattle.bohm_text.specs.ProcedureText.{IsProcedure, print_procedure};

use bohm_answer::RunFault;
use bohm_check::check_procedure;
use bohm_log::DrawnSeed;
use bohm_procedures::{Procedure, ProcedureFault};
use bohm_text::TextFault;
use std::alloc::Global;

/// The refusal of a procedure's text.
fn refusal_of(fault: ProcedureFault) -> RunFault
    ensures is { result ≡ procedure_refusal fault }
    ensures before { IsBeforeWriting result }
{
    match fault {
        ProcedureFault::Line(n) => RunFault::Text(TextFault::Line(n)),
        ProcedureFault::Short => RunFault::Text(TextFault::Short),
        ProcedureFault::Check(fault) => RunFault::Check(fault),
        ProcedureFault::NoMemory => RunFault::NoMemory,
    }
}

/// The accepted procedure of a text. Messages for people about why it isn't one are added to the
/// report, as long as allocations succeed.
pub fn procedure_reported(
    alloc: Global,
    seed: DrawnSeed,
    text: &[u8],
    report: &mut Vec<u8>,
) -> Result<Procedure, RunFault>
    ensures found { IfOk result (λ p. print_procedure p ≡ text.now) }
    ensures sound { IfOk result IsProcedure }
    ensures accepted { IfOk result IsAccepted }
    ensures silent { OnOk result (report.new ≡ report.old) }
    ensures err { IfErr result (RefusesProcedure text.now) }
    ensures before { IfErr result IsBeforeWriting }
{
    match check_procedure(alloc, seed, text, report) {
        Ok(procedure) => Ok(procedure),
        Err(fault) => Err(refusal_of(fault)),
    }
}
