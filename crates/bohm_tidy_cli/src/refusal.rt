//! Why a loosely written text is refused, for the caller and for people.

ghost use Rattle.std.specs.Prelude.{◌≡◌, IfErr, OnOk};
ghost use Rattle.bohm_answer.specs.Refusing.{IsBeforeWriting};
ghost use Rattle.bohm_tidy_cli.specs.Tidying.{tidy_refusal};

use bohm_answer::RunFault;
use bohm_check::{
    LooseText, Page, check_loose_procedure, faults, is_procedure, put_double, put_faults,
    put_loose_faults,
};
use bohm_log::DrawnSeed;
use bohm_procedures::ProcedureFault;
use bohm_text::{TextFault, parse_with_seed};
use bohm_tidy::{TidyFault, numbered_lines, settled_procedure};
use bohm_txn::{CheckFault, CheckKind};
use bohm_types::NoMemory;
use std::alloc::Global;

/// The refusal of a text that has no exact one.
pub fn refusal_of(fault: TidyFault) -> RunFault
    ensures is { result ≡ tidy_refusal fault }
    ensures before { IsBeforeWriting result }
{
    match fault {
        TidyFault::Line(line) => RunFault::Text(TextFault::Line(line)),
        TidyFault::Short => RunFault::Text(TextFault::Short),
        TidyFault::Twice(_) => RunFault::Check(CheckFault {
            txn: 0,
            stmt: 0,
            kind: CheckKind::Order,
        }),
        TidyFault::NoMemory => RunFault::NoMemory,
    }
}

/// The messages about lines that have no exact form, or that no procedure has where they are.
fn put_bad_lines(
    alloc: Global,
    seed: DrawnSeed,
    report: &mut Vec<u8>,
    text: &[u8],
) -> Result<(), NoMemory> {
    let numbered = numbered_lines(alloc, text)?;
    let numbers = numbered.numbers.as_slice();
    if let Some(settled) = settled_procedure(alloc, seed, text)? {
        let loose = LooseText {
            text,
            exact: settled.as_slice(),
            numbers,
            is_settled: true,
        };
        return put_loose_faults(alloc, report, loose);
    }
    let loose = LooseText {
        text,
        exact: numbered.exact.as_slice(),
        numbers,
        is_settled: false,
    };
    put_loose_faults(alloc, report, loose)
}

/// The message about a text that has no exact one.
pub fn put_refusal(
    alloc: Global,
    seed: DrawnSeed,
    report: &mut Vec<u8>,
    text: &[u8],
    fault: TidyFault,
) -> Result<(), NoMemory> {
    match fault {
        TidyFault::Line(_) | TidyFault::Short => put_bad_lines(alloc, seed, report, text),
        TidyFault::Twice(double) => put_double(report, text, double.first, double.again),
        TidyFault::NoMemory => Ok(()),
    }
}

/// The faults of the document of an exact text that a loose one was tidied into, told at the lines of
/// that one.
fn check_log(
    alloc: Global,
    seed: DrawnSeed,
    report: &mut Vec<u8>,
    loose: LooseText<'_>,
) -> Result<(), RunFault>
    ensures silent { OnOk result (report.new ≡ report.old) }
    ensures before { IfErr result IsBeforeWriting }
{
    let doc = match parse_with_seed(alloc, seed, loose.exact) {
        Ok(doc) => doc,
        Err(fault) => return Err(RunFault::from(fault)),
    };
    let told = faults(alloc, &doc)?;
    match told.as_slice().first() {
        None => Ok(()),
        Some(first) => {
            let page = Page::of(loose.exact).loosely(loose.text, loose.numbers);
            put_faults(alloc, report, &doc, page, told.as_slice());
            Err(RunFault::Check(first.fault))
        }
    }
}

/// The same of a procedure.
fn check_procedure(
    alloc: Global,
    seed: DrawnSeed,
    report: &mut Vec<u8>,
    loose: LooseText<'_>,
) -> Result<(), RunFault>
    ensures silent { OnOk result (report.new ≡ report.old) }
    ensures before { IfErr result IsBeforeWriting }
{
    match check_loose_procedure(alloc, seed, loose, report) {
        Ok(_) => Ok(()),
        Err(ProcedureFault::Line(line)) => Err(RunFault::Text(TextFault::Line(line))),
        Err(ProcedureFault::Short) => Err(RunFault::Text(TextFault::Short)),
        Err(ProcedureFault::Check(fault)) => Err(RunFault::Check(fault)),
        Err(ProcedureFault::NoMemory) => Err(RunFault::NoMemory),
    }
}

/// Refuses an exact text that a loose one was tidied into if the check does. The faults are told at
/// the lines of the loose text, as long as allocations succeed.
pub fn check_exact(
    alloc: Global,
    seed: DrawnSeed,
    report: &mut Vec<u8>,
    text: &[u8],
    exact: &[u8],
) -> Result<(), RunFault>
    ensures silent { OnOk result (report.new ≡ report.old) }
    ensures before { IfErr result IsBeforeWriting }
{
    let numbered = numbered_lines(alloc, text)?;
    let loose = LooseText {
        text,
        exact,
        numbers: numbered.numbers.as_slice(),
        is_settled: true,
    };
    if is_procedure(exact) {
        check_procedure(alloc, seed, report, loose)
    } else {
        check_log(alloc, seed, report, loose)
    }
}
