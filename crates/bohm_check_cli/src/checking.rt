//! A check of a log or of a procedure, from bytes to bytes.

ghost use Rattle.std.specs.Prelude.{◌≡◌, ◌⊎◌, Err, OnOk, IfErr, IfOk, None, ℕ, List, Option};
ghost use Rattle.bohm_answer.specs.Bytes.{ReadsAll};
ghost use Rattle.bohm_check_cli.specs.Checking.{IsGood, IsGoodLog, IsGoodProcedure, IsProcedureText};
ghost use Rattle.bohm_check_cli.specs.Checking.{IsToldOf, ReadsProcedure, RefusesToTell, Tells};
ghost use Rattle.bohm_check_cli.specs.Checking.{TellsFaults};
ghost use Rattle.bohm_report.specs.Procedures.{RefusesLogOrProcedure, RefusesProcedure};
ghost use Rattle.bohm_report.specs.Refusals.{IsReported};
ghost use Rattle.bohm_report.specs.Refused.{RunRefuses};
ghost use Rattle.bohm_run.specs.Headline.{IsBeforeWriting};
ghost use Rattle.bohm_txn.specs.declared.fault.CheckFault.{CheckFault};

use bohm_answer::{RunFault, read_all, write_all};
use bohm_check::{ProcedureSummary, Summary, is_procedure, put_notes};
use bohm_log::DrawnSeed;
use bohm_report::{check_reported, procedure_reported};
use std::alloc::Global;
use std::io::{Read, Write};
use std::random::RandomSource;

/// The summary line of a log's text.
fn log_line<T: RandomSource>(
    rt: &T,
    alloc: Global,
    text: &[u8],
    report: &mut Vec<u8>,
) -> Result<Vec<u8>, RunFault>
    ensures good { IfOk result (λ line. IsGoodLog text.now line.items) }
    ensures silent { OnOk result (report.new ≡ report.old) }
    ensures err { IfErr result (RunRefuses text.now) }
    ensures reported { (f : CheckFault) → result ≡ Err (RunFault.Check f)
        → IsReported text.now report.old.items report.new.items }
    ensures before { IfErr result IsBeforeWriting }
{
    let checked = check_reported(rt, alloc, text, report)?;
    let summary = Summary::of(alloc, &checked)?;
    Ok(summary.print(alloc)?)
}

/// The summary line of a procedure's text.
fn procedure_line<T: RandomSource>(
    rt: &T,
    alloc: Global,
    text: &[u8],
    report: &mut Vec<u8>,
) -> Result<Vec<u8>, RunFault>
    ensures good { IfOk result (λ line. IsGoodProcedure text.now line.items) }
    ensures err { IfErr result (RefusesProcedure text.now) }
    ensures before { IfErr result IsBeforeWriting }
{
    let seed = DrawnSeed::draw(rt);
    let procedure = procedure_reported(alloc, seed, text, report)?;
    let _ = put_notes(alloc, seed, text, report);
    Ok(ProcedureSummary::of(&procedure, text).print(alloc)?)
}

/// Reads a log or a procedure to the reader's end, and writes only its summary line. It refuses a log
/// as a run does, and a procedure as the library does, and reports a failed write as a run does.
/// Messages for people about why a text is refused are added to the report, and a note on a procedure
/// of edition 1 that may lose a write, as long as allocations succeed.
pub fn check_text<T: RandomSource, R: Read, W: Write>(
    rt: &T,
    alloc: Global,
    reader: &mut R,
    writer: &mut W,
    report: &mut Vec<u8>,
) -> Result<(), RunFault>
    ensures ok { OnOk result
        (Tells (R.remaining reader.old) (R.remaining reader.new) (W.contents writer.old)
        (W.contents writer.new)) }

    // Only a procedure may get a note.
    ensures silent { OnOk result
        (report.new ≡ report.old ⊎ ReadsProcedure (R.remaining reader.old) (R.remaining reader.new)) }
    ensures err { IfErr result
        (RefusesToTell (R.remaining reader.old) (R.remaining reader.new) (W.contents writer.old)
        (W.contents writer.new)) }
    ensures reported { (f : CheckFault) → result ≡ Err (RunFault.Check f)
        → TellsFaults (R.remaining reader.old) (R.remaining reader.new) f report.old.items
        report.new.items }

    // If the fault isn't a failed write, the writer is untouched.
    ensures untouched { IfErr result (λ e. IsBeforeWriting e → writer.new ≡ writer.old) }
{
    let text = read_all(alloc, reader)?;
    let line = answer_line(rt, alloc, text.as_slice(), report)?;
    write_all(writer, line.as_slice())
}

/// The summary line of a log's or a procedure's text.
fn answer_line<T: RandomSource>(
    rt: &T,
    alloc: Global,
    text: &[u8],
    report: &mut Vec<u8>,
) -> Result<Vec<u8>, RunFault>
    ensures good { IfOk result (λ line. IsGood text.now line.items) }
    ensures silent { OnOk result (report.new ≡ report.old ⊎ IsProcedureText text.now) }
    ensures err { IfErr result (λ e. (unread unread' : Option (List ℕ))
        → ReadsAll unread unread' text.now → RefusesLogOrProcedure unread unread' e) }
    ensures reported { (f : CheckFault) → result ≡ Err (RunFault.Check f)
        → IsToldOf text.now f report.old.items report.new.items }
    ensures before { IfErr result IsBeforeWriting }
{
    if is_procedure(text) {
        procedure_line(rt, alloc, text, report)
    } else {
        log_line(rt, alloc, text, report)
    }
}
