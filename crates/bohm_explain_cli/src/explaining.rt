//! An explanation of a log or of a procedure, from bytes to bytes.

ghost use Rattle.std.specs.Prelude.{◌≡◌, ℕ, IfErr, IfNone, IfOk, IfSome, List, OnOk, Option};
ghost use Rattle.bohm_answer.specs.Bytes.{ReadsAll};
ghost use Rattle.bohm_answer.specs.Refusing.{IsBeforeWriting};
ghost use Rattle.bohm_explain_cli.specs.Explaining.{Explains, IsEarly, IsLog, IsPrintedFor};
ghost use Rattle.bohm_explain_cli.specs.Explaining.{IsTextFor, LacksText, RefusesText, TellsCosts};
ghost use Rattle.bohm_explain_cli.specs.declared.arguments.Wish.TheVariants.{Figures};
ghost use Rattle.bohm_report.specs.Procedures.{RefusesLogOrProcedure, RefusesProcedure};
ghost use Rattle.bohm_report.specs.Refused.{RunRefuses};

use crate::arguments::Wish;
use crate::fault::ExplainFault;
use bohm_answer::{RunFault, read_all, write_all};
use bohm_check::is_procedure;
use bohm_explain::{Request, answer, print_aborts, print_costs, window_counts};
use bohm_log::DrawnSeed;
use bohm_report::{check_reported, procedure_reported};
use bohm_run::window_size;
use bohm_txn::Checked;
use bohm_types::NoMemory;
use std::alloc::Global;
use std::io::{Read, Write};
use std::random::RandomSource;

/// The text that is wished for about the log of a text, or `None` if it shows the conflicts of a
/// part that the log lacks.
fn text_for<T: RandomSource>(
    rt: &T,
    alloc: Global,
    checked: &Checked,
    text: &[u8],
    wish: Wish,
) -> Result<Option<Vec<u8>>, NoMemory>
    ensures text { IfOk result (λ o. IfSome o (λ text. IsTextFor wish checked.now text.items)) }
    ensures lacking { IfOk result (λ o. IfNone o (LacksText wish checked.now)) }
{
    match wish {
        Wish::Figures(request) => {
            let seed = DrawnSeed::draw(rt);
            let counts = window_counts(alloc, seed, text, window_size(request.settings()))?;
            answer(alloc, seed, &checked.log(), counts.as_slice(), request)
        }
        Wish::Aborts => Ok(Some(print_aborts(alloc, checked)?)),
    }
}

/// The same about the log that is read from a text. Messages for people about why the text isn't a
/// valid log's are added to the report, as long as allocations succeed.
fn explain_log<T: RandomSource>(
    rt: &T,
    alloc: Global,
    text: &[u8],
    wish: Wish,
    report: &mut Vec<u8>,
) -> Result<Option<Vec<u8>>, RunFault>
    ensures printed { IfOk result (λ o. IfSome o
        (λ printed. IsLog (λ document. IsTextFor wish document printed.items) text.now)) }
    ensures lacking { IfOk result (λ o. IfNone o (IsLog (LacksText wish) text.now)) }
    ensures silent { OnOk result (report.new ≡ report.old) }
    ensures err { IfErr result (RunRefuses text.now) }
    ensures before { IfErr result IsBeforeWriting }
{
    let checked = check_reported(rt, alloc, text, report)?;
    Ok(text_for(rt, alloc, &checked, text, wish)?)
}

/// What the calls of the procedure of a text cost. Messages for people about why the text isn't an
/// accepted procedure's are added to the report, as long as allocations succeed.
fn explain_procedure<T: RandomSource>(
    rt: &T,
    alloc: Global,
    text: &[u8],
    request: Request,
    report: &mut Vec<u8>,
) -> Result<Option<Vec<u8>>, RunFault>
    ensures printed { IfOk result (λ o. IfSome o
        (λ printed. TellsCosts (Figures request) text.now printed.items)) }
    ensures some { IfOk result (λ o. IfNone o ⊥) }
    ensures silent { OnOk result (report.new ≡ report.old) }
    ensures err { IfErr result (RefusesProcedure text.now) }
    ensures before { IfErr result IsBeforeWriting }
{
    let seed = DrawnSeed::draw(rt);
    let procedure = procedure_reported(alloc, seed, text, report)?;
    Ok(Some(print_costs(alloc, seed, &procedure, request)?))
}

/// The answer to a request about the log or the procedure of a text, or `None` if it shows the
/// conflicts of a part that the log lacks. A picture is of a log.
fn explain_figures<T: RandomSource>(
    rt: &T,
    alloc: Global,
    text: &[u8],
    request: Request,
    report: &mut Vec<u8>,
) -> Result<Option<Vec<u8>>, RunFault>
    ensures printed { IfOk result (λ o. IfSome o
        (λ printed. IsPrintedFor (Figures request) text.now printed.items)) }
    ensures lacking { IfOk result (λ o. IfNone o (IsLog (LacksText (Figures request)) text.now)) }
    ensures silent { OnOk result (report.new ≡ report.old) }
    ensures err { IfErr result (λ e. (unread unread' : Option (List ℕ))
        → ReadsAll unread unread' text.now → RefusesLogOrProcedure unread unread' e) }
    ensures before { IfErr result IsBeforeWriting }
{
    if request.picture().is_none() && is_procedure(text) {
        explain_procedure(rt, alloc, text, request, report)
    } else {
        explain_log(rt, alloc, text, Wish::Figures(request), report)
    }
}

/// The text that is wished for about the log or the procedure of a text, or `None` if it shows the
/// conflicts of a part that the log lacks. Aborts are of a log.
fn explained<T: RandomSource>(
    rt: &T,
    alloc: Global,
    text: &[u8],
    wish: Wish,
    report: &mut Vec<u8>,
) -> Result<Option<Vec<u8>>, RunFault>
    ensures printed { IfOk result (λ o. IfSome o
        (λ printed. IsPrintedFor wish text.now printed.items)) }
    ensures lacking { IfOk result (λ o. IfNone o (IsLog (LacksText wish) text.now)) }
    ensures silent { OnOk result (report.new ≡ report.old) }
    ensures err { IfErr result (λ e. (unread unread' : Option (List ℕ))
        → ReadsAll unread unread' text.now → RefusesLogOrProcedure unread unread' e) }
    ensures before { IfErr result IsBeforeWriting }
{
    match wish {
        Wish::Figures(request) => explain_figures(rt, alloc, text, request, report),
        Wish::Aborts => explain_log(rt, alloc, text, Wish::Aborts, report),
    }
}

/// Reads a log or a procedure to the reader's end, and writes only what is wished for. It refuses a
/// log as a run does, and a procedure as the library does, reports a failed write, as a run does, and
/// refuses to draw a part that the log doesn't have. Messages for people about why a text is refused
/// are added to the report, as long as allocations succeed. The whole text is made before the first
/// byte is written.
pub fn explain_text<T: RandomSource, R: Read, W: Write>(
    rt: &T,
    alloc: Global,
    reader: &mut R,
    writer: &mut W,
    wish: Wish,
    report: &mut Vec<u8>,
) -> Result<(), ExplainFault>
    ensures ok { OnOk result
        (Explains wish (R.remaining reader.old) (R.remaining reader.new) (W.contents writer.old)
        (W.contents writer.new)) }
    ensures silent { OnOk result (report.new ≡ report.old) }
    ensures err { IfErr result
        (RefusesText wish (R.remaining reader.old) (R.remaining reader.new)
        (W.contents writer.old) (W.contents writer.new)) }

    // If the fault isn't a failed write, the writer is untouched.
    ensures untouched { IfErr result (λ e. IsEarly e → writer.new ≡ writer.old) }
{
    let text = read_all(alloc, reader)?;
    let Some(printed) = explained(rt, alloc, text.as_slice(), wish, report)? else {
        return Err(ExplainFault::NoPart);
    };
    write_all(writer, printed.as_slice())?;
    Ok(())
}
