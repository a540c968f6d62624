//! Tidies a log or a procedure, from bytes to bytes.

ghost use Rattle.std.specs.Prelude.{◌≡◌, ◌≤◌, ℕ, [], false, true, length, IfOk, IfErr, OnOk, Err};
ghost use Rattle.bohm_answer.specs.Refusing.{IsBeforeWriting};
ghost use Rattle.bohm_tidy.specs.Plain.{is_loose_procedure};
ghost use Rattle.bohm_tidy.specs.Tidied.{RefusesLoose};
ghost use Rattle.bohm_tidy_cli.specs.Tidying.{ChecksLoose, IsExactOf, RefusesLooseLog};
ghost use Rattle.bohm_tidy_cli.specs.Tidying.{RefusesToTidy, StopsTidying, Tidies};

use crate::arguments::Wishes;
use crate::refusal::{check_exact, put_refusal, refusal_of};
use bohm_answer::{LONGEST_TEXT, RunFault, read_all, write_all};
use bohm_check::is_procedure;
use bohm_log::DrawnSeed;
use bohm_tidy::{TidyFault, is_loose_procedure, tidy, tidy_procedure, with_comments};
use std::alloc::Global;
use std::io::{Read, Write};
use std::random::RandomSource;

/// The exact text of a loose log or of a loose procedure.
fn tidied(alloc: Global, seed: DrawnSeed, text: &[u8]) -> Result<Vec<u8>, TidyFault>
    ensures ok { IfOk result (λ exact. IsExactOf text.now exact.items) }
    ensures err { IfErr result
        (λ fault. is_loose_procedure text.now ≡ false → RefusesLoose text.now fault) }
{
    if is_loose_procedure(alloc, text)? {
        tidy_procedure(alloc, seed, text)
    } else {
        tidy(alloc, seed, text)
    }
}

/// The exact text, if it isn't too long. A message about why the text isn't a log's is added to the
/// report, as long as allocations succeed.
fn exact_text<T: RandomSource>(
    rt: &T,
    alloc: Global,
    text: &[u8],
    report: &mut Vec<u8>,
) -> Result<Vec<u8>, RunFault>
    ensures tidied { IfOk result (λ exact. IsExactOf text.now exact.items) }
    ensures short { IfOk result (λ exact. length exact.items ≤ LONGEST_TEXT) }
    ensures silent { OnOk result (report.new ≡ report.old) }
    ensures err { IfErr result
        (λ e. is_loose_procedure text.now ≡ false → RefusesLooseLog text.now e) }
    ensures before { IfErr result IsBeforeWriting }
{
    let seed = DrawnSeed::draw(rt);
    match tidied(alloc, seed, text) {
        Ok(exact) if exact.len() > LONGEST_TEXT => Err(RunFault::TooLong),
        Ok(exact) => Ok(exact),
        Err(fault) => {
            let _ = put_refusal(alloc, seed, report, text, fault);
            Err(refusal_of(fault))
        }
    }
}

/// What a text that was tidied is asked to be written as: nothing, after the check of its exact text,
/// or with its comments, or as it is.
fn asked<T: RandomSource>(
    rt: &T,
    alloc: Global,
    wishes: Wishes,
    text: &[u8],
    exact: Vec<u8>,
    report: &mut Vec<u8>,
) -> Result<Vec<u8>, RunFault>
    ensures exact { IfOk result (λ output. wishes.check ≡ false → wishes.keep_comments ≡ false
        → output.items ≡ exact.items) }
    ensures nothing { IfOk result (λ output. wishes.check ≡ true → output.items ≡ []) }
    ensures unchecked { IfErr result (λ e. wishes.check ≡ false → e ≡ RunFault.NoMemory) }
    ensures silent { OnOk result (report.new ≡ report.old) }
    ensures before { IfErr result IsBeforeWriting }
{
    if wishes.check {
        let seed = DrawnSeed::draw(rt);
        check_exact(alloc, seed, report, text, exact.as_slice())?;
        return Ok(Vec::new(alloc));
    }
    if wishes.keep_comments {
        let is_log = !is_procedure(exact.as_slice());
        return Ok(with_comments(alloc, text, exact.as_slice(), is_log)?);
    }
    Ok(exact)
}

/// Reads a loosely written log or procedure to the reader's end, and writes only its exact text; if
/// that is wished, with its comments, or nothing. The whole output is made before the first byte is
/// written. Every failure of a reader or a writer is an error, even an interrupted call. A message for
/// people about why a text is refused is added to the report, as long as allocations succeed.
pub fn tidy_text<T: RandomSource, R: Read, W: Write>(
    rt: &T,
    alloc: Global,
    reader: &mut R,
    writer: &mut W,
    wishes: Wishes,
    report: &mut Vec<u8>,
) -> Result<(), RunFault>
    ensures ok { OnOk result (wishes.check ≡ false → wishes.keep_comments ≡ false
        → Tidies (R.remaining reader.old) (R.remaining reader.new) (W.contents writer.old)
        (W.contents writer.new)) }
    ensures checked { OnOk result (wishes.check ≡ true
        → ChecksLoose (R.remaining reader.old) (R.remaining reader.new) (W.contents writer.old)
        (W.contents writer.new)) }
    ensures silent { OnOk result (report.new ≡ report.old) }
    ensures sent { (sent : ℕ) → result ≡ Err (RunFault.Write sent) → wishes.check ≡ false
        → wishes.keep_comments ≡ false
        → StopsTidying (R.remaining reader.old) (R.remaining reader.new) (W.contents writer.old)
        (W.contents writer.new) sent }
    ensures err { IfErr result (λ e. wishes.check ≡ false
        → RefusesToTidy (R.remaining reader.old) (R.remaining reader.new) e) }

    // If the fault isn't a failed write, the writer is untouched.
    ensures untouched { IfErr result (λ e. IsBeforeWriting e → writer.new ≡ writer.old) }
{
    let text = read_all(alloc, reader)?;
    let exact = exact_text(rt, alloc, text.as_slice(), report)?;
    let output = asked(rt, alloc, wishes, text.as_slice(), exact, report)?;
    write_all(writer, output.as_slice())
}
