//! A log from bytes to bytes, without planning, batches or threads.

ghost use Rattle.std.specs.Prelude.{◌≡◌, OnOk, IfErr, IfOk};
ghost use Rattle.std.specs.FinMap.{entries};
ghost use Rattle.bohm_txn.specs.Serial.{replies};
ghost use Rattle.bohm_txn.specs.Stores.{store_of, store_after, cell_in};
ghost use Rattle.bohm_settings.specs.Given.{defaults};
ghost use Rattle.bohm_run.specs.Headline.{Answers, IsBeforeWriting, Refuses, answer_of, time_of};

use bohm_answer::{RunFault, write_all};
use bohm_log::DrawnSeed;
use bohm_run::read_log;
use bohm_serial::{Answer, run};
use bohm_text::print_answer;
use bohm_txn::Checked;
use bohm_types::NoMemory;
use std::alloc::Global;
use std::io::{Read, Write};
use std::random::RandomSource;

/// The result of a run of the log. The log is dropped.
fn executed(alloc: Global, checked: Checked) -> Result<Answer, NoMemory>
    ensures replies { IfOk result
        (λ a. a.replies ≡ replies (cell_in (store_of checked.store)) checked.log) }
    ensures store { IfOk result
        (λ a. a.store ≡ entries (store_after (store_of checked.store) checked.log)) }
{
    run(alloc, &checked)
}

/// The text of the answer.
#[tactic(auto, using(crate::proofs::Plain::all_of_it))]
fn answer(alloc: Global, checked: Checked) -> Result<Vec<u8>, NoMemory>
    ensures { IfOk result (λ text. text.items ≡ answer_of checked (time_of defaults checked)) }
{
    let Answer { replies, store } = executed(alloc, checked)?;
    print_answer(alloc, &replies, store.as_slice())
}

/// Reads a log to the reader's end, runs it, and writes only the text of its answer, as a run with
/// the default settings does. The whole answer is made before the first byte is written. Every
/// failure of a reader or a writer is an error, even an interrupted call.
///
/// The time grows with the text and with the number of the store's keys k as k log k. The memory
/// grows with the text.
#[tactic(auto, using(crate::proofs::Plain::readable))]
pub fn serial_text<T: RandomSource, R: Read, W: Write>(
    rt: &T,
    alloc: Global,
    reader: &mut R,
    writer: &mut W,
) -> Result<(), RunFault>
    ensures ok { OnOk result
        (Answers defaults (R.remaining reader.old) (R.remaining reader.new)
        (W.contents writer.old) (W.contents writer.new)) }
    ensures err { IfErr result
        (Refuses defaults (R.remaining reader.old) (R.remaining reader.new)
        (W.contents writer.old) (W.contents writer.new)) }

    // If the fault isn't a failed write, the writer is untouched.
    ensures untouched { IfErr result (λ e. IsBeforeWriting e → writer.new ≡ writer.old) }
{
    let checked = read_log(alloc, DrawnSeed::draw(rt), reader)?;
    let text = answer(alloc, checked)?;
    write_all(writer, text.as_slice())
}
