//! A log from bytes to bytes.

ghost use Rattle.std.specs.Prelude.{◌≡◌, ◌<◌, ◌≤◌, ℕ, List, Option, None, IfOk, OnOk, IfErr};
ghost use Rattle.bohm_settings.specs.Given.{Given};
ghost use Rattle.bohm_run.specs.Headline.{answer_of, Answers, Refuses};
ghost use Rattle.bohm_run.specs.Headline.{ReadsDocument, IsBeforeWriting};
ghost use Rattle.bohm_run.specs.Streaming.{IsLogRun};
ghost use Rattle.bohm_run.specs.Times.{IsReadableAt, IsUnreadable};
ghost use Rattle.bohm_store.specs.Versions.{past};
ghost use Rattle.bohm_txn.specs.Stores.{store_of, cell_in};
ghost use Rattle.std.specs.FinMap.{entries};

use crate::chunks::RunState;
use crate::streaming::run_log;
use bohm_answer::{RunFault, read_all, write_all};
use bohm_apply::Settings;
use bohm_log::DrawnSeed;
use bohm_store::History;
use bohm_text::{parse_with_seed, put_store};
use bohm_txn::{Checked, check};
use bohm_types::{Key, MOST_TXNS, NoMemory, Value};
use std::alloc::Global;
use std::io::{Read, Write};
use std::random::RandomSource;
use std::sync::Wait;
use std::thread::Threads;

/// The minimum number of bytes of a window of a text, except for the first and the last one, if one
/// worker executes. It is small, so that a window and its columns stay in a processor's cache.
const WINDOW_SIZE: usize = 32_768;

/// The minimum number of bytes of a window if several workers execute, which are started anew for
/// each batch.
const SHARED_WINDOW_SIZE: usize = 131_072;

/// The minimum number of bytes of a window in `run_text`, except for the first and the last one.
pub fn window_size(settings: Settings) -> usize {
    if settings.exec().count() == 1 {
        WINDOW_SIZE
    } else {
        SHARED_WINDOW_SIZE
    }
}

/// Reads a log to the reader's end and checks it. An error says why the text is refused. The text
/// of the log is freed. Names are hashed with the seed.
pub fn read_log<R: Read>(
    alloc: Global,
    seed: DrawnSeed,
    reader: &mut R,
) -> Result<Checked, RunFault>
    ensures ok { IfOk result (ReadsDocument (R.remaining reader.old) (R.remaining reader.new)) }
    ensures err { IfErr result
        (λ e. (given : Given)
        → Refuses given (R.remaining reader.old) (R.remaining reader.new) None None e) }
    ensures before { IfErr result IsBeforeWriting }
{
    let text = read_all(alloc, reader)?;
    let doc = parse_with_seed(alloc, seed, text.as_slice())?;
    Ok(check(doc)?)
}

/// The timestamp whose store is printed, if it is readable after `count` transactions: a timestamp
/// above their number is refused, and then one below the final floor.
fn readable_time(count: usize, settings: Settings) -> Result<u32, RunFault>
    requires { count ≤ MOST_TXNS }
    ensures readable { IfOk result (IsReadableAt settings count) }
    ensures refused { IfErr result (IsUnreadable settings count) }
{
    let end = count as u32;
    let ts = settings.at().unwrap_or(end);
    if end < ts {
        return Err(RunFault::Future);
    }
    if ts < end.saturating_sub(settings.keep().timestamps()) {
        return Err(RunFault::Trimmed);
    }
    Ok(ts)
}

/// The entries of the store at a readable timestamp.
fn store_then(alloc: Global, history: &History, ts: u32) -> Result<Vec<(Key, Value)>, NoMemory>
    requires kept { history.now.floor ≤ ts }
    requires there { ts ≤ history.now.top }
    ensures past { IfOk result (λ v. cell_in (store_of v.items) ≡ past history.now ts) }
    ensures entries { IfOk result (λ v. v.items ≡ entries (store_of v.items)) }
{
    match history.store_at(alloc, ts) {
        Ok(store) => Ok(store),
        Err(_) => Err(NoMemory),
    }
}

/// The text of the answer of a log that was run, with the store at a timestamp.
fn answer(alloc: Global, state: RunState, ts: u32) -> Result<Vec<u8>, NoMemory>
    requires kept { state.history.floor ≤ ts }
    requires there { ts ≤ state.history.top }
    ensures { IfOk result
        (λ text. (keep : ℕ) (unread unread' : Option (List ℕ))
        → (run : IsLogRun keep unread unread' state) → text.items ≡ answer_of run.document ts) }
{
    let RunState { history, text, .. } = state;
    let store = store_then(alloc, &history, ts)?;
    let mut bytes = text.into_bytes();
    put_store(&mut bytes, store.as_slice())?;
    Ok(bytes)
}

/// Reads a log to the reader's end, runs it as the settings say, and writes the text of its answer
/// and nothing else: all replies, and the store at the requested timestamp. The whole answer is
/// made before the first byte is written. Every failure of a reader or a writer counts, even an
/// interrupted call.
///
/// The log is read in windows, and runs as it is read: while the transactions of a window are
/// executed, `cc` threads parse and check the windows after it.
/// The caller's thread runs the transactions in log order, without plans and batches, and reads the
/// next windows in between. Several workers execute a window whose bodies have at least 32
/// statements on average, judged by a sample, or every window if the batches are smaller than the
/// largest. Then the next window is planned meanwhile: of the partitions of the keys by the sum of
/// their bytes, planning worker w of `cc` has those whose number is w modulo `cc`. A log of one window
/// of short bodies is read and run on the caller's thread. While the next window isn't parsed, the
/// caller's thread parses another one that waits, and then blocks. If no thread can be started, it
/// parses all windows.
///
/// The time grows with the text and its answer, with the terms of the transactions and the keys
/// that they declare, and with the number of the store's keys k as k log k. Parsing is spread over
/// `cc` threads, planning over as many or over the partitions if these are fewer, and the
/// evaluation of long bodies, with their replies, over `exec` threads; all else is done by one
/// thread, or by two if several workers execute. The memory grows with the keys
/// of the log, with the text of the answer, and with 2 `cc` + 3 windows. A window has 32 KiB, 128
/// KiB for several executing workers, or is as long as the head and the store, or as a transaction,
/// if these are longer.
pub fn run_text<T: Threads + Wait + Sync + RandomSource + Copy + Send + 'static, R: Read, W: Write>(
    rt: &T,
    alloc: Global,
    reader: &mut R,
    writer: &mut W,
    settings: Settings,
) -> Result<(), RunFault>
    ensures ok { OnOk result
        (Answers settings (R.remaining reader.old) (R.remaining reader.new) (W.contents writer.old)
        (W.contents writer.new)) }
    ensures err { IfErr result
        (Refuses settings (R.remaining reader.old) (R.remaining reader.new) (W.contents writer.old)
        (W.contents writer.new)) }

    // Before all faults except those of writing, the writer isn't touched.
    ensures untouched { IfErr result (λ e. IsBeforeWriting e → writer.new ≡ writer.old) }
{
    run_text_in_windows(rt, alloc, reader, writer, settings, window_size(settings))
}

/// Runs a text as `run_text` does, in windows of at least `size` bytes, except for the first and
/// the last one. The answer and the refusals are the same for every size.
pub fn run_text_in_windows<
    T: Threads + Wait + Sync + RandomSource + Copy + Send + 'static,
    R: Read,
    W: Write,
>(
    rt: &T,
    alloc: Global,
    reader: &mut R,
    writer: &mut W,
    settings: Settings,
    size: usize,
) -> Result<(), RunFault>
    ensures ok { OnOk result
        (Answers settings (R.remaining reader.old) (R.remaining reader.new) (W.contents writer.old)
        (W.contents writer.new)) }
    ensures err { IfErr result
        (Refuses settings (R.remaining reader.old) (R.remaining reader.new) (W.contents writer.old)
        (W.contents writer.new)) }

    // Before all faults except those of writing, the writer isn't touched.
    ensures untouched { IfErr result (λ e. IsBeforeWriting e → writer.new ≡ writer.old) }
{
    let state = run_log(rt, alloc, reader, settings, size)?;
    let ts = readable_time(state.count, settings)?;
    let text = answer(alloc, state, ts)?;
    write_all(writer, text.as_slice())
}
