//! A log that is run as it is read: while the chunk of a window runs, windows after it are parsed.

ghost use Rattle.std.specs.Prelude.{◌≡◌, [], None, IfOk, IfErr, OnOk};
ghost use denote.Param.Send.{IsSync};
ghost use Rattle.bohm_reading.specs.Reading.{IsReady};
ghost use Rattle.bohm_settings.specs.Given.{Given};
ghost use Rattle.bohm_run.specs.Chunks.{IsNext, RunsNext};
ghost use Rattle.bohm_run.specs.Headline.{Refuses, IsBeforeWriting};
ghost use Rattle.bohm_read_ahead.specs.Reading.{HasMore, IsGoing, ReadsChunk, RefusesChunk};
ghost use Rattle.bohm_run.specs.Streaming.{IsLogRun, RefusesLog, RunsBehind};

use crate::chunks::{RunState, run_chunk};
use bohm_answer::RunFault;
use bohm_apply::Settings;
use bohm_hints::IndexHints;
use bohm_log::DrawnSeed;
use bohm_read_ahead::{CheckedChunk, LogReader, ReadingState};
use bohm_reading::{ReadingFault, read_first};
use bohm_text::{Chunk, FirstWindow};
use bohm_txn::{check_chunk, check_end};
use bohm_types::NoMemory;
use std::alloc::Global;
use std::io::Read;
use std::random::RandomSource;
use std::sync::Wait;
use std::thread::{Threads, join_mut};

/// Runs the next chunk, and at the same time reads the one after it.
fn run_beside_reading<R: Read, T: Threads + Wait + Sync>(
    rt: &T,
    alloc: Global,
    log_reader: &mut LogReader,
    reader: &mut R,
    state: &mut RunState,
    chunk: &mut CheckedChunk,
) -> (Result<(), NoMemory>, Result<CheckedChunk, ReadingFault>)
    requires going { IsGoing log_reader.old.state }
    requires more { HasMore log_reader.old.state }
    requires next { IsNext state.old chunk.old }
    ensures runs { OnOk result.0 (RunsNext chunk.old state.old state.new) }
    ensures ok { IfOk result.1
        (ReadsChunk (R.remaining reader.old) (R.remaining reader.new) log_reader.old.state
        log_reader.new.state) }
    ensures err { IfErr result.1
        (RefusesChunk (R.remaining reader.old) (R.remaining reader.new) log_reader.old.state) }
{
    join_mut(
        rt,
        &mut || -> Result<(), NoMemory>
            requires { IsSync T.row × IsNext state.now chunk.now }
            ensures { OnOk result (RunsNext chunk.entry.now state.entry.now state.exit.now) }
        { run_chunk(rt, alloc, state, chunk) },
        &mut || -> Result<CheckedChunk, ReadingFault>
            requires { IsSync T.row × IsGoing log_reader.now.state × HasMore log_reader.now.state }
            ensures { IfOk result
                (ReadsChunk (R.remaining reader.entry.now) (R.remaining reader.exit.now)
                log_reader.entry.now.state log_reader.exit.now.state)
                × IfErr result (RefusesChunk (R.remaining reader.entry.now)
                (R.remaining reader.exit.now) log_reader.entry.now.state) }
        { log_reader.next_chunk(rt, alloc, reader) },
    )
}

/// Runs the next chunk, and reads the one after it: at the same time if the chunk is planned for
/// several workers, because planning takes time, and otherwise in sequence, so that the history
/// stays with one thread.
fn run_and_read<R: Read, T: Threads + Wait + Sync>(
    rt: &T,
    alloc: Global,
    log_reader: &mut LogReader,
    reader: &mut R,
    state: &mut RunState,
    chunk: CheckedChunk,
) -> Result<CheckedChunk, ReadingFault>
    requires going { IsGoing log_reader.old.state }
    requires more { HasMore log_reader.old.state }
    requires next { IsNext state.old chunk }
    ensures runs { OnOk result (RunsNext chunk state.old state.new) }
    ensures ok { IfOk result
        (ReadsChunk (R.remaining reader.old) (R.remaining reader.new) log_reader.old.state
        log_reader.new.state) }
    ensures err { IfErr result
        (RefusesChunk (R.remaining reader.old) (R.remaining reader.new) log_reader.old.state) }
{
    let mut chunk = chunk;
    if chunk.is_planned() {
        let (ran, read) = run_beside_reading(rt, alloc, log_reader, reader, state, &mut chunk);
        let next = read?;
        ran?;
        log_reader.keep(chunk)?;
        return Ok(next);
    }
    run_chunk(rt, alloc, state, &mut chunk)?;
    log_reader.keep(chunk)?;
    log_reader.next_chunk(rt, alloc, reader)
}

/// Runs a log's first chunk on a history that was opened, and reads and runs the rest of the log,
/// to the reader's end.
fn run_to_end<R: Read, T: Threads + Wait + Sync>(
    rt: &T,
    alloc: Global,
    log_reader: &mut LogReader,
    reader: &mut R,
    state: &mut RunState,
    first: Chunk,
) -> Result<(), ReadingFault>
    requires ready { IsReady log_reader.old.state.source }
    requires none { log_reader.old.state.ahead.items ≡ [] }
    requires count { log_reader.old.state.count ≡ 0 }
    requires top { state.old.history.top ≡ 0 }
    requires begun { state.old.count ≡ 0 }
    ensures ok { OnOk result
        (RunsBehind log_reader.old.state.edition first.log (R.remaining reader.old)
        (R.remaining reader.new) log_reader.old.state.source state.old state.new) }
    ensures err { IfErr result
        (RefusesLog log_reader.old.state.edition first.log (R.remaining reader.old)
        (R.remaining reader.new) log_reader.old.state.source) }
{
    let fault = check_chunk(&first.log.part());
    let mut chunk = log_reader.prepare(rt, alloc, first, fault, IndexHints::new(alloc))?;
    log_reader.read_ahead(rt, alloc, reader)?;
    'windows: while log_reader.state.is_going() {
        chunk = run_and_read(rt, alloc, log_reader, reader, state, chunk)?;
    }
    run_chunk(rt, alloc, state, &mut chunk)?;
    Ok(())
}

/// Reads a log to the reader's end, in windows of `size` bytes, checks it, and runs it as it is
/// read. A refused text is still read to its end, and nothing runs after a fault.
pub(crate) fn run_log<R: Read, T: Threads + Wait + Sync + RandomSource + Copy + Send + 'static>(
    rt: &T,
    alloc: Global,
    reader: &mut R,
    settings: Settings,
    size: usize,
) -> Result<RunState, RunFault>
    ensures ok { IfOk result
        (IsLogRun settings.keep (R.remaining reader.old) (R.remaining reader.new)) }
    ensures err { IfErr result
        (λ e. (given : Given)
        → Refuses given (R.remaining reader.old) (R.remaining reader.new) None None e) }
    ensures before { IfErr result IsBeforeWriting }
{
    let seed = DrawnSeed::draw(rt);
    let (first, source) = read_first(alloc, seed, reader, size)?;
    let FirstWindow {
        edition,
        store,
        chunk,
    } = first;
    // A log of one window shares its names with no other.
    let mut state = RunState::start(alloc, seed, store, settings, !source.ended)?;
    let names = state.history.shared_names()?;
    let reading = ReadingState::new(alloc, edition, source);
    // From here on, no failure returns before the threads are joined.
    let mut log_reader = LogReader::start(rt, alloc, reading, seed, names, size, settings)?;
    let ran = run_to_end(rt, alloc, &mut log_reader, reader, &mut state, chunk);
    log_reader.end(rt);
    ran?;
    match check_end(state.in_store, state.count, state.fault) {
        None => Ok(state),
        Some(fault) => Err(RunFault::Check(fault)),
    }
}
