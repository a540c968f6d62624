//! The reading side of a run: it reads a log in windows, has them parsed and checked ahead, and
//! plans their chunks.

ghost use Rattle.std.specs.Prelude.{◌≡◌, ◌<◌, length, IfOk, IfErr, IfSome, OnOk};
ghost use Rattle.bohm_txn.specs.Chunked.{IsLogCheckedTo};
ghost use Rattle.bohm_read_ahead.specs.Preparing.{IsCheckedBehind};
ghost use Rattle.bohm_read_ahead.specs.Sharing.{IsSharedAs};
ghost use Rattle.bohm_read_ahead.specs.Reading.{HasMore, IsGoing, ReadsAhead, ReadsChunk, RefusesChunk};

use crate::checked_chunk::{CheckedChunk, counted};
use crate::checked_window::CheckedWindow;
use crate::parse_task::ParseTask;
use crate::parsers::{Parsers, most_ahead};
use crate::parsing::Parsing;
use crate::reading_state::ReadingState;
use bohm_hints::IndexHints;
use bohm_log::{DrawnSeed, HashSeed, Log, SharedNames};
use bohm_reading::{ReadingFault, next_window, take_parsed};
use bohm_settings::Settings;
use bohm_text::Chunk;
use bohm_txn::{CheckFault, check_chunk};
use bohm_types::NoMemory;
use std::alloc::Global;
use std::io::Read;
use std::sync::Wait;
use std::thread::Threads;

/// The log and the index hints of a finished chunk, to be reused for another chunk.
#[derive(Drop)]
struct Spare {
    log: Log<HashSeed>,
    /// The indexes that its keys had in the history.
    hints: IndexHints,
}

/// Reads a log in windows, has them parsed and checked ahead, and plans their chunks.
#[derive(Drop)]
pub struct LogReader {
    pub state: ReadingState,
    seed: DrawnSeed,
    /// The minimum number of bytes of a window, except for the first and the last one.
    size: usize,
    pub settings: Settings,
    /// The names of the starting store's keys, which all logs share with the history.
    names: SharedNames<HashSeed>,
    spare: Vec<Spare>,
    parsers: Parsers,
}

/// The first fault of a chunk, which is checked if that wasn't done yet.
fn first_fault(chunk: &Chunk, checked: Option<Option<CheckFault>>) -> Option<CheckFault>
    requires { IfSome checked (IsLogCheckedTo chunk.now.log) }
    ensures { IsLogCheckedTo chunk.now.log result }
{
    match checked {
        Some(fault) => fault,
        None => check_chunk(&chunk.log.part()),
    }
}

/// The log and the index hints of a finished chunk. If there is none, they are new, and the log
/// shares these names.
fn take_spare(
    alloc: Global,
    spare: &mut Vec<Spare>,
    seed: DrawnSeed,
    names: &SharedNames<HashSeed>,
) -> Result<Spare, NoMemory> {
    match spare.pop() {
        Some(spare) => Ok(spare),
        None => Ok(Spare {
            log: Log::sharing(alloc, HashSeed::from(seed), names.try_clone()?),
            hints: IndexHints::new(alloc),
        }),
    }
}

impl LogReader {
    /// A reader that continues from this state, in windows of at least `size` bytes except for the
    /// last one, and the threads that parse for it: as many as the settings say, or as many of them
    /// as can be started, and none if the text has ended. Names are hashed with the seed, and all
    /// logs share `names`.
    ///
    /// It fails with `NoMemory` if an allocation fails; then no thread runs. The threads of a
    /// reader run until `end`. The memory grows with their number.
    pub fn start<T: Threads + Wait + Copy + Send + 'static>(
        rt: &T,
        alloc: Global,
        state: ReadingState,
        seed: DrawnSeed,
        names: SharedNames<HashSeed>,
        size: usize,
        settings: Settings,
    ) -> Result<LogReader, NoMemory>
        ensures state { IfOk result (λ r. r.state ≡ state) }
        ensures settings { IfOk result (λ r. r.settings ≡ settings) }
    {
        // A log of one window needs no threads.
        let threads = if state.source.ended {
            None
        } else {
            Some(settings.cc())
        };
        let spare = Vec::new(alloc);
        Ok(LogReader {
            state,
            seed,
            size,
            settings,
            names,
            spare,
            parsers: Parsers::start(rt, alloc, threads, most_ahead(settings))?,
        })
    }

    /// Reads windows until as many are ahead as the threads need, or none is left. If there are no
    /// threads, it parses the windows itself. An error says why the whole text is refused; reading
    /// can't continue.
    ///
    /// The time grows with the length of the windows, and the memory with that of the windows
    /// ahead.
    pub fn read_ahead<R: Read, T: Wait>(
        &mut self,
        rt: &T,
        alloc: Global,
        reader: &mut R,
    ) -> Result<(), ReadingFault>
        requires going { IsGoing self.old.state }
        ensures ok { OnOk result
            (ReadsAhead (R.remaining reader.old) (R.remaining reader.new) self.old.state
            self.new.state) }
        ensures some { OnOk result (HasMore self.old.state → 0 < length self.new.state.ahead.items) }
        ensures err { IfErr result
            (RefusesChunk (R.remaining reader.old) (R.remaining reader.new) self.old.state) }
        ensures settings { self.new.settings ≡ self.old.settings }
    {
        let most = most_ahead(self.settings);
        'windows: while !self.state.source.ended && self.state.ahead.len() < most {
            let window = next_window(alloc, reader, &mut self.state.source, self.size)?;
            let spare = take_spare(alloc, &mut self.spare, self.seed, &self.names)?;
            let task = ParseTask {
                alloc,
                seed: self.seed,
                edition: self.state.edition,
                window,
                log: spare.log,
                hints: spare.hints,
            };
            let parsing = Parsing::start(rt, &self.parsers, task);
            self.state.ahead.push_back(parsing)?;
        }
        Ok(())
    }

    /// Counts a chunk with this first fault, which follows the chunks that were taken. If several
    /// workers are to execute it, it is planned in batches of the size that the settings give, by as
    /// many workers: each plans the keys of its parts. The hints are those of its keys. It fails with
    /// `NoMemory` if the plans fail to allocate.
    ///
    /// The time and the memory are constant; if the chunk is planned, they grow with the number of
    /// its keys and transactions.
    pub fn prepare<T: Threads + Sync>(
        &mut self,
        rt: &T,
        alloc: Global,
        chunk: Chunk,
        fault: Option<CheckFault>,
        hints: IndexHints,
    ) -> Result<CheckedChunk, NoMemory>
        requires { IsLogCheckedTo chunk.log fault }
        ensures same { self.new.state ≡ record self.old.state { count = self.new.state.count } }
        ensures log { IfOk result (λ c. c.log ≡ chunk.log) }
        ensures checked { IfOk result (IsCheckedBehind self.old.state.count self.new.state.count) }
        ensures shared { IfOk result (λ c. IsSharedAs self.old.settings c.log c.prepared) }
        ensures settings { self.new.settings ≡ self.old.settings }
    {
        let count = self.state.count;
        self.state.count = counted(count, chunk.log.len());
        CheckedChunk::new(rt, alloc, chunk, fault, count, hints, self.settings)
    }

    /// Returns the chunk of the next window, checked and planned. Windows are read ahead both
    /// before the chunk is waited for and after it was taken. While no thread has parsed it, the
    /// caller's thread parses one other window if there is one, and then blocks. An error says why
    /// the whole text is refused; reading can't continue.
    ///
    /// The time and the memory grow with those of `read_ahead` and `prepare`, and the time with the
    /// length of the chunk if it wasn't checked ahead.
    pub fn next_chunk<R: Read, T: Threads + Wait + Sync>(
        &mut self,
        rt: &T,
        alloc: Global,
        reader: &mut R,
    ) -> Result<CheckedChunk, ReadingFault>
        requires going { IsGoing self.old.state }
        requires more { HasMore self.old.state }
        ensures ok { IfOk result
            (ReadsChunk (R.remaining reader.old) (R.remaining reader.new) self.old.state
            self.new.state) }
        ensures err { IfErr result
            (RefusesChunk (R.remaining reader.old) (R.remaining reader.new) self.old.state) }
        ensures shared { IfOk result (λ c. IsSharedAs self.old.settings c.log c.prepared) }
        ensures settings { self.new.settings ≡ self.old.settings }
    {
        self.read_ahead(rt, alloc, reader)?;
        let Some(parsing) = self.state.ahead.pop_front() else {
            unreachable!()
        };
        let CheckedWindow {
            parsed,
            fault,
            hints,
        } = parsing.finish(rt, &self.parsers, self.state.edition);
        let chunk = take_parsed(reader, self.state.edition, &mut self.state.source, parsed)?;
        self.read_ahead(rt, alloc, reader)?;
        let fault = first_fault(&chunk, fault);
        Ok(self.prepare(rt, alloc, chunk, fault, hints)?)
    }

    /// Keeps the log and the index hints of a finished chunk for a later window. It fails with
    /// `NoMemory` if there is no room for them. The time is constant.
    pub fn keep(&mut self, done: CheckedChunk) -> Result<(), NoMemory>
        ensures state { self.new.state ≡ self.old.state }
        ensures settings { self.new.settings ≡ self.old.settings }
    {
        let CheckedChunk { log, hints, .. } = done;
        self.spare.push(Spare { log, hints })?;
        Ok(())
    }

    /// Ends the parsing threads and joins them. Windows that were ahead are dropped.
    pub fn end<T: Threads>(self, rt: &T) {
        let LogReader { parsers, .. } = self;
        parsers.end(rt);
    }
}
