//! Chunks of a log that run one after another.

ghost use Rattle.std.specs.Prelude.{◌≡◌, ◌+◌, ◌≤◌, All, length, IfOk, OnOk, None};
ghost use Rattle.std.specs.List.{sum};
ghost use Rattle.bohm_txn.specs.Faulty.{IsWellFormedTxn};
ghost use Rattle.bohm_txn.specs.Chunked.{store_fault};
ghost use Rattle.bohm_txn.specs.Stores.{cell_in, store_of};
ghost use Rattle.bohm_store.specs.Versions.{past};
ghost use Rattle.bohm_place.specs.Cuttings.{ArePlans};
ghost use Rattle.bohm_apply.specs.Runs.{cutting_behind};
ghost use Rattle.bohm_run.specs.Chunks.{IsNext, IsPartRun, IsStarted, RunsNext};

use bohm_apply::{Executor, ScratchPool, SerialExecutor, Settings};
use bohm_exec::OpenGate;
use bohm_hints::IndexHints;
use bohm_log::{DrawnSeed, LogPart};
use bohm_place::{CutLog, Cuts, Plan};
use bohm_read_ahead::{CheckedChunk, Prepared, counted};
use bohm_store::History;
use bohm_text::ReplyText;
use bohm_txn::{CheckFault, check_store};
use bohm_types::{Key, MOST_TXNS, NoMemory, Value};
use std::alloc::Global;
use std::mem;
use std::thread::Threads;

/// How far a log has been checked and run.
#[derive(Drop)]
pub(crate) struct RunState {
    pub(crate) history: History,
    /// The text of the replies so far.
    pub(crate) text: ReplyText,
    pub(crate) executor: Executor,
    pub(crate) serial: SerialExecutor,
    /// The number of transactions so far, exact up to the most that a log may have.
    pub(crate) count: usize,
    /// The fault of the starting store.
    pub(crate) in_store: Option<CheckFault>,
    /// The first fault so far. After a fault nothing runs.
    pub(crate) fault: Option<CheckFault>,
}

/// The history of a store, or of the empty store if the store has a fault. If `shares` is set, logs
/// can share the names of the store's keys.
fn open_history(
    alloc: Global,
    seed: DrawnSeed,
    store: &[(Key, Value)],
    in_store: Option<CheckFault>,
    shares: bool,
) -> Result<History, NoMemory>
    requires { in_store ≡ store_fault store.now }
    ensures top { IfOk result (λ h. h.top ≡ 0) }
    ensures floor { IfOk result (λ h. h.floor ≡ 0) }
    ensures past { in_store ≡ None → IfOk result (λ h. past h 0 ≡ cell_in (store_of store.now)) }
{
    match in_store {
        Some(_) => Ok(History::empty(alloc)),
        None if shares => History::restore_sharing(alloc, store, 0, seed),
        None => History::open_with_seed(alloc, store, seed),
    }
}

impl RunState {
    /// The state before the first transaction, over this starting store. If `shares` is set, logs
    /// can share the names of its keys.
    pub(crate) fn start(
        alloc: Global,
        seed: DrawnSeed,
        store: Vec<(Key, Value)>,
        settings: Settings,
        shares: bool,
    ) -> Result<RunState, NoMemory>
        ensures { IfOk result (IsStarted settings.keep store.items) }
    {
        let in_store = check_store(store.as_slice());
        Ok(RunState {
            history: open_history(alloc, seed, store.as_slice(), in_store, shares)?,
            text: ReplyText::new(alloc),
            executor: Executor {
                pool: ScratchPool::new(alloc, settings.exec())?,
                hints: IndexHints::new(alloc),
                keep: settings.keep().timestamps(),
            },
            serial: SerialExecutor::new(alloc)?,
            count: 0,
            in_store,
            fault: in_store,
        })
    }
}

/// Runs transactions in log order, and appends the text of their replies. The hints are those of
/// the transactions' log.
fn run_to_text(
    serial: &mut SerialExecutor,
    history: &mut History,
    text: &mut ReplyText,
    txns: &LogPart<'_>,
    hints: &mut IndexHints,
    keep: u32,
) -> Result<(), NoMemory>
    requires few { history.old.top + length txns.now ≤ MOST_TXNS }
    requires formed { All IsWellFormedTxn txns.now }
    ensures { OnOk result (IsPartRun history.old history.new txns.now keep (history.old.top + 1)
        text.old text.new) }
{
    // Its contract says that the floor isn't above the top, as `run` requires.
    let _ = history.top();
    serial.run(history, text, txns, hints, keep)?;
    Ok(())
}

/// Runs the transactions after the history's top by the plans of their batches, and appends the
/// text of their replies. The hints are those of the transactions' log.
fn run_planned_to_text<T: Threads + Sync>(
    rt: &T,
    alloc: Global,
    history: &mut History,
    text: &mut ReplyText,
    executor: &mut Executor,
    txns: &LogPart<'_>,
    hints: &mut IndexHints,
    cuts: &Cuts,
    plans: Vec<Plan>,
) -> Result<(), NoMemory>
    requires total { sum cuts.now ≡ length txns.now }
    requires few { history.old.top + length txns.now ≤ MOST_TXNS }
    requires formed { All IsWellFormedTxn txns.now }
    requires plans { ArePlans (cutting_behind history.old txns.now cuts.now) plans.items }
    ensures keep { executor.new.keep ≡ executor.old.keep }
    ensures run { OnOk result (IsPartRun history.old history.new txns.entry.now executor.old.keep
        (history.old.top + 1) text.old text.new) }
{
    let log = CutLog::new(history.top() + 1, txns, cuts);
    // The executor takes the hints of this log, since each log numbers its keys itself.
    mem::swap(&mut executor.hints, hints);
    executor.run_planned(rt, alloc, history, text, log, plans, &OpenGate)?;
    mem::swap(&mut executor.hints, hints);
    Ok(())
}

/// Runs the next chunk, if the log has no fault so far and not too many transactions. The plans of
/// the chunk are consumed.
pub(crate) fn run_chunk<T: Threads + Sync>(
    rt: &T,
    alloc: Global,
    state: &mut RunState,
    chunk: &mut CheckedChunk,
) -> Result<(), NoMemory>
    requires { IsNext state.old chunk.old }
    ensures { OnOk result (RunsNext chunk.old state.old state.new) }
{
    let log = chunk.log.part();
    state.count = counted(chunk.count, log.len());
    if state.fault.is_some() {
        return Ok(());
    }
    match mem::replace(&mut chunk.prepared, Prepared::Ready) {
        Prepared::Faulty(fault) => {
            state.fault = Some(fault);
            Ok(())
        }
        Prepared::TooMany => Ok(()),
        Prepared::Ready => run_to_text(
            &mut state.serial,
            &mut state.history,
            &mut state.text,
            &log,
            &mut chunk.hints,
            state.executor.keep,
        ),
        Prepared::Planned { cuts, plans } => run_planned_to_text(
            rt,
            alloc,
            &mut state.history,
            &mut state.text,
            &mut state.executor,
            &log,
            &mut chunk.hints,
            &cuts,
            plans,
        ),
    }
}
