//! A whole run of a checked log.

ghost use Rattle.std.specs.Prelude.{◌≡◌, ◌+◌, ◌≤◌, length, IfOk};
ghost use Rattle.std.specs.List.{sum};
ghost use Rattle.bohm_txn.specs.Serial.{replies};
ghost use Rattle.bohm_txn.specs.Stores.{cell_in, store_of};
ghost use Rattle.bohm_store.specs.Versions.{declared_writes, total};
ghost use Rattle.bohm_apply.specs.Runs.{IsHistoryOf};

use crate::applying::{Applied, apply};
use crate::serial_executor::SerialExecutor;
use bohm_exec::Gate;
use bohm_hints::IndexHints;
use bohm_log::DrawnSeed;
use bohm_place::{Cuts, Partition};
use bohm_settings::{Executors, Kept, Planners};
use bohm_store::History;
use bohm_txn::{Checked, Replies};
use bohm_types::NoMemory;
use std::alloc::Global;
use std::random::RandomSource;
use std::sync::Wait;
use std::thread::Threads;

/// The result of a run: the replies in log order, and the history that it leaves.
#[derive(Drop)]
pub struct Answer {
    pub replies: Replies,
    pub history: History,
}

/// Runs a checked log over its starting store, in batches of this cutting: opens the history of the
/// store, and applies the log. For every number of workers, partition, cutting and gate the replies
/// and the past, from the floor to the top, are those of running the transactions one after another
/// in log order.
///
/// The workers are those of `apply`; `keep` is how many timestamps below the last batch's end stay
/// readable. It fails with `NoMemory` if an allocation or the start of the planning side's thread
/// fails.
///
/// Keys are hashed with a seed that is drawn for this run, so an author of logs can't choose
/// colliding keys. A caller without a source of randomness opens a history and calls `apply`.
///
/// The time is that of `apply`, and grows with the number of keys of the starting store.
pub fn run<P: Partition, G: Gate, R: Threads + Wait + Sync + RandomSource>(
    rt: &R,
    alloc: Global,
    checked: &Checked,
    cuts: &Cuts,
    cc: Planners,
    exec: Executors,
    keep: Kept,
    partition: &P,
    gate: &G,
) -> Result<Answer, NoMemory>
    requires { sum cuts.now ≡ length checked.now.log }
    ensures replies { let start = cell_in (store_of checked.now.store) in
        IfOk result (λ a. a.replies ≡ replies start checked.now.log) }
    ensures history { let start = cell_in (store_of checked.now.store) in
        IfOk result (λ a. IsHistoryOf start checked.now.log keep a.history) }
    ensures count { let given = length checked.now.store in
        IfOk result (λ a. total a.history.chains ≤ given + declared_writes checked.now.log) }
{
    let mut history = History::open_with_seed(alloc, checked.store(), DrawnSeed::draw(rt))?;
    let log = checked.log();
    let Applied { replies, end } = apply(
        rt,
        alloc,
        &mut history,
        &log,
        cuts,
        cc,
        exec,
        keep,
        partition,
        gate,
    );
    end?;
    Ok(Answer { replies, history })
}

/// Runs a checked log over its starting store on the calling thread, one transaction after another
/// in log order, without plans. `keep` is how many timestamps below the top stay readable.
///
/// Keys are hashed with a seed that is drawn for this run.
///
/// # Errors
///
/// `NoMemory` if an allocation failed.
///
/// The time grows with the number of keys of the starting store and of the log's terms.
pub fn run_in_order<R: RandomSource>(
    rt: &R,
    alloc: Global,
    checked: &Checked,
    keep: Kept,
) -> Result<Answer, NoMemory>
    ensures replies { let start = cell_in (store_of checked.now.store) in
        IfOk result (λ a. a.replies ≡ replies start checked.now.log) }
    ensures history { let start = cell_in (store_of checked.now.store) in
        IfOk result (λ a. IsHistoryOf start checked.now.log keep a.history) }
    ensures count { let given = length checked.now.store in
        IfOk result (λ a. total a.history.chains ≤ given + declared_writes checked.now.log) }
{
    let mut history = History::open_with_seed(alloc, checked.store(), DrawnSeed::draw(rt))?;
    let (mut replies, mut hints) = (Replies::new(alloc), IndexHints::new(alloc));
    let mut executor = SerialExecutor::new(alloc)?;
    executor.run(
        &mut history,
        &mut replies,
        &checked.log(),
        &mut hints,
        keep.timestamps(),
    )?;
    Ok(Answer { replies, history })
}
