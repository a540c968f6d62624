//! A whole run by settings.

ghost use Rattle.std.specs.Prelude.{IfOk, ◌≡◌, ◌+◌, ◌≤◌, length};
ghost use Rattle.bohm_txn.specs.Serial.{replies};
ghost use Rattle.bohm_txn.specs.Stores.{cell_in, store_of};
ghost use Rattle.bohm_store.specs.Versions.{declared_writes, total};
ghost use Rattle.bohm_apply.specs.Runs.{IsHistoryOf};

use bohm_exec::OpenGate;
use bohm_run::{Answer, ByteSum, Cuts, Settings};
use bohm_txn::Checked;
use bohm_types::NoMemory;
use std::alloc::Global;
use std::random::RandomSource;
use std::sync::Wait;
use std::thread::Threads;

/// Executes a checked log on its starting store, with as many workers, partitions and transactions
/// in a batch as the settings say. For all settings the replies, and the store after each timestamp
/// from the history's floor to its top, are those of executing the transactions one after another
/// in log order. The last `keep` timestamps before the top stay readable; `at` is ignored.
///
/// One executing worker runs them on the calling thread in log order: no thread is started, nothing
/// is planned. Several execute plans, which a thread makes ahead.
///
/// Keys are hashed with a seed that is drawn for this run.
///
/// # Errors
///
/// `NoMemory` if an allocation or the start of the planning thread failed.
///
/// The time and the memory are those of `bohm_run::run`.
pub fn run<R: Threads + Wait + Sync + RandomSource>(
    rt: &R,
    alloc: Global,
    checked: &Checked,
    settings: Settings,
) -> Result<Answer, NoMemory>
    ensures replies { let start = cell_in (store_of checked.now.store) in
        IfOk result (λ a. a.replies ≡ replies start checked.now.log) }
    ensures history { let start = cell_in (store_of checked.now.store) in
        IfOk result (λ a. IsHistoryOf start checked.now.log settings.keep a.history) }
    ensures count { let given = length checked.now.store in
        IfOk result (λ a. total a.history.chains ≤ given + declared_writes checked.now.log) }
{
    if settings.exec().count() == 1 {
        return bohm_run::run_in_order(rt, alloc, checked, settings.keep());
    }
    let Some(partition) = ByteSum::new(settings.parts()) else {
        unreachable!()
    };
    let cuts = Cuts::even(alloc, checked.log().len() as u32, settings.batch())?;
    bohm_run::run(
        rt,
        alloc,
        checked,
        &cuts,
        settings.cc(),
        settings.exec(),
        settings.keep(),
        &partition,
        &OpenGate,
    )
}
