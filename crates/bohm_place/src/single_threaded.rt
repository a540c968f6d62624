//! Planning a batch on the caller's thread.

ghost use Rattle.std.specs.Prelude.{◌+◌, ◌<◌, length, All, IfOk};
ghost use Rattle.bohm_place.specs.Plans.{IsPlannable, IsPlanned};

use crate::by_number::{FoundByNumber, NumberJob, plan_numbers};
use crate::newest::Newest;
use crate::partition::Undivided;
use crate::planned::Plan;
use crate::planning::accesses;
use crate::row::rows;
use crate::unplanned::UnplannedBatch;
use crate::worker::Worker;
use bohm_log::LogPart;
use bohm_types::NoMemory;
use std::alloc::Global;

/// Plans a batch on the caller's thread, by the numbers of its log's keys: finds for each access of
/// its transactions, in log order, the newest earlier writer of the key in the batch. The plan is
/// the one that `plan` makes.
///
/// The array is the one that planning the previous batch returned, or a new one. An error drops it.
/// The time grows with the number of accesses, of statements and of terms, and with the number of
/// the log's keys that are new to the array.
pub fn plan_alone(
    alloc: Global,
    newest: Newest,
    first: u32,
    txns: &LogPart<'_>,
) -> Result<(Newest, Plan), NoMemory>
    requires plannable { IsPlannable first txns.now }
    requires earlier { All (λ v. v.begin < first) newest }
    ensures planned { IfOk result (λ r. IsPlanned first txns.now r.1) }
    ensures below { IfOk result (λ r. All (λ v. v.begin < first + length txns.now) r.0) }
{
    let (rows, slots) = rows(alloc, txns)?;
    let batch = UnplannedBatch {
        first,
        txns,
        accesses: accesses(&rows),
    };
    let worker = Worker {
        number: 0,
        count: 1,
    };
    let job = NumberJob { worker, newest };
    let FoundByNumber { found, newest } = plan_numbers(alloc, job, batch, &Undivided)?;
    Ok((newest, Plan::new(first, found, rows, slots)))
}
