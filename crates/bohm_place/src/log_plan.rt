//! The plans of all batches of a log.

ghost use Rattle.std.specs.Prelude.{◌<◌, IfOk};
ghost use Rattle.bohm_place.specs.CutLogs.{cutting_of};
ghost use Rattle.bohm_place.specs.Cuttings.{ArePlans};

use crate::cut_log::CutLog;
use crate::newest::Newest;
use crate::parallel::plan_by_number;
use crate::partition::Partition;
use crate::planned::Plan;
use bohm_types::NoMemory;
use std::alloc::Global;
use std::thread::Threads;

/// Plans the batches of a log by `cc` workers, or by one for each part of the keys if these are
/// fewer, and returns the plans in the order of the batches. They depend only on the log, its first
/// timestamp and its batches, and neither on the workers and the partition nor on the contents of a
/// history. Worker i of n plans all accesses of the keys whose part is i modulo n; one worker runs
/// on the caller's thread.
///
/// The time grows with the number of keys that the transactions declare, of their statements and
/// terms, and of the log's keys; the memory grows with the number of declared keys and, for each
/// worker, of the log's keys.
pub fn plan_batches<P: Partition, R: Threads + Sync>(
    rt: &R,
    alloc: Global,
    log: CutLog<'_>,
    cc: u32,
    partition: &P,
) -> Result<Vec<Plan>, NoMemory>
    requires position { 0 < (cutting_of log).first }
    requires workers { 0 < cc }
    ensures plans { IfOk result (λ v. ArePlans (cutting_of log.entry) v.items) }
{
    let mut plans = Vec::with_capacity(alloc, log.batches() as usize)?;
    let mut start = 0usize;
    let mut newest = Newest::several(alloc, cc.min(partition.parts()))?;
    for place in 0..log.batches() {
        let txns = log.batch(place, start);
        let first = log.first() + start as u32;
        let (next, plan) = plan_by_number(rt, alloc, newest, first, &txns, partition)?;
        newest = next;
        plans.push(plan)?;
        start += txns.len();
    }
    Ok(plans)
}
