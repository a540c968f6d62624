//! Planning a batch by key, with whole chains.

ghost use Rattle.std.specs.Prelude.{◌≡◌, ◌≢◌, ℕ, List, ◌+◌, ◌++◌, ◌<◌};
ghost use Rattle.std.specs.Prelude.{length, All, IfOk, slice_index_or};
ghost use denote.Param.Send.{IsSync};
ghost use Rattle.bohm_place.specs.Chains.{chain_in};
ghost use Rattle.bohm_place.specs.Writers.{writers};
ghost use Rattle.bohm_place.specs.Plans.{IsPlannable, IsPlanned};
ghost use Rattle.bohm_place.specs.Shares.{AreParts, CanPlace, IsFoundIn};

use crate::by_key::{FoundInParts, PartsJob, plan_in_parts};
use crate::deal::{deal, gather};
use crate::partition::Partition;
use crate::planned::Plan;
use crate::row::{Row, rows};
use crate::shards::Shards;
use crate::unplanned::UnplannedBatch;
use bohm_log::LogPart;
use bohm_types::NoMemory;
use std::alloc::Global;
use std::snapshot::Snapshot;
use std::thread;
use std::thread::Threads;

// A law of the partition, for callers that share it among threads.
pub(crate) fn each_key_has_a_part<P: Partition>(partition: &P)
    ensures { AreParts (P.part_of partition.now) (P.count partition.now) }
{
    // Only the contract needs the partition.
    let _ = partition;
}

// The number of accesses in these rows.
pub(crate) fn accesses(rows: &[Row]) -> usize {
    match rows.last() {
        Some(row) => row
            .start
            .saturating_add((row.reads as usize) + (row.writes as usize)),
        None => 0,
    }
}

// Runs each worker's job. Several jobs run in separate threads.
fn plan_all<P: Partition, R: Threads + Sync>(
    rt: &R,
    alloc: Global,
    jobs: Vec<PartsJob>,
    batch: UnplannedBatch<'_>,
    partition: &P,
) -> Result<Vec<Result<FoundInParts, NoMemory>>, NoMemory>
    requires { All (λ job. CanPlace (P.part_of partition.now) (P.count partition.now)
        job.worker.count job.worker.number batch.first job.parts.items) jobs.items }
    ensures count { IfOk result (λ each. length each.items ≡ length jobs.items) }
    ensures each { IfOk result (λ each. (w : ℕ) (d : _) (e : _) → w < length jobs.items
        → let job = slice_index_or jobs.items w d in IfOk (slice_index_or each.items w e)
        (λ f. IsFoundIn (P.part_of partition.now) job.worker.count job.worker.number
        batch.entry.first batch.entry.txns.now job.parts.items f.found.items f.parts.items)) }
{
    let each = thread::map_vec(
        rt,
        jobs,
        &|job: PartsJob| -> Result<FoundInParts, NoMemory>
            requires { IsSync P.row
                × CanPlace (P.part_of partition.now) (P.count partition.now)
                job.worker.count job.worker.number batch.first job.parts.items }
            ensures { IfOk result (λ f. IsFoundIn (P.part_of partition.entry.now)
                job.worker.count job.worker.number batch.entry.first batch.entry.txns.now
                job.parts.items f.found.items f.parts.items) }
        { plan_in_parts(alloc, job, batch, partition) },
    )?;
    Ok(each)
}

/// Plans a batch: finds for each access of its transactions, in log order, the newest earlier
/// writer of the key in the batch, and adds each declared write to its key's chain. An access
/// without such a writer has the index 0, so the plan is the same for every number of workers and
/// every partition. Worker i of `cc` takes the parts whose number is i modulo `cc`; each worker
/// goes through all transactions, and several workers run in separate threads.
///
/// An error drops the shards. The time of a worker grows with the number of accesses, and with one
/// look-up for each access of its keys. Before that, one thread takes time that grows with the
/// number of statements and terms.
pub fn plan<P: Partition, R: Threads + Sync>(
    rt: &R,
    alloc: Global,
    shards: Shards,
    first: u32,
    txns: &LogPart<'_>,
    cc: u32,
    partition: &P,
) -> Result<(Shards, Plan), NoMemory>
    requires workers { 0 < cc }
    requires plannable { IsPlannable first txns.now }
    requires parts { length shards ≡ P.count partition.now }
    requires earlier { (k : List ℕ)
        → All (λ b. b < first) (chain_in (P.part_of partition.now) shards k) }
    ensures planned { IfOk result (λ r. IsPlanned first txns.now r.1) }
    ensures parts { IfOk result (λ r. length r.0 ≡ length shards) }
    ensures chains { IfOk result (λ r. (k : List ℕ)
        → chain_in (P.part_of partition.now) r.0 k
        ≡ chain_in (P.part_of partition.now) shards k ++ writers first txns.now k) }
    ensures others { IfOk result (λ r. (i : ℕ) (k : List ℕ) → i < length shards
        → P.part_of partition.now k ≢ i → chain_in (λ _. i) r.0 k ≡ chain_in (λ _. i) shards k) }
    ensures below { IfOk result
        (λ r. (k : List ℕ)
        → All (λ b. b < first + length txns.now) (chain_in (P.part_of partition.now) r.0 k)) }
{
    let workers = cc.min(partition.parts()) as usize;
    let (rows, slots) = rows(alloc, txns)?;
    let batch = UnplannedBatch {
        first,
        txns,
        accesses: accesses(&rows),
    };
    let mut parts = shards.into_parts();
    let given = Snapshot::of(&parts);
    each_key_has_a_part(partition);
    let jobs = deal(alloc, parts.as_mut_slice(), workers)?;
    let each = plan_all(rt, alloc, jobs, batch, partition)?;
    let found = gather(alloc, parts.as_mut_slice(), each, batch, partition, given)?;
    Ok((
        Shards::from_parts(parts),
        Plan::new(first, found, rows, slots),
    ))
}
