//! Planning a batch by the numbers of keys, by several workers.

ghost use Rattle.std.specs.Prelude.{◌≡◌, ℕ, ◌+◌, ◌%◌, ◌<◌, [], length, nat_lt};
ghost use Rattle.std.specs.Prelude.{All, IfOk, slice_index_or};
ghost use denote.Param.Send.{IsSync};
ghost use Rattle.bohm_place.specs.Plans.{IsPlannable, IsPlanned};
ghost use Rattle.bohm_place.specs.Shares.{keys_of, found_by, ahead_of};
ghost use Rattle.bohm_place.specs.Numbered.{IsFoundByNumber};

use crate::by_number::{FoundByNumber, NumberJob, plan_numbers};
use crate::newest::Newest;
use crate::partition::Partition;
use crate::placeholder::{Placeholder, join};
use crate::planned::Plan;
use crate::planning::accesses;
use crate::row::rows;
use crate::unplanned::UnplannedBatch;
use crate::worker::Worker;
use bohm_log::LogPart;
use bohm_types::NoMemory;
use std::alloc::Global;
use std::thread::Threads;
use std::{mem, thread};

// A job for each array.
fn jobs(alloc: Global, mut arrays: Vec<Newest>) -> Result<Vec<NumberJob>, NoMemory>
    ensures count { IfOk result (λ jobs. length jobs.items ≡ length arrays.items) }
    ensures workers { IfOk result (λ jobs. (w : ℕ) (d : _) → w < length arrays.items
        → ((slice_index_or jobs.items w d).worker.number ≡ w)
        × ((slice_index_or jobs.items w d).worker.count ≡ length arrays.items)) }
    ensures below { IfOk result (λ jobs. (t : ℕ)
        → All (λ a. All (λ v. v.begin < t) a) arrays.items
        → All (λ j. All (λ v. v.begin < t) j.newest) jobs.items) }
{
    let count = arrays.len();
    let mut jobs = Vec::with_capacity(alloc, count)?;
    for number in 0..count {
        let worker = Worker { number, count };
        let newest = mem::replace(&mut arrays[number], Newest::new(alloc));
        jobs.push(NumberJob { worker, newest })?;
    }
    Ok(jobs)
}

// Runs each worker's job. Several jobs run in separate threads.
fn plan_all<P: Partition, R: Threads + Sync>(
    rt: &R,
    alloc: Global,
    jobs: Vec<NumberJob>,
    batch: UnplannedBatch<'_>,
    partition: &P,
) -> Result<Vec<Result<FoundByNumber, NoMemory>>, NoMemory>
    requires { All (λ j. All (λ v. v.begin < batch.first) j.newest) jobs.items }
    ensures count { IfOk result (λ each. length each.items ≡ length jobs.items) }
    ensures each { IfOk result (λ each. (w : ℕ) (d : _) (e : _) → w < length jobs.items
        → let worker = (slice_index_or jobs.items w d).worker in
        IfOk (slice_index_or each.items w e) (λ f. IsFoundByNumber
        (keys_of (P.part_of partition.now) worker.count worker.number)
        batch.entry.first batch.entry.txns.now f.found.items f.newest)) }
{
    let each = thread::map_vec(
        rt,
        jobs,
        &|job: NumberJob| -> Result<FoundByNumber, NoMemory>
            requires { IsSync P.row × All (λ v. v.begin < batch.first) job.newest }
            ensures { IfOk result (λ f. IsFoundByNumber
                (keys_of (P.part_of partition.entry.now) job.worker.count job.worker.number)
                batch.entry.first batch.entry.txns.now f.found.items f.newest) }
        { plan_numbers(alloc, job, batch, partition) },
    )?;
    Ok(each)
}

// Collects the arrays, and joins the placeholders that the workers found.
fn gather<P: Partition>(
    alloc: Global,
    mut each: Vec<Result<FoundByNumber, NoMemory>>,
    batch: UnplannedBatch<'_>,
    partition: &P,
) -> Result<(Vec<Newest>, Vec<Placeholder>), NoMemory>
    requires some { 0 < length each.items }
    requires each { (w : ℕ) (d : _) → w < length each.items
        → IfOk (slice_index_or each.items w d) (λ f. IsFoundByNumber
        (keys_of (P.part_of partition.now) (length each.items) w)
        batch.first batch.txns.now f.found.items f.newest) }
    ensures count { IfOk result (λ r. length r.0.items ≡ length each.items) }
    ensures below { IfOk result (λ r. All
        (λ a. All (λ v. v.begin < batch.entry.first + length batch.entry.txns.now) a) r.0.items) }
    ensures found { IfOk result (λ r. r.1.items
        ≡ found_by (λ k. nat_lt (P.part_of partition.now k % length each.items)
        (length each.items)) (ahead_of batch.entry.first) [] batch.entry.txns.now) }
{
    let count = each.len();
    let mut arrays = Vec::with_capacity(alloc, count)?;
    let mut found = Vec::new(alloc);
    for number in 0..count {
        let FoundByNumber {
            found: more,
            newest,
        } = mem::replace(&mut each[number], Err(NoMemory))?;
        arrays.push(newest)?;
        if number == 0 {
            found = more;
        } else {
            join(found.as_mut_slice(), &more);
        }
    }
    Ok((arrays, found))
}

/// Plans a batch by the numbers of its log's keys, as `plan_alone` does, with one worker for each
/// array; several workers run in separate threads. Worker i of n takes the keys whose part is i
/// modulo n, and each worker goes through all transactions. The plan is the same for every number
/// of workers and every partition.
///
/// The arrays are those that planning the previous batch returned, or new ones; their number may
/// change from batch to batch. An error drops them. The time of a worker grows with the number of
/// accesses, with a call of the partition for each key that they name if there are several workers,
/// and with the number of the log's keys. Before that, one thread takes time that
/// grows with the number of statements and terms, and after it, to join the results, time that
/// grows with the number of accesses times the number of workers.
pub fn plan_by_number<P: Partition, R: Threads + Sync>(
    rt: &R,
    alloc: Global,
    newest: Vec<Newest>,
    first: u32,
    txns: &LogPart<'_>,
    partition: &P,
) -> Result<(Vec<Newest>, Plan), NoMemory>
    requires workers { 0 < length newest.items }
    requires plannable { IsPlannable first txns.now }
    requires earlier { All (λ a. All (λ v. v.begin < first) a) newest.items }
    ensures planned { IfOk result (λ r. IsPlanned first txns.now r.1) }
    ensures arrays { IfOk result (λ r. length r.0.items ≡ length newest.items) }
    ensures below { IfOk result
        (λ r. All (λ a. All (λ v. v.begin < first + length txns.now) a) r.0.items) }
{
    let (rows, slots) = rows(alloc, txns)?;
    let batch = UnplannedBatch {
        first,
        txns,
        accesses: accesses(&rows),
    };
    let jobs = jobs(alloc, newest)?;
    let each = plan_all(rt, alloc, jobs, batch, partition)?;
    let (newest, found) = gather(alloc, each, batch, partition)?;
    Ok((newest, Plan::new(first, found, rows, slots)))
}
