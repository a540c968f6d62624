//! Dividing the parts among workers, and collecting them.

ghost use Rattle.std.specs.Prelude.{◌≡◌, ◌≢◌, ℕ, List, ◌++◌, ◌%◌, ◌<◌, ◌==◌, [], length, nat_lt};
ghost use Rattle.std.specs.Prelude.{IfOk, OnOk, slice_get, slice_index_or, if◌then◌else◌};
ghost use Rattle.bohm_place.specs.Chains.{placeholders_in};
ghost use Rattle.bohm_place.specs.Shares.{AreParts, HasPartsOf, KeepsOthers, IsFoundInAll};
ghost use Rattle.bohm_place.specs.Shares.{found_by, newest_ahead, placeholders_made};

use crate::by_key::{FoundInParts, PartsJob};
use crate::partition::Partition;
use crate::placeholder::{Placeholder, join};
use crate::places::Places;
use crate::shards::empty_parts;
use crate::unplanned::UnplannedBatch;
use crate::worker::Worker;
use bohm_log::{FixedSeed, HashSeed};
use bohm_types::NoMemory;
use std::alloc::Global;
use std::mem;
use std::snapshot::Snapshot;

// Exchanges the parts of one worker.
fn swap_parts<T>(a: &mut [T], b: &mut [T], worker: Worker)
    requires { length a.old ≡ length b.old }
    ensures a { (p : ℕ) → p < length a.old → slice_get a.new p
        ≡ (if ((p % worker.count) == worker.number)
        then slice_get b.old p else slice_get a.old p) }
    ensures b { (p : ℕ) → p < length a.old → slice_get b.new p
        ≡ (if ((p % worker.count) == worker.number)
        then slice_get a.old p else slice_get b.old p) }
{
    for p in 0..a.len() {
        if p % worker.count == worker.number {
            mem::swap(&mut a[p], &mut b[p]);
        }
    }
}

// Takes out the parts of one worker, and leaves empty parts instead, which get no keys.
fn take_parts(alloc: Global, parts: &mut [Places], worker: Worker) -> Result<Vec<Places>, NoMemory>
    ensures count { IfOk result (λ own. length own.items ≡ length parts.old) }
    ensures taken { IfOk result
        (λ own. HasPartsOf worker.count worker.number parts.old own.items) }
    ensures others { OnOk result (KeepsOthers worker.count worker.number parts.old parts.new) }
{
    let mut own = empty_parts(alloc, parts.len(), HashSeed::from(FixedSeed))?;
    swap_parts(parts, own.as_mut_slice(), worker);
    Ok(own)
}

/// A job for each worker, with its parts.
pub fn deal(alloc: Global, parts: &mut [Places], workers: usize) -> Result<Vec<PartsJob>, NoMemory>
    ensures count { IfOk result (λ jobs. length jobs.items ≡ workers) }
    ensures workers { IfOk result (λ jobs. (w : ℕ) (d : _) → w < workers
        → ((slice_index_or jobs.items w d).worker.number ≡ w)
        × ((slice_index_or jobs.items w d).worker.count ≡ workers)) }
    ensures own { IfOk result (λ jobs. (w : ℕ) (d : _) → w < workers
        → HasPartsOf workers w parts.old (slice_index_or jobs.items w d).parts.items) }
    ensures parts { IfOk result (λ jobs. (w : ℕ) (d : _) → w < workers
        → length (slice_index_or jobs.items w d).parts.items ≡ length parts.old) }
{
    let mut jobs = Vec::with_capacity(alloc, workers)?;
    for number in 0..workers {
        let worker = Worker {
            number,
            count: workers,
        };
        let own = take_parts(alloc, parts, worker)?;
        jobs.push(PartsJob { worker, parts: own })?;
    }
    Ok(jobs)
}

/// Puts the parts back where `deal` took them from, and joins the placeholders that the workers
/// found.
pub fn gather<P: Partition>(
    alloc: Global,
    parts: &mut [Places],
    mut each: Vec<Result<FoundInParts, NoMemory>>,
    batch: UnplannedBatch<'_>,
    partition: &P,
    given: Snapshot<Vec<Places>>,
) -> Result<Vec<Placeholder>, NoMemory>
    requires law { AreParts (P.part_of partition.now) (P.count partition.now) }
    requires some { 0 < length each.items }
    requires parts { length parts.old ≡ P.count partition.now }
    requires given { length given.value.items ≡ P.count partition.now }
    requires each { (w : ℕ) (d : _) → w < length each.items → IfOk (slice_index_or each.items w d)
        (λ f. IsFoundInAll (P.part_of partition.now) (length each.items) w batch.first
        batch.txns.now given.value.items f.found.items f.parts.items) }
    ensures found { IfOk result (λ v. v.items ≡ found_by
        (λ k. nat_lt (P.part_of partition.now k % length each.items) (length each.items))
        (newest_ahead batch.entry.first
        (placeholders_in (P.part_of partition.now) given.value.items)) [] batch.entry.txns.now) }
    ensures chains { OnOk result ((k : List ℕ)
        → placeholders_in (P.part_of partition.now) parts.new k
        ≡ placeholders_in (P.part_of partition.now) given.value.items k
        ++ placeholders_made batch.entry.first batch.entry.txns.now k) }
    ensures others { OnOk result ((i : ℕ) (k : List ℕ) → i < P.count partition.now
        → P.part_of partition.now k ≢ i
        → placeholders_in (λ _. i) parts.new k ≡ placeholders_in (λ _. i) given.value.items k) }
{
    let count = each.len();
    let mut found = Vec::new(alloc);
    for number in 0..count {
        let worker = Worker { number, count };
        let FoundInParts {
            found: more,
            parts: mut own,
        } = mem::replace(&mut each[number], Err(NoMemory))?;
        swap_parts(parts, own.as_mut_slice(), worker);
        if number == 0 {
            found = more;
        } else {
            join(found.as_mut_slice(), &more);
        }
    }
    Ok(found)
}
