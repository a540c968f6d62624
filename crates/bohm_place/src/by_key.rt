//! A planning worker that looks up placeholders by key.

ghost use Rattle.std.specs.Prelude.{◌≡◌, ℕ, List, ◌++◌, ◌<◌, ◌≤◌, [], length, map, OnOk, IfOk};
ghost use Rattle.bohm_place.specs.Chains.{placeholders_in};
ghost use Rattle.bohm_place.specs.Shares.{AreDistinct, CanPlace, IsFoundIn, KeepsForeign};
ghost use Rattle.bohm_place.specs.Shares.{found_by, newest_ahead};
ghost use Rattle.bohm_place.specs.Shares.{placeholders_written, placeholders_made};
ghost use Rattle.bohm_place.specs.Planners.{mine, found_in, IsBelow, IsPlaced, ArePlaced};
ghost use Rattle.bohm_types.specs.Limits.{most_keys};

use crate::partition::Partition;
use crate::placeholder::Placeholder;
use crate::places::Places;
use crate::unplanned::UnplannedBatch;
use crate::worker::{Worker, WorkerKeys};
use bohm_log::Keys;
use bohm_types::{Key, NoMemory};
use std::alloc::Global;

/// A worker, and a list of all parts. Only the worker's own parts have keys there, and no other
/// worker has these parts in the meantime.
#[derive(Drop)]
pub struct PartsJob {
    pub worker: Worker,
    pub parts: Vec<Places>,
}

/// A worker's result: the placeholder of the source for each access of its keys, `none` for each
/// other access, and its parts.
#[derive(Drop)]
pub struct FoundInParts {
    pub found: Vec<Placeholder>,
    pub parts: Vec<Places>,
}

/// A worker that looks up placeholders by key.
#[derive(Drop)]
pub struct KeyPlanner<'a, P> {
    keys: WorkerKeys<'a, P>,
    batch: UnplannedBatch<'a>,
}

impl<'a, P: Partition> KeyPlanner<'a, P> {
    // The placeholder of the source of a read of the key.
    fn find(&self, parts: &[Places], key: &Key) -> Placeholder
        requires { length parts.now ≡ P.count self.now.keys.partition.now }
        ensures { result ≡ found_in P.part_of self.now parts.now key.now }
    {
        let part = self.keys.partition.part(key);
        if !self.keys.worker.has(part) {
            return Placeholder::none();
        }
        parts[part as usize].newest(key).within(self.batch.first)
    }

    // Returns the placeholder of the source of a write of the key, and adds the write's own
    // placeholder.
    fn find_and_place(
        &self,
        alloc: Global,
        parts: &mut [Places],
        key: Key,
        next: Placeholder,
    ) -> Result<Placeholder, NoMemory>
        requires parts { length parts.old ≡ P.count self.now.keys.partition.now }
        requires timestamp { 0 < next.begin }
        requires above { IsBelow P.part_of self.now next.begin parts.old key }
        ensures found { IfOk result (λ v. v ≡ found_in P.part_of self.now parts.old key) }
        ensures placed { OnOk result (IsPlaced P.part_of self.now key next parts.old parts.new) }
        ensures others { OnOk result
            (KeepsForeign (P.part_of self.now.keys.partition.now) parts.old parts.new) }
    {
        let part = self.keys.partition.part(&key);
        if !self.keys.worker.has(part) {
            return Ok(Placeholder::none());
        }
        let newest = parts[part as usize].annotate(alloc, key, next)?;
        Ok(newest.within(self.batch.first))
    }

    fn find_reads(
        &self,
        parts: &[Places],
        keys: &Keys<'_>,
        found: &mut Vec<Placeholder>,
    ) -> Result<(), NoMemory>
        requires { length parts.now ≡ P.count self.now.keys.partition.now }
        ensures { OnOk result (found.new.items
            ≡ found.old.items ++ map (found_in P.part_of self.now parts.now) keys.now) }
    {
        for place in 0..keys.len() {
            found.push(self.find(parts, keys.key(place)))?;
        }
        Ok(())
    }

    fn find_and_place_writes(
        &self,
        alloc: Global,
        parts: &mut [Places],
        ts: u32,
        keys: &Keys<'_>,
        found: &mut Vec<Placeholder>,
    ) -> Result<(), NoMemory>
        requires parts { length parts.old ≡ P.count self.now.keys.partition.now }
        requires timestamp { 0 < ts }
        requires few { length keys.now ≤ most_keys }
        requires distinct { AreDistinct keys.now }
        requires above { (k : List ℕ) → IsBelow P.part_of self.now ts parts.old k }
        ensures found { OnOk result (found.new.items
            ≡ found.old.items ++ map (found_in P.part_of self.now parts.old) keys.now) }
        ensures placed { OnOk result (ArePlaced P.part_of self.now
            (placeholders_written ts 0 keys.now) parts.old parts.new) }
        ensures others { OnOk result
            (KeepsForeign (P.part_of self.now.keys.partition.now) parts.old parts.new) }
    {
        for i in 0..keys.len() {
            let next = Placeholder {
                begin: ts,
                index: i as u32,
            };
            let newest = self.find_and_place(alloc, parts, *keys.key(i), next)?;
            found.push(newest)?;
        }
        Ok(())
    }

    fn find_all(&self, alloc: Global, parts: &mut [Places]) -> Result<Vec<Placeholder>, NoMemory>
        requires parts { length parts.old ≡ P.count self.now.keys.partition.now }
        requires earlier { (k : List ℕ)
            → IsBelow P.part_of self.now self.now.batch.first parts.old k }
        ensures found { IfOk result (λ v. v.items
            ≡ found_by (mine P.part_of self.now.keys) (newest_ahead self.now.batch.first
            (placeholders_in (P.part_of self.now.keys.partition.now) parts.old))
            [] self.now.batch.txns.now) }
        ensures placed { OnOk result (ArePlaced P.part_of self.now
            (placeholders_made self.now.batch.first self.now.batch.txns.now)
            parts.old parts.new) }
        ensures others { OnOk result
            (KeepsForeign (P.part_of self.now.keys.partition.now) parts.old parts.new) }
    {
        let mut found = Vec::with_capacity(alloc, self.batch.accesses)?;
        for i in 0..self.batch.txns.len() {
            let ts = self.batch.first + i as u32;
            let txn = self.batch.txns.txn(i);
            let reads = txn.reads();
            let writes = txn.writes();
            self.find_reads(parts, &reads, &mut found)?;
            self.find_and_place_writes(alloc, parts, ts, &writes, &mut found)?;
        }
        Ok(found)
    }
}

/// Goes through all transactions in log order, finds the sources of the accesses of the worker's
/// keys, and adds the placeholders of their writes.
pub fn plan_in_parts<P: Partition>(
    alloc: Global,
    mut job: PartsJob,
    batch: UnplannedBatch<'_>,
    partition: &P,
) -> Result<FoundInParts, NoMemory>
    requires { CanPlace (P.part_of partition.now) (P.count partition.now)
        job.worker.count job.worker.number batch.first job.parts.items }
    ensures { IfOk result (λ f. IsFoundIn (P.part_of partition.now) job.worker.count
        job.worker.number batch.entry.first batch.entry.txns.now job.parts.items
        f.found.items f.parts.items) }
{
    let keys = WorkerKeys {
        worker: job.worker,
        partition,
    };
    let planner = KeyPlanner { keys, batch };
    let found = planner.find_all(alloc, job.parts.as_mut_slice())?;
    Ok(FoundInParts {
        found,
        parts: job.parts,
    })
}
