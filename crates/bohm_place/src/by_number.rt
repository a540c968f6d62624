//! A planning worker that looks up placeholders by key number.

ghost use Rattle.std.specs.Prelude.{◌≡◌, ℕ, ◌+◌, ◌++◌, ◌<◌, ◌≤◌, [], length, map};
ghost use Rattle.std.specs.Prelude.{All, OnOk, IfOk, slice_index_or, slice_set, if◌then◌else◌};
ghost use Rattle.bohm_log.specs.Parts.{name_at, names_at};
ghost use Rattle.bohm_log.specs.Columns.{AllNamed};
ghost use Rattle.bohm_log.specs.Numbering.{Numbers};
ghost use Rattle.bohm_place.specs.Shares.{AreDistinct, keys_of, found_by, ahead_of};
ghost use Rattle.bohm_place.specs.Numbered.{IsCovered, IsFoundByNumber};
ghost use Rattle.bohm_place.specs.Planners.{mine, found_of_number, ArePlacedByNumber, Knows};
ghost use Rattle.bohm_place.specs.declared.worker.Known.TheVariants.{Nothing};
ghost use Rattle.bohm_types.specs.Limits.{most_keys};

use crate::newest::Newest;
use crate::partition::Partition;
use crate::placeholder::Placeholder;
use crate::unplanned::UnplannedBatch;
use crate::worker::{Known, Worker, WorkerKeys};
use bohm_log::DeclaredKeys;
use bohm_types::NoMemory;
use std::alloc::Global;
use std::mem;

/// A worker, and its own array.
#[derive(Drop)]
pub struct NumberJob {
    pub worker: Worker,
    pub newest: Newest,
}

/// A worker's result: the placeholder of the source for each access of its keys, `none` for each
/// other access, and its array.
#[derive(Drop)]
pub struct FoundByNumber {
    pub found: Vec<Placeholder>,
    pub newest: Newest,
}

/// A worker that looks up placeholders by key number.
#[derive(Drop)]
pub struct NumberPlanner<'a, P> {
    keys: WorkerKeys<'a, P>,
    declared: DeclaredKeys<'a>,
    batch: UnplannedBatch<'a>,
}

// Nothing is known of the parts of this many keys. A single worker needs to know none.
fn nothing_known(alloc: Global, worker: Worker, keys: usize) -> Result<Vec<Known>, NoMemory>
    ensures long { IfOk result (λ v. 1 < worker.count → keys ≤ length v.items) }
    ensures nothing { IfOk result (λ v. (n : ℕ) → slice_index_or v.items n Nothing ≡ Nothing) }
{
    let mut known = Vec::new(alloc);
    if worker.count > 1 {
        known.resize(keys, Known::Nothing)?;
    }
    Ok(known)
}

impl<'a, P: Partition> NumberPlanner<'a, P> {
    // Whether the worker has the key with this number. A key's part is looked up once; a single
    // worker has every key, and doesn't call the partition.
    fn has(&self, known: &mut [Known], number: u32) -> bool
        requires named { number < length self.now.declared.names }
        requires known { Knows P.part_of self.now known.old }
        ensures has { result
            ≡ mine P.part_of self.now.keys (name_at self.now.declared.names number) }
        ensures known { Knows P.part_of self.now known.new }
    {
        if self.keys.worker.count == 1 {
            return true;
        }
        match known[number as usize] {
            Known::Own => true,
            Known::Foreign => false,
            Known::Nothing => {
                let key = self.declared.names().name(number as usize);
                let has = self.keys.worker.has(self.keys.partition.part(key));
                known[number as usize] = Known::from(has);
                has
            }
        }
    }

    // The placeholder of the source of a read of the key.
    fn find(&self, newest: &[Placeholder], known: &mut [Known], number: u32) -> Placeholder
        requires named { number < length self.now.declared.names }
        requires long { length self.now.declared.names ≤ length newest.now }
        requires known { Knows P.part_of self.now known.old }
        ensures found { result ≡ found_of_number P.part_of self.now newest.now number }
        ensures known { Knows P.part_of self.now known.new }
    {
        if !self.has(known, number) {
            return Placeholder::none();
        }
        newest[number as usize].within(self.batch.first)
    }

    // Returns the placeholder of the source of a write of the key. The write's own placeholder
    // replaces it.
    fn find_and_place(
        &self,
        newest: &mut [Placeholder],
        known: &mut [Known],
        number: u32,
        next: Placeholder,
    ) -> Placeholder
        requires named { number < length self.now.declared.names }
        requires long { length self.now.declared.names ≤ length newest.old }
        requires known { Knows P.part_of self.now known.old }
        ensures found { result ≡ found_of_number P.part_of self.now newest.old number }
        ensures placed { newest.new
            ≡ (if mine P.part_of self.now.keys (name_at self.now.declared.names number)
            then slice_set newest.old number next else newest.old) }
        ensures known { Knows P.part_of self.now known.new }
    {
        if !self.has(known, number) {
            return Placeholder::none();
        }
        mem::replace(&mut newest[number as usize], next).within(self.batch.first)
    }

    fn find_reads(
        &self,
        newest: &[Placeholder],
        known: &mut [Known],
        numbers: &[u32],
        found: &mut Vec<Placeholder>,
    ) -> Result<(), NoMemory>
        requires named { AllNamed self.now.declared.names numbers.now }
        requires long { length self.now.declared.names ≤ length newest.now }
        requires known { Knows P.part_of self.now known.old }
        ensures found { OnOk result (found.new.items ≡ found.old.items
            ++ map (found_of_number P.part_of self.now newest.now) numbers.now) }
        ensures known { Knows P.part_of self.now known.new }
    {
        for place in 0..numbers.len() {
            found.push(self.find(newest, known, numbers[place]))?;
        }
        Ok(())
    }

    fn find_and_place_writes(
        &self,
        newest: &mut [Placeholder],
        known: &mut [Known],
        ts: u32,
        numbers: &[u32],
        found: &mut Vec<Placeholder>,
    ) -> Result<(), NoMemory>
        requires covered { IsCovered self.now.declared.names newest.old }
        requires named { AllNamed self.now.declared.names numbers.now }
        requires timestamp { self.now.batch.first ≤ ts }
        requires few { length numbers.now ≤ most_keys }
        requires distinct { AreDistinct (names_at self.now.declared.names numbers.now) }
        requires known { Knows P.part_of self.now known.old }
        ensures found { OnOk result (found.new.items ≡ found.old.items
            ++ map (found_of_number P.part_of self.now newest.old) numbers.now) }
        ensures placed { OnOk result
            (ArePlacedByNumber P.part_of self.now ts numbers.now newest.old newest.new) }
        ensures known { Knows P.part_of self.now known.new }
    {
        for place in 0..numbers.len() {
            let next = Placeholder {
                begin: ts,
                index: place as u32,
            };
            found.push(self.find_and_place(newest, known, numbers[place], next))?;
        }
        Ok(())
    }

    fn find_all(
        &self,
        alloc: Global,
        newest: &mut [Placeholder],
        known: &mut [Known],
    ) -> Result<Vec<Placeholder>, NoMemory>
        requires numbers { Numbers self.now.declared self.now.batch.txns.now }
        requires long { length self.now.declared.names ≤ length newest.old }
        requires earlier { All (λ v. v.begin < self.now.batch.first) newest.old }
        requires known { Knows P.part_of self.now known.old }
        ensures found { IfOk result (λ v. v.items ≡ found_by (mine P.part_of self.now.keys)
            (ahead_of self.now.batch.first) [] self.now.batch.txns.now) }
        ensures long { OnOk result (length newest.new ≡ length newest.old) }
        ensures below { OnOk result (All
            (λ v. v.begin < self.now.batch.first + length self.now.batch.txns.now) newest.new) }
    {
        let mut found = Vec::with_capacity(alloc, self.batch.accesses)?;
        for i in 0..self.batch.txns.len() {
            let ts = self.batch.first + i as u32;
            let (reads, writes) = self.declared.sets(i);
            self.find_reads(newest, known, reads, &mut found)?;
            self.find_and_place_writes(newest, known, ts, writes, &mut found)?;
        }
        Ok(found)
    }
}

/// Goes through all transactions in log order, finds the sources of the accesses of the worker's
/// keys, and adds the placeholders of their writes.
pub fn plan_numbers<P: Partition>(
    alloc: Global,
    job: NumberJob,
    batch: UnplannedBatch<'_>,
    partition: &P,
) -> Result<FoundByNumber, NoMemory>
    requires { All (λ v. v.begin < batch.first) job.newest }
    ensures { IfOk result (λ f. IsFoundByNumber
        (keys_of (P.part_of partition.now) job.worker.count job.worker.number)
        batch.entry.first batch.entry.txns.now f.found.items f.newest) }
{
    let NumberJob { worker, mut newest } = job;
    let declared = batch.txns.keys();
    let names = declared.names().len();
    newest.cover(names)?;
    let mut known = nothing_known(alloc, worker, names)?;
    let mut placeholders = newest.into_placeholders();
    let planner = NumberPlanner {
        keys: WorkerKeys { worker, partition },
        declared,
        batch,
    };
    let found = planner.find_all(alloc, placeholders.as_mut_slice(), known.as_mut_slice())?;
    Ok(FoundByNumber {
        found,
        newest: Newest::from_placeholders(placeholders),
    })
}
