//! A machine that log segments are applied to.

ghost use Rattle.std.specs.Prelude.{◌≡◌, ℕ, ◌<◌, ◌≤◌, ◌↔◌, ◌++◌, List, []};
ghost use Rattle.std.specs.Prelude.{length, max, min, take, true, is_ok};
ghost use Rattle.std.specs.Prelude.{Err, Ok, IfOk, IfErr, OnOk, OnErr};
ghost use Rattle.std.specs.FinMap.{entries};
ghost use Rattle.std.specs.List.{IsDistinct};
ghost use Rattle.std.specs.Map.{keys_of};
ghost use Rattle.std.specs.Str.{bytes_eq};
ghost use Rattle.bohm_types.specs.Appending.{empty_document};
ghost use Rattle.bohm_types.specs.Keys.{rising, names_of};
ghost use Rattle.bohm_txn.specs.Serial.{replies};
ghost use Rattle.bohm_txn.specs.Stores.{cell_in, store_of};
ghost use Rattle.bohm_store.specs.Versions.{kept_versions, most_counted, total, versions};
ghost use Rattle.bohm_store.specs.declared.fault.PastFault.TheVariants as past_is;
ghost use Rattle.bohm_store.specs.declared.fault.StoreFault.TheVariants as store_is;
ghost use Rattle.bohm_machine.specs.Machines.{GoesOn, HasRun, floor_of, now_of, past_of, top_of};
ghost use Rattle.bohm_machine.specs.Segments.{AreWholeBatches, IsRefused, IsTaken, RunsOn};
ghost use Rattle.bohm_types.specs.Limits.{largest_batch};

use crate::fault::SegmentFault;
use bohm_apply::{Applied, ByteSum, Cuts, Kept, LARGEST_BATCH, SerialExecutor, Settings, apply};
use bohm_exec::OpenGate;
use bohm_hints::IndexHints;
use bohm_log::{DrawnSeed, HashSeed, SharedNames};
use bohm_procedures::Calls;
use bohm_store::{History, PastFault, StoreFault};
use bohm_txn::{Checked, Replies};
use bohm_types::{Cell, Edition, Key, NoMemory, Value};
use std::alloc::Global;
use std::marker::Model;
use std::sync::Wait;
use std::thread::Threads;

/// A store with its past from a floor up to a top, which are timestamps. Log segments are applied
/// to it, one after another, each after the top.
pub struct Machine {
    seed: DrawnSeed,
    pub(crate) history: History,
    pub(crate) executor: SerialExecutor,
    /// The index hints of the lists that `run_batch` and `finish` ran.
    pub(crate) hints: IndexHints,
}

// Written out: a derived drop is proved anew in each function that drops such a value.
impl Drop for Machine {
    fn drop(self) {
        let Self {
            seed: _,
            history,
            executor,
            hints,
        } = self;
        drop(history);
        drop(executor);
        drop(hints);
    }
}

impl Model for Machine {
    ghost use Rattle.bohm_store.specs.Versions.{Timeline};

    ghost Value = { Timeline };

    ghost view = { λ m. m.history };
}

impl Machine {
    /// Creates the machine of a store as it is after the transaction with the timestamp `top`; a
    /// new machine has the empty store at 0. The entries are in ascending order of their keys. Keys
    /// are hashed with the seed. The time and the memory grow with the number of entries.
    pub fn restore(
        alloc: Global,
        seed: DrawnSeed,
        store: &[(Key, Value)],
        top: u32,
    ) -> Result<Machine, NoMemory>
        requires { rising (names_of store.now) ≡ true }
        ensures top { IfOk result (λ m. top_of m ≡ top) }
        ensures floor { IfOk result (λ m. floor_of m ≡ top) }
        ensures past { IfOk result (λ m. past_of m top ≡ cell_in (store_of store.now)) }
        ensures run { IfOk result (HasRun (cell_in (store_of store.now)) top []) }
        ensures names { IfOk result (λ m. keys_of m.chains ≡ names_of store.now) }
        ensures count { IfOk result (λ m. total m.chains ≡ length store.now) }
    {
        let history = History::restore_sharing(alloc, store, top, seed)?;
        let executor = SerialExecutor::new(alloc)?;
        Ok(Machine {
            seed,
            history,
            executor,
            hints: IndexHints::new(alloc),
        })
    }

    /// An empty list of calls of procedures of this edition. It shares the names of the keys that
    /// the store had when the machine was made: such a key has the same number in the machine and
    /// in all these lists. Any list runs on any machine; calls on these keys cost least if the
    /// names are shared.
    pub fn calls(&self, alloc: Global, edition: Edition) -> Result<Calls, NoMemory>
        ensures { IfOk result (λ c. c ≡ empty_document edition) }
    {
        let names = self.shared_names()?;
        Ok(Calls::sharing(alloc, self.seed, edition, names))
    }

    /// The names of the keys that the store had when the machine was made, for lists of calls to
    /// share. Nothing is copied.
    pub fn shared_names(&self) -> Result<SharedNames<HashSeed>, NoMemory> {
        self.history.shared_names()
    }

    /// The seed with which it hashes keys.
    pub fn seed(&self) -> DrawnSeed {
        self.seed
    }

    /// The lowest timestamp whose past is kept.
    pub fn floor(&self) -> u32
        ensures { result ≡ floor_of self.now }
    {
        self.history.floor()
    }

    /// The timestamp of the last transaction.
    pub fn top(&self) -> u32
        ensures top { result ≡ top_of self.now }
        ensures ordered { floor_of self.now ≤ result }
    {
        self.history.top()
    }

    /// The number of keys that take memory, those without a value included: keys of the store, keys
    /// that were dropped, and keys that only aborted transactions wrote.
    pub fn key_count(&self) -> usize
        ensures { result ≡ length self.now.chains }
    {
        self.history.key_count()
    }

    /// The number of kept versions, or `u64::MAX` if there are more. The time grows with the number
    /// of keys.
    pub fn version_count(&self) -> u64
        ensures count { result ≡ min (total self.now.chains) most_counted }
        ensures distinct { IsDistinct bytes_eq (keys_of self.now.chains) }
    {
        self.history.version_count()
    }

    /// The cell of a key after the transaction with a timestamp. It fails with `Trimmed` below the
    /// floor, with `Future` above the top. The time is that of one look-up, and grows with the
    /// number of the key's versions that begin above the timestamp. It allocates nothing.
    pub fn value_at(&self, key: &Key, ts: u32) -> Result<Cell, PastFault>
        ensures trimmed { (result ≡ Err past_is.Trimmed) ↔ (ts < floor_of self.now) }
        ensures future { (result ≡ Err past_is.Future) ↔ (top_of self.now < ts) }
        ensures within { floor_of self.now ≤ ts → ts ≤ top_of self.now
            → result ≡ Ok (past_of self.now ts key.now) }
    {
        self.history.value_at(key, ts)
    }

    /// The store after the transaction with a timestamp: the keys that have a value, in ascending
    /// order, with their values. It fails with `Trimmed` below the floor and with `Future` above
    /// the top, which are decided before any allocation. At the top it is a snapshot that `restore`
    /// accepts. The time grows with the number n of all keys as n log n, and with the number of
    /// versions that ended above the timestamp.
    pub fn store_at(&self, alloc: Global, ts: u32) -> Result<Vec<(Key, Value)>, StoreFault>
        ensures trimmed { (result ≡ Err store_is.Trimmed) ↔ (ts < floor_of self.now) }
        ensures future { (result ≡ Err store_is.Future) ↔ (top_of self.now < ts) }
        ensures within { floor_of self.now ≤ ts → ts ≤ top_of self.now
            → OnErr result (result ≡ Err store_is.NoMemory) }
        ensures past { IfOk result (λ v. cell_in (store_of v.items) ≡ past_of self.now ts) }
        ensures entries { IfOk result (λ v. v.items ≡ entries (store_of v.items)) }
        ensures rises { IfOk result (λ v. rising (names_of v.items) ≡ true) }
    {
        self.history.store_at(alloc, ts)
    }

    /// If this floor is above the current one, it becomes the floor, and the past below it is
    /// dropped: at the top, each key keeps one version at most. The time grows with the number of
    /// versions that are dropped. It allocates nothing.
    pub fn trim(&mut self, floor: u32)
        requires { floor ≤ top_of self.old }
        ensures floor { floor_of self.new ≡ max (floor_of self.old) floor }
        ensures top { top_of self.new ≡ top_of self.old }
        ensures past { (ts : _) → floor_of self.new ≤ ts
            → past_of self.new ts ≡ past_of self.old ts }
        ensures versions { floor_of self.old < floor → (k : List ℕ)
            → versions self.new k ≡ kept_versions floor (versions self.old k) }
        ensures same { floor ≤ floor_of self.old → (k : List ℕ)
            → versions self.new k ≡ versions self.old k }
        ensures one { floor ≡ top_of self.old → (k : List ℕ) → length (versions self.new k) ≤ 1 }
        ensures count { total self.new.chains ≤ total self.old.chains }
        ensures run { (look : _) (start : _) (log : _) → HasRun look start log self.old
            → HasRun look start log self.new }
    {
        self.history.trim(floor);
    }

    /// Checks that a segment may run: it has no starting store, and its timestamps don't exceed
    /// 4294967295.
    pub(crate) fn admit(&self, segment: &Checked) -> Result<(), SegmentFault>
        ensures ok { OnOk result (IsTaken self.now segment.now) }
        ensures err { IfErr result (IsRefused self.now segment.now) }
        ensures ordered { floor_of self.now ≤ top_of self.now }
    {
        let left = u32::MAX - self.top();
        if !segment.store().is_empty() {
            return Err(SegmentFault::Store);
        }
        if (left as usize) < segment.log().len() {
            return Err(SegmentFault::Timestamps);
        }
        Ok(())
    }

    /// Runs the transactions of a segment as one batch, all of them or none, and appends their
    /// replies.
    pub(crate) fn run_admitted(
        &mut self,
        segment: &Checked,
        answered: &mut Replies,
    ) -> Result<(), NoMemory>
        requires taken { IsTaken self.old segment.now }
        requires ordered { floor_of self.old ≤ top_of self.old }
        ensures goes_on { OnOk result (GoesOn self.old self.new segment.now.log
            (replies (now_of self.old) segment.now.log)) }
        ensures answered { OnOk result
            (answered.new ≡ answered.old ++ replies (now_of self.old) segment.now.log) }
        ensures still { OnErr result (GoesOn self.old self.new [] []) }
        ensures unanswered { OnErr result (answered.new ≡ answered.old) }
    {
        let txns = segment.log();
        if txns.len() == 0 {
            return Ok(());
        }
        self.executor.run_batch(
            &mut self.history,
            answered,
            &txns,
            &mut self.hints,
            u32::MAX,
        )
    }

    /// Runs the transactions of a segment after the top, on the caller's thread, in batches of
    /// 4096. A segment is a checked log without a store. The replies are those of the serial run,
    /// and the first one is that of the transaction with the timestamp `top() + 1`. The floor is
    /// unchanged.
    ///
    /// If an allocation fails, the machine is at the end of a batch, and the replies up to there
    /// are returned: nothing is lost, and the rest can be applied again.
    ///
    /// The time grows with the number of the transactions' terms; if an allocation fails, also with
    /// the number of the machine's keys.
    pub fn apply(&mut self, alloc: Global, segment: &Checked) -> Result<Applied, SegmentFault>
        ensures taken { OnOk result (IsTaken self.old segment.now) }
        ensures refused { IfErr result (IsRefused self.old segment.now) }
        ensures unchanged { OnErr result (self.new ≡ self.old) }
        ensures goes_on { IfOk result
            (λ a. GoesOn self.old self.new (take (length a.replies) segment.now.log) a.replies) }
        ensures runs_on { IfOk result
            (λ a. RunsOn self.old self.new (take (length a.replies) segment.now.log) a.replies) }
        ensures batches { IfOk result
            (λ a. 0 < length a.replies → AreWholeBatches segment.now.log largest_batch (length a.replies)) }
        ensures whole { IfOk result
            (λ a. is_ok a.end ≡ true → length a.replies ≡ length segment.now.log) }
    {
        self.admit(segment)?;
        let txns = segment.log();
        match Cuts::even(alloc, txns.len() as u32, LARGEST_BATCH) {
            Ok(cuts) => {
                let history = &mut self.history;
                Ok(self.executor.apply(alloc, history, &txns, &cuts, u32::MAX))
            }
            Err(refusal) => Ok(unapplied(alloc, refusal)),
        }
    }

    /// Runs the transactions of a segment as `apply` does, with as many workers, partitions and
    /// transactions in a batch as the settings say. One executing worker runs them on the calling
    /// thread in log order; several execute plans, which a thread makes ahead. `keep` and `at` are
    /// ignored: the floor is unchanged.
    pub fn apply_on_workers<R: Threads + Wait + Sync>(
        &mut self,
        rt: &R,
        alloc: Global,
        segment: &Checked,
        settings: Settings,
    ) -> Result<Applied, SegmentFault>
        ensures taken { OnOk result (IsTaken self.old segment.now) }
        ensures refused { IfErr result (IsRefused self.old segment.now) }
        ensures unchanged { OnErr result (self.new ≡ self.old) }
        ensures goes_on { IfOk result
            (λ a. GoesOn self.old self.new (take (length a.replies) segment.now.log) a.replies) }
        ensures runs_on { IfOk result
            (λ a. RunsOn self.old self.new (take (length a.replies) segment.now.log) a.replies) }
        ensures batches { IfOk result
            (λ a. 0 < length a.replies
            → AreWholeBatches segment.now.log settings.batch (length a.replies)) }
        ensures whole { IfOk result
            (λ a. is_ok a.end ≡ true → length a.replies ≡ length segment.now.log) }
    {
        self.admit(segment)?;
        let Some(partition) = ByteSum::new(settings.parts()) else {
            unreachable!()
        };
        let txns = segment.log();
        let cuts = match Cuts::even(alloc, txns.len() as u32, settings.batch()) {
            Ok(cuts) => cuts,
            Err(refusal) => return Ok(unapplied(alloc, refusal)),
        };
        let (history, keep) = (&mut self.history, Kept::new(u32::MAX));
        if settings.exec().count() == 1 {
            return Ok(
                self.executor
                    .apply(alloc, history, &txns, &cuts, keep.timestamps()),
            );
        }
        let (cc, exec) = (settings.cc(), settings.exec());
        Ok(apply(
            rt, alloc, history, &txns, &cuts, cc, exec, keep, &partition, &OpenGate,
        ))
    }
}

/// The result if nothing was run.
pub(crate) fn unapplied(alloc: Global, refusal: NoMemory) -> Applied
    ensures replies { result.replies ≡ [] }
    ensures end { result.end ≡ Err refusal }
{
    Applied {
        replies: Replies::new(alloc),
        end: Err(refusal),
    }
}
