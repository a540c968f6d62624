//! Plans of a batch after an earlier batch, and the resulting chains.

ghost use Rattle.std.specs.Prelude.{◌≡◌, ◌%◌, ◌<◌, ℕ, List, [], length, slice_index};
ghost use Rattle.std.proofs.Math.Nat.{mod-lt};
ghost use Rattle.bohm_place.specs.Chains.{chain_in};
ghost use Rattle.bohm_place.specs.Plans.{IsRightPlan};

use crate::logs::checked;
use bohm_log::{DrawnSeed, LogPart};
use bohm_place::{
    Access, DeclaredSet, Newest, Partition, Plan, Shards, Source, plan, plan_by_number,
};
use bohm_txn::Checked;
use bohm_types::Key;
use std::alloc::Global;
use std::process::Abort;
use std::random::RandomSource;
use std::sync::atomic::{AtomicU64, Ordering};
use std::thread;
use std::thread::Threads;

/// A partition by a key's first byte.
#[derive(Drop)]
pub struct FirstByte {
    parts: u32,
    ghost some: { 0 < parts },
}

impl FirstByte {
    pub fn new(parts: u32) -> FirstByte
        requires { 0 < parts }
        ensures { result.parts ≡ parts }
    {
        FirstByte { parts }
    }
}

impl Partition for FirstByte {
    ghost count = { λ s. s.parts };

    ghost part_of = { λ s k. slice_index k 0 % s.parts };

    fn parts(&self) -> u32 {
        self.parts
    }

    fn part(&self, key: &Key) -> u32 {
        match key.text().as_slice() {
            [] => 0,
            [first, ..] => *first as u32 % self.parts,
        }
    }

    ghost in_range = { λ s k. mod-lt (slice_index k 0) s.some };
}

/// A partition by a key's first byte, whose first call waits for a limited time until a second call
/// has begun.
#[derive(Drop)]
struct Meeting {
    bytes: FirstByte,
    calls: AtomicU64,
    met: AtomicU64,
}

impl Partition for Meeting {
    ghost count = { λ s. s.bytes.parts };

    ghost part_of = { λ s k. slice_index k 0 % s.bytes.parts };

    fn parts(&self) -> u32 {
        self.bytes.parts()
    }

    fn part(&self, key: &Key) -> u32 {
        if self.calls.fetch_add(1, Ordering::SeqCst) == 0 {
            for _ in 0..10_000_000u32 {
                if self.calls.load(Ordering::SeqCst) > 1 {
                    self.met.store(1, Ordering::SeqCst);
                    break;
                }
                thread::yield_now();
            }
        }
        self.bytes.part(key)
    }

    ghost in_range = { λ s k. mod-lt (slice_index k 0) s.bytes.some };
}

/// A transaction that writes a.
const EARLIER: &str = "txn\nreads\nwrites a\nend\n";

/// Transactions without statements.
const BATCH: &str = "\
txn
reads
writes a b
end
txn
reads a
writes a
end
txn
reads a c
writes b
end
txn
reads a b
writes c
end
";

// The access of a declared read.
fn read_of(rt: &impl Abort, plan: &Plan, txns: &LogPart<'_>, t: u32, index: u32) -> Access
    requires { IsRightPlan txns.now plan.now }
{
    let place = t
        .checked_sub(plan.first())
        .expect(rt, "a timestamp of the batch");
    let there = (place as usize) < txns.len();
    assert!(rt; there);
    let inside = (index as usize) < txns.txn(place as usize).reads().len();
    assert!(rt; inside);
    let access = plan.access(DeclaredSet::Reads, t, index);
    assert_eq!(rt; plan.read(t, index), access.source);
    access
}

// The access of a declared write.
fn write_of(rt: &impl Abort, plan: &Plan, txns: &LogPart<'_>, t: u32, index: u32) -> Access
    requires { IsRightPlan txns.now plan.now }
{
    let place = t
        .checked_sub(plan.first())
        .expect(rt, "a timestamp of the batch");
    let there = (place as usize) < txns.len();
    assert!(rt; there);
    let inside = (index as usize) < txns.txn(place as usize).writes().len();
    assert!(rt; inside);
    let access = plan.access(DeclaredSet::Writes, t, index);
    assert_eq!(rt; plan.write(t, index), access.source);
    access
}

fn within(begin: u32, index: u32) -> Access {
    Access {
        source: Source::Within(begin),
        index,
    }
}

fn before() -> Access {
    Access {
        source: Source::Before,
        index: 0,
    }
}

fn assert_reads(rt: &impl Abort, plan: &Plan, txns: &LogPart<'_>)
    requires { IsRightPlan txns.now plan.now }
{
    for (t, index, want) in [
        (6, 0, within(5, 0)),
        (7, 0, within(6, 0)),
        (7, 1, before()),
        (8, 0, within(6, 0)),
        (8, 1, within(7, 0)),
    ] {
        assert_eq!(rt;
            read_of(rt, plan, txns, t, index),
            want,
            "read {index} of {t}"
        );
    }
}

fn assert_writes(rt: &impl Abort, plan: &Plan, txns: &LogPart<'_>)
    requires { IsRightPlan txns.now plan.now }
{
    for (t, index, want) in [
        (5, 0, before()),
        (5, 1, before()),
        (6, 0, within(5, 0)),
        (7, 0, within(5, 1)),
        (8, 0, before()),
    ] {
        assert_eq!(rt;
            write_of(rt, plan, txns, t, index),
            want,
            "write {index} of {t}"
        );
    }
}

fn assert_plan(rt: &impl Abort, plan: &Plan, txns: &LogPart<'_>)
    requires { IsRightPlan txns.now plan.now }
{
    assert_eq!(rt; (plan.first(), plan.len()), (5, 4));
    assert_reads(rt, plan, txns);
    assert_writes(rt, plan, txns);
}

// Asserts what `source` returns for a key at some timestamps.
fn assert_chain(rt: &impl Abort, shards: &Shards, part: u32, name: &[u8], sources: &[(u32, u32)])
    requires { part < length shards.now }
{
    let key = Key::new(name).expect(rt, "a name");
    for (ts, want) in sources {
        assert_eq!(rt;
            shards.places(part).source(&key, *ts),
            *want,
            "{key:?} at {ts}"
        );
    }
}

// The chains of a, b and c.
fn assert_chains(
    rt: &impl Abort,
    shards: &Shards,
    parts: &FirstByte,
    a: &[(u32, u32)],
    b: &[(u32, u32)],
    c: &[(u32, u32)],
)
    requires { length shards.now ≡ parts.now.parts }
{
    assert_chain(rt, shards, 97 % parts.parts, b"a", a);
    assert_chain(rt, shards, 98 % parts.parts, b"b", b);
    assert_chain(rt, shards, 99 % parts.parts, b"c", c);
}

// Chains of no key, in this many parts, whose tables hash with a drawn seed.
fn no_chains<R: Abort + RandomSource>(rt: &R, alloc: Global, parts: u32) -> Shards
    ensures parts { length result ≡ parts }
    ensures empty { (part : List ℕ → ℕ) (k : List ℕ) → chain_in part result k ≡ [] }
{
    Shards::with_seed(alloc, parts, DrawnSeed::draw(rt)).expect(rt, "memory")
}

// Plans the batch after an earlier one, checks the plan and the chains, and trims the chains twice.
fn plan_batch<R: Abort + RandomSource + Threads + Sync>(
    rt: &R,
    alloc: Global,
    earlier: &Checked,
    batch: &Checked,
    parts: FirstByte,
    cc: u32,
)
    requires { 0 < cc }
{
    let shards = no_chains(rt, alloc, parts.parts);
    let one = earlier.log().len() == 1;
    assert!(rt; one);
    let planned = plan(rt, alloc, shards, 2, &earlier.log(), cc, &parts);
    let (shards, _) = planned.expect(rt, "memory");
    let txns = batch.log();
    let four = txns.len() == 4;
    assert!(rt; four);
    let planned = plan(rt, alloc, shards, 5, &txns, cc, &parts);
    let (mut shards, plan) = planned.expect(rt, "memory");
    assert_plan(rt, &plan, &txns);
    let a = [(9, 6), (6, 5), (5, 2), (2, 0)];
    let b = [(9, 7), (7, 5), (5, 0)];
    let c = [(9, 8), (8, 0)];
    assert_chains(rt, &shards, &parts, &a, &b, &c);
    shards.trim_places(5);
    let a = [(9, 6), (6, 5), (5, 0)];
    assert_chains(rt, &shards, &parts, &a, &b, &c);
    shards.trim_places(6);
    let a = [(9, 6), (6, 0)];
    assert_chains(rt, &shards, &parts, &a, &b, &c);
}

// Plans the batch after an earlier one of another log, by key numbers, and checks the plan.
fn plan_numbered<P: Partition, R: Abort + Threads + Sync>(
    rt: &R,
    alloc: Global,
    earlier: &Checked,
    batch: &Checked,
    parts: &P,
    cc: u32,
)
    requires { 0 < cc }
{
    let one = earlier.log().len() == 1;
    assert!(rt; one);
    let txns = batch.log();
    let four = txns.len() == 4;
    assert!(rt; four);
    let newest = Newest::several(alloc, cc).expect(rt, "memory");
    let planned = plan_by_number(rt, alloc, newest, 2, &earlier.log(), parts);
    let (newest, _) = planned.expect(rt, "memory");
    let planned = plan_by_number(rt, alloc, newest, 5, &txns, parts);
    let (_, plan) = planned.expect(rt, "memory");
    assert_plan(rt, &plan, &txns);
}

#[test]
fn every_number_of_workers_and_parts_gives_the_same_plan(rt: HostRuntime) {
    let earlier = checked(&rt, rt.alloc(), "log 1\n", EARLIER);
    let batch = checked(&rt, rt.alloc(), "log 1\n", BATCH);
    for parts in [1, 7, 64] {
        for cc in [1, 2, 16] {
            plan_batch(&rt, rt.alloc(), &earlier, &batch, FirstByte::new(parts), cc);
            let parts = FirstByte::new(parts);
            plan_numbered(&rt, rt.alloc(), &earlier, &batch, &parts, cc);
        }
    }
}

// Plans the batch on its own, and checks the plan.
fn plan_alone<P: Partition, R: Abort + RandomSource + Threads + Sync>(
    rt: &R,
    alloc: Global,
    parts: &P,
    cc: u32,
)
    requires { 0 < cc }
{
    let batch = checked(rt, alloc, "log 1\n", BATCH);
    let txns = batch.log();
    let four = txns.len() == 4;
    assert!(rt; four);
    let shards = no_chains(rt, alloc, parts.parts());
    let planned = plan(rt, alloc, shards, 5, &txns, cc, parts);
    let (_, plan) = planned.expect(rt, "memory");
    assert_plan(rt, &plan, &txns);
}

impl Meeting {
    fn new() -> Meeting
        ensures { result.bytes.parts ≡ 2 }
    {
        Meeting {
            bytes: FirstByte::new(2),
            calls: AtomicU64::new(0),
            met: AtomicU64::new(0),
        }
    }
}

#[test]
fn two_workers_plan_at_once(rt: HostRuntime) {
    let meeting = Meeting::new();
    plan_alone(&rt, rt.alloc(), &meeting, 2);
    assert_eq!(rt; meeting.met.load(Ordering::SeqCst), 1);
}

#[test]
fn two_workers_plan_by_number_at_once(rt: HostRuntime) {
    let meeting = Meeting::new();
    let earlier = checked(&rt, rt.alloc(), "log 1\n", EARLIER);
    let batch = checked(&rt, rt.alloc(), "log 1\n", BATCH);
    plan_numbered(&rt, rt.alloc(), &earlier, &batch, &meeting, 2);
    assert_eq!(rt; meeting.met.load(Ordering::SeqCst), 1);
}
