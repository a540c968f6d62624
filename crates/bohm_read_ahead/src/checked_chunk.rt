//! A chunk of a log that is checked and planned ahead of its execution.

ghost use Rattle.std.specs.Prelude.{◌≡◌, ◌+◌, ◌<◌, ◌≤◌, All, length, IfOk};
ghost use Rattle.std.specs.List.{sum};
ghost use Rattle.bohm_types.specs.Limits.{most_txns};
ghost use Rattle.bohm_txn.specs.Chunked.{IsLogCheckedTo};
ghost use Rattle.bohm_txn.specs.Faulty.{IsWellFormedTxn};
ghost use Rattle.bohm_place.specs.Cuttings.{ArePlans, IsEven};
ghost use Rattle.bohm_read_ahead.specs.Preparing.{count_with, IsPrepared};
ghost use Rattle.bohm_read_ahead.specs.Sharing.{are_long, is_planned, is_shared, IsSharedAs, sharing_of};

use bohm_hints::IndexHints;
use bohm_log::{HashSeed, Log, LogPart};
use bohm_place::{ByteSum, CutLog, Cuts, Plan, plan_batches};
use bohm_settings::{LARGEST_BATCH, Settings};
use bohm_text::Chunk;
use bohm_txn::{CheckFault, check_more};
use bohm_types::{MOST_TXNS, NoMemory};
use std::alloc::Global;
use std::thread::Threads;

/// The number of statements from which on several workers run a body faster than one worker.
/// Several workers also plan, claim and install, which takes as long as some thirty statements.
const SHARED_BODY: usize = 32;

/// The maximum number of bodies whose lengths are sampled.
const SAMPLED: usize = 64;

/// What is known about transactions that follow a given number of others without a fault.
#[derive(Drop)]
pub enum Prepared {
    /// They have this first fault.
    Faulty(CheckFault),
    /// With them there are more transactions than a log may have.
    TooMany,
    /// They have no fault, and run in log order.
    Ready,
    /// They have no fault, and these are their batches' sizes and plans.
    Planned { cuts: Cuts, plans: Vec<Plan> },
}

/// A chunk, the number of transactions before it, and what is known about it.
#[derive(Drop)]
pub struct CheckedChunk {
    pub log: Log<HashSeed>,
    /// The number of transactions before it, exact up to the most that a log may have.
    pub count: usize,
    pub prepared: Prepared,
    /// The expected indexes of its keys in the history.
    pub hints: IndexHints,
}

/// The number of transactions with `more` further ones: exact up to the most that a log may have,
/// and one above that if there are more.
pub fn counted(count: usize, more: usize) -> usize
    ensures { result ≡ count_with count more }
{
    count.saturating_add(more).min(MOST_TXNS + 1)
}

/// Whether bodies are long on average, judged by a sample of them.
fn are_long(part: &LogPart<'_>) -> bool
    requires few { length part.now ≤ most_txns }
    requires formed { All IsWellFormedTxn part.now }
    ensures { result ≡ are_long part.now }
{
    let step = part.len() / SAMPLED + 1;
    let (mut index, mut bodies, mut statements) = (0, 0, 0);
    'sample: while index < part.len() {
        statements += part.txn(index).body_len();
        bodies += 1;
        index += step;
    }
    statements >= bodies * SHARED_BODY
}

/// Whether several workers execute transactions by their plans, or why they run in log order on one
/// thread.
#[derive(Clone, Copy, Debug, PartialEq, Eq)]
pub enum Sharing {
    /// One worker executes.
    OneWorker,
    /// There are none.
    NoTransactions,
    /// Their bodies are short, and batches are the largest.
    ShortBodies,
    /// Several workers execute them.
    Shared,
}

/// Whether several workers execute these transactions: there are several workers, and bodies are
/// long or smaller batches were requested. At most 64 bodies are looked at.
pub fn sharing_of(part: &LogPart<'_>, settings: Settings) -> Sharing
    requires few { length part.now ≤ most_txns }
    requires formed { All IsWellFormedTxn part.now }
    ensures { result ≡ sharing_of settings part.now }
{
    if settings.exec().count() == 1 {
        Sharing::OneWorker
    } else if part.len() == 0 {
        Sharing::NoTransactions
    } else if settings.batch() < LARGEST_BATCH || are_long(part) {
        Sharing::Shared
    } else {
        Sharing::ShortBodies
    }
}

/// Whether several workers execute these transactions.
fn is_shared(part: &LogPart<'_>, settings: Settings) -> bool
    requires few { length part.now ≤ most_txns }
    requires formed { All IsWellFormedTxn part.now }
    ensures { result ≡ is_shared settings part.now }
{
    matches!(sharing_of(part, settings), Sharing::Shared)
}

/// The batches of these transactions, the first of which has the timestamp `first`, and their
/// plans, made by the planning workers that the settings give.
fn plan<T: Threads + Sync>(
    rt: &T,
    alloc: Global,
    part: &LogPart<'_>,
    first: u32,
    settings: Settings,
) -> Result<(Cuts, Vec<Plan>), NoMemory>
    requires position { 0 < first }
    requires timestamps { first + length part.now ≤ most_txns + 1 }
    requires formed { All IsWellFormedTxn part.now }
    ensures total { IfOk result (λ r. sum r.0 ≡ length part.now) }
    ensures even { IfOk result (λ r. IsEven settings.batch r.0) }
    ensures plans { IfOk result (λ r. ArePlans
        (record { first = first; log = part.entry.now; sizes = r.0 }) r.1.items) }
{
    let Some(partition) = ByteSum::new(settings.parts()) else {
        unreachable!()
    };
    let cuts = Cuts::even(alloc, part.len() as u32, settings.batch())?;
    let log = CutLog::new(first, part, &cuts);
    let plans = plan_batches(rt, alloc, log, settings.cc().count(), &partition)?;
    Ok((cuts, plans))
}

/// Determines what is known about transactions with this first fault that follow `count` others,
/// and plans them if several workers are to execute them.
fn prepare<T: Threads + Sync>(
    rt: &T,
    alloc: Global,
    part: &LogPart<'_>,
    fault: Option<CheckFault>,
    count: usize,
    settings: Settings,
) -> Result<Prepared, NoMemory>
    requires { IsLogCheckedTo part.now fault }
    ensures prepared { IfOk result (IsPrepared count part.entry.now) }
    ensures shared { IfOk result (IsSharedAs settings part.entry.now) }
{
    if let Some(fault) = check_more(count, part, fault) {
        return Ok(Prepared::Faulty(fault));
    }
    if counted(count, part.len()) > MOST_TXNS {
        return Ok(Prepared::TooMany);
    }
    if !is_shared(part, settings) {
        return Ok(Prepared::Ready);
    }
    let (cuts, plans) = plan(rt, alloc, part, count as u32 + 1, settings)?;
    Ok(Prepared::Planned { cuts, plans })
}

impl CheckedChunk {
    /// A chunk with this first fault that follows `count` transactions. If several workers are to
    /// execute it, it is planned in batches of the size, and by the workers, that the settings give.
    /// The hints are those of its keys.
    ///
    /// The time and the memory are constant; if the chunk is planned, they grow with the number of
    /// the log's keys, including those that it kept, and of its transactions.
    pub(crate) fn new<T: Threads + Sync>(
        rt: &T,
        alloc: Global,
        chunk: Chunk,
        fault: Option<CheckFault>,
        count: usize,
        hints: IndexHints,
        settings: Settings,
    ) -> Result<CheckedChunk, NoMemory>
        requires { IsLogCheckedTo chunk.log fault }
        ensures log { IfOk result (λ c. c.log ≡ chunk.log) }
        ensures count { IfOk result (λ c. c.count ≡ count) }
        ensures prepared { IfOk result (λ c. IsPrepared count chunk.log c.prepared) }
        ensures shared { IfOk result (λ c. IsSharedAs settings chunk.log c.prepared) }
    {
        let prepared = prepare(rt, alloc, &chunk.log.part(), fault, count, settings)?;
        Ok(CheckedChunk {
            log: chunk.log,
            count,
            prepared,
            hints,
        })
    }

    /// Whether several workers are to execute it by its plans. The time is constant.
    pub fn is_planned(&self) -> bool
        ensures { result ≡ is_planned self.now.prepared }
    {
        matches!(self.prepared, Prepared::Planned { .. })
    }
}
