//! The replies and the writes of a finished batch, made by several workers: each makes those of a
//! range of its transactions.

ghost use Rattle.std.specs.Prelude.{ℕ, ◌+◌, ◌*◌, ◌^◌, ◌<◌, ◌≤◌, List, length, IfOk, OnOk, OnErr};
ghost use Rattle.std.specs.Prelude.{slice_index_or};
ghost use Rattle.std.specs.Map.{keys_of};
ghost use denote.Param.Send.{IsSync};
ghost use Rattle.bohm_txn.specs.declared.outcome.Reply.{Reply};
ghost use Rattle.bohm_board.specs.Batches.{first_of, txns_of};
ghost use Rattle.bohm_exec.specs.Answers.{batch_of_finished};
ghost use Rattle.bohm_store.specs.Writes.{AreListedFrom, AreShares};
ghost use Rattle.bohm_store.specs.Nexts.{IsNext};
ghost use Rattle.bohm_apply.specs.Replies.{replies_of};
ghost use Rattle.bohm_apply.specs.Runs.{IsApplied, IsStillPast};
ghost use Rattle.bohm_apply.specs.Settling.{IsShareFrom};

use crate::replies::replies_from;
use bohm_exec::Finished;
use bohm_hints::IndexHints;
use bohm_store::{History, ListedWrites};
use bohm_txn::{Replies, ReplySink};
use bohm_types::NoMemory;
use std::alloc::Global;
use std::thread;
use std::thread::Threads;

/// The smallest range that is worth the start of a thread, in transactions.
const FEWEST: u32 = 256;

/// The replies and the writes of a range of a batch's transactions.
#[derive(Drop)]
pub(crate) struct SettledShare<S: ReplySink> {
    replies: S,
    writes: ListedWrites,
}

/// The number of transactions in each range: there are at most as many ranges as workers.
fn share_size(workers: u32, count: u32) -> u32
    requires { 0 < workers }
    ensures some { 0 < result }
    ensures enough { count ≤ workers * result }
{
    count.div_ceil(workers).max(FEWEST)
}

/// Makes the replies, and lists the writes, of at most `count` transactions, from the one at index
/// `from` on.
fn settle_share<S: ReplySink + Drop>(
    alloc: Global,
    history: &History,
    hints: &IndexHints,
    finished: &Finished<'_>,
    from: u32,
    count: u32,
) -> Result<SettledShare<S>, NoMemory>
    requires { from ≤ length (txns_of (batch_of_finished finished.now)) }
    ensures replies { IfOk result
        (λ share. IsShareFrom S.is_bare S.appended finished.now from count share.replies) }
    ensures writes { IfOk result (λ share. AreListedFrom (keys_of history.now.chains)
        (batch_of_finished finished.now) from count share.writes) }
{
    Ok(SettledShare {
        replies: replies_from(alloc, finished, from, count)?,
        writes: history.list_writes(alloc, hints, finished, from, count)?,
    })
}

/// Settles each range of `size` transactions, each in its own thread if there are several.
fn settle_shares<S: ReplySink + Send + Drop, R: Threads + Sync>(
    rt: &R,
    alloc: Global,
    history: &History,
    hints: &IndexHints,
    finished: &Finished<'_>,
    size: u32,
) -> Result<Vec<Result<SettledShare<S>, NoMemory>>, NoMemory>
    requires { 0 < size }
    ensures whole { IfOk result (λ shares.
        length (txns_of (batch_of_finished finished.now)) ≤ length shares.items * size) }
    ensures last { IfOk result (λ shares. length shares.items * size
        < length (txns_of (batch_of_finished finished.now)) + size) }
    ensures replies { IfOk result (λ shares. (i : ℕ) (d : _) → i < length shares.items
        → IfOk (slice_index_or shares.items i d)
        (λ share. IsShareFrom S.is_bare S.appended finished.now (i * size) size share.replies)) }
    ensures writes { IfOk result (λ shares. (i : ℕ) (d : _) → i < length shares.items
        → IfOk (slice_index_or shares.items i d) (λ share. AreListedFrom (keys_of history.now.chains)
        (batch_of_finished finished.now) (i * size) size share.writes)) }
{
    let count = finished.len().div_ceil(size);
    let shares = thread::map_indices(
        rt,
        alloc,
        count as usize,
        &|index: usize| -> Result<SettledShare<S>, NoMemory>
            requires small { index < 2 ^ 32 }
            requires inside { index * size < length (txns_of (batch_of_finished finished.now)) }
            ensures replies { IfOk result (λ share. IsShareFrom S.is_bare S.appended
                finished.entry.now (index * size) size share.replies) }
            ensures writes { IfOk result (λ share. AreListedFrom (keys_of history.entry.now.chains)
                (batch_of_finished finished.entry.now) (index * size) size share.writes) }
        { settle_share(alloc, history, hints, finished, index as u32 * size, size) },
    )?;
    Ok(shares)
}

/// Makes the replies of a finished batch and lists its writes, with at most `workers` threads: each
/// makes those of a range of at least 256 transactions, or of all. Appends the replies, and returns
/// the lists. After an error some of the replies may have been appended.
///
/// The time grows with the number of the batch's statements, which the threads share, and on one
/// thread with the length of the replies.
pub(crate) fn settle_batch<S: ReplySink + Send + Drop, R: Threads + Sync>(
    rt: &R,
    alloc: Global,
    history: &History,
    hints: &IndexHints,
    workers: u32,
    answered: &mut S,
    finished: &Finished<'_>,
) -> Result<Vec<ListedWrites>, NoMemory>
    requires { 0 < workers }
    ensures replies { OnOk result (S.appended (first_of (batch_of_finished finished.now))
        answered.old (replies_of finished.now) answered.new) }
    ensures listed { IfOk result (λ shares. AreShares (keys_of history.now.chains)
        (batch_of_finished finished.now) shares.items) }
    ensures err { OnErr result ((more : List Reply)
        × S.appended (first_of (batch_of_finished finished.now)) answered.old more answered.new) }
{
    let size = share_size(workers, finished.len());
    let shares = settle_shares(rt, alloc, history, hints, finished, size)?;
    let mut listed = Vec::with_capacity(alloc, shares.len())?;
    for share in shares {
        let SettledShare { replies, writes } = share?;
        answered.append(replies)?;
        listed.push(writes)?;
    }
    Ok(listed)
}

/// Settles a finished batch on the caller's thread: appends its versions to the history, and returns
/// its replies. The batch is the next one of the history. `keep` timestamps below the new top stay
/// readable. An error leaves the visible state unchanged.
///
/// The time grows with the number of the batch's statements, and with that of the earlier versions
/// that are dropped.
pub fn settle_alone(
    alloc: Global,
    history: &mut History,
    hints: &mut IndexHints,
    finished: &Finished<'_>,
    keep: u32,
) -> Result<Replies, NoMemory>
    requires { IsNext history.old (batch_of_finished finished.now) }
    ensures applied { IfOk result (IsApplied history.old history.new
        (txns_of (batch_of_finished finished.now)) keep) }
    ensures still { OnErr result (IsStillPast history.old history.new) }
{
    let count = finished.len();
    let floor = (history.top() + count).saturating_sub(keep);
    let replies = replies_from(alloc, finished, 0, count)?;
    history.settle_kept(alloc, hints, finished, floor)?;
    Ok(replies)
}
