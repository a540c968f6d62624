//! The replies of finished batches.

ghost use Rattle.std.specs.Prelude.{◌≤◌, length, IfOk, OnOk};
ghost use Rattle.bohm_board.specs.Batches.{IsIn, txns_of};
ghost use Rattle.bohm_exec.specs.Answers.{batch_of_finished};
ghost use Rattle.bohm_apply.specs.Replies.{AreSerialShows, IsReplied};
ghost use Rattle.bohm_apply.specs.Settling.{IsShareFrom};

use bohm_exec::Finished;
use bohm_txn::{Outcome, ReplySink, shows};
use bohm_types::{Cell, NoMemory, Value};
use std::alloc::Global;

/// Replaces the contents of the list with the values that the transaction with a timestamp shows:
/// none on an abort.
fn values_shown(values: &mut Vec<Value>, finished: &Finished<'_>, t: u32) -> Result<(), NoMemory>
    requires { IsIn (batch_of_finished finished.now) t }
    ensures { OnOk result
        (AreSerialShows (batch_of_finished finished.now) t values.new.items) }
{
    values.clear();
    let count = shows(&finished.batch().txn(t));
    for index in 0..count as u32 {
        if let Cell::Present(value) = finished.show(t, index) {
            values.push(value)?;
        }
    }
    Ok(())
}

/// Appends the reply of the transaction with a timestamp.
fn push_reply<S: ReplySink>(
    replies: &mut S,
    values: &mut Vec<Value>,
    finished: &Finished<'_>,
    t: u32,
) -> Result<(), NoMemory>
    requires { IsIn (batch_of_finished finished.now) t }
    ensures { OnOk result
        (IsReplied S.appended (batch_of_finished finished.now) t replies.old replies.new) }
{
    match finished.outcome(t) {
        Outcome::Commit => {
            values_shown(values, finished, t)?;
            replies.push(t as u64, Outcome::Commit, values.as_slice())
        }
        abort => replies.push(t as u64, abort, &[]),
    }
}

/// The replies of at most `count` transactions of a finished batch, from the one at index `from`
/// on. The time grows with the number of their statements. One list holds the shown values of each
/// reply in turn.
pub(crate) fn replies_from<S: ReplySink + Drop>(
    alloc: Global,
    finished: &Finished<'_>,
    from: u32,
    count: u32,
) -> Result<S, NoMemory>
    requires { from ≤ length (txns_of (batch_of_finished finished.now)) }
    ensures { IfOk result (IsShareFrom S.is_bare S.appended finished.now from count) }
{
    let first = finished.first();
    let count = count.min(finished.len() - from);
    let mut replies = S::empty(alloc);
    replies.reserve(count as usize)?;
    let mut values = Vec::new(alloc);
    for index in 0..count {
        push_reply(&mut replies, &mut values, finished, first + from + index)?;
    }
    Ok(replies)
}
