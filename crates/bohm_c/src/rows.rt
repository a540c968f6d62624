//! Replies as rows, and the values that they show in one array.

ghost use Rattle.std.specs.Prelude.{◌≡◌, ◌∷◌, ◌++◌, [], length, IfOk, OnOk};
ghost use Rattle.std.specs.List.{flat_map};
ghost use Rattle.bohm_txn.specs.ReplyRows.{reply_shown};
ghost use Rattle.bohm_c.specs.Rows.{outcome_of, row_of, rows_from, shows_of};

use bohm_txn::{Reason, Replies, ReplyView};
use bohm_types::{NoMemory, Value};
use std::alloc::Global;

/// How a transaction ended: 0 if it committed, else why it aborted and at which statement, counted
/// from 1. Its shown values are the `shown` values from index `first` on in the array of all.
#[repr(C)]
#[derive(Clone, Copy, Debug)]
pub struct BohmReply {
    pub outcome: u32,
    pub statement: u32,
    pub first: u64,
    pub shown: u64,
}

/// The rows of replies, and the values that they show.
#[derive(Drop)]
pub struct Rows {
    pub replies: Vec<BohmReply>,
    pub values: Vec<i64>,
}

/// The number of the reason of an abort.
fn outcome_of(reason: Reason) -> u32
    ensures { result ≡ outcome_of reason }
{
    match reason {
        Reason::Need => 1,
        Reason::Fail => 2,
        Reason::Absent => 3,
        Reason::Range => 4,
    }
}

/// Appends shown values.
fn put_shows(values: &mut Vec<i64>, shows: &[Value]) -> Result<(), NoMemory>
    ensures { OnOk result (values.new.items ≡ values.old.items ++ shows.now) }
{
    for value in shows {
        values.push(value.get())?;
    }
    Ok(())
}

/// The values that a reply shows.
pub fn shown_by<'a>(reply: ReplyView<'a>) -> &'a [Value]
    ensures { result.now ≡ shows_of (reply_shown reply.entry) }
{
    match reply {
        ReplyView::Commit { shows } => shows,
        ReplyView::Abort { .. } => &[],
    }
}

/// The row of a reply, where this many values were shown before it.
pub fn row_of(first: u64, reply: ReplyView<'_>) -> BohmReply
    ensures { result ≡ row_of first (reply_shown reply.entry) }
{
    match reply {
        ReplyView::Commit { shows } => BohmReply {
            outcome: 0,
            statement: 0,
            first,
            shown: shows.len() as u64,
        },
        ReplyView::Abort { reason, stmt } => BohmReply {
            outcome: outcome_of(reason),
            statement: stmt,
            first,
            shown: 0,
        },
    }
}

/// Appends the row of a reply, and the values that it shows.
fn put_reply(rows: &mut Rows, reply: ReplyView<'_>) -> Result<(), NoMemory>
    ensures replies { OnOk result (rows.new.replies.items ≡ rows.old.replies.items
        ++ row_of (length rows.old.values.items) (reply_shown reply.entry) ∷ []) }
    ensures values { OnOk result
        (rows.new.values.items ≡ rows.old.values.items ++ shows_of (reply_shown reply.entry)) }
{
    let row = row_of(rows.values.len() as u64, reply);
    put_shows(&mut rows.values, shown_by(reply))?;
    rows.replies.push(row)?;
    Ok(())
}

/// The rows of replies. Their memory is reserved up front.
pub fn rows_of(alloc: Global, replies: &Replies) -> Result<Rows, NoMemory>
    ensures replies { IfOk result (λ r. r.replies.items ≡ rows_from 0 replies.now) }
    ensures values { IfOk result (λ r. r.values.items ≡ flat_map shows_of replies.now) }
{
    let mut rows = Rows {
        replies: Vec::new(alloc),
        values: Vec::new(alloc),
    };
    rows.replies.reserve(replies.len())?;
    rows.values.reserve(replies.most_shows())?;
    for index in 0..replies.len() {
        put_reply(&mut rows, replies.get(index))?;
    }
    Ok(rows)
}
