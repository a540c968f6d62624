//! Why transactions of a log abort.

ghost use Rattle.std.specs.Prelude.{◌≡◌, ◌++◌, ◌≤◌, ◌^◌, length, IfOk};
ghost use Rattle.bohm_txn.specs.ReplyRows.{reply_shown};
ghost use Rattle.bohm_explain.specs.Aborts.{abort_line, aborts_in, aborts_of, reply_line};
ghost use Rattle.bohm_explain.specs.Aborts.{statement_text};

use crate::pieces::{Piece, put};
use bohm_log::TxnView;
use bohm_serial::run;
use bohm_text::{abort_text, put_stmt};
use bohm_txn::{Checked, Reason, Replies, ReplyView};
use bohm_types::NoMemory;
use std::alloc::Global;

/// A transaction's number and the line of its `txn`, both from 1.
#[derive(Clone, Copy, Debug)]
struct Place {
    number: u64,
    opening: u128,
}

/// Appends the text of the statement with a number, counted from 1.
fn put_statement(out: &mut Vec<u8>, txn: &TxnView<'_>, number: u32) -> Result<(), NoMemory>
    ensures { IfOk result
        (λ _. out.new.items ≡ out.old.items ++ statement_text txn.now.body number) }
{
    let Some(index) = number.checked_sub(1) else {
        return Ok(());
    };
    if (index as usize) < txn.body_len() {
        put_stmt(out, &txn.stmt(index as usize))?;
    }
    Ok(())
}

/// Appends the line of an abort.
fn put_abort(
    out: &mut Vec<u8>,
    txn: &TxnView<'_>,
    place: Place,
    reason: Reason,
    stmt: u32,
) -> Result<(), NoMemory>
    requires { place.opening ≤ 2 ^ 127 }
    ensures { IfOk result (λ _. out.new.items
        ≡ out.old.items ++ abort_line place.number place.opening txn.now.body reason stmt) }
{
    put(
        out,
        &[
            Piece::Decimal(b"", place.number),
            Piece::Text(abort_text(reason)),
            Piece::Decimal(b"", u64::from(stmt)),
            Piece::Text(b": "),
        ],
    )?;
    put_statement(out, txn, stmt)?;
    let line = place.opening + 2 + u128::from(stmt);
    put(out, &[Piece::Long(b" (line ", line), Piece::Text(b")\n")])
}

/// Appends the line of an abort; nothing for a commit.
fn put_reply(
    out: &mut Vec<u8>,
    txn: &TxnView<'_>,
    place: Place,
    reply: ReplyView<'_>,
) -> Result<(), NoMemory>
    requires { place.opening ≤ 2 ^ 127 }
    ensures { IfOk result (λ _. out.new.items ≡ out.old.items
        ++ reply_line place.number place.opening txn.now.body (reply_shown reply.entry)) }
{
    match reply {
        ReplyView::Commit { .. } => Ok(()),
        ReplyView::Abort { reason, stmt } => put_abort(out, txn, place, reason, stmt),
    }
}

/// The lines of the aborts among the replies to a document's transactions.
fn print_lines(alloc: Global, checked: &Checked, replies: &Replies) -> Result<Vec<u8>, NoMemory>
    requires { length replies.now ≡ length checked.now.log }
    ensures { IfOk result (λ text. text.items ≡ aborts_in checked.now replies.now) }
{
    let log = checked.log();
    let mut out = Vec::new(alloc);
    let mut opening = checked.store().len() as u128 + 2;
    for index in 0..log.len() {
        let txn = log.txn(index);
        let place = Place {
            number: index as u64 + 1,
            opening,
        };
        put_reply(&mut out, &txn, place, replies.get(index))?;
        opening += txn.body_len() as u128 + 4;
    }
    Ok(out)
}

/// Runs a log, and prints a line for each transaction that aborts: its reply, the statement that
/// failed, and that statement's line in the log's text. The time grows with the terms of the log,
/// and with the number k of the store's keys as k log k.
#[tactic(auto, using(crate::proofs::Answered::as_many))]
pub fn print_aborts(alloc: Global, checked: &Checked) -> Result<Vec<u8>, NoMemory>
    ensures { IfOk result (λ text. text.items ≡ aborts_of checked.now) }
{
    let answer = run(alloc, checked)?;
    print_lines(alloc, checked, &answer.replies)
}
