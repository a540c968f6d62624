//! The lines of a commit's requests.

ghost use Rattle.std.specs.Prelude.{◌≡◌, ◌++◌, ◌-◌, ℕ, List, false, IfOk, OnOk, OnErr, Some, slice_get};
ghost use Rattle.bohm_request_text.specs.Lines.{answer_line};
ghost use Rattle.bohm_requests.specs.Lines.{AreLines, IsCellLine, IsDigestLine, IsLine, left_behind};
ghost use Rattle.bohm_requests.specs.Taking.{is_stored};

use crate::desk::DeskMachine;
use crate::fault::DeskFault;
use crate::lines::{put_cell, put_digest, put_line, put_number, put_refusal};
use crate::turn::Turn;
use bohm_entries::Refusal;
use bohm_ledger::Machine;
use bohm_replay::AnswerText;
use bohm_request_text::put_answer;
use bohm_types::Key;
use std::alloc::Global;

/// What is said of a time that isn't known any more.
const TRIMMED: &[u8] = b"refused: trimmed";

/// Appends the answer to this entry of the commit, which carries an id.
fn put_again(
    replies: &[AnswerText],
    id: &[u8],
    index: usize,
    out: &mut Vec<u8>,
) -> Result<(), DeskFault>
    ensures { OnOk result ((line : List ℕ) × (out.new.items ≡ out.old.items ++ line)
        × (answer : List ℕ) × (slice_get replies.now index ≡ Some answer) × (line ≡ answer_line (Some id.now) answer)) }
{
    match replies.get(index) {
        Some(reply) => put_answer(out, Some(id), reply.as_slice())?,
        None => return Err(DeskFault::NoAnswer),
    }
    Ok(())
}

/// Appends what a key held after a transaction.
fn put_cell_after(
    machine: &DeskMachine,
    key: &Key,
    after: u64,
    out: &mut Vec<u8>,
) -> Result<(), DeskFault>
    ensures { OnOk result ((line : List ℕ) × (out.new.items ≡ out.old.items ++ line)
        × IsCellLine machine.now.past.machine (machine.now.top - after) key.now line) }
{
    let back = machine.top().saturating_sub(after);
    match machine.past().value_before(key, back) {
        Some(cell) => put_cell(out, key, cell)?,
        None => put_line(out, TRIMMED)?,
    }
    Ok(())
}

/// Appends the digest of the store after a transaction.
fn put_digest_after(
    machine: &DeskMachine,
    alloc: Global,
    after: u64,
    out: &mut Vec<u8>,
) -> Result<(), DeskFault>
    ensures { OnOk result ((line : List ℕ) × (out.new.items ≡ out.old.items ++ line)
        × IsDigestLine machine.now.past.machine after (machine.now.top - after) line) }
{
    let back = machine.top().saturating_sub(after);
    match machine.past().digest_before(alloc, back)? {
        Some(digest) => put_digest(out, after, digest.as_slice())?,
        None => put_line(out, TRIMMED)?,
    }
    Ok(())
}

/// Appends the line of a request that is no entry of the commit.
fn put_other(
    machine: &DeskMachine,
    replies: &[AnswerText],
    turn: &Turn,
    alloc: Global,
    out: &mut Vec<u8>,
) -> Result<(), DeskFault>
    ensures { OnOk result (is_stored turn.now ≡ false × ((line : List ℕ) × (out.new.items ≡ out.old.items ++ line)
        × ((left : List (List ℕ)) → IsLine machine.now.past.machine machine.now.top replies.now left turn.now line))) }
{
    match turn {
        Turn::Stored { .. } => Err(DeskFault::NoAnswer),
        Turn::Again { id, index } => put_again(replies, id.as_slice(), *index, out),
        Turn::Known { id, answer } => Ok(put_answer(out, Some(id.as_slice()), answer.as_slice())?),
        Turn::Refused { id, refusal } => Ok(put_refusal(out, alloc, id.as_deref(), *refusal)?),
        Turn::Top { last } => Ok(put_number(out, b"top", *last)?),
        Turn::Cell { key, after } => put_cell_after(machine, key, *after, out),
        Turn::Digest { after } => put_digest_after(machine, alloc, *after, out),
        Turn::Future => Ok(put_line(out, b"refused: future")?),
        Turn::Trimmed => Ok(put_line(out, TRIMMED)?),
    }
}

/// Appends the line of a request, where these answers are left. Returns those that are left then.
fn put_turn<'a>(
    machine: &DeskMachine,
    replies: &[AnswerText],
    left: &'a [AnswerText],
    turn: &Turn,
    alloc: Global,
    out: &mut Vec<u8>,
) -> Result<&'a [AnswerText], DeskFault>
    ensures { IfOk result (λ others. (others.now ≡ left_behind turn.now left.entry.now)
        × ((line : List ℕ) × (out.new.items ≡ out.old.items ++ line)
        × IsLine machine.now.past.machine machine.now.top replies.now left.entry.now turn.now line)) }
{
    let Turn::Stored { id } = turn else {
        put_other(machine, replies, turn, alloc, out)?;
        return Ok(left);
    };
    let Some((reply, others)) = left.split_first() else {
        return Err(DeskFault::NoAnswer);
    };
    put_answer(out, id.as_deref(), reply.as_slice())?;
    Ok(others)
}

/// Appends the lines of the requests.
#[tactic(auto, using(crate::proofs::Walking::none_put, crate::proofs::Walking::one_put, crate::proofs::Walking::all_put))]
fn put_turns(
    machine: &DeskMachine,
    replies: &[AnswerText],
    turns: &[Turn],
    alloc: Global,
    out: &mut Vec<u8>,
) -> Result<(), DeskFault>
    ensures { OnOk result ((text : List ℕ) × (out.new.items ≡ out.old.items ++ text)
        × AreLines machine.now.past.machine machine.now.top replies.now replies.now turns.now text) }
{
    let mut left = replies;
    let mut rest = turns;
    'turns: while let Some((turn, others)) = rest.split_first() {
        left = put_turn(machine, replies, left, turn, alloc, out)?;
        rest = others;
    }
    Ok(())
}

/// Appends the lines of the requests, where these are the answers to the entries that the commit
/// stored. After an `Err` nothing is appended.
pub(crate) fn put_lines(
    machine: &DeskMachine,
    replies: &[AnswerText],
    turns: &[Turn],
    alloc: Global,
    out: &mut Vec<u8>,
) -> Result<(), DeskFault>
    ensures lines { OnOk result ((text : List ℕ) × (out.new.items ≡ out.old.items ++ text)
        × AreLines machine.now.past.machine machine.now.top replies.now replies.now turns.now text) }
    ensures err { OnErr result (out.new.items ≡ out.old.items) }
{
    let mut lines = Vec::new(alloc);
    put_turns(machine, replies, turns, alloc, &mut lines)?;
    out.extend_from_slice(lines.as_slice())?;
    Ok(())
}
