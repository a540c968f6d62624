//! Printing an answer: the replies, and then the store.

ghost use Rattle.std.specs.Prelude.{◌≡◌, ◌++◌, ◌∷◌, [], ◌+◌, ◌<◌, ◌≤◌, ◌^◌};
ghost use Rattle.std.specs.Prelude.{codes, IfOk, OnErr, length, map};
ghost use Rattle.std.specs.Fmt.{signed_decimal};
ghost use Rattle.bohm_text.specs.Print.{reason_word, spaced, BeginsWith};
ghost use Rattle.bohm_text.specs.Print.{print_answer, print_numbered, print_replies, print_store};
ghost use Rattle.bohm_txn.specs.Serial.{reply_with};

use crate::printing::{put_entries, put_value};
use bohm_txn::{Outcome, Reason, Replies};
use bohm_types::{Key, NoMemory, Value};
use itoa::{Buffer, Integer};
use std::alloc::Global;

fn put_count<I: Integer>(out: &mut Vec<u8>, count: I) -> Result<(), NoMemory>
    ensures ok { IfOk result (λ _. out.new.items ≡ out.old.items ++ I.text count) }
    ensures err { OnErr result (out.new.items ≡ out.old.items) }
{
    out.extend_from_slice(Buffer::new().format(count).as_bytes())?;
    Ok(())
}

/// The words of an abort up to the number of its statement.
pub fn abort_text(reason: Reason) -> &'static [u8]
    ensures { result.now ≡ codes " abort " ++ reason_word reason ++ codes " " }
{
    match reason {
        Reason::Need => b" abort need ",
        Reason::Fail => b" abort fail ",
        Reason::Absent => b" abort absent ",
        Reason::Range => b" abort range ",
    }
}

fn put_shows(out: &mut Vec<u8>, shows: &[Value]) -> Result<(), NoMemory>
    ensures ok { IfOk result
        (λ _. out.new.items ≡ out.old.items ++ spaced (map signed_decimal shows.now)) }
    ensures err { OnErr result (BeginsWith out.old.items out.new.items) }
{
    for value in shows {
        out.push(b' ')?;
        put_value(out, *value)?;
    }
    Ok(())
}

/// Appends the line of the reply with this outcome: a commit shows these values. After an error
/// `out` contains a prefix of the line.
pub(crate) fn put_reply(
    out: &mut Vec<u8>,
    number: u64,
    outcome: Outcome,
    shows: &[Value],
) -> Result<(), NoMemory>
    ensures ok { IfOk result
        (λ _. out.new.items
        ≡ out.old.items ++ print_numbered number (reply_with outcome shows.now ∷ [])) }
    ensures err { OnErr result (BeginsWith out.old.items out.new.items) }
{
    put_count(out, number)?;
    match outcome {
        Outcome::Commit => {
            out.extend_from_slice(b" commit")?;
            put_shows(out, shows)?;
        }
        Outcome::Abort { reason, stmt } => {
            out.extend_from_slice(abort_text(reason))?;
            put_count(out, stmt)?;
        }
    }
    out.push(b'\n')?;
    Ok(())
}

fn put_lines(out: &mut Vec<u8>, first: u64, replies: &Replies) -> Result<(), NoMemory>
    requires { first + length replies.now ≤ 2 ^ 64 }
    ensures ok { IfOk result
        (λ _. out.new.items ≡ out.old.items ++ print_numbered first replies.now) }
    ensures err { OnErr result (BeginsWith out.old.items out.new.items) }
{
    for index in 0..replies.len() {
        let (outcome, shows) = replies.get(index).parts();
        put_reply(out, first + index as u64, outcome, shows)?;
    }
    Ok(())
}

/// Appends a line for each reply, numbered from `first`. The time grows with the length of the
/// lines. An error leaves `out` unchanged.
pub fn put_replies(out: &mut Vec<u8>, first: u64, replies: &Replies) -> Result<(), NoMemory>
    requires { first + length replies.now ≤ 2 ^ 64 }
    ensures ok { IfOk result
        (λ _. out.new.items ≡ out.old.items ++ print_numbered first replies.now) }
    ensures err { OnErr result (out.new.items ≡ out.old.items) }
{
    let before = out.len();
    if let Err(refusal) = put_lines(out, first, replies) {
        out.truncate(before);
        return Err(refusal);
    }
    Ok(())
}

/// Appends the line `--`, then a line for each key. The time grows with the length of the lines.
/// An error leaves `out` unchanged.
pub fn put_store(out: &mut Vec<u8>, entries: &[(Key, Value)]) -> Result<(), NoMemory>
    ensures ok { IfOk result (λ _. out.new.items ≡ out.old.items ++ print_store entries.now) }
    ensures err { OnErr result (out.new.items ≡ out.old.items) }
{
    let before = out.len();
    out.extend_from_slice(b"--\n")?;
    if let Err(refusal) = put_entries(out, entries) {
        out.truncate(before);
        return Err(refusal);
    }
    Ok(())
}

/// The length of the longest line of a reply without shows, with a number of ten digits.
const REPLY_BYTES: usize = 27;

/// The length of the longest value, with the space before it.
const VALUE_BYTES: usize = 21;

/// The length of the longest line of a key and a value.
const ENTRY_BYTES: usize = 54;

/// The maximum number of bytes that the replies take, if their numbers are timestamps.
fn most_bytes(replies: &Replies) -> usize
    ensures { length replies.now < 2 ^ 64 }
{
    let lines = replies.len().saturating_mul(REPLY_BYTES);
    lines.saturating_add(replies.most_shows().saturating_mul(VALUE_BYTES))
}

/// An empty text with capacity for `bytes` bytes, so that it isn't copied as it grows. If that
/// allocation fails, the text has no capacity, since it may turn out shorter.
fn with_room(alloc: Global, bytes: usize) -> Vec<u8>
    ensures { result.items ≡ [] }
{
    match Vec::with_capacity(alloc, bytes) {
        Ok(text) => text,
        Err(_) => Vec::new(alloc),
    }
}

/// Prints a line for each reply, numbered from 1. Its time and memory grow with the length of the
/// text.
pub fn print_replies(alloc: Global, replies: &Replies) -> Result<Vec<u8>, NoMemory>
    ensures { IfOk result (λ text. text.items ≡ print_replies replies.now) }
{
    let mut out = with_room(alloc, most_bytes(replies));
    put_replies(&mut out, 1, replies)?;
    Ok(out)
}

/// Prints a line for each reply, numbered from `first`, for the replies of a log's later segment.
/// Its time and memory grow with the length of the text.
pub fn print_numbered(alloc: Global, first: u64, replies: &Replies) -> Result<Vec<u8>, NoMemory>
    requires { first + length replies.now ≤ 2 ^ 64 }
    ensures { IfOk result (λ text. text.items ≡ print_numbered first replies.now) }
{
    let mut out = with_room(alloc, most_bytes(replies));
    put_replies(&mut out, first, replies)?;
    Ok(out)
}

/// Prints the line `--`, and then a line for each key. Its time and memory grow with the length of
/// the text.
pub fn print_store(alloc: Global, entries: &[(Key, Value)]) -> Result<Vec<u8>, NoMemory>
    ensures { IfOk result (λ text. text.items ≡ print_store entries.now) }
{
    let mut out = with_room(alloc, entries.len().saturating_mul(ENTRY_BYTES));
    put_store(&mut out, entries)?;
    Ok(out)
}

/// Prints a line for each reply, numbered from 1, and then the text of the store. Its time and
/// memory grow with the length of the text.
pub fn print_answer(
    alloc: Global,
    replies: &Replies,
    entries: &[(Key, Value)],
) -> Result<Vec<u8>, NoMemory>
    ensures { IfOk result (λ text. text.items ≡ print_answer replies.now entries.now) }
{
    let store_bytes = entries.len().saturating_mul(ENTRY_BYTES);
    let mut out = with_room(alloc, most_bytes(replies).saturating_add(store_bytes));
    put_replies(&mut out, 1, replies)?;
    put_store(&mut out, entries)?;
    Ok(out)
}
