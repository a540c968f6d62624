//! Whole transactions, read word by word without looking for the ends of lines first. Where a text
//! isn't of the usual form, or memory is short, it is left to the reader of lines.

ghost use Rattle.std.specs.Prelude.{◌≡◌, ◌++◌, ◌∷◌, IfSome, IsSome, codes};
ghost use Rattle.bohm_log.specs.Drafting.{IsBetween};
ghost use Rattle.bohm_text.specs.Print.{lines_text, txn_lines};
ghost use Rattle.bohm_text.specs.Targets.{StandsIn, name_in};
ghost use Rattle.bohm_text.specs.Transactions.{AssignedRead, BodyRead, StmtRead};

use crate::fixed_words::behind;
use crate::parsing::split_line;
use crate::statements::read_stmt;
use crate::targets::{Target, read_target};
use crate::whole_keys::{take_reads, take_writes};
use crate::whole_sums::{take_cond, take_guard, take_sum};
use crate::word_ends::{word_end, word_of};
use bohm_log::{Draft, HashSeed};
use bohm_types::{Edition, Key};

/// Adds the statement that sets a key to the sum here, with its guard, if any.
#[inline(always)]
fn take_assigned<'a>(
    draft: &mut Draft<HashSeed>,
    target: &Target<'_>,
    text: &'a [u8],
) -> Option<&'a [u8]>
    requires between { IsBetween draft.old }
    requires stands { StandsIn target.now draft.old.txn.writes }
    ensures { IfSome result
        (λ rest. AssignedRead (name_in target.now) text.now rest.now draft.old draft.new) }
{
    let Some(rest) = take_sum(draft, text) else {
        return None;
    };
    if let Some(left) = behind(b"\n", rest) {
        let Ok(()) = target.put(draft) else {
            return None;
        };
        return Some(left);
    }
    let Some(word) = behind(b" ", rest) else {
        return None;
    };
    let Some(guard) = behind(b"when", word) else {
        return None;
    };
    let Ok(()) = draft.next_sum() else {
        return None;
    };
    let Some((cmp, end)) = take_guard(draft, guard) else {
        return None;
    };
    let Ok(()) = target.put_when(draft, cmp) else {
        return None;
    };
    behind(b"\n", end)
}

/// Adds the statement whose text goes on behind `set` and a space.
fn take_set<'a>(draft: &mut Draft<HashSeed>, text: &'a [u8]) -> Option<&'a [u8]>
    requires { IsBetween draft.old }
    ensures { IfSome result
        (λ rest. StmtRead (codes "set " ++ text.now) rest.now draft.old draft.new) }
{
    let end = word_end(text);
    let word = word_of(text, end);
    let Some(target) = read_target(draft, &word) else {
        return None;
    };
    let Some(sum) = behind(b" =", &text[end..]) else {
        return None;
    };
    take_assigned(draft, &target, sum)
}

/// Adds the condition whose text goes on behind `need`.
fn take_need<'a>(draft: &mut Draft<HashSeed>, text: &'a [u8]) -> Option<&'a [u8]>
    requires { IsBetween draft.old }
    ensures { IfSome result
        (λ rest. StmtRead (codes "need" ++ text.now) rest.now draft.old draft.new) }
{
    let Some((cmp, rest)) = take_cond(draft, text) else {
        return None;
    };
    let Ok(()) = draft.need(cmp) else {
        return None;
    };
    behind(b"\n", rest)
}

/// Adds the sum whose text goes on behind `show`.
fn take_show<'a>(draft: &mut Draft<HashSeed>, text: &'a [u8]) -> Option<&'a [u8]>
    requires { IsBetween draft.old }
    ensures { IfSome result
        (λ rest. StmtRead (codes "show" ++ text.now) rest.now draft.old draft.new) }
{
    let Some(rest) = take_sum(draft, text) else {
        return None;
    };
    let Ok(()) = draft.show() else {
        return None;
    };
    behind(b"\n", rest)
}

/// The text behind the verb and the sigil of a statement that binds a local.
#[inline(always)]
fn behind_let<'a>(text: &'a [u8]) -> Option<&'a [u8]>
    ensures { IfSome result (λ rest. text.now ≡ codes "let $" ++ rest.now) }
{
    behind(b"$", behind(b"let ", text)?)
}

/// Adds the local whose name and sum are the text behind `let`, a space and the sigil.
fn take_let<'a>(draft: &mut Draft<HashSeed>, text: &'a [u8]) -> Option<&'a [u8]>
    requires { IsBetween draft.old }
    ensures { IfSome result
        (λ rest. StmtRead (codes "let $" ++ text.now) rest.now draft.old draft.new) }
{
    let end = word_end(text);
    let word = word_of(text, end);
    let Some(name) = Key::of_word(&word) else {
        return None;
    };
    let Some(sum) = behind(b" =", &text[end..]) else {
        return None;
    };
    let Some(rest) = take_sum(draft, sum) else {
        return None;
    };
    let Ok(()) = draft.bind(name) else {
        return None;
    };
    behind(b"\n", rest)
}

/// Adds the statement of the first line.
#[inline(never)]
fn take_line<'a>(draft: &mut Draft<HashSeed>, text: &'a [u8]) -> Option<&'a [u8]>
    requires { IsBetween draft.old }
    ensures { IfSome result (λ rest. StmtRead text.now rest.now draft.old draft.new) }
{
    let Some((line, rest)) = split_line(text) else {
        return None;
    };
    let Ok(()) = read_stmt(draft, line) else {
        return None;
    };
    Some(rest)
}

/// Whether a text behind `need` begins as a test of a key's presence does.
#[inline(always)]
fn begins_test(text: &[u8]) -> bool {
    text.starts_with(b" has") || text.starts_with(b" no ")
}

/// Adds the first statement.
fn take_stmt<'a>(draft: &mut Draft<HashSeed>, text: &'a [u8]) -> Option<&'a [u8]>
    requires { IsBetween draft.old }
    ensures { IfSome result (λ rest. StmtRead text.now rest.now draft.old draft.new) }
{
    if let Some(words) = behind(b"set ", text) {
        return take_set(draft, words);
    }
    if let Some(words) = behind(b"need", text) {
        if !begins_test(words) {
            return take_need(draft, words);
        }
    }
    if let Some(words) = behind(b"show", text) {
        return take_show(draft, words);
    }
    if let Some(words) = behind_let(text) {
        return take_let(draft, words);
    }
    take_line(draft, text)
}

/// Adds the statements up to the transaction's end.
fn take_body<'a>(draft: &mut Draft<HashSeed>, text: &'a [u8]) -> Option<&'a [u8]>
    requires { IsBetween draft.old }
    ensures { IfSome result (λ rest. BodyRead text.now rest.now draft.old draft.new) }
{
    let mut rest = text;
    'stmts: while !rest.starts_with(b"end\n") {
        let Some(others) = take_stmt(draft, rest) else {
            return None;
        };
        rest = others;
    }
    behind(b"end\n", rest)
}

/// The text behind the first words of a transaction.
#[inline(always)]
fn opened<'a>(text: &'a [u8]) -> Option<&'a [u8]>
    ensures { IfSome result (λ rest. text.now ≡ codes "txn\nreads" ++ rest.now) }
{
    behind(b"s", behind(b"read", behind(b"txn\n", text)?)?)
}

/// The text behind the first word of the line of writes.
#[inline(always)]
fn writes_line<'a>(text: &'a [u8]) -> Option<&'a [u8]>
    ensures { IfSome result (λ rest. text.now ≡ codes "\nwrites" ++ rest.now) }
{
    behind(b"tes", behind(b"\nwri", text)?)
}

/// Reads the transaction at the beginning of a text into the draft, and returns the text after it.
pub(crate) fn take_txn<'a>(
    draft: &mut Draft<HashSeed>,
    edition: Edition,
    text: &'a [u8],
) -> Option<&'a [u8]>
    ensures bytes { IfSome result
        (λ rest. text.now ≡ lines_text (txn_lines draft.new.txn) ++ rest.now) }
    ensures edition { IsSome result → draft.new.txn.edition ≡ edition }
    ensures between { IsSome result → IsBetween draft.new }
{
    let Some(reads) = opened(text) else {
        return None;
    };
    draft.begin(edition);
    let Some(after_reads) = take_reads(draft, reads) else {
        return None;
    };
    let Some(writes) = writes_line(after_reads) else {
        return None;
    };
    let Some(after_writes) = take_writes(draft, writes) else {
        return None;
    };
    let Some(body) = behind(b"\n", after_writes) else {
        return None;
    };
    take_body(draft, body)
}
