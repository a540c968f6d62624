//! The entries of a batch's text.

ghost use Rattle.std.specs.Prelude.{◌≡◌, ◌<◌, ◌∷◌, ◌++◌, [], length, IfSome, MatchOption};
ghost use Rattle.bohm_text.specs.Cut.{split, whole_lines};
ghost use Rattle.bohm_text.specs.Windowing.{IsWhole};
ghost use Rattle.bohm_entries.specs.Batches.{are_plain, count, ends, entries_of, is_definition, leads};

use bohm_text::{Words, split_line};

/// Whether the first word of a line is this one.
fn leads(word: &[u8], line: &[u8]) -> bool
    ensures { result ≡ leads word.now (split 32 line.now) }
{
    match Words::of(line).next() {
        Some(first) => first == word,
        None => false,
    }
}

/// Whether a line ends an entry: `end`, or a call's.
fn ends_entry(line: &[u8]) -> bool
    ensures { result ≡ ends line.now }
{
    line == b"end".as_slice() || leads(b"call", line)
}

/// The text of the first entry, up to the newline of its last line, and the text behind it. The
/// time grows with the length of the entry.
pub fn split_entry(text: &[u8]) -> Option<(&[u8], &[u8])>
    ensures entries { MatchOption result (entries_of text.now ≡ [])
        (λ cut. entries_of text.now ≡ whole_lines cut.0.now ∷ entries_of cut.1.now) }
    ensures bytes { IfSome result (λ cut. text.now ≡ cut.0.now ++ cut.1.now) }
    ensures some { IfSome result (λ cut. 0 < length cut.0.now) }
    ensures whole { IfSome result (λ cut. IsWhole cut.0.now) }
{
    let mut rest = text;
    'lines: while let Some((line, others)) = split_line(rest) {
        if ends_entry(line) {
            let end = text.len() - others.len();
            return Some((&text[..end], others));
        }
        rest = others;
    }
    None
}

/// Whether an entry is a definition.
pub fn is_definition(entry: &[u8]) -> bool
    ensures { result ≡ is_definition (whole_lines entry.now) }
{
    match split_line(entry) {
        Some((line, _)) => leads(b"define", line),
        None => false,
    }
}

/// How many transactions a batch has. The time grows with the length of its text.
pub fn count_transactions(batch: &[u8]) -> usize
    ensures { result ≡ count (entries_of batch.now) }
{
    let mut transactions = 0;
    let mut rest = batch;
    'entries: while let Some((entry, others)) = split_entry(rest) {
        if !is_definition(entry) {
            transactions += 1;
        }
        rest = others;
    }
    transactions
}

/// Whether a batch has no definition. The time grows with the length of its text.
pub fn has_no_definition(batch: &[u8]) -> bool
    ensures { result ≡ are_plain (entries_of batch.now) }
{
    let mut rest = batch;
    'entries: while let Some((entry, others)) = split_entry(rest) {
        if is_definition(entry) {
            return false;
        }
        rest = others;
    }
    true
}
