//! Suggests the line that a bad line was meant to be.

use crate::grammar::{Place, first_halt};
use crate::mistakes::{BYTE_ORDER_MARK, begins_with_dash};
use bohm_types::NoMemory;
use std::alloc::Global;

/// The line up to a comment.
pub fn uncommented(line: &[u8]) -> &[u8] {
    let end = line
        .iter()
        .position(|byte| *byte == b'#')
        .unwrap_or(line.len());
    line.get(..end).unwrap_or(line)
}

fn unmarked(line: &[u8]) -> &[u8] {
    line.strip_prefix(BYTE_ORDER_MARK).unwrap_or(line)
}

fn is_blank(byte: u8) -> bool {
    byte == b' ' || byte == b'\t' || byte == b'\r'
}

/// Whether a line has no words, or a comment alone.
pub fn is_wordless(line: &[u8]) -> bool {
    uncommented(unmarked(line))
        .iter()
        .all(|byte| is_blank(*byte))
}

/// Adds a word, with a space before it unless it is the first.
fn put_word(out: &mut Vec<u8>, word: &[u8]) -> Result<(), NoMemory> {
    if !out.is_empty() {
        out.push(b' ')?;
    }
    out.extend_from_slice(word)?;
    Ok(())
}

fn is_sign(byte: u8) -> bool {
    matches!(byte, b'+' | b'-' | b'<' | b'=' | b'>')
}

/// Whether a word ends between two bytes of a statement.
fn is_cut(byte: u8, next: u8) -> bool {
    let is_comparison = next == b'=' && (byte == b'<' || byte == b'>');
    !is_comparison && (is_sign(byte) || is_sign(next))
}

/// The bytes of a line without a byte order mark and a comment, in lower case, with a space for each
/// blank and a minus for each dash.
fn plain(alloc: Global, line: &[u8]) -> Result<Vec<u8>, NoMemory> {
    let said = uncommented(unmarked(line));
    let mut out = Vec::new(alloc);
    let mut left: usize = 0;
    for (at, byte) in said.iter().enumerate() {
        if left > 0 {
            left -= 1;
        } else if begins_with_dash(said.get(at..).unwrap_or(&[])) {
            out.push(b'-')?;
            left = 2;
        } else {
            out.push(if is_blank(*byte) {
                b' '
            } else {
                byte.to_ascii_lowercase()
            })?;
        }
    }
    Ok(out)
}

/// The bytes of a statement with a space around each sign and comparison.
fn apart(alloc: Global, line: &[u8]) -> Result<Vec<u8>, NoMemory> {
    let mut out = Vec::new(alloc);
    let mut before = b' ';
    for byte in line {
        if is_cut(before, *byte) {
            out.push(b' ')?;
        }
        out.push(*byte)?;
        before = *byte;
    }
    Ok(out)
}

/// The words of a line.
fn words_of(alloc: Global, line: &[u8]) -> Result<Vec<&[u8]>, NoMemory> {
    let mut words = Vec::new(alloc);
    for word in line.split(|byte| *byte == b' ') {
        if !word.is_empty() {
            words.push(word)?;
        }
    }
    Ok(words)
}

/// The words with one space between them, and a minus before a number without one.
fn joined(alloc: Global, words: &[&[u8]]) -> Result<Vec<u8>, NoMemory> {
    let mut out = Vec::new(alloc);
    for word in words {
        if out.as_slice().ends_with(b" -") {
            out.extend_from_slice(word)?;
        } else if *word == b"==".as_slice() {
            put_word(&mut out, b"=")?;
        } else {
            put_word(&mut out, word)?;
        }
    }
    Ok(out)
}

/// Where a statement's next word is.
#[derive(Clone, Copy, PartialEq, Eq)]
enum Turn {
    /// A sum's first term, or a further one.
    Term { is_first: bool, is_taken: bool },
    /// After a term.
    Behind,
}

const FIRST: Turn = Turn::Term {
    is_first: true,
    is_taken: false,
};

/// A statement whose sums are spelled in order, word by word.
#[derive(Drop)]
struct Statement {
    out: Vec<u8>,
    turn: Turn,
}

impl Statement {
    /// Adds a term, or another word that isn't a sign.
    fn put_term(&mut self, word: &[u8]) -> Result<(), NoMemory> {
        let Turn::Term { is_first, is_taken } = self.turn else {
            return put_word(&mut self.out, word);
        };
        let is_taken = is_taken && word != b"0".as_slice();
        if !is_first {
            put_word(&mut self.out, if is_taken { b"-" } else { b"+" })?;
            put_word(&mut self.out, word)?;
        } else {
            put_word(&mut self.out, if is_taken { b"-" } else { b"" })?;
            self.out.extend_from_slice(word)?;
        }
        self.turn = Turn::Behind;
        Ok(())
    }

    /// Adds a word.
    fn put(&mut self, word: &[u8]) -> Result<(), NoMemory> {
        match word {
            b"+" | b"-" => {
                let is_minus = word == b"-".as_slice();
                self.turn = match self.turn {
                    Turn::Behind => Turn::Term {
                        is_first: false,
                        is_taken: is_minus,
                    },
                    Turn::Term { is_first, is_taken } => Turn::Term {
                        is_first,
                        is_taken: is_taken != is_minus,
                    },
                };
                Ok(())
            }
            b"=" if self.out.as_slice().ends_with(b" =") => Ok(()),
            b"=" | b"<" | b"<=" | b">=" | b">" | b"when" if self.turn == Turn::Behind => {
                self.turn = FIRST;
                put_word(&mut self.out, word)
            }
            b"if" if self.turn == Turn::Behind => {
                self.turn = FIRST;
                put_word(&mut self.out, b"when")
            }
            _ => self.put_term(word),
        }
    }
}

/// A statement with its sums spelled in order: signs apart, one sign before a term, none before a 0
/// but `+`, `when` for `if`, and `set a = a + 1` for `set a += 1`.
fn respelled(alloc: Global, words: &[&[u8]]) -> Result<Vec<u8>, NoMemory> {
    let mut statement = Statement {
        out: Vec::new(alloc),
        turn: Turn::Behind,
    };
    let (opening, others) = match words {
        [b"set", key, sign @ (b"+" | b"-"), b"=", others @ ..] => {
            for word in [b"set".as_slice(), *key, b"=".as_slice(), *key, *sign] {
                statement.put(word)?;
            }
            return put_all(statement, others);
        }
        [opening @ (b"need" | b"show"), others @ ..] => (*opening, others),
        _ => return put_all(statement, words),
    };
    statement.put(opening)?;
    statement.turn = FIRST;
    put_all(statement, others)
}

fn put_all(mut statement: Statement, words: &[&[u8]]) -> Result<Vec<u8>, NoMemory> {
    for word in words {
        statement.put(word)?;
    }
    Ok(statement.out)
}

fn if_valid(place: Place, line: Vec<u8>) -> Option<Vec<u8>> {
    match first_halt(place, line.as_slice()) {
        None => Some(line),
        Some(_) => None,
    }
}

/// The line that was probably meant at a place: without a byte order mark, a comment and a carriage
/// return, in lower case, with one space between words, and a statement's signs in order. `None` if
/// that line isn't valid there either.
pub fn mended(alloc: Global, place: Place, line: &[u8]) -> Result<Option<Vec<u8>>, NoMemory> {
    let bytes = plain(alloc, line)?;
    let words = words_of(alloc, bytes.as_slice())?;
    if let Some(meant) = if_valid(place, joined(alloc, words.as_slice())?) {
        return Ok(Some(meant));
    }
    if place != Place::Body {
        return Ok(None);
    }
    let bytes = apart(alloc, bytes.as_slice())?;
    let words = words_of(alloc, bytes.as_slice())?;
    Ok(if_valid(place, respelled(alloc, words.as_slice())?))
}
