//! Requests that store nothing.

use bohm_text::{Words, read_number};
use bohm_types::Key;

/// A request that stores nothing.
#[derive(Clone, Copy, Debug)]
pub(crate) enum ReadRequest {
    /// `get KEY`, or `get KEY at N`.
    Get { key: Key, at: Option<u64> },
    /// `top`.
    Top,
    /// `digest`.
    Digest,
}

/// The number of a transaction that a word spells.
fn number_of(word: &[u8]) -> Option<u64> {
    match read_number(word) {
        Some(number) if number >= 0 => Some(number as u64),
        _ => None,
    }
}

/// The transaction that the words behind a key name, if there are any: `at N`.
fn read_at(mut words: Words<'_>) -> Option<Option<u64>> {
    let Some(word) = words.next() else {
        return Some(None);
    };
    if word != b"at".as_slice() {
        return None;
    }
    let number = number_of(words.next()?)?;
    if words.next().is_some() {
        return None;
    }
    Some(Some(number))
}

/// The request that a line spells, if it is one that stores nothing.
pub(crate) fn read_request(line: &[u8]) -> Option<ReadRequest> {
    match line {
        b"top" => return Some(ReadRequest::Top),
        b"digest" => return Some(ReadRequest::Digest),
        _ => {}
    }
    let mut words = Words::of(line);
    if words.next()? != b"get".as_slice() {
        return None;
    }
    let key = Key::new(words.next()?)?;
    let at = read_at(words)?;
    Some(ReadRequest::Get { key, at })
}
