//! Logs from their text.

use bohm_text::parse;
use bohm_txn::{Checked, check};
use bohm_types::NoMemory;
use std::alloc::Global;

/// The checked log of a text, if it is one.
pub fn checked(alloc: Global, text: &[u8]) -> Option<Checked> {
    check(parse(alloc, text).ok()?).ok()
}

/// The opening, followed by the transaction this many times.
pub fn repeated(
    alloc: Global,
    opening: &[u8],
    txn: &[u8],
    count: u32,
) -> Result<Vec<u8>, NoMemory> {
    let mut text = Vec::from_slice(alloc, opening)?;
    for _ in 0..count {
        text.extend_from_slice(txn)?;
    }
    Ok(text)
}

/// Shows `a` and increments it.
const COUNTER: &[u8] = b"txn\nreads a\nwrites a\nshow a\nset a = a + 1\nend\n";

/// Increments `a` from 0, this many times. `None` if an allocation fails.
pub fn counters(alloc: Global, count: u32) -> Option<Checked> {
    let text = repeated(alloc, b"log 1\na 0\n", COUNTER, count).ok()?;
    checked(alloc, text.as_slice())
}
