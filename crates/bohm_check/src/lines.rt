//! Lines of a text by their numbers.

use memchr::memchr;

/// The text after the first newline; empty if there is none.
fn behind_line(text: &[u8]) -> &[u8] {
    let Some(at) = memchr(b'\n', text) else {
        return &[];
    };
    text.get(at.saturating_add(1)..).unwrap_or(&[])
}

/// The text from a line on, counted from 0.
pub fn behind_lines(text: &[u8], count: u64) -> &[u8] {
    let mut rest = text;
    for _ in 0..count {
        if rest.is_empty() {
            return rest;
        }
        rest = behind_line(rest);
    }
    rest
}

/// The first line of a text, without its newline.
pub fn first_line(text: &[u8]) -> &[u8] {
    let end = memchr(b'\n', text).unwrap_or(text.len());
    text.get(..end).unwrap_or(text)
}
