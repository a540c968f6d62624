//! Names on a statement's line, with carets below them.

use crate::page::Page;
use crate::shown::put_line;
use bohm_types::{Key, NoMemory};

/// A name on a statement's line.
#[derive(Clone, Copy)]
pub struct PlacedName {
    pub name: Key,
    pub is_local: bool,
    /// The index, counted from 0, of its word on the line.
    pub word: usize,
}

/// The number of bytes of a line before the word at an index, counted from 0; all of them if there
/// are fewer words.
pub fn bytes_before(line: &[u8], word: usize) -> usize {
    let mut offset: usize = 0;
    for (place, part) in line.split(|byte| *byte == b' ').enumerate() {
        if place == word {
            return offset;
        }
        offset = offset.saturating_add(part.len()).saturating_add(1);
    }
    line.len()
}

/// The line of a document that has a name, with a caret below each byte of the name.
pub fn put_marked(
    out: &mut Vec<u8>,
    page: Page<'_>,
    line: u64,
    name: PlacedName,
) -> Result<(), NoMemory> {
    let exact = page.line(line);
    let mut offset = bytes_before(exact, name.word);
    if exact.get(offset) == Some(&b'-') {
        offset = offset.saturating_add(1);
    }
    let mut carets = name.name.text().as_slice().len();
    if name.is_local {
        carets = carets.saturating_add(1);
    }
    let column = page.offset(line, offset).saturating_add(1);
    put_line(out, page.shown(line), column, carets)
}
