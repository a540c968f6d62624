//! The exact lines of a loose text with its comments.

use crate::bytes::place_of;
use crate::plain::without_mark;
use crate::procedure::numbered_lines;
use bohm_types::{Key, NoMemory};
use std::alloc::Global;

/// The comment of a line, from its `#` on.
fn comment_of(line: &[u8]) -> Option<&[u8]> {
    let at = place_of(b'#', line)?;
    let comment = line.get(at..)?;
    Some(comment.strip_suffix(b"\r".as_slice()).unwrap_or(comment))
}

/// An entry of a store: its key, and the number of its loose line.
#[derive(Clone, Copy, PartialEq, Eq, PartialOrd, Ord)]
struct Entry {
    key: Key,
    number: u32,
}

/// The key that begins a line.
fn first_key(line: &[u8]) -> Option<Key> {
    let end = place_of(b' ', line).unwrap_or(line.len());
    Key::new(line.get(..end)?)
}

/// The numbers of the loose lines of the entries that exact lines begin with after the head, in the
/// order of their keys.
fn sorted_entries(alloc: Global, exact: &[u8], numbers: &[u32]) -> Result<Vec<Entry>, NoMemory> {
    let mut entries: Vec<Entry> = Vec::new(alloc);
    let lines = exact.split(|byte| *byte == b'\n').zip(numbers.iter());
    for (line, number) in lines.skip(1) {
        if place_of(b' ', line).is_none() {
            break;
        }
        match first_key(line) {
            Some(key) => entries.push(Entry {
                key,
                number: *number,
            })?,
            None => break,
        }
    }
    entries.sort_unstable();
    Ok(entries)
}

/// For each line of the exact text the number of the loose line from which it was made, or 0 if the
/// loose text lacks it.
fn sources(alloc: Global, text: &[u8], is_log: bool) -> Result<Vec<u32>, NoMemory> {
    let numbered = numbered_lines(alloc, text)?;
    let numbers = numbered.numbers.as_slice();
    let mut sources: Vec<u32> = Vec::new(alloc);
    for (at, number) in numbers.iter().enumerate() {
        let next = numbers.get(at.saturating_add(1));
        sources.push(if next == Some(number) { 0 } else { *number })?;
    }
    if is_log {
        let entries = sorted_entries(alloc, numbered.exact.as_slice(), numbers)?;
        for (at, entry) in entries.iter().enumerate() {
            if let Some(source) = sources.get_mut(at.saturating_add(1)) {
                *source = entry.number;
            }
        }
    }
    Ok(sources)
}

/// The lines of a loose text, and which of them have words.
#[derive(Drop)]
struct LooseLines<'a> {
    lines: Vec<&'a [u8]>,
    have_words: Vec<bool>,
}

impl<'a> LooseLines<'a> {
    /// The lines of a text, of which exact lines were made from those with these numbers.
    fn of(alloc: Global, text: &'a [u8], sources: &[u32]) -> Result<LooseLines<'a>, NoMemory> {
        let mut lines = Vec::new(alloc);
        for line in without_mark(text).split(|byte| *byte == b'\n') {
            lines.push(line)?;
        }
        let mut have_words = vec![in alloc; false; lines.len()]?;
        for number in sources {
            if let Some(place) = number.checked_sub(1) {
                if let Some(has_words) = have_words.get_mut(place as usize) {
                    *has_words = true;
                }
            }
        }
        Ok(LooseLines { lines, have_words })
    }

    /// The index of the first line of the comments directly before a line.
    fn first_comment(&self, place: usize) -> usize {
        let before = self.have_words.as_slice().get(..place).unwrap_or(&[]);
        let wordless = before.iter().rev().position(|has_words| *has_words);
        place.saturating_sub(wordless.unwrap_or(place))
    }

    /// Appends the comments directly before a line, each on its line.
    fn put_before(&self, out: &mut Vec<u8>, place: usize) -> Result<(), NoMemory> {
        let range = self.first_comment(place)..place.min(self.lines.len());
        for line in self.lines.as_slice().get(range).unwrap_or(&[]) {
            if let Some(comment) = comment_of(line) {
                out.extend_from_slice(comment)?;
                out.push(b'\n')?;
            }
        }
        Ok(())
    }

    /// Appends the comment of a line, after a space.
    fn put_on(&self, out: &mut Vec<u8>, place: usize) -> Result<(), NoMemory> {
        if let Some(line) = self.lines.as_slice().get(place) {
            if let Some(comment) = comment_of(line) {
                out.push(b' ')?;
                out.extend_from_slice(comment)?;
            }
        }
        Ok(())
    }
}

/// An exact text with the comments of the loose text that was tidied into it: those on lines of their
/// own before the line that they precede there, the others on their line. Tidying it gives the exact
/// text. `is_log` says whether that is a log, whose entries are sorted. The time grows with the length
/// of the text, and with the number n of entries as n log n.
pub fn with_comments(
    alloc: Global,
    text: &[u8],
    exact: &[u8],
    is_log: bool,
) -> Result<Vec<u8>, NoMemory> {
    let sources = sources(alloc, text, is_log)?;
    let loose = LooseLines::of(alloc, text, sources.as_slice())?;
    let mut out = Vec::new(alloc);
    for (line, number) in exact
        .split(|byte| *byte == b'\n')
        .zip(sources.as_slice().iter())
    {
        let place = number.checked_sub(1);
        if let Some(place) = place {
            loose.put_before(&mut out, place as usize)?;
        }
        out.extend_from_slice(line)?;
        if let Some(place) = place {
            loose.put_on(&mut out, place as usize)?;
        }
        out.push(b'\n')?;
    }
    loose.put_before(&mut out, loose.lines.len())?;
    Ok(out)
}
