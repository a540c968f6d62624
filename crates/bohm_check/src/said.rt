//! What a line of a loosely written text says.

use crate::mending::uncommented;
use crate::mistakes::BYTE_ORDER_MARK;

/// The content of a line: without a byte order mark at the text's start, a carriage return at its
/// end, a comment, and blanks at both ends.
#[derive(Clone, Copy)]
pub struct Said<'a> {
    pub bytes: &'a [u8],
    /// The number of bytes of the line before the content.
    pub before: usize,
}

fn is_blank(byte: u8) -> bool {
    byte == b' ' || byte == b'\t'
}

impl<'a> Said<'a> {
    /// The content of the line with this number.
    pub fn on(number: u64, line: &'a [u8]) -> Said<'a> {
        let mark = if number == 1 && line.starts_with(BYTE_ORDER_MARK) {
            BYTE_ORDER_MARK.len()
        } else {
            0
        };
        let marked = line.get(mark..).unwrap_or(line);
        let words = uncommented(marked.strip_suffix(b"\r".as_slice()).unwrap_or(marked));
        let begin = words
            .iter()
            .position(|byte| !is_blank(*byte))
            .unwrap_or(words.len());
        let blanks = words.iter().rev().position(|byte| !is_blank(*byte));
        let end = words.len().saturating_sub(blanks.unwrap_or(0));
        Said {
            bytes: words.get(begin..end).unwrap_or(b""),
            before: mark.saturating_add(begin),
        }
    }

    /// The offset of the nonblank byte that has this many nonblank bytes before it, or the end.
    pub fn offset_of(self, letters: usize) -> usize {
        let mut left = letters;
        for (offset, byte) in self.bytes.iter().enumerate() {
            if is_blank(*byte) {
                continue;
            }
            if left == 0 {
                return offset;
            }
            left -= 1;
        }
        self.bytes.len()
    }

    /// The offset on the line of the nonblank byte that has this many nonblank bytes before it.
    pub fn offset_behind(self, letters: usize) -> usize {
        self.before.saturating_add(self.offset_of(letters))
    }

    pub fn first_word(self) -> &'a [u8] {
        let end = self
            .bytes
            .iter()
            .position(|byte| is_blank(*byte))
            .unwrap_or(self.bytes.len());
        self.bytes.get(..end).unwrap_or(self.bytes)
    }
}
