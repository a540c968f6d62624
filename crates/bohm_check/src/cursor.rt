//! A cursor that advances through a text line by line.

use crate::lines::{behind_lines, first_line};

/// A text from one of its lines on, so that the lines of successive faults are found in one pass.
#[derive(Clone, Copy)]
pub struct Cursor<'a> {
    text: &'a [u8],
    rest: &'a [u8],
    line: u64,
}

impl<'a> Cursor<'a> {
    pub fn of(text: &'a [u8]) -> Cursor<'a> {
        Cursor {
            text,
            rest: text,
            line: 1,
        }
    }

    /// Advances to a line, counted from 1.
    pub fn at(self, line: u64) -> Cursor<'a> {
        let (from, skipped) = if line < self.line {
            (self.text, line.saturating_sub(1))
        } else {
            (self.rest, line - self.line)
        };
        Cursor {
            rest: behind_lines(from, skipped),
            line,
            ..self
        }
    }

    /// A line, without its newline.
    pub fn line(self, line: u64) -> &'a [u8] {
        first_line(self.at(line).rest)
    }
}
