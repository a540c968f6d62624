//! The text in which a document's faults are shown: its own, a procedure's, or a loosely written
//! one.

ghost use Rattle.std.specs.Prelude.{◌≡◌, false};
ghost use Rattle.bohm_check.specs.Reports.{IsOwnText};

use crate::cursor::Cursor;
use crate::said::Said;

/// How many parameters a procedure has.
#[derive(Clone, Copy)]
pub struct Counts {
    pub keys: u64,
    pub values: u64,
}

/// The lines of a loosely written text from which exact lines were made.
#[derive(Clone, Copy)]
pub struct LooseLines<'a> {
    pub text: Cursor<'a>,
    /// For each exact line the number of its line of the text.
    pub numbers: &'a [u32],
}

/// The text that shows the lines of a document.
#[derive(Clone, Copy)]
pub struct Page<'a> {
    /// The document's text, or that of the procedure whose own instance it has.
    exact: Cursor<'a>,
    procedure: Option<Counts>,
    loose: Option<LooseLines<'a>>,
}

impl<'a> Page<'a> {
    /// The text of a document.
    pub fn of(text: &'a [u8]) -> Page<'a>
        ensures { IsOwnText result }
    {
        Page {
            exact: Cursor::of(text),
            procedure: None,
            loose: None,
        }
    }

    /// The text of a procedure, for the document of its own instance.
    pub fn of_procedure(text: &'a [u8], counts: Counts) -> Page<'a> {
        Page {
            procedure: Some(counts),
            ..Page::of(text)
        }
    }

    /// The text from whose lines the exact ones were made.
    pub fn loosely(self, text: &'a [u8], numbers: &'a [u32]) -> Page<'a> {
        Page {
            loose: Some(LooseLines {
                text: Cursor::of(text),
                numbers,
            }),
            ..self
        }
    }

    /// The statements of the document that the text doesn't have as statements: they bind a
    /// procedure's values.
    pub fn lets(self) -> u64
        ensures { IsOwnText self.entry → result ≡ 0 }
    {
        match self.procedure {
            Some(counts) => counts.values,
            None => 0,
        }
    }

    pub fn is_procedure(self) -> bool
        ensures { IsOwnText self.entry → result ≡ false }
    {
        self.procedure.is_some()
    }

    /// The line of the exact text that shows a line of the document. A procedure's head opens its
    /// transaction, and its parameters' lines stand for the bindings of its values.
    fn exact_line(self, line: u64) -> u64
        ensures { IsOwnText self.entry → result ≡ line }
    {
        let Some(Counts { keys, values }) = self.procedure else {
            return line;
        };
        match line {
            0..=2 => 1,
            3..=4 => line
                .saturating_sub(1)
                .saturating_add(keys)
                .saturating_add(values),
            _ if line.saturating_sub(5) < values => line.saturating_sub(3).saturating_add(keys),
            _ => line.saturating_sub(1).saturating_add(keys),
        }
    }

    /// The number of the line that shows a line of the document.
    pub fn number(self, line: u64) -> u64
        ensures { IsOwnText self.entry → result ≡ line }
    {
        let exact = self.exact_line(line);
        match self.loose {
            None => exact,
            Some(loose) => match loose.numbers.get(exact.saturating_sub(1) as usize) {
                Some(number) => u64::from(*number),
                None => exact,
            },
        }
    }

    /// A line of the document.
    pub fn line(self, line: u64) -> &'a [u8] {
        self.exact.line(self.exact_line(line))
    }

    /// The line that shows a line of the document.
    pub fn shown(self, line: u64) -> &'a [u8] {
        match self.loose {
            None => self.line(line),
            Some(loose) => loose.text.line(self.number(line)),
        }
    }

    /// The offset in the line that shows a line of the document of the byte at an offset of that
    /// line.
    pub fn offset(self, line: u64, offset: usize) -> usize {
        match self.loose {
            None => offset,
            Some(_) => Said::on(self.number(line), self.shown(line)).offset_behind(letters_before(
                self.line(line),
                offset,
            )),
        }
    }

    /// The page from which the lines from this one of the document on are found soon.
    pub fn at(self, line: u64) -> Page<'a>
        ensures { IsOwnText self.entry → IsOwnText result }
    {
        Page {
            exact: self.exact.at(self.exact_line(line)),
            ..self
        }
    }
}

/// The number of bytes before an offset that aren't spaces.
pub fn letters_before(line: &[u8], offset: usize) -> usize {
    let mut letters: usize = 0;
    for byte in line.get(..offset).unwrap_or(line) {
        if *byte != b' ' {
            letters = letters.saturating_add(1);
        }
    }
    letters
}
