//! Messages about a text that isn't a document.

use crate::grammar::{Halt, Kind, Place, State, halt_in};
use crate::mending::mended;
use crate::mistakes::Mistake;
use crate::parameters::Parameters;
use crate::sets::{in_order, put_set_help};
use crate::shown::{put_line, put_name, put_number, put_quoted, put_text};
use crate::told::MOST_TOLD;
use crate::walk::{Badness, TextLine, Walk};
use bohm_text::TextFault;
use bohm_types::{Key, NoMemory};
use std::alloc::Global;

/// A bad line of a text, and which lines may be there.
#[derive(Clone, Copy)]
pub struct BadLine<'a> {
    pub kind: Kind,
    pub place: Place,
    pub line: TextLine<'a>,
}

impl<'a> Walk<'a> {
    /// A line as a bad one in the place of the next.
    pub fn bad<'b>(&self, line: TextLine<'b>) -> BadLine<'b> {
        BadLine {
            kind: self.kind,
            place: self.place,
            line,
        }
    }
}

impl<'a> BadLine<'a> {
    /// Where the line stops being valid: at its end if it is valid, and at its beginning if it is
    /// the empty line after the last one.
    pub fn halt(&self) -> Halt {
        halt_in(self.kind, self.place, self.line.bytes).unwrap_or(self.end())
    }

    /// The end of the line.
    pub fn end(&self) -> Halt {
        Halt {
            offset: self.line.bytes.len(),
            state: State::LineEnd,
        }
    }

    /// The message about the line's spelling.
    fn put_words(&self, out: &mut Vec<u8>, halt: Halt) -> Result<(), NoMemory> {
        let line = self.line;
        if !line.is_whole && line.bytes.is_empty() {
            return self.put_end(out);
        }
        if !line.is_whole && halt.state == State::LineEnd && halt.offset == line.bytes.len() {
            return put_text(out, "expected a newline: the last line ends with one too\n");
        }
        self.put_mistake(out, halt, Mistake::at(self.place, line.bytes, halt))
    }

    /// The message about a mistake on the line.
    pub fn put_mistake(
        &self,
        out: &mut Vec<u8>,
        halt: Halt,
        mistake: Mistake,
    ) -> Result<(), NoMemory> {
        match mistake {
            Mistake::Word => self.put_word(out, halt),
            mistake => {
                if mistake.leaves_open() {
                    put_text(out, "expected ")?;
                    put_text(out, halt.state.called())?;
                    put_text(out, ": ")?;
                }
                put_text(out, mistake.words())?;
                put_text(out, "\n")
            }
        }
    }

    /// The message about a word that isn't one of those expected.
    fn put_word(&self, out: &mut Vec<u8>, halt: Halt) -> Result<(), NoMemory> {
        put_text(out, "expected ")?;
        put_text(out, halt.state.called())?;
        put_text(out, ", and not ")?;
        put_quoted(out, word_round(self.line.bytes, halt))?;
        put_text(out, "\n")
    }

    /// The message about a text that ends too soon.
    fn put_end(&self, out: &mut Vec<u8>) -> Result<(), NoMemory> {
        put_text(out, "expected ")?;
        put_text(out, State::at(self.place).called())?;
        put_text(
            out,
            match (self.place, self.kind) {
                (Place::Head, _) => ": the text is empty\n",
                (Place::Body, Kind::Log) => ": the last transaction isn't closed\n",
                (_, Kind::Log) => ": the text ends in the middle of a transaction\n",
                (Place::Body, Kind::Procedure) => ": the procedure isn't closed\n",
                (_, Kind::Procedure) => ": the text ends in the middle of a procedure\n",
            },
        )
    }

    /// The line that was meant, if the text can continue with it, and `end` if the text ends in a
    /// transaction's body.
    pub fn put_help(&self, alloc: Global, out: &mut Vec<u8>) -> Result<(), NoMemory> {
        let TextLine {
            bytes,
            is_whole,
            ..
        } = self.line;
        if !is_whole && bytes.is_empty() && self.place == Place::Body {
            return put_text(out, "help: end\n");
        }
        let Some(line) = mended(alloc, self.place, bytes)? else {
            return Ok(());
        };
        if is_whole || self.place.behind(self.kind, line.as_slice()).may_end() {
            put_text(out, "help: ")?;
            out.extend_from_slice(line.as_slice())?;
            put_text(out, "\n")?;
        }
        Ok(())
    }

    /// The message about a parameter's name that an earlier line has too.
    fn put_named_before(&self, out: &mut Vec<u8>, first: u64, name: Key) -> Result<(), NoMemory> {
        put_name(out, name)?;
        put_text(out, " is a parameter already: line ")?;
        put_number(out, first)?;
        put_text(out, " names it\n")
    }

    /// The message about key parameters that no set declares, and the writes with them.
    fn put_undeclared(
        &self,
        alloc: Global,
        out: &mut Vec<u8>,
        lacking: &[Key],
    ) -> Result<(), NoMemory> {
        if let Some(first) = lacking.first() {
            put_name(out, *first)?;
            put_text(
                out,
                " is a key parameter, and neither the reads nor the writes declare it\n",
            )?;
        }
        let keys = Parameters::completed(alloc, self.line.bytes, lacking)?;
        let keys = in_order(alloc, keys)?;
        put_set_help(out, None, "writes", keys.as_slice())
    }

    /// The line with a caret, what was expected there, and the line that was meant if that is
    /// clear.
    pub fn put(&self, alloc: Global, out: &mut Vec<u8>, why: &Badness) -> Result<(), NoMemory> {
        let halt = match why {
            Badness::Spelling(halt) => *halt,
            _ => self.end(),
        };
        put_shown(out, self.line.number, self.line.bytes, halt.offset)?;
        self.put_reason(alloc, out, why)
    }

    /// What was expected in the line's place, and the line that was meant if that is clear.
    pub fn put_reason(
        &self,
        alloc: Global,
        out: &mut Vec<u8>,
        why: &Badness,
    ) -> Result<(), NoMemory> {
        match why {
            Badness::Spelling(halt) => {
                self.put_words(out, *halt)?;
                self.put_help(alloc, out)
            }
            Badness::NamedBefore { line, name } => self.put_named_before(out, *line, *name),
            Badness::Undeclared(lacking) => self.put_undeclared(alloc, out, lacking.as_slice()),
        }
    }
}

/// A line under its number, with a caret under the byte at an offset.
pub fn put_shown(
    out: &mut Vec<u8>,
    number: u64,
    line: &[u8],
    offset: usize,
) -> Result<(), NoMemory> {
    put_text(out, "line ")?;
    put_number(out, number)?;
    put_text(out, ":\n")?;
    put_line(out, line, offset.saturating_add(1), 1)
}

/// The word around a halt of a line, or the word after it where the line was to end.
fn word_round(line: &[u8], halt: Halt) -> &[u8] {
    let before = line.get(..halt.offset).unwrap_or(line);
    let behind = line.get(halt.offset..).unwrap_or(&[]);
    let begin = match before.iter().rev().position(|byte| *byte == b' ') {
        _ if halt.state == State::LineEnd && behind.starts_with(b" ") => {
            halt.offset.saturating_add(1)
        }
        Some(letters) => before.len().saturating_sub(letters),
        None => 0,
    };
    let word = line.get(begin..).unwrap_or(line);
    let end = word
        .iter()
        .position(|byte| *byte == b' ')
        .unwrap_or(word.len());
    word.get(..end).unwrap_or(word)
}

/// The number of lines of a text that end with a newline.
pub fn whole_lines(text: &[u8]) -> u64 {
    let mut count: u64 = 0;
    for byte in text {
        if *byte == b'\n' {
            count = count.saturating_add(1);
        }
    }
    count
}

/// Why the next line of a text is bad; nothing if it isn't.
fn badness_of(
    alloc: Global,
    walk: &Walk<'_>,
    line: TextLine<'_>,
) -> Result<Option<Badness>, NoMemory> {
    if line.is_whole {
        return walk.badness(alloc, line.bytes);
    }
    if line.bytes.is_empty() && walk.may_end() {
        return Ok(None);
    }
    Ok(Some(Badness::Spelling(walk.bad(line).halt())))
}

/// The last line of a report that has only the first `MOST_TOLD` faults.
pub fn put_more(out: &mut Vec<u8>, more: u64) -> Result<(), NoMemory> {
    if more == 0 {
        return Ok(());
    }
    put_number(out, more)?;
    put_text(
        out,
        if more == 1 {
            " more fault isn't shown\n"
        } else {
            " more faults aren't shown\n"
        },
    )
}

/// The messages about the bad lines from a walk's next one on, the first `MOST_TOLD` of them, and
/// how many more there are. `lines` is a number above that of the lines left.
fn put_bad_lines(
    alloc: Global,
    out: &mut Vec<u8>,
    mut walk: Walk<'_>,
    lines: u64,
) -> Result<(), NoMemory> {
    let mut told: usize = 0;
    let mut more: u64 = 0;
    for _ in 0..lines {
        let line = walk.line();
        match badness_of(alloc, &walk, line)? {
            None => walk.pass(alloc)?,
            Some(why) => {
                if told < MOST_TOLD {
                    walk.bad(line).put(alloc, out, &why)?;
                    told = told.saturating_add(1);
                } else {
                    more = more.saturating_add(1);
                }
                walk.pass_bad(alloc)?;
            }
        }
        if !line.is_whole {
            break;
        }
    }
    put_more(out, more)
}

/// The messages about a text with a fault of `parse` or of `Procedure::read`: for that line, and
/// then for each later one that is bad where the text is read on behind the bad lines before it, up
/// to `MOST_TOLD` of them, where it stops being valid, what was expected, and the line that was
/// probably meant. Nothing for an allocation failure.
///
/// What a bad line was meant as, or begins like, is taken to be there, also where `reads`, `writes`
/// or `end` is missing before it. The time grows with the length of the text.
pub fn put_text_fault(
    alloc: Global,
    out: &mut Vec<u8>,
    text: &[u8],
    fault: TextFault,
) -> Result<(), NoMemory> {
    let lines = whole_lines(text);
    let before = match fault {
        TextFault::Line(number) => number.saturating_sub(1).min(lines),
        TextFault::Short => lines,
        TextFault::NoMemory => return Ok(()),
    };
    let mut walk = Walk::of(alloc, text);
    walk.pass_all(alloc, before)?;
    put_bad_lines(
        alloc,
        out,
        walk,
        lines.saturating_sub(before).saturating_add(1),
    )
}
