//! Messages about a loosely written text that has no exact text.

use crate::cursor::Cursor;
use crate::grammar::{Halt, Place, State};
use crate::mistakes::Mistake;
use crate::page::letters_before;
use crate::said::Said;
use crate::shown::{put_line, put_number, put_text};
use crate::text_faults::{BadLine, put_more, put_shown, whole_lines};
use crate::told::MOST_TOLD;
use crate::walk::{Badness, TextLine, Walk};
use bohm_types::NoMemory;
use std::alloc::Global;

/// Whether the word at a halt ends too soon: then the byte after the word is the wrong one, even a
/// blank.
fn is_cut_short(line: &[u8], halt: Halt) -> bool {
    halt.state != State::LineEnd && line.get(halt.offset) == Some(&b' ')
}

/// A bad line as the kind of line that it matches best: the lines `reads` and `writes` may be
/// missing.
fn nearest(bad: BadLine<'_>) -> BadLine<'_> {
    let (first, others): (Place, &[Place]) = match bad.place {
        Place::Keys | Place::Values => (bad.place, &[Place::Writes, Place::Body]),
        Place::Reads => (Place::Body, &[Place::Reads, Place::Writes]),
        Place::Writes => (Place::Body, &[Place::Writes]),
        _ => return bad,
    };
    let mut best = BadLine {
        place: first,
        ..bad
    };
    for place in others {
        let other = BadLine {
            place: *place,
            ..bad
        };
        if other.halt().offset > best.halt().offset {
            best = other;
        }
    }
    best
}

/// A loosely written text, and the lines of an exact text that it is read as.
#[derive(Clone, Copy)]
pub struct LooseText<'a> {
    pub text: &'a [u8],
    /// The exact lines, and for each of them the number of the line of the text that it was made
    /// from.
    pub exact: &'a [u8],
    pub numbers: &'a [u32],
    /// Whether the exact lines are in order, and no set is missing.
    pub is_settled: bool,
}

impl<'a> LooseText<'a> {
    /// The number of the line from which this exact line was made. Both count from 1.
    pub fn number(self, exact: u64) -> u64 {
        match self.numbers.get(exact.saturating_sub(1) as usize) {
            Some(number) => u64::from(*number),
            None => 0,
        }
    }
}

impl<'a> LooseText<'a> {
    /// Whether an exact line is that of a set that the text lacks. It has the number of the next line,
    /// before which it is missing.
    fn is_filled(self, exact: u64) -> bool {
        !self.is_settled && self.number(exact) == self.number(exact.saturating_add(1))
    }
}

/// The message about a line with a misspelled exact form: where the line of the loose text stops
/// being valid, what was expected there, and the line that was meant if that is clear.
fn put_misspelled(
    alloc: Global,
    out: &mut Vec<u8>,
    number: u64,
    line: &[u8],
    bad: BadLine<'_>,
) -> Result<(), NoMemory> {
    let bad = nearest(bad);
    let halt = bad.halt();
    let said = Said::on(number, line);
    let letters = letters_before(bad.line.bytes, halt.offset);
    let state = halt.state;
    let (offset, mistake) = if is_cut_short(bad.line.bytes, halt) {
        let last = said.offset_of(letters.saturating_sub(1));
        (
            last.saturating_add(1),
            Mistake::at(bad.place, bad.line.bytes, halt),
        )
    } else {
        let offset = said.offset_of(letters);
        let halt = Halt { offset, state };
        (offset, Mistake::at(bad.place, said.bytes, halt))
    };
    put_shown(out, number, line, said.before.saturating_add(offset))?;
    bad.put_mistake(out, halt, mistake)?;
    bad.put_help(alloc, out)
}

/// The message about a line of a loosely written text, whose exact form is bad.
fn put_bad(
    alloc: Global,
    out: &mut Vec<u8>,
    number: u64,
    line: &[u8],
    bad: BadLine<'_>,
    why: &Badness,
) -> Result<(), NoMemory> {
    match why {
        Badness::Spelling(_) => put_misspelled(alloc, out, number, line, bad),
        why => {
            let said = Said::on(number, line);
            let end = said.before.saturating_add(said.bytes.len());
            put_shown(out, number, line, end)?;
            bad.put_reason(alloc, out, why)
        }
    }
}

/// The messages about the lines of a loosely written text that have no exact form, from the first
/// one on, up to `MOST_TOLD` of them: for each where the line stops being valid, what was expected
/// there, and the line that was meant if that is clear. A text that ends too soon is told at the line
/// after its last one. The time grows with the length of the text.
pub fn put_loose_faults(
    alloc: Global,
    out: &mut Vec<u8>,
    loose: LooseText<'_>,
) -> Result<(), NoMemory> {
    let mut walk = Walk::of(alloc, loose.exact).loosely(!loose.is_settled);
    let mut cursor = Cursor::of(loose.text);
    let mut told: usize = 0;
    let mut more: u64 = 0;
    for _ in 0..whole_lines(loose.exact) {
        let line = walk.line();
        if loose.is_filled(line.number) {
            walk.skip();
            continue;
        }
        let Some(why) = walk.badness(alloc, line.bytes)? else {
            walk.pass(alloc)?;
            continue;
        };
        if told < MOST_TOLD {
            let number = loose.number(line.number);
            cursor = cursor.at(number);
            let bad = walk.bad(line);
            put_bad(alloc, out, number, cursor.line(number), bad, &why)?;
            told = told.saturating_add(1);
        } else {
            more = more.saturating_add(1);
        }
        walk.pass_bad(alloc)?;
    }
    if !walk.may_end() && told < MOST_TOLD {
        put_loose_end(alloc, out, &walk, loose.text)?;
    }
    put_more(out, more)
}

/// The number of lines of a text, including a last line without a newline.
fn lines_of(text: &[u8]) -> u64 {
    let whole = whole_lines(text);
    match text.last() {
        None | Some(b'\n') => whole,
        Some(_) => whole.saturating_add(1),
    }
}

/// The message about a loosely written text that ends too soon.
fn put_loose_end(
    alloc: Global,
    out: &mut Vec<u8>,
    walk: &Walk<'_>,
    text: &[u8],
) -> Result<(), NoMemory> {
    let line = TextLine {
        number: lines_of(text).saturating_add(1),
        bytes: &[],
        is_whole: false,
    };
    let end = walk.bad(line);
    let end = match end.place {
        Place::Reads | Place::Writes | Place::Keys | Place::Values => BadLine {
            place: Place::Body,
            ..end
        },
        _ => end,
    };
    end.put(alloc, out, &Badness::Spelling(end.halt()))
}

/// The message about a key that the store of a loosely written text names on two lines.
pub fn put_double(out: &mut Vec<u8>, text: &[u8], first: u64, again: u64) -> Result<(), NoMemory> {
    let line = Cursor::of(text).line(again);
    put_text(out, "line ")?;
    put_number(out, again)?;
    put_text(out, ":\n")?;
    put_line(out, line, 1, 0)?;
    out.extend_from_slice(Said::on(again, line).first_word())?;
    put_text(out, " is listed twice in the store: line ")?;
    put_number(out, first)?;
    put_text(out, " has it too\n")
}
