//! A text read line by line, on behind its bad lines.

use crate::grammar::{Halt, Kind, Place, first_halt, halt_in};
use crate::lines::{behind_lines, first_line};
use crate::mending::{is_wordless, mended};
use crate::parameters::Parameters;
use crate::spelling::is_name_byte;
use bohm_types::{Key, NoMemory};
use std::alloc::Global;

/// A line of a text, or what follows the text's last newline.
#[derive(Clone, Copy)]
pub struct TextLine<'a> {
    /// Counted from 1.
    pub number: u64,
    pub bytes: &'a [u8],
    /// Whether a newline ends it.
    pub is_whole: bool,
}

/// Why a line can't follow those before it.
#[derive(Drop)]
pub enum Badness {
    /// No line like this may be here.
    Spelling(Halt),
    /// It names a parameter that an earlier line names.
    NamedBefore { line: u64, name: Key },
    /// The writes lack these key parameters, and so do the reads.
    Undeclared(Vec<Key>),
}

/// The lines of a text, and which line may come next.
#[derive(Drop)]
pub struct Walk<'a> {
    pub kind: Kind,
    pub place: Place,
    /// Whether `reads` and `writes` may be missing, with the keys that the body has.
    is_loose: bool,
    rest: &'a [u8],
    /// The number of the next line.
    number: u64,
    parameters: Parameters,
}

/// The places that a line may have where others before it are missing, the nearest first: those of
/// the writes and of the body where sets are missing, that of a transaction's opening where `end` is
/// missing, that of the reads where `txn` is, that of the store where the head is.
fn places_from(place: Place) -> &'static [Place] {
    match place {
        Place::Head => &[Place::Head, Place::Store],
        Place::Keys => &[Place::Keys, Place::Writes, Place::Body],
        Place::Values => &[Place::Values, Place::Writes, Place::Body],
        Place::Store => &[Place::Store, Place::Reads],
        Place::Between => &[Place::Between, Place::Reads],
        Place::Reads => &[Place::Reads, Place::Writes, Place::Body, Place::Between],
        Place::Writes => &[Place::Writes, Place::Body, Place::Between],
        Place::Body => &[Place::Body, Place::Between],
        Place::Closed => &[Place::Closed],
    }
}

/// The place whose lines this bad line begins like, longest, among a place and those after it.
fn place_begun(place: Place, line: &[u8]) -> Option<Place> {
    let mut best = None;
    let mut most: usize = 0;
    for other in places_from(place) {
        if let Some(halt) = first_halt(*other, line) {
            if halt.offset > most {
                best = Some(*other);
                most = halt.offset;
            }
        }
    }
    best
}

/// Which line comes next after a bad one: what it was meant as, or what it begins like, is taken to
/// be there. A line like no other counts as if it weren't there.
fn place_behind_bad(
    alloc: Global,
    kind: Kind,
    place: Place,
    line: &[u8],
) -> Result<Place, NoMemory> {
    if is_wordless(line) {
        return Ok(place);
    }
    for other in places_from(place) {
        if kind == Kind::Procedure && *other == Place::Between {
            continue;
        }
        if let Some(meant) = mended(alloc, *other, line)? {
            return Ok(other.behind(kind, meant.as_slice()));
        }
    }
    Ok(place_behind_begun(kind, place, line))
}

/// Whether a line begins with a word.
fn begins_with(line: &[u8], word: &[u8]) -> bool {
    match line.strip_prefix(word) {
        Some([byte, ..]) => !is_name_byte(*byte),
        Some([]) => true,
        None => false,
    }
}

/// Which line comes next after a bad one, by what it begins like.
fn place_behind_begun(kind: Kind, place: Place, line: &[u8]) -> Place {
    match place {
        Place::Head => Place::Store,
        // The store may have a key `txn`.
        Place::Store if begins_with(line, b"txn") && !line.starts_with(b"txn ") => Place::Reads,
        Place::Between if begins_with(line, b"txn") => Place::Reads,
        Place::Body if begins_with(line, b"txn") && kind == Kind::Log => Place::Reads,
        Place::Body if begins_with(line, b"end") => place.behind(kind, b"end"),
        Place::Keys | Place::Values if begins_with(line, b"reads") => Place::Writes,
        Place::Keys | Place::Values | Place::Reads | Place::Writes => {
            match place_begun(place, line) {
                Some(Place::Reads) => Place::Writes,
                Some(Place::Writes | Place::Body) => Place::Body,
                _ => place,
            }
        }
        _ => place,
    }
}

impl<'a> Walk<'a> {
    /// The walk from a text's first line on.
    pub fn of(alloc: Global, text: &'a [u8]) -> Walk<'a> {
        Walk {
            kind: Kind::headed(first_line(text)),
            place: Place::Head,
            is_loose: false,
            rest: text,
            number: 1,
            parameters: Parameters::none(alloc),
        }
    }

    /// The same walk, where `reads` and `writes` may be missing if it is loose.
    pub fn loosely(self, is_loose: bool) -> Walk<'a> {
        Walk { is_loose, ..self }
    }

    /// The place that a line has: the next one, or the first one after missing sets where it may
    /// be.
    fn place_of(&self, line: &[u8]) -> Place {
        let is_before_body = match self.place {
            Place::Keys | Place::Values | Place::Reads | Place::Writes => true,
            _ => false,
        };
        if self.is_loose && is_before_body {
            for other in places_from(self.place) {
                if *other != Place::Between && first_halt(*other, line).is_none() {
                    return *other;
                }
            }
        }
        self.place
    }

    /// The next line, or what follows the last newline.
    pub fn line(&self) -> TextLine<'a> {
        let bytes = first_line(self.rest);
        TextLine {
            number: self.number,
            bytes,
            is_whole: bytes.len() < self.rest.len(),
        }
    }

    fn go_on(&mut self, place: Place) {
        self.place = place;
        self.number = self.number.saturating_add(1);
        self.rest = behind_lines(self.rest, 1);
    }

    /// Advances past a line that may be here.
    pub fn pass(&mut self, alloc: Global) -> Result<(), NoMemory> {
        let line = self.line();
        if self.kind == Kind::Procedure {
            match self.place {
                Place::Keys | Place::Values => {
                    self.parameters.add(alloc, line.number, line.bytes)?;
                }
                _ => {}
            }
        }
        self.go_on(self.place_of(line.bytes).behind(self.kind, line.bytes));
        Ok(())
    }

    /// Advances past a line as if it weren't there.
    pub fn skip(&mut self) {
        self.go_on(self.place);
    }

    /// Advances past this many lines that may be where they are.
    pub fn pass_all(&mut self, alloc: Global, lines: u64) -> Result<(), NoMemory> {
        for _ in 0..lines {
            self.pass(alloc)?;
        }
        Ok(())
    }

    /// Whether the text may end here.
    pub fn may_end(&self) -> bool {
        self.place.may_end()
    }

    /// Advances past a bad line.
    pub fn pass_bad(&mut self, alloc: Global) -> Result<(), NoMemory> {
        let line = self.line().bytes;
        self.go_on(place_behind_bad(alloc, self.kind, self.place, line)?);
        Ok(())
    }

    /// Why this line can't be the next one; nothing if it can.
    pub fn badness(&self, alloc: Global, line: &[u8]) -> Result<Option<Badness>, NoMemory> {
        let place = self.place_of(line);
        if let Some(halt) = halt_in(self.kind, place, line) {
            return Ok(Some(Badness::Spelling(halt)));
        }
        if self.kind == Kind::Log {
            return Ok(None);
        }
        if let (Place::Keys | Place::Values, Some((line, name))) = (
            place,
            self.parameters.named_before(line),
        ) {
            return Ok(Some(Badness::NamedBefore { line, name }));
        }
        if place == Place::Writes && !self.is_loose {
            let lacking = self.parameters.undeclared(alloc, line)?;
            if !lacking.is_empty() {
                return Ok(Some(Badness::Undeclared(lacking)));
            }
        }
        Ok(None)
    }
}
