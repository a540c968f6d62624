//! A loose text line by line, converted to lines of an exact text.

ghost use Rattle.std.specs.Prelude.{◌≡◌, ◌≤◌, IfOk, OnOk, codes, length};
ghost use Rattle.bohm_tidy.specs.Plain.{begins, fed, filled, has_writes, nothing, place_after};
ghost use Rattle.bohm_tidy.specs.Plain.{signs_at, with_line, without_mark, written, written_of};
ghost use Rattle.bohm_tidy.specs.Tidied.{IsLineOf};
ghost use Rattle.bohm_tidy.specs.declared.plain.Place.TheVariants as places;

use crate::bytes::place_of;
use crate::line::put_line;
use bohm_text::Words;
use bohm_types::NoMemory;
use std::alloc::Global;

/// Which line comes next.
#[derive(Clone, Copy)]
pub enum Place {
    /// The head, a line of the store, or a transaction's opening.
    Between,
    /// The reads of the transaction that was opened.
    Opened,
    /// The writes of that transaction.
    Reading,
    /// A statement, or the transaction's closing.
    Body,
}

/// The lines of an exact text made from those of a loose one. If a transaction lacks the line of
/// its reads or of its writes, an empty line is added, and recorded.
#[derive(Drop)]
pub struct Plain {
    pub place: Place,
    pub text: Vec<u8>,
    /// For each transaction, whether its reads are missing.
    pub no_reads: Vec<bool>,
    /// For each transaction, whether its writes are missing.
    pub no_writes: Vec<bool>,
    line: Vec<u8>,
    room: Vec<u8>,
}

/// Whether signs are separate words.
fn signs_at(place: Place) -> bool
    ensures { result ≡ signs_at place }
{
    match place {
        Place::Between => false,
        Place::Opened | Place::Reading | Place::Body => true,
    }
}

/// Whether this is the line's first word.
fn begins(line: &[u8], word: &[u8]) -> bool
    ensures { result ≡ begins line.now word.now }
{
    match Words::of(line).next() {
        Some(first) => first == word,
        None => false,
    }
}

/// Which line comes after this one.
fn place_after(place: Place, line: &[u8]) -> Place
    ensures { result ≡ place_after place line.now }
{
    match place {
        Place::Between => if line == b"txn".as_slice() {
            Place::Opened
        } else {
            Place::Between
        },
        Place::Opened => Place::Reading,
        Place::Reading => Place::Body,
        Place::Body => if line == b"end".as_slice() {
            Place::Between
        } else {
            Place::Body
        },
    }
}

impl Plain {
    pub fn new(alloc: Global) -> Plain
        ensures { written_of result ≡ nothing }
    {
        Plain {
            place: Place::Between,
            text: Vec::new(alloc),
            no_reads: Vec::new(alloc),
            no_writes: Vec::new(alloc),
            line: Vec::new(alloc),
            room: Vec::new(alloc),
        }
    }

    /// Adds an empty line of writes, unless the next line is one.
    fn fill_writes(&mut self) -> Result<(), NoMemory>
        ensures filled { IfOk result (λ _. written_of self.new
            ≡ has_writes (begins self.old.line.items (codes "writes")) (written_of self.old)) }
        ensures line { OnOk result (self.new.line.items ≡ self.old.line.items) }
    {
        if begins(self.line.as_slice(), b"writes") {
            self.no_writes.push(false)?;
            return Ok(());
        }
        self.no_writes.push(true)?;
        self.text.extend_from_slice(b"writes\n")?;
        self.place = Place::Body;
        Ok(())
    }

    /// Adds an empty line of reads, unless the next line is one, and then one of writes.
    fn fill_reads(&mut self) -> Result<(), NoMemory>
        requires { self.old.place ≡ places.Opened }
        ensures filled { IfOk result (λ _. written_of self.new
            ≡ filled self.old.line.items (written_of self.old)) }
        ensures line { OnOk result (self.new.line.items ≡ self.old.line.items) }
    {
        if begins(self.line.as_slice(), b"reads") {
            self.no_reads.push(false)?;
            return Ok(());
        }
        self.no_reads.push(true)?;
        self.text.extend_from_slice(b"reads\n")?;
        self.place = Place::Reading;
        self.fill_writes()
    }

    /// Adds empty lines for missing sets before the next line.
    fn fill(&mut self) -> Result<(), NoMemory>
        ensures filled { IfOk result (λ _. written_of self.new
            ≡ filled self.old.line.items (written_of self.old)) }
        ensures line { OnOk result (self.new.line.items ≡ self.old.line.items) }
    {
        match self.place {
            Place::Between => Ok(()),
            Place::Opened => self.fill_reads(),
            Place::Reading => self.fill_writes(),
            Place::Body => Ok(()),
        }
    }

    /// Appends the next line.
    fn put(&mut self) -> Result<(), NoMemory>
        ensures { IfOk result
            (λ _. written_of self.new ≡ with_line self.old.line.items (written_of self.old)) }
    {
        self.text.extend_from_slice(self.line.as_slice())?;
        self.text.push(b'\n')?;
        self.place = place_after(self.place, self.line.as_slice());
        Ok(())
    }

    /// Reads the next line of the loose text.
    pub fn feed(&mut self, line: &[u8]) -> Result<(), NoMemory>
        ensures { IfOk result (λ _. written_of self.new ≡ fed (written_of self.old) line.now) }
    {
        self.line.clear();
        put_line(&mut self.line, &mut self.room, signs_at(self.place), line)?;
        if self.line.as_slice().is_empty() {
            return Ok(());
        }
        self.fill()?;
        self.put()?;
        Ok(())
    }
}

/// The text without a byte order mark before it.
pub fn without_mark(text: &[u8]) -> &[u8]
    ensures value { result.now ≡ without_mark text.now }
    ensures short { length result.now ≤ length text.now }
{
    match text.strip_prefix(b"\xef\xbb\xbf".as_slice()) {
        Some(rest) => rest,
        None => text,
    }
}

/// The lines of an exact text made from a loose one. The time and memory grow with the length of
/// the text.
pub fn plain_text(alloc: Global, text: &[u8]) -> Result<Plain, NoMemory>
    ensures { IfOk result (λ plain. written_of plain ≡ written text.now) }
{
    let mut plain = Plain::new(alloc);
    let mut rest = without_mark(text);
    'lines: while let Some(at) = place_of(b'\n', rest) {
        plain.feed(&rest[..at])?;
        rest = &rest[at + 1..];
    }
    plain.feed(rest)?;
    Ok(plain)
}

/// Exact lines, and for each of them the number of the loose line from which it was made, or before
/// which it is missing.
#[derive(Drop)]
pub struct NumberedLines {
    pub exact: Vec<u8>,
    pub numbers: Vec<u32>,
}

/// Adds a loose line's number for each exact line.
pub fn add_numbers(numbers: &mut Vec<u32>, lines: &[u8], number: u32) -> Result<(), NoMemory> {
    for byte in lines {
        if *byte == b'\n' {
            numbers.push(number)?;
        }
    }
    Ok(())
}

/// The exact lines that a loose text is read as, numbered. The time grows with the length of the
/// text.
pub fn numbered_plain(alloc: Global, text: &[u8]) -> Result<NumberedLines, NoMemory> {
    let mut plain = Plain::new(alloc);
    let mut numbers = Vec::new(alloc);
    let mut number: u32 = 0;
    for line in without_mark(text).split(|byte| *byte == b'\n') {
        let before = plain.text.len();
        number = number.saturating_add(1);
        plain.feed(line)?;
        add_numbers(
            &mut numbers,
            plain.text.as_slice().get(before..).unwrap_or(&[]),
            number,
        )?;
    }
    Ok(NumberedLines {
        exact: plain.text,
        numbers,
    })
}

/// The line of the loose text, counted from 1, from which the byte at this index of the plain text
/// was made, or the last line if the plain text has no such byte.
pub fn line_at(alloc: Global, text: &[u8], place: usize) -> Result<u64, NoMemory>
    ensures { IfOk result (IsLineOf text.now) }
{
    let mut plain = Plain::new(alloc);
    let mut rest = without_mark(text);
    let mut number: usize = 1;
    'lines: while let Some(at) = place_of(b'\n', rest) {
        plain.feed(&rest[..at])?;
        if plain.text.len() > place {
            return Ok(number as u64);
        }
        number += 1;
        rest = &rest[at + 1..];
    }
    Ok(number as u64)
}

/// The offset at which a line of a text, counted from 1, begins.
pub fn line_start(text: &[u8], line: u64) -> usize {
    let mut rest = text;
    for _line in 1..line {
        match place_of(b'\n', rest) {
            Some(at) => rest = &rest[at + 1..],
            None => return text.len(),
        }
    }
    text.len() - rest.len()
}
