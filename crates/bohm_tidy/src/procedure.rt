//! The exact text of a loosely written procedure: its parameters, and then what a log of its one
//! transaction is tidied into.

ghost use Rattle.std.specs.Prelude.{◌≡◌, IfOk, is_some};
ghost use Rattle.bohm_text.specs.Cut.{split};
ghost use Rattle.bohm_tidy.specs.Plain.{first_words, is_head, is_loose_procedure, without_mark};
ghost use Rattle.bohm_tidy.specs.Tidied.{IsProcedureText};

use crate::bytes::place_of;
use crate::fault::TidyFault;
use crate::line::put_line;
use crate::plain::{NumberedLines, add_numbers, numbered_plain, without_mark};
use crate::tidying::tidy;
use bohm_log::{DrawnSeed, HashSeed};
use bohm_text::{TextFault, parse_procedure};
use bohm_types::NoMemory;
use std::alloc::Global;

/// The lines of a log before its first transaction's sets.
const OPENINGS: [&[u8]; 2] = [b"log 1\ntxn\n", b"log 2\ntxn\n"];

/// The number of bytes of each.
const OPENING_BYTES: usize = 10;

/// The number of lines of each.
const OPENING_LINES: usize = 2;

/// What the lines of a loose procedure so far are.
#[derive(Clone, Copy, PartialEq, Eq)]
enum Part {
    /// Nothing yet, but comments.
    Nothing,
    /// The head, and parameters.
    Parameters,
    /// Also sets or statements.
    Transaction,
}

/// A loose procedure, as its parameters and a loose log.
#[derive(Drop)]
struct Parts {
    part: Part,
    /// The exact lines of the head and the parameters, and the numbers of their loose lines.
    parameters: NumberedLines,
    /// A loose log of the procedure's transaction. It has one line more than the loose procedure before
    /// each line of the transaction.
    log: Vec<u8>,
}

/// Whether an exact line is that of a parameter.
fn is_parameter(line: &[u8]) -> bool {
    line.starts_with(b"key ") || line.starts_with(b"value ")
}

/// The opening of the log for a procedure's head; nothing for other lines.
fn opening_of(line: &[u8]) -> Option<&'static [u8]>
    ensures { is_some result ≡ is_head line.now }
{
    if line == b"procedure 1".as_slice() {
        Some(OPENINGS[0])
    } else if line == b"procedure 2".as_slice() {
        Some(OPENINGS[1])
    } else {
        None
    }
}

impl Parts {
    fn new(alloc: Global) -> Parts {
        Parts {
            part: Part::Nothing,
            parameters: NumberedLines {
                exact: Vec::new(alloc),
                numbers: Vec::new(alloc),
            },
            log: Vec::new(alloc),
        }
    }

    fn add_parameter(&mut self, exact: &[u8], number: u32) -> Result<(), NoMemory> {
        self.parameters.exact.extend_from_slice(exact)?;
        self.parameters.exact.push(b'\n')?;
        self.parameters.numbers.push(number)?;
        Ok(())
    }

    /// Adds a loose line, whose exact form is given too. `false` if it shows that the text is no
    /// procedure.
    fn add(&mut self, line: &[u8], exact: &[u8], number: u32) -> Result<bool, NoMemory> {
        match self.part {
            Part::Nothing if !exact.is_empty() => {
                let Some(opening) = opening_of(exact) else {
                    return Ok(false);
                };
                self.part = Part::Parameters;
                self.add_parameter(exact, number)?;
                self.log.extend_from_slice(opening)?;
                return Ok(true);
            }
            Part::Parameters if is_parameter(exact) => self.add_parameter(exact, number)?,
            Part::Parameters if !exact.is_empty() => {
                self.part = Part::Transaction;
                self.log.extend_from_slice(line)?;
            }
            Part::Transaction => self.log.extend_from_slice(line)?,
            Part::Nothing | Part::Parameters => {}
        }
        self.log.push(b'\n')?;
        Ok(true)
    }

    /// The parts of a loose procedure; nothing if the text's first words aren't a procedure's head.
    fn of(alloc: Global, text: &[u8]) -> Result<Option<Parts>, NoMemory> {
        let mut parts = Parts::new(alloc);
        let mut exact = Vec::new(alloc);
        let mut room = Vec::new(alloc);
        let mut number: u32 = 0;
        for line in without_mark(text).split(|byte| *byte == b'\n') {
            number = number.saturating_add(1);
            exact.clear();
            if parts.part != Part::Transaction {
                put_line(&mut exact, &mut room, false, line)?;
            }
            if !parts.add(line, exact.as_slice(), number)? {
                return Ok(None);
            }
        }
        match parts.part {
            Part::Nothing => Ok(None),
            _ => Ok(Some(parts)),
        }
    }

    /// The exact lines that the procedure is read as, numbered.
    fn numbered(self, alloc: Global) -> Result<NumberedLines, NoMemory> {
        let Parts {
            parameters,
            log,
            ..
        } = self;
        let NumberedLines {
            mut exact,
            mut numbers,
        } = parameters;
        let plain = numbered_plain(alloc, log.as_slice())?;
        exact.extend_from_slice(plain.exact.as_slice().get(OPENING_BYTES..).unwrap_or(&[]))?;
        for number in plain.numbers.as_slice().get(OPENING_LINES..).unwrap_or(&[]) {
            numbers.push(number.saturating_sub(1))?;
        }
        Ok(NumberedLines { exact, numbers })
    }

    /// The exact text of the parameters, with sets that declare them, and an empty body.
    fn bare(&self, alloc: Global) -> Result<Vec<u8>, NoMemory> {
        let mut text = Vec::from_slice(alloc, self.parameters.exact.as_slice())?;
        text.extend_from_slice(b"reads")?;
        for line in self
            .parameters
            .exact
            .as_slice()
            .split(|byte| *byte == b'\n')
        {
            if let Some(name) = line.strip_prefix(b"key ".as_slice()) {
                text.push(b' ')?;
                text.extend_from_slice(name)?;
            }
        }
        text.extend_from_slice(b"\nwrites\nend\n")?;
        Ok(text)
    }

    /// The number of the loose line of the parameter at a line of the exact text, counted from 1.
    fn parameter_line(&self, line: u64) -> Option<u64> {
        let number = self
            .parameters
            .numbers
            .as_slice()
            .get(line.checked_sub(1)? as usize)?;
        Some(u64::from(*number))
    }
}

/// The exact line of a text's first line with words, or an empty line.
fn first_words(alloc: Global, text: &[u8]) -> Result<Vec<u8>, NoMemory>
    ensures { IfOk result
        (λ exact. exact.items ≡ first_words (split 10 (without_mark text.now))) }
{
    let mut exact = Vec::new(alloc);
    let mut room = Vec::new(alloc);
    let mut rest = without_mark(text);
    'lines: while let Some(at) = place_of(b'\n', rest) {
        put_line(&mut exact, &mut room, false, &rest[..at])?;
        if !exact.as_slice().is_empty() {
            return Ok(exact);
        }
        rest = &rest[at + 1..];
    }
    put_line(&mut exact, &mut room, false, rest)?;
    Ok(exact)
}

/// Whether a text's first words are a procedure's head. The time grows with the length of the text
/// up to them.
pub fn is_loose_procedure(alloc: Global, text: &[u8]) -> Result<bool, NoMemory>
    ensures { IfOk result (λ is. is ≡ is_loose_procedure text.now) }
{
    let exact = first_words(alloc, text)?;
    Ok(opening_of(exact.as_slice()).is_some())
}

/// The exact lines that a loose log or a loose procedure is read as, numbered. The time grows with the
/// length of the text.
pub fn numbered_lines(alloc: Global, text: &[u8]) -> Result<NumberedLines, NoMemory> {
    match Parts::of(alloc, text)? {
        Some(parts) => parts.numbered(alloc),
        None => numbered_plain(alloc, text),
    }
}

/// Fails at the loose line of the first bad parameter.
fn check_parameters(alloc: Global, seed: DrawnSeed, parts: &Parts) -> Result<(), TidyFault> {
    let bare = parts.bare(alloc)?;
    match parse_procedure(alloc, HashSeed::from(seed), bare.as_slice()) {
        Ok(_) => Ok(()),
        Err(TextFault::Line(line)) => match parts.parameter_line(line) {
            Some(number) => Err(TidyFault::Line(number)),
            None => Ok(()),
        },
        Err(TextFault::Short) => Ok(()),
        Err(TextFault::NoMemory) => Err(TidyFault::NoMemory),
    }
}

/// The parameters, and the tidied transaction.
fn settle(alloc: Global, seed: DrawnSeed, parts: &Parts) -> Result<Vec<u8>, TidyFault> {
    check_parameters(alloc, seed, parts)?;
    let log = match tidy(alloc, seed, parts.log.as_slice()) {
        Ok(log) => log,
        Err(TidyFault::Line(line)) => return Err(TidyFault::Line(line.saturating_sub(1))),
        Err(fault) => return Err(fault),
    };
    let mut exact = Vec::from_slice(alloc, parts.parameters.exact.as_slice())?;
    exact.extend_from_slice(log.as_slice().get(OPENING_BYTES..).unwrap_or(&[]))?;
    Ok(exact)
}

/// The exact lines of a loose procedure with its sets in order, whether or not they are a procedure's
/// text: a key parameter may be declared nowhere, or lines may follow its end. Nothing if a line has no
/// exact form.
pub fn settled_procedure(
    alloc: Global,
    seed: DrawnSeed,
    text: &[u8],
) -> Result<Option<Vec<u8>>, NoMemory> {
    let Some(parts) = Parts::of(alloc, text)? else {
        return Ok(None);
    };
    match settle(alloc, seed, &parts) {
        Ok(exact) => Ok(Some(exact)),
        Err(TidyFault::NoMemory) => Err(NoMemory),
        Err(_) => Ok(None),
    }
}

/// The exact text of a loosely written procedure, as `tidy` has that of a log. Names are hashed with
/// the seed. The time grows with the length of the text, and with the number n of the keys of a set as
/// n log n; the memory grows with the text.
///
/// # Errors
///
/// `Line` and `Short` say where the text stops being a prefix of a procedure. `NoMemory` says that an
/// allocation failed.
pub fn tidy_procedure(alloc: Global, seed: DrawnSeed, text: &[u8]) -> Result<Vec<u8>, TidyFault>
    ensures { IfOk result (λ exact. IsProcedureText exact.items) }
{
    let Some(parts) = Parts::of(alloc, text)? else {
        return Err(TidyFault::Line(1));
    };
    let exact = settle(alloc, seed, &parts)?;
    match parse_procedure(alloc, HashSeed::from(seed), exact.as_slice()) {
        Ok(_) => Ok(exact),
        Err(TextFault::Line(line)) => {
            let numbered = parts.numbered(alloc)?;
            let at = line.saturating_sub(1) as usize;
            let number = numbered.numbers.as_slice().get(at).copied().unwrap_or(1);
            Err(TidyFault::Line(u64::from(number)))
        }
        Err(TextFault::Short) => Err(TidyFault::Short),
        Err(TextFault::NoMemory) => Err(TidyFault::NoMemory),
    }
}
