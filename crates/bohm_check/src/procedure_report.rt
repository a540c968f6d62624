//! Procedures for people: why one is refused, and what it has in numbers.

ghost use Rattle.std.specs.Prelude.{◌≡◌, ◌++◌, ℕ, length, Err, IfOk, OnOk};
ghost use Rattle.bohm_text.specs.Cut.{whole_lines};
ghost use Rattle.bohm_text.specs.ProcedureFaults.{IsFirstBadLine, IsShort};
ghost use Rattle.bohm_text.specs.ProcedureText.{IsProcedure, print_procedure};
ghost use Rattle.bohm_txn.specs.declared.fault.CheckFault.{CheckFault};
ghost use Rattle.bohm_procedures.specs.Accepting.{IsAccepted, IsRefusedBy};
ghost use Rattle.bohm_procedures.specs.declared.fault.ProcedureFault.TheVariants as refusals;
ghost use Rattle.bohm_check.specs.SummaryLine.{head_words, procedure_line, things};

use crate::finding::faults;
use crate::grammar::Kind;
use crate::lines::first_line;
use crate::loose_faults::{LooseText, put_loose_faults};
use crate::page::{Counts, Page};
use crate::report::put_faults;
use crate::shown::{put_line, put_name, put_number, put_text};
use crate::terms::{atoms_of, key_read};
use crate::text_faults::{put_text_fault, whole_lines};
use bohm_log::{Doc, DrawnSeed, HashSeed, Log, LogPart, StmtView, TxnView};
use bohm_procedures::{Procedure, ProcedureFault};
use bohm_text::{ProcedureReader, TextFault, parse_procedure};
use bohm_types::{Edition, Key, NoMemory};
use std::alloc::Global;

/// Whether a text is a procedure's by its first line, `procedure 1` or `procedure 2`.
pub fn is_procedure(text: &[u8]) -> bool {
    Kind::headed(first_line(text)) == Kind::Procedure
}

/// The document of a procedure's own instance, and the procedure's parameters.
#[derive(Drop)]
struct Own {
    doc: Doc,
    keys: Vec<Key>,
    values: usize,
}

impl Own {
    /// Nothing if the text isn't a procedure's.
    fn of(alloc: Global, seed: DrawnSeed, text: &[u8]) -> Result<Option<Own>, NoMemory> {
        let seed = HashSeed::from(seed);
        let Ok(reader) = parse_procedure(alloc, seed, text) else {
            return Ok(None);
        };
        let ProcedureReader {
            edition,
            keys,
            values,
            draft,
            ..
        } = reader;
        let mut log = Log::new(alloc, seed);
        if log.close(&draft).is_err() {
            return Err(NoMemory);
        }
        let values = values.len();
        let doc = Doc::new(edition, Vec::new(alloc), log);
        Ok(doc.map(|doc| Own { doc, keys, values }))
    }

    /// The page that shows the document.
    fn page<'a>(&self, text: &'a [u8]) -> Page<'a> {
        let counts = Counts {
            keys: self.keys.len() as u64,
            values: self.values as u64,
        };
        Page::of_procedure(text, counts)
    }

    /// The messages about the document's faults.
    fn put_faults(&self, alloc: Global, out: &mut Vec<u8>, page: Page<'_>) -> Result<(), NoMemory> {
        let told = faults(alloc, &self.doc)?;
        put_faults(alloc, out, &self.doc, page, told.as_slice());
        Ok(())
    }
}

/// A statement that writes a key parameter.
#[derive(Clone, Copy)]
struct Write {
    key: Key,
    index: usize,
}

/// Whether a statement reads a key parameter that isn't this one.
fn reads_another(
    alloc: Global,
    stmt: &StmtView<'_>,
    parameters: &[Key],
    key: Key,
) -> Result<bool, NoMemory> {
    for placed in atoms_of(alloc, stmt)? {
        if let Some(read) = key_read(placed.atom) {
            if read != key && parameters.contains(&read) {
                return Ok(true);
            }
        }
    }
    Ok(false)
}

/// An earlier write to another key parameter than a statement writes, if the statement reads a key
/// parameter that may be the same key.
fn overtaken(
    alloc: Global,
    stmt: &StmtView<'_>,
    parameters: &[Key],
    writes: &[Write],
) -> Result<Option<Write>, NoMemory> {
    let Some(target) = stmt.target() else {
        return Ok(None);
    };
    if !parameters.contains(&target) {
        return Ok(None);
    }
    for write in writes {
        if write.key != target && reads_another(alloc, stmt, parameters, write.key)? {
            return Ok(Some(*write));
        }
    }
    Ok(None)
}

/// The note on a statement that doesn't see an earlier write.
fn put_note(
    out: &mut Vec<u8>,
    page: Page<'_>,
    earlier: Write,
    index: usize,
) -> Result<(), NoMemory> {
    let line = (index as u64).saturating_add(5);
    put_text(out, "note, line ")?;
    put_number(out, page.number(line))?;
    put_text(out, ":\n")?;
    put_line(out, page.shown(line), 1, 0)?;
    put_text(out, "where ")?;
    put_name(out, earlier.key)?;
    put_text(
        out,
        " and another key parameter are one key, this reads its value from before line ",
    )?;
    put_number(out, page.number((earlier.index as u64).saturating_add(5)))?;
    put_text(out, "; in edition 2 it reads the new one\n")
}

/// Adds a note to the report on an accepted procedure of edition 1 if it writes a key parameter from
/// one that an earlier write may have changed: where both are one key, the earlier write is lost. As
/// long as allocations succeed.
pub fn put_notes(
    alloc: Global,
    seed: DrawnSeed,
    text: &[u8],
    report: &mut Vec<u8>,
) -> Result<(), NoMemory> {
    let Some(own) = Own::of(alloc, seed, text)? else {
        return Ok(());
    };
    if own.doc.edition() != Edition::One || own.doc.log().len() == 0 {
        return Ok(());
    }
    let log = own.doc.log();
    let txn = log.txn(0);
    let parameters = own.keys.as_slice();
    let mut writes: Vec<Write> = Vec::new(alloc);
    for index in 0..txn.body_len() {
        let stmt = txn.stmt(index);
        if let Some(earlier) = overtaken(alloc, &stmt, parameters, writes.as_slice())? {
            return put_note(report, own.page(text), earlier, index);
        }
        if let Some(key) = stmt.target() {
            if parameters.contains(&key) {
                writes.push(Write { key, index })?;
            }
        }
    }
    Ok(())
}

/// The messages about a text that is refused as a procedure.
fn put_procedure_fault(
    alloc: Global,
    out: &mut Vec<u8>,
    seed: DrawnSeed,
    text: &[u8],
    fault: ProcedureFault,
) -> Result<(), NoMemory> {
    match fault {
        ProcedureFault::Line(line) => put_text_fault(alloc, out, text, TextFault::Line(line)),
        ProcedureFault::Short => put_text_fault(alloc, out, text, TextFault::Short),
        ProcedureFault::Check(_) => match Own::of(alloc, seed, text)? {
            Some(own) => own.put_faults(alloc, out, own.page(text)),
            None => Ok(()),
        },
        ProcedureFault::NoMemory => Ok(()),
    }
}

/// The procedure of a text, as `Procedure::read` returns it. If it is refused, messages for people
/// are added to the report, as long as allocations succeed: those that `check` has of a log, with
/// the lines of this text, and with statements counted from the body's first line.
pub fn check_procedure(
    alloc: Global,
    seed: DrawnSeed,
    text: &[u8],
    report: &mut Vec<u8>,
) -> Result<Procedure, ProcedureFault>
    ensures found { IfOk result (λ p. print_procedure p ≡ text.now) }
    ensures sound { IfOk result IsProcedure }
    ensures accepted { IfOk result IsAccepted }
    ensures silent { OnOk result (report.new ≡ report.old) }
    ensures line { (n : ℕ) → result ≡ Err (refusals.Line n)
        → IsFirstBadLine (whole_lines text.now) n }
    ensures short { result ≡ Err refusals.Short → IsShort text.now }
    ensures check { (f : CheckFault) → result ≡ Err (refusals.Check f)
        → IsRefusedBy text.now f }
{
    match Procedure::read(alloc, seed, text) {
        Ok(procedure) => Ok(procedure),
        Err(fault) => {
            let _ = put_procedure_fault(alloc, report, seed, text, fault);
            Err(fault)
        }
    }
}

/// The messages about a text that a loosely written one was tidied into, and that is refused as a
/// procedure.
fn put_loose_fault(
    alloc: Global,
    out: &mut Vec<u8>,
    seed: DrawnSeed,
    loose: LooseText<'_>,
    fault: ProcedureFault,
) -> Result<(), NoMemory> {
    match fault {
        ProcedureFault::Line(_) | ProcedureFault::Short => put_loose_faults(alloc, out, loose),
        ProcedureFault::Check(_) => match Own::of(alloc, seed, loose.exact)? {
            Some(own) => {
                let page = own.page(loose.exact).loosely(loose.text, loose.numbers);
                own.put_faults(alloc, out, page)
            }
            None => Ok(()),
        },
        ProcedureFault::NoMemory => Ok(()),
    }
}

/// The procedure of the exact text into which a loosely written one was tidied. It is like
/// `check_procedure`, with the lines of the loose text.
pub fn check_loose_procedure(
    alloc: Global,
    seed: DrawnSeed,
    loose: LooseText<'_>,
    report: &mut Vec<u8>,
) -> Result<Procedure, ProcedureFault>
    ensures { OnOk result (report.new ≡ report.old) }
{
    match Procedure::read(alloc, seed, loose.exact) {
        Ok(procedure) => Ok(procedure),
        Err(fault) => {
            let _ = put_loose_fault(alloc, report, seed, loose, fault);
            Err(fault)
        }
    }
}

/// A procedure in numbers.
#[derive(Clone, Copy, Debug, PartialEq, Eq)]
pub struct ProcedureSummary {
    pub edition: Edition,
    pub keys: usize,
    pub values: usize,
    /// The statements of its text.
    pub statements: usize,
}

fn head_words(edition: Edition) -> &'static str
    ensures { result.now ≡ head_words edition }
{
    match edition {
        Edition::One => "procedure 1",
        Edition::Two => "procedure 2",
    }
}

/// A number of things, by their name for one of them.
fn put_things(out: &mut Vec<u8>, number: usize, thing: &str) -> Result<(), NoMemory>
    ensures { OnOk result (out.new.items ≡ out.old.items ++ things number thing.now) }
{
    put_text(out, ", ")?;
    put_number(out, number as u64)?;
    put_text(out, " ")?;
    put_text(out, thing)?;
    if number == 1 {
        Ok(())
    } else {
        put_text(out, "s")
    }
}

impl ProcedureSummary {
    /// The numbers of the procedure of a text.
    pub fn of(procedure: &Procedure, text: &[u8]) -> ProcedureSummary
        ensures edition { result.edition ≡ procedure.now.edition }
        ensures keys { result.keys ≡ length procedure.now.keys }
        ensures values { result.values ≡ length procedure.now.values }
    {
        let (keys, values) = (procedure.keys(), procedure.values());
        let lines = whole_lines(text) as usize;
        ProcedureSummary {
            edition: procedure.edition(),
            keys,
            values,
            statements: lines
                .saturating_sub(keys)
                .saturating_sub(values)
                .saturating_sub(4),
        }
    }

    /// The line that summarizes the procedure, with a newline.
    pub fn print(&self, alloc: Global) -> Result<Vec<u8>, NoMemory>
        ensures { IfOk result (λ line. line.items ≡ procedure_line self.now) }
    {
        let mut out = Vec::new(alloc);
        put_text(&mut out, head_words(self.edition))?;
        put_things(&mut out, self.keys, "key")?;
        put_things(&mut out, self.values, "value")?;
        put_things(&mut out, self.statements, "statement")?;
        put_text(&mut out, "\n")?;
        Ok(out)
    }
}
