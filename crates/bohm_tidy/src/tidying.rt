//! Writes the exact text of a loosely written log.

ghost use Rattle.std.specs.Prelude.{◌≡◌, [], IfErr, IfOk, OnOk};
ghost use Rattle.std.specs.List.{IsDistinct};
ghost use Rattle.std.specs.Str.{bytes_eq};
ghost use Rattle.bohm_types.specs.Keys.{names_of};
ghost use Rattle.bohm_text.specs.Print.{print_doc};
ghost use Rattle.bohm_tidy.specs.Settled.{settled};
ghost use Rattle.bohm_tidy.specs.Tidied.{IsExactDoc, IsLineOf, IsTidied, IsTidiedByLines};
ghost use Rattle.bohm_tidy.specs.Tidied.{IsUnsettled, RefusesLines, RefusesLoose};

use crate::doubles::first_double;
use crate::fault::{Double, TidyFault};
use crate::plain::{Plain, line_at, line_start, plain_text};
use crate::settled::print_settled;
use crate::store::Unsettled;
use bohm_log::{Doc, DrawnSeed};
use bohm_text::{TextFault, parse_with_seed};
use bohm_types::NoMemory;
use std::alloc::Global;

/// The line of the loose text from which this line of the plain one was made. Both count from 1.
fn loose_line(alloc: Global, text: &[u8], plain: &Plain, line: u64) -> Result<u64, NoMemory>
    ensures { IfOk result (IsLineOf text.now) }
{
    line_at(alloc, text, line_start(plain.text.as_slice(), line))
}

/// The lines of the repeated key of a document that was read from an exact text.
fn double_in(alloc: Global, doc: &Doc) -> Result<Double, NoMemory> {
    let places = first_double(alloc, doc.store())?;
    Ok(Double {
        first: (places.first as u64).saturating_add(2),
        again: (places.again as u64).saturating_add(2),
    })
}

/// The same of a document that was read from a plain text: the lines are those of the loose one.
fn loose_double(alloc: Global, text: &[u8], plain: &Plain, doc: &Doc) -> Result<Double, NoMemory> {
    let double = double_in(alloc, doc)?;
    Ok(Double {
        first: loose_line(alloc, text, plain, double.first)?,
        again: loose_line(alloc, text, plain, double.again)?,
    })
}

/// The exact text of a text that isn't exact.
fn tidy_by_lines(alloc: Global, seed: DrawnSeed, text: &[u8]) -> Result<Vec<u8>, TidyFault>
    ensures ok { IfOk result (λ exact. IsTidiedByLines text.now exact.items) }
    ensures err { IfErr result (RefusesLines text.now) }
{
    let plain = plain_text(alloc, text)?;
    let doc = match parse_with_seed(alloc, seed, plain.text.as_slice()) {
        Ok(doc) => doc,
        Err(TextFault::Line(line)) => {
            return Err(TidyFault::Line(loose_line(alloc, text, &plain, line)?));
        }
        Err(TextFault::Short) => return Err(TidyFault::Short),
        Err(TextFault::NoMemory) => return Err(TidyFault::NoMemory),
    };
    match print_settled(
        alloc,
        &doc,
        plain.no_reads.as_slice(),
        plain.no_writes.as_slice(),
    ) {
        Ok(exact) => Ok(exact),
        Err(Unsettled::NoMemory) => Err(TidyFault::NoMemory),
        Err(Unsettled::Twice) => Err(TidyFault::Twice(loose_double(alloc, text, &plain, &doc)?)),
    }
}

/// The document whose text this is, if there is one.
fn exact_doc(alloc: Global, seed: DrawnSeed, text: &[u8]) -> Result<Option<Doc>, NoMemory>
    ensures { IfOk result (IsExactDoc text.now) }
{
    match parse_with_seed(alloc, seed, text) {
        Ok(doc) => Ok(Some(doc)),
        Err(TextFault::Line(_)) => Ok(None),
        Err(TextFault::Short) => Ok(None),
        Err(TextFault::NoMemory) => Err(NoMemory),
    }
}

/// The exact text of a document that was read from an exact text.
fn tidy_exactly(alloc: Global, doc: &Doc) -> Result<Vec<u8>, TidyFault>
    ensures text { IfOk result (λ exact. exact.items ≡ print_doc (settled [] [] doc.now)) }
    ensures distinct { OnOk result (IsDistinct bytes_eq (names_of doc.now.store)) }
    ensures err { IfErr result (IsUnsettled doc.now) }
{
    match print_settled(alloc, doc, &[], &[]) {
        Ok(exact) => Ok(exact),
        Err(Unsettled::NoMemory) => Err(TidyFault::NoMemory),
        Err(Unsettled::Twice) => Err(TidyFault::Twice(double_in(alloc, doc)?)),
    }
}

/// The exact text of a loosely written log: with comments, free spacing, keys in any order, and
/// missing sets. Names are hashed with the seed. The time grows with the length of the text, and
/// with the number n of the keys of a set or of the store as n log n; the memory grows with the
/// text.
///
/// # Errors
///
/// `Line` and `Short` say where the text stops being a prefix of a log, `Twice` which key the store
/// names twice. `NoMemory` says that an allocation failed.
#[tactic(auto, using(crate::proofs::Readings::of_exact, crate::proofs::Readings::not_exact))]
pub fn tidy(alloc: Global, seed: DrawnSeed, text: &[u8]) -> Result<Vec<u8>, TidyFault>
    ensures ok { IfOk result (λ exact. IsTidied text.now exact.items) }
    ensures err { IfErr result (RefusesLoose text.now) }
{
    match exact_doc(alloc, seed, text)? {
        Some(doc) => match tidy_exactly(alloc, &doc) {
            Ok(exact) => Ok(exact),
            Err(fault) => Err(fault),
        },
        None => tidy_by_lines(alloc, seed, text),
    }
}
