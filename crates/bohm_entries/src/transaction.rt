//! A transaction that is an entry.

ghost use Rattle.std.specs.Prelude.{◌≡◌, ◌∷◌, ◌++◌, ◌+◌, [], ℕ, Err, Some, IfOk, OnOk, codes};
ghost use Rattle.bohm_types.specs.Document.{Document};
ghost use Rattle.bohm_types.specs.Txn.{Txn};
ghost use Rattle.bohm_txn.specs.Faulty.{IsFirstFault};
ghost use Rattle.bohm_txn.specs.declared.fault.CheckFault.{CheckFault as TheFault};
ghost use Rattle.bohm_text.specs.Cut.{whole_lines};
ghost use Rattle.bohm_text.specs.Faults.{IsFirstBadLine, IsShort};
ghost use Rattle.bohm_text.specs.Windows.{head_line, headed};
ghost use Rattle.bohm_entries.specs.Batches.{behind_opening, txn_in};
ghost use Rattle.bohm_entries.specs.declared.refusal.EntryFault.TheVariants as fault_is;
ghost use Rattle.bohm_entries.specs.declared.refusal.Refusal.{Refusal as TheRefusal};
ghost use Rattle.bohm_entries.specs.declared.refusal.Refusal.TheVariants as refusal_is;
ghost use Rattle.bohm_entries.specs.Refusals.{IsTransaction, RefusesTransaction};

use crate::refusal::{EntryFault, Refusal};
use bohm_log::DrawnSeed;
use bohm_text::{TextFault, parse_with_seed};
use bohm_txn::{Checked, check};
use bohm_types::{Edition, NoMemory};
use std::alloc::Global;

/// The head line of a log.
fn head_line(edition: Edition) -> &'static [u8]
    ensures { result.now ≡ head_line edition ++ 10 ∷ [] }
{
    match edition {
        Edition::One => b"log 1\n",
        Edition::Two => b"log 2\n",
    }
}

/// The log of which these are the lines behind the first `txn`.
fn behind_opening(alloc: Global, edition: Edition, lines: &[u8]) -> Result<Vec<u8>, NoMemory>
    ensures { IfOk result (λ text. text.items ≡ behind_opening edition lines.now) }
{
    let mut text = Vec::new(alloc);
    text.extend_from_slice(head_line(edition))?;
    text.extend_from_slice(b"txn\n")?;
    text.extend_from_slice(lines)?;
    Ok(text)
}

/// Reads the transaction of this edition whose lines follow a line `txn`, if it is well formed. A
/// second transaction behind it is refused as `Shape`. Its time and memory grow with the length of
/// the text.
pub fn read_transaction(
    alloc: Global,
    seed: DrawnSeed,
    edition: Edition,
    lines: &[u8],
) -> Result<Checked, EntryFault>
    ensures found { IfOk result (λ checked. (t : Txn) × (checked.log ≡ t ∷ [])
        × (txn_in edition (whole_lines lines.now) ≡ Some t)) }
    ensures line { (n : ℕ) → result ≡ Err (fault_is.Refused (refusal_is.Line n))
        → IsFirstBadLine (whole_lines (behind_opening edition lines.now)) (n + 1) }
    ensures short { result ≡ Err (fault_is.Refused refusal_is.Short)
        → IsShort (behind_opening edition lines.now) }
    ensures check { (f : TheFault) → result ≡ Err (fault_is.Refused (refusal_is.Check f))
        → (d : Document) × (t : Txn) × (d.log ≡ t ∷ [])
        × (txn_in edition (whole_lines lines.now) ≡ Some t) × IsFirstFault d f }
    ensures taken { OnOk result (IsTransaction edition lines.now) }
    ensures store { IfOk result (λ checked. checked.store ≡ []) }
    ensures refused { (r : TheRefusal) → result ≡ Err (fault_is.Refused r) → RefusesTransaction edition lines.now r }
{
    let Ok(text) = behind_opening(alloc, edition, lines) else {
        return Err(EntryFault::NoMemory);
    };
    let doc = match parse_with_seed(alloc, seed, text.as_slice()) {
        Ok(doc) => doc,
        Err(TextFault::Line(line)) => return Err(EntryFault::Refused(Refusal::Line(line - 1))),
        Err(TextFault::Short) => return Err(EntryFault::Refused(Refusal::Short)),
        Err(TextFault::NoMemory) => return Err(EntryFault::NoMemory),
    };
    if doc.log().len() != 1 {
        return Err(EntryFault::Refused(Refusal::Shape));
    }
    match check(doc) {
        Ok(checked) => Ok(checked),
        Err(fault) => Err(EntryFault::Refused(Refusal::Check(fault))),
    }
}
