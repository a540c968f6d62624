//! Checks a text and reports its faults.

ghost use Rattle.std.specs.Prelude.{◌≡◌, take, Err, OnOk, IfOk, IfErr};
ghost use Rattle.bohm_check.specs.All.{doc_told};
ghost use Rattle.bohm_check.specs.Reports.{ReportsSome};
ghost use Rattle.bohm_txn.specs.declared.fault.CheckFault.{CheckFault};
ghost use Rattle.bohm_report.specs.declared.refusal.Refusal.TheVariants.{Check};
ghost use Rattle.bohm_types.specs.Sound.{IsDocument};
ghost use Rattle.bohm_text.specs.Print.{print_doc};
ghost use Rattle.bohm_txn.specs.Faulty.{WellFormed};
ghost use Rattle.bohm_report.specs.Refusals.{IsReported, RefusesDocument, RefusesText, Refuses};

use crate::refusal::Refusal;
use bohm_check::{MOST_TOLD, Page, faults, put_faults, put_text_fault};
use bohm_log::{Doc, DrawnSeed};
use bohm_text::{TextFault, parse_with_seed};
use bohm_txn::{Checked, check};
use std::alloc::Global;

/// The document of a text. If it has none, a message is added to the report, as long as allocations
/// succeed.
fn read_document(
    alloc: Global,
    seed: DrawnSeed,
    text: &[u8],
    report: &mut Vec<u8>,
) -> Result<Doc, Refusal>
    ensures found { IfOk result (λ doc. print_doc doc ≡ text.now) }
    ensures sound { IfOk result IsDocument }
    ensures silent { OnOk result (report.new ≡ report.old) }
    ensures err { IfErr result (RefusesText text.now) }
{
    match parse_with_seed(alloc, seed, text) {
        Ok(doc) => Ok(doc),
        Err(TextFault::NoMemory) => Err(Refusal::NoMemory),
        Err(fault) => {
            let _ = put_text_fault(alloc, report, text, fault);
            Err(Refusal::Text(fault))
        }
    }
}

/// The document, if it has no faults. The message about its faults is added to the report, as long
/// as allocations succeed.
fn check_document(
    alloc: Global,
    doc: Doc,
    text: &[u8],
    report: &mut Vec<u8>,
) -> Result<Checked, Refusal>
    ensures ok { IfOk result (λ checked. checked ≡ doc) }
    ensures well_formed { IfOk result WellFormed }
    ensures silent { OnOk result (report.new ≡ report.old) }
    ensures err { IfErr result (RefusesDocument doc) }
    ensures reported { (f : CheckFault) → result ≡ Err (Check f)
        → ReportsSome (take MOST_TOLD (doc_told doc)) report.old.items report.new.items }
{
    let told = faults(alloc, &doc)?;
    match told.as_slice() {
        [first, ..] => {
            put_faults(alloc, report, &doc, Page::of(text), told.as_slice());
            Err(Refusal::Check(first.fault))
        }
        [] => match check(doc) {
            Ok(checked) => Ok(checked),
            Err(fault) => Err(Refusal::Check(fault)),
        },
    }
}

/// The checked document of a text, or the fault for which a run refuses it. Messages for people are
/// added to the report, as long as allocations succeed: about the first bad line if the text isn't
/// a document's, else about up to 20 faults of the document.
///
/// Names are hashed with the seed. The time grows with the length of the text, and with the number
/// k of its keys as k log k.
pub fn check_text(
    alloc: Global,
    seed: DrawnSeed,
    text: &[u8],
    report: &mut Vec<u8>,
) -> Result<Checked, Refusal>
    ensures found { IfOk result (λ checked. print_doc checked ≡ text.now) }
    ensures sound { IfOk result IsDocument }
    ensures well_formed { IfOk result WellFormed }
    ensures silent { OnOk result (report.new ≡ report.old) }
    ensures err { IfErr result (Refuses text.now) }
    ensures reported { (f : CheckFault) → result ≡ Err (Check f)
        → IsReported text.now report.old.items report.new.items }
{
    let doc = read_document(alloc, seed, text, report)?;
    let checked = check_document(alloc, doc, text, report)?;
    Ok(checked)
}
