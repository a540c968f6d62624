//! The explanation of a log: the figures of its parts, its hottest keys, and a longest chain.

ghost use Rattle.std.specs.Prelude.{◌≡◌, ◌++◌, ◌∷◌, [], ◌≤◌, List, length, IfNone, IfOk, IfSome};
ghost use Rattle.std.specs.Prelude.{OnOk};
ghost use Rattle.bohm_types.specs.Txn.{Txn};
ghost use Rattle.bohm_place.specs.CutLogs.{cutting_of};
ghost use Rattle.bohm_place.specs.Plans.{IsPlannable, IsRightPlan};
ghost use Rattle.bohm_place.specs.Shares.{AreWellFormed};
ghost use Rattle.bohm_explain.specs.Figures.{figures_of};
ghost use Rattle.bohm_explain.specs.Heats.{Chained};
ghost use Rattle.bohm_explain.specs.Parts.{parts_in};
ghost use Rattle.bohm_explain.specs.Printed.{IsAnswerTo, IsLongestChain, LacksPart, chained};
ghost use Rattle.bohm_explain.specs.Printed.{chained_in, figures_text};
ghost use Rattle.bohm_explain.specs.Longest.{IsLonger};
ghost use Rattle.bohm_explain.specs.Tallies.{CanTake, IsGathered};
ghost use Rattle.bohm_types.specs.Limits.{largest_batch, most_txns};

use crate::arrow::Arrow;
use crate::chains::chains_through;
use crate::figures::{Figures, counted};
use crate::gathering::Gathering;
use crate::heat::Heat;
use crate::json::put_json;
use crate::longest::keep_longer;
use crate::parts::{Part, cut_log};
use crate::ranking::rank;
use crate::request::Request;
use crate::svg::print_svg;
use crate::table::put_plain;
use crate::waits::waits_in;
use bohm_log::{DrawnSeed, HashSeed, LogPart};
use bohm_place::{CutLog, Newest, Plan, plan_alone};
use bohm_read_ahead::Sharing;
use bohm_types::NoMemory;
use std::alloc::Global;

/// The results of going through a log.
#[derive(Drop)]
struct Survey {
    parts: Vec<Part>,
    keys: Gathering,
    /// The places in the log of the transactions of a longest chain.
    longest: Vec<u32>,
    /// The wanted versions of the part that is drawn.
    drawn: Vec<Arrow>,
}

/// The figures of the part with this plan, and its wanted versions. Its keys are noted in `keys`,
/// and its longest chain replaces `longest` if it is longer.
fn explain_part(
    alloc: Global,
    plan: &Plan,
    txns: &LogPart<'_>,
    keys: &mut Gathering,
    longest: &mut Vec<u32>,
) -> Result<(Figures, Vec<Arrow>), NoMemory>
    requires few { length txns.now ≤ largest_batch }
    requires plannable { IsPlannable plan.now.first txns.now }
    requires right { IsRightPlan txns.now plan.now }
    requires room { CanTake (length txns.now) keys.old }
    requires first { plan.now.first ≤ most_txns }
    ensures longest { OnOk result
        (IsLonger plan.now.first txns.now longest.old.items longest.new.items) }
    ensures figures { IfOk result (λ r. r.0 ≡ figures_of txns.now) }
    ensures noted { OnOk result ((log : List Txn) (parts : List Chained)
        → IsGathered log parts keys.old
        → IsGathered (log ++ txns.now) (parts ++ chained txns.now ∷ []) keys.new) }
{
    let waits = waits_in(alloc, plan, txns)?;
    let arrows = waits.arrows.as_slice();
    let depths = waits.depths.as_slice();
    let through = chains_through(alloc, arrows, depths, waits.heights.as_slice())?;
    keys.note(txns, arrows, through.as_slice())?;
    keep_longer(alloc, txns, &waits, plan.first(), longest)?;
    let figures = counted(alloc, txns, arrows, depths)?;
    Ok((figures, waits.arrows))
}

/// The wanted versions of a part if it is the one that is drawn, and otherwise the others.
fn chosen(others: Vec<Arrow>, arrows: Vec<Arrow>, is_drawn: bool) -> Vec<Arrow> {
    if is_drawn { arrows } else { others }
}

/// The parts of a log that run in these ways, its keys, a longest chain, and the wanted versions of
/// the part with the number `drawn`, counted from 1.
fn survey_log(
    alloc: Global,
    seed: DrawnSeed,
    log: CutLog<'_>,
    ways: &[Sharing],
    drawn: Option<u32>,
) -> Result<Survey, NoMemory>
    requires begins { (cutting_of log).first ≡ 1 }
    requires few { length (cutting_of log).log ≤ most_txns }
    requires paired { length ways.now ≡ length (cutting_of log).sizes }
    ensures parts { IfOk result (λ s. s.parts.items ≡ parts_in (cutting_of log.entry) ways.now) }
    ensures few { IfOk result (λ s. length s.parts.items ≤ most_txns) }
    ensures keys { IfOk result
        (λ s. IsGathered (cutting_of log.entry).log (chained_in (cutting_of log.entry)) s.keys) }
    ensures longest { IfOk result (λ s. IsLongestChain (cutting_of log.entry) s.longest.items) }
{
    let mut parts = Vec::new(alloc);
    let mut keys = Gathering::new(alloc, HashSeed::from(seed));
    let mut longest = Vec::new(alloc);
    let mut shown = Vec::new(alloc);
    let mut newest = Newest::new(alloc);
    let mut start = 0;
    for index in 0..log.batches() {
        let txns = log.batch(index, start);
        let first = start as u32 + 1;
        let (next, plan) = plan_alone(alloc, newest, first, &txns)?;
        newest = next;
        let (figures, arrows) = explain_part(alloc, &plan, &txns, &mut keys, &mut longest)?;
        parts.push(Part {
            number: index + 1,
            first,
            sharing: ways[index as usize],
            figures,
        })?;
        shown = chosen(shown, arrows, drawn == Some(index + 1));
        start += txns.len();
    }
    Ok(Survey {
        parts,
        keys,
        longest,
        drawn: shown,
    })
}

/// The text of these parts and of these keys, which are ranked hottest first.
fn print_figures(
    alloc: Global,
    request: Request,
    parts: &[Part],
    ranked: &[Heat],
    longest: &[u32],
) -> Result<Vec<u8>, NoMemory>
    requires { length parts.now ≤ most_txns }
    ensures { IfOk result (λ text. text.items
        ≡ figures_text request parts.now ranked.now longest.now) }
{
    let mut out = Vec::new(alloc);
    let layout = request.layout();
    if layout.json {
        put_json(&mut out, request, parts, ranked, longest)?;
        return Ok(out);
    }
    put_plain(
        &mut out,
        layout.summary,
        request.top(),
        parts,
        ranked,
        longest,
    )?;
    Ok(out)
}

/// The text that answers a request about a log, or `None` if the request is for the conflicts of a
/// part that the log doesn't have. A run reads a window after another with these numbers of
/// transactions. The time grows with the number of declared keys, and with the number n of distinct
/// keys as n log n.
pub fn answer(
    alloc: Global,
    seed: DrawnSeed,
    log: &LogPart<'_>,
    counts: &[u32],
    request: Request,
) -> Result<Option<Vec<u8>>, NoMemory>
    requires few { length log.now ≤ most_txns }
    requires formed { AreWellFormed log.now }
    ensures answers { IfOk result (λ o. IfSome o (λ text. IsAnswerTo request log.now text.items)) }
    ensures lacking { IfOk result (λ o. IfNone o (LacksPart request log.now)) }
{
    let cut = cut_log(alloc, log, counts, request.settings())?;
    let cut_up = CutLog::new(1, log, &cut.cuts);
    let survey = survey_log(alloc, seed, cut_up, cut.ways.as_slice(), request.picture())?;
    let parts = survey.parts.as_slice();
    if let Some(number) = request.picture() {
        if cut.cuts.count() < number {
            return Ok(None);
        }
        let text = print_svg(
            alloc,
            seed,
            parts,
            number,
            survey.drawn.as_slice(),
            request.top(),
        )?;
        return Ok(Some(text));
    }
    let ranked = rank(survey.keys.heats(alloc)?);
    let text = print_figures(
        alloc,
        request,
        parts,
        ranked.as_slice(),
        survey.longest.as_slice(),
    )?;
    Ok(Some(text))
}
