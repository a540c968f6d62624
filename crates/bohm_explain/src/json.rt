//! Figures in JSON.

ghost use Rattle.std.specs.Prelude.{◌≡◌, ◌≤◌, ◌++◌, decimal, length, IfOk};
ghost use Rattle.bohm_explain.specs.Json.{figures_json, heat_json, json_text, part_json, parts_json};
ghost use Rattle.bohm_explain.specs.Pieces.{listed};
ghost use Rattle.bohm_types.specs.Limits.{most_txns};

use crate::figures::Totals;
use crate::heat::Heat;
use crate::parts::Part;
use crate::pieces::{Piece, put};
use crate::request::Request;
use crate::table::{execution_limit, hottest, run_limit, word_for};
use bohm_types::NoMemory;

/// Appends the figures of a part or of the log.
#[tactic(auto, unfolding(crate::specs::Json::figures_json))]
fn put_figures(out: &mut Vec<u8>, totals: Totals) -> Result<(), NoMemory>
    ensures { IfOk result (λ _. out.new.items ≡ out.old.items ++ figures_json totals) }
{
    put(
        out,
        &[
            Piece::Decimal(b"{\"transactions\":", totals.transactions),
            Piece::Decimal(b",\"keys\":", totals.keys),
            Piece::Decimal(b",\"sure\":", totals.sure),
            Piece::Decimal(b",\"taken\":", totals.taken),
            Piece::Decimal(b",\"depth\":", totals.depth),
            Piece::Quotient(b",\"width\":", totals.transactions, totals.depth),
            Piece::Decimal(b",\"terms\":", totals.terms),
            Piece::Decimal(b",\"heaviest\":", totals.heaviest),
            Piece::Quotient(b",\"width_by_terms\":", totals.terms, totals.heaviest),
            Piece::Text(b"}"),
        ],
    )
}

/// Appends a key with its counts.
#[tactic(auto, unfolding(crate::specs::Json::heat_json))]
fn put_heat(out: &mut Vec<u8>, heat: &Heat) -> Result<(), NoMemory>
    ensures { IfOk result (λ _. out.new.items ≡ out.old.items ++ heat_json heat.now) }
{
    let key = heat.key.text();
    put(
        out,
        &[
            Piece::Text(b"\n{\"key\":\""),
            Piece::Text(key.as_slice()),
            Piece::Decimal(b"\",\"writers\":", u64::from(heat.writers)),
            Piece::Decimal(b",\"readers\":", u64::from(heat.readers)),
            Piece::Decimal(b",\"chain\":", u64::from(heat.chain)),
            Piece::Text(b"}"),
        ],
    )
}

/// Appends a part.
#[tactic(auto, unfolding(crate::specs::Json::part_json))]
fn put_part(out: &mut Vec<u8>, part: &Part) -> Result<(), NoMemory>
    ensures { IfOk result (λ _. out.new.items ≡ out.old.items ++ part_json part.now) }
{
    put(
        out,
        &[
            Piece::Decimal(b"\n{\"from\":", u64::from(part.first)),
            Piece::Text(b",\"run\":\""),
            Piece::Text(word_for(part.sharing)),
            Piece::Text(b"\",\"figures\":"),
        ],
    )?;
    put_figures(out, Totals::from(part.figures))?;
    put(out, &[Piece::Text(b"}")])
}

/// Appends each part, as the items of a list.
fn put_items(out: &mut Vec<u8>, parts: &[Part]) -> Result<(), NoMemory>
    ensures { IfOk result (λ _. out.new.items ≡ out.old.items ++ listed part_json parts.now) }
{
    let [first, others @ ..] = parts else {
        return Ok(());
    };
    put_part(out, first)?;
    for part in others {
        out.push(b',')?;
        put_part(out, part)?;
    }
    Ok(())
}

/// Appends each part as a named list, unless a summary is requested.
#[tactic(auto, unfolding(crate::specs::Json::parts_json))]
fn put_parts(out: &mut Vec<u8>, summary: bool, parts: &[Part]) -> Result<(), NoMemory>
    ensures { IfOk result (λ _. out.new.items ≡ out.old.items ++ parts_json summary parts.now) }
{
    if summary {
        return Ok(());
    }
    put(out, &[Piece::Text(b"\"parts\":[")])?;
    put_items(out, parts)?;
    put(out, &[Piece::Text(b"],\n")])
}

/// Appends these keys, as the items of a list.
fn put_heats(out: &mut Vec<u8>, heats: &[Heat]) -> Result<(), NoMemory>
    ensures { IfOk result (λ _. out.new.items ≡ out.old.items ++ listed heat_json heats.now) }
{
    let [first, others @ ..] = heats else {
        return Ok(());
    };
    put_heat(out, first)?;
    for heat in others {
        out.push(b',')?;
        put_heat(out, heat)?;
    }
    Ok(())
}

/// Appends these places, as the items of a list.
fn put_places(out: &mut Vec<u8>, places: &[u32]) -> Result<(), NoMemory>
    ensures { IfOk result (λ _. out.new.items ≡ out.old.items ++ listed decimal places.now) }
{
    let [first, others @ ..] = places else {
        return Ok(());
    };
    put(out, &[Piece::Decimal(b"", u64::from(*first))])?;
    for place in others {
        put(out, &[Piece::Decimal(b",", u64::from(*place))])?;
    }
    Ok(())
}

/// Appends the parts, unless a summary is requested, and the log's figures; the first keys; the
/// longest chain; the most that workers can gain; and how shared parts are planned.
pub fn put_json(
    out: &mut Vec<u8>,
    request: Request,
    parts: &[Part],
    ranked: &[Heat],
    longest: &[u32],
) -> Result<(), NoMemory>
    requires { length parts.now ≤ most_txns }
    ensures { IfOk result (λ _. out.new.items
        ≡ out.old.items ++ json_text request parts.now ranked.now longest.now) }
{
    let totals = Totals::of(parts);
    let settings = request.settings();
    let (partitions, workers) = (settings.parts(), settings.cc().count());
    put(out, &[Piece::Text(b"{")])?;
    put_parts(out, request.layout().summary, parts)?;
    put(out, &[Piece::Text(b"\"all\":")])?;
    put_figures(out, totals)?;
    put(out, &[Piece::Text(b",\n\"hottest\":[")])?;
    put_heats(out, hottest(ranked, request.top()))?;
    put(out, &[Piece::Text(b"],\n\"longest_chain\":[")])?;
    put_places(out, longest)?;
    put(
        out,
        &[
            Piece::Hundredths(b"],\n\"execution_at_most\":", execution_limit(totals)),
            Piece::Hundredths(b",\"run_at_most\":", run_limit(totals)),
            Piece::Decimal(b",\n\"partitions\":", u64::from(partitions)),
            Piece::Decimal(
                b",\"planning_workers\":",
                u64::from(workers.min(partitions)),
            ),
            Piece::Text(b"}\n"),
        ],
    )
}
