//! Figures as a table, and in words.

ghost use Rattle.std.specs.Prelude.{◌≡◌, ◌≤◌, ◌^◌, ◌++◌, flat_map, length, take, IfOk};
ghost use Rattle.bohm_explain.specs.Table.{chain_text, counts_text, execution_limit, heat_line};
ghost use Rattle.bohm_explain.specs.Table.{heat_lines, hundredths_up, key_words, leading};
ghost use Rattle.bohm_explain.specs.Table.{limit_words, more_text, part_line, part_rows, plain_text};
ghost use Rattle.bohm_explain.specs.Table.{run_limit, spaced, table_text, verdict_words, word_for};
ghost use Rattle.bohm_types.specs.Limits.{most_txns};

use crate::figures::Totals;
use crate::heat::Heat;
use crate::parts::Part;
use crate::pieces::{Piece, put};
use bohm_read_ahead::Sharing;
use bohm_types::NoMemory;

const HEAD: &[u8] =
    b"   part      from     run  transactions      keys      sure     taken    depth     width       terms   heaviest     width\n";

/// The columns end where `sure`, `taken` and `depth` do in the table.
const HOTTEST: &[u8] = b"\nhottest keys                      writers   readers    chain\n";

/// The most transactions of the longest chain that are listed.
const MOST_PLACES: usize = 100;

/// How a part runs, in a word.
pub fn word_for(sharing: Sharing) -> &'static [u8]
    ensures { result.now ≡ word_for sharing }
{
    match sharing {
        Sharing::OneWorker => b"one",
        Sharing::NoTransactions => b"empty",
        Sharing::ShortBodies => b"short",
        Sharing::Shared => b"shared",
    }
}

/// Appends the counts of a part or of the log, and ends the line.
#[tactic(auto, unfolding(crate::specs::Table::counts_text))]
fn put_counts(out: &mut Vec<u8>, totals: Totals) -> Result<(), NoMemory>
    ensures { IfOk result (λ _. out.new.items ≡ out.old.items ++ counts_text totals) }
{
    put(
        out,
        &[
            Piece::Number(14, totals.transactions),
            Piece::Number(10, totals.keys),
            Piece::Number(10, totals.sure),
            Piece::Number(10, totals.taken),
            Piece::Number(9, totals.depth),
            Piece::Share(10, totals.transactions, totals.depth),
            Piece::Number(12, totals.terms),
            Piece::Number(11, totals.heaviest),
            Piece::Share(10, totals.terms, totals.heaviest),
            Piece::Text(b"\n"),
        ],
    )
}

/// Appends the line of a part.
#[tactic(auto, unfolding(crate::specs::Table::part_line))]
fn put_part(out: &mut Vec<u8>, part: &Part) -> Result<(), NoMemory>
    ensures { IfOk result (λ _. out.new.items ≡ out.old.items ++ part_line part.now) }
{
    put(
        out,
        &[
            Piece::Number(7, u64::from(part.number)),
            Piece::Number(10, u64::from(part.first)),
            Piece::Right(8, word_for(part.sharing)),
        ],
    )?;
    put_counts(out, Totals::from(part.figures))
}

/// Appends the lines of all parts, unless a summary is requested.
#[tactic(auto, unfolding(crate::specs::Table::part_rows))]
fn put_parts(out: &mut Vec<u8>, summary: bool, parts: &[Part]) -> Result<(), NoMemory>
    ensures { IfOk result (λ _. out.new.items ≡ out.old.items ++ part_rows summary parts.now) }
{
    if summary {
        return Ok(());
    }
    for part in parts {
        put_part(out, part)?;
    }
    Ok(())
}

/// Appends a head, a line for each part unless a summary is requested, and a line for the log.
#[tactic(auto, unfolding(crate::specs::Table::table_text))]
fn put_table(out: &mut Vec<u8>, summary: bool, parts: &[Part]) -> Result<(), NoMemory>
    requires { length parts.now ≤ most_txns }
    ensures { IfOk result (λ _. out.new.items ≡ out.old.items ++ table_text summary parts.now) }
{
    put(out, &[Piece::Text(HEAD)])?;
    put_parts(out, summary, parts)?;
    put(out, &[Piece::Left(25, b"    all")])?;
    put_counts(out, Totals::of(parts))
}

/// Appends the line of a key.
#[tactic(auto, unfolding(crate::specs::Table::heat_line))]
fn put_heat(out: &mut Vec<u8>, heat: &Heat) -> Result<(), NoMemory>
    ensures { IfOk result (λ _. out.new.items ≡ out.old.items ++ heat_line heat.now) }
{
    let key = heat.key.text();
    put(
        out,
        &[
            Piece::Left(32, key.as_slice()),
            Piece::Number(9, u64::from(heat.writers)),
            Piece::Number(10, u64::from(heat.readers)),
            Piece::Number(9, u64::from(heat.chain)),
            Piece::Text(b"\n"),
        ],
    )
}

/// The first `top` of these keys.
pub fn hottest(ranked: &[Heat], top: u32) -> &[Heat]
    ensures { result.now ≡ take top ranked.now }
{
    &ranked[..ranked.len().min(top as usize)]
}

/// Appends a line for each of these keys, below an empty line and a head. Nothing if there are none.
#[tactic(auto, unfolding(crate::specs::Table::heat_lines))]
fn put_heats(out: &mut Vec<u8>, heats: &[Heat]) -> Result<(), NoMemory>
    ensures { IfOk result (λ _. out.new.items ≡ out.old.items ++ heat_lines heats.now) }
{
    if heats.is_empty() {
        return Ok(());
    }
    put(out, &[Piece::Text(HOTTEST)])?;
    for heat in heats {
        put_heat(out, heat)?;
    }
    Ok(())
}

/// Appends numbers, each after a space.
fn put_places(out: &mut Vec<u8>, places: &[u32]) -> Result<(), NoMemory>
    ensures { IfOk result (λ _. out.new.items ≡ out.old.items ++ flat_map spaced places.now) }
{
    for place in places {
        put(out, &[Piece::Decimal(b" ", u64::from(*place))])?;
    }
    Ok(())
}

/// Appends how many transactions aren't listed.
fn put_more(out: &mut Vec<u8>, count: usize) -> Result<(), NoMemory>
    ensures { IfOk result (λ _. out.new.items ≡ out.old.items ++ more_text count) }
{
    if count == 0 {
        return Ok(());
    }
    let count = Piece::Decimal(b" and ", count as u64);
    put(out, &[count, Piece::Text(b" more")])
}

/// Appends an empty line, and a line with the first hundred transactions of a chain. Nothing if the
/// chain has at most one transaction: then none waits.
#[tactic(auto, unfolding(crate::specs::Table::chain_text))]
fn put_chain(out: &mut Vec<u8>, places: &[u32]) -> Result<(), NoMemory>
    ensures { IfOk result (λ _. out.new.items ≡ out.old.items ++ chain_text places.now) }
{
    if places.len() <= 1 {
        return Ok(());
    }
    put(out, &[Piece::Text(b"\ntransactions on the longest chain:")])?;
    put_places(out, &places[..places.len().min(MOST_PLACES)])?;
    put_more(out, places.len().saturating_sub(MOST_PLACES))?;
    put(out, &[Piece::Text(b"\n")])
}

/// The hottest key on the longest chain, if there is a chain.
fn leading(ranked: &[Heat]) -> Option<Heat>
    ensures { result ≡ leading ranked.now }
{
    let mut longest = 0;
    let mut leading = None;
    for heat in ranked {
        if heat.chain > longest {
            longest = heat.chain;
            leading = Some(*heat);
        }
    }
    leading
}

/// The time of a run divided by that of its execution by one worker, as measured (bench/README.md,
/// "Where the time goes": 7.1 for short bodies, 8.5 for long ones).
const RUN_OVER_EXECUTION: u128 = 8;

/// A quotient in hundredths, rounded up, or 0 if the divisor is 0.
fn hundredths_up(number: u128, divisor: u128) -> u128
    requires { number ≤ 2 ^ 100 }
    ensures { result ≡ hundredths_up number divisor }
{
    if divisor == 0 {
        return 0;
    }
    (number * 100).div_ceil(divisor)
}

/// The greatest speedup of the execution over one worker, in hundredths: the terms divided by those
/// of the heaviest chain, rounded up.
pub fn execution_limit(totals: Totals) -> u128
    ensures { result ≡ execution_limit totals }
{
    hundredths_up(u128::from(totals.terms), u128::from(totals.heaviest))
}

/// The greatest speedup of a whole run, in hundredths; only its execution gets faster.
pub fn run_limit(totals: Totals) -> u128
    ensures { result ≡ run_limit totals }
{
    let terms = u128::from(totals.terms);
    let heaviest = u128::from(totals.heaviest);
    hundredths_up(
        RUN_OVER_EXECUTION * terms,
        (RUN_OVER_EXECUTION - 1) * terms + heaviest,
    )
}

/// Appends how much more executing workers can help.
#[tactic(auto, unfolding(crate::specs::Table::limit_words))]
fn put_limit(out: &mut Vec<u8>, totals: Totals) -> Result<(), NoMemory>
    ensures { IfOk result (λ _. out.new.items ≡ out.old.items ++ limit_words totals) }
{
    let execution = execution_limit(totals);
    if execution <= 100 {
        return put(out, &[Piece::Text(b"more executing workers can't help")]);
    }
    put(
        out,
        &[
            Piece::Hundredths(
                b"more executing workers can make the execution at most ",
                execution,
            ),
            Piece::Hundredths(
                b" times as fast, and the whole run, of which it was an eighth as measured, at most ",
                run_limit(totals),
            ),
            Piece::Text(b" times"),
        ],
    )
}

/// Appends the words for a key on the longest chain.
#[tactic(auto, unfolding(crate::specs::Table::key_words))]
fn put_key_words(out: &mut Vec<u8>, totals: Totals, heat: &Heat) -> Result<(), NoMemory>
    ensures { IfOk result (λ _. out.new.items ≡ out.old.items ++ key_words totals heat.now) }
{
    let key = heat.key.text();
    put(
        out,
        &[
            Piece::Text(b"key "),
            Piece::Text(key.as_slice()),
            Piece::Decimal(b", written by ", u64::from(heat.writers)),
            Piece::Decimal(b" of ", totals.transactions),
            Piece::Decimal(
                b" transactions, is on the longest chain, of ",
                u64::from(heat.chain),
            ),
            Piece::Text(b": "),
        ],
    )?;
    put_limit(out, totals)
}

/// Appends which key is on the longest chain, and how much more executing workers can help at most.
#[tactic(auto, unfolding(crate::specs::Table::verdict_words))]
fn put_verdict(out: &mut Vec<u8>, totals: Totals, ranked: &[Heat]) -> Result<(), NoMemory>
    ensures { IfOk result (λ _. out.new.items ≡ out.old.items ++ verdict_words totals ranked.now) }
{
    if totals.transactions == 0 {
        return put(out, &[Piece::Text(b"the log has no transactions")]);
    }
    match leading(ranked) {
        Some(heat) => put_key_words(out, totals, &heat),
        None => {
            put(
                out,
                &[Piece::Text(b"no transaction waits for another of its part: ")],
            )?;
            put_limit(out, totals)
        }
    }
}

/// Appends the table, unless a summary is requested with the parts; the first `top` keys; the first
/// transactions of the longest chain; and what limits the log's speed.
pub fn put_plain(
    out: &mut Vec<u8>,
    summary: bool,
    top: u32,
    parts: &[Part],
    ranked: &[Heat],
    longest: &[u32],
) -> Result<(), NoMemory>
    requires { length parts.now ≤ most_txns }
    ensures { IfOk result (λ _. out.new.items
        ≡ out.old.items ++ plain_text summary top parts.now ranked.now longest.now) }
{
    put_table(out, summary, parts)?;
    put_heats(out, hottest(ranked, top))?;
    put_chain(out, longest)?;
    put(out, &[Piece::Text(b"\n")])?;
    put_verdict(out, Totals::of(parts), ranked)?;
    put(out, &[Piece::Text(b"\n")])
}
