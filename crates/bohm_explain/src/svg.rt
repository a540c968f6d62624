//! The picture of a log's parts, an SVG: a band for each part, and the conflicts of one part by key.
//! A key needs no escapes in it: it has only lower-case letters, digits and underscores.

ghost use Rattle.std.specs.Prelude.{◌≤◌};

use crate::arrow::Arrow;
use crate::figures::Totals;
use crate::parts::Part;
use crate::pieces::{Piece, put};
use crate::table::word_for;
use bohm_log::{DrawnSeed, HashSeed};
use bohm_read_ahead::Sharing;
use bohm_types::{Key, NoMemory};
use indexmap::IndexMap;
use std::alloc::Global;
use std::cmp::Ordering;

/// The most parts that are drawn.
const MOST_BANDS: usize = 1000;

/// The most conflicts that are drawn of a key.
const MOST_ARCS: usize = 500;

/// Where the bands begin, and how long the longest is: 250 and 770 are in the texts, too.
const LEFT: u64 = 250;

const LENGTH: u64 = 520;

/// The distance of two lines, and where the first one is.
const LINE: u64 = 24;

const TOP: u64 = 64;

/// A key of a part, and how many of its versions are wanted there.
#[derive(Clone, Copy)]
struct Conflicts {
    key: Key,
    wanted: u32,
}

/// The length of a number of transactions, of `most` in the longest band.
fn scaled(number: u32, most: u32) -> u64
    ensures { result ≤ 520 }
{
    (u64::from(number) * LENGTH / u64::from(most.max(1))).min(LENGTH)
}

/// The height of a line.
fn line_at(index: usize) -> u64
    ensures { 64 ≤ result }
{
    TOP + (index.min(MOST_BANDS + 1100) as u64) * LINE
}

/// The colour of a part.
fn colour(sharing: Sharing) -> &'static [u8] {
    match sharing {
        Sharing::Shared => b"#9ec5e8",
        Sharing::OneWorker | Sharing::NoTransactions | Sharing::ShortBodies => b"#d4d4d4",
    }
}

/// Appends a part: a band as long as it has transactions, with its longest chain in it.
fn put_band(out: &mut Vec<u8>, index: usize, part: &Part, most: u32) -> Result<(), NoMemory> {
    let totals = Totals::from(part.figures);
    let (transactions, depth) = (totals.transactions, totals.depth);
    let y = line_at(index);
    let top = y - 13;
    let long = scaled(part.figures.transactions, most);
    let chain = scaled(part.figures.depth, most).max(1);
    put(
        out,
        &[
            Piece::Decimal(b"<g class=\"part\"><text x=\"12\" y=\"", y),
            Piece::Decimal(b"\">", u64::from(part.number)),
            Piece::Decimal(b", from ", u64::from(part.first)),
            Piece::Decimal(b"</text>\n<rect x=\"250\" y=\"", top),
            Piece::Decimal(b"\" width=\"", long),
            Piece::Text(b"\" height=\"18\" fill=\""),
            Piece::Text(colour(part.sharing)),
            Piece::Decimal(b"\"><title>", transactions),
            Piece::Decimal(b" transactions</title></rect>\n<rect x=\"250\" y=\"", top),
            Piece::Decimal(b"\" width=\"", chain),
            Piece::Decimal(
                b"\" height=\"18\" fill=\"#c0504d\"><title>a chain of ",
                depth,
            ),
            Piece::Decimal(b"</title></rect>\n<text x=\"786\" y=\"", y),
            Piece::Decimal(b"\">", transactions),
            Piece::Decimal(b", chain ", depth),
            Piece::Text(b", "),
            Piece::Text(word_for(part.sharing)),
            Piece::Quotient(b", width ", transactions, depth),
            Piece::Quotient(b", by terms ", totals.terms, totals.heaviest),
            Piece::Text(b"</text></g>\n"),
        ],
    )
}

/// Appends the first parts.
fn put_bands(out: &mut Vec<u8>, parts: &[Part]) -> Result<(), NoMemory> {
    let mut most = 0;
    for part in parts {
        most = part.figures.transactions.max(most);
    }
    for (index, part) in parts.iter().enumerate() {
        put_band(out, index, part, most)?;
    }
    Ok(())
}

/// `Less` if more versions of the first key are wanted.
fn by_wanted(one: &Conflicts, other: &Conflicts) -> Ordering {
    other
        .wanted
        .cmp(&one.wanted)
        .then_with(|| one.key.cmp(&other.key))
}

/// The keys of these wanted versions, those with the most ones first.
fn conflicts_by_key(
    alloc: Global,
    seed: DrawnSeed,
    arrows: &[Arrow],
) -> Result<Vec<Conflicts>, NoMemory> {
    let mut counts: IndexMap<Key, u32, HashSeed> = IndexMap::with_hasher(
        alloc,
        HashSeed::from(seed),
    );
    for arrow in arrows {
        match counts.get_mut(&arrow.key) {
            Some(wanted) => *wanted = wanted.saturating_add(1),
            None => {
                counts.insert(arrow.key, 1)?;
            }
        }
    }
    let mut all = Vec::with_capacity(alloc, counts.len())?;
    for (key, wanted) in &counts {
        all.push(Conflicts {
            key: *key,
            wanted: *wanted,
        })?;
    }
    all.sort_unstable_by(by_wanted);
    Ok(all)
}

/// Appends an arc between two positions, on a line at this height.
fn put_arc(out: &mut Vec<u8>, y: u64, from: u64, to: u64) -> Result<(), NoMemory>
    requires high { 16 ≤ y }
    requires from { from ≤ 1000 }
    requires to { to ≤ 1000 }
{
    put(
        out,
        &[
            Piece::Decimal(b"<path d=\"M", from),
            Piece::Decimal(b" ", y),
            Piece::Decimal(b"Q", (from + to) / 2),
            Piece::Decimal(b" ", y - 16),
            Piece::Decimal(b" ", to),
            Piece::Decimal(b" ", y),
            Piece::Text(b"\" fill=\"none\" stroke=\"#c0504d\"/>\n"),
        ],
    )
}

/// Appends the conflicts on a key: an arc from each transaction that makes a version to one that
/// wants it.
fn put_key(
    out: &mut Vec<u8>,
    index: usize,
    of: &Conflicts,
    arrows: &[Arrow],
    transactions: u32,
) -> Result<(), NoMemory> {
    let y = line_at(index);
    let key = of.key.text();
    put(
        out,
        &[
            Piece::Decimal(b"<g class=\"key\"><text x=\"12\" y=\"", y),
            Piece::Text(b"\">"),
            Piece::Text(key.as_slice()),
            Piece::Decimal(b"</text><path d=\"M250 ", y),
            Piece::Decimal(b"H770\" stroke=\"#d4d4d4\"/><text x=\"786\" y=\"", y),
            Piece::Decimal(b"\">", u64::from(of.wanted)),
            Piece::Text(b" wanted</text>\n"),
        ],
    )?;
    let mut drawn = 0;
    for arrow in arrows {
        if arrow.key != of.key || drawn >= MOST_ARCS {
            continue;
        }
        drawn = drawn.saturating_add(1);
        let from = LEFT + scaled(arrow.from, transactions);
        put_arc(out, y, from, LEFT + scaled(arrow.to, transactions))?;
    }
    put(out, &[Piece::Text(b"</g>\n")])
}

/// Appends the keys with the most conflicts in a part, below this many lines.
fn put_keys(
    out: &mut Vec<u8>,
    above: usize,
    keys: &[Conflicts],
    arrows: &[Arrow],
    transactions: u32,
) -> Result<(), NoMemory> {
    for (index, key) in keys.iter().enumerate() {
        put_key(out, above.saturating_add(index), key, arrows, transactions)?;
    }
    Ok(())
}

/// The picture of these parts, and of the part with this number, counted from 1, whose wanted
/// versions are `arrows`: at most the first 1000 parts, and the `top` keys with the most conflicts.
/// The time grows with the numbers of drawn parts and of wanted versions, these for each drawn key.
pub fn print_svg(
    alloc: Global,
    seed: DrawnSeed,
    parts: &[Part],
    number: u32,
    arrows: &[Arrow],
    top: u32,
) -> Result<Vec<u8>, NoMemory> {
    let shown = &parts[..parts.len().min(MOST_BANDS)];
    let keys = conflicts_by_key(alloc, seed, arrows)?;
    let keys = &keys.as_slice()[..keys.len().min(top as usize)];
    let transactions = match parts.get((number as usize).saturating_sub(1)) {
        Some(part) => part.figures.transactions,
        None => 0,
    };
    let below = shown.len() + 2;
    let height = line_at(below + keys.len());
    let mut out = Vec::new(alloc);
    put(
        &mut out,
        &[
            Piece::Decimal(
                b"<svg xmlns=\"http://www.w3.org/2000/svg\" width=\"1200\" height=\"",
                height,
            ),
            Piece::Decimal(
                b"\" font-family=\"sans-serif\" font-size=\"13\">\n<rect width=\"1200\" height=\"",
                height,
            ),
            Piece::Decimal(
                b"\" fill=\"white\"/>\n<text x=\"12\" y=\"24\" font-size=\"16\">",
                shown.len() as u64,
            ),
            Piece::Decimal(b" of ", parts.len() as u64),
            Piece::Text(b" parts: transactions, and in red their longest chain</text>\n"),
        ],
    )?;
    put_bands(&mut out, shown)?;
    put(
        &mut out,
        &[
            Piece::Decimal(b"<text x=\"12\" y=\"", line_at(below - 1)),
            Piece::Decimal(b"\" font-size=\"16\">Part ", u64::from(number)),
            Piece::Text(b" by key: who wants whose version</text>\n"),
        ],
    )?;
    put_keys(&mut out, below, keys, arrows, transactions)?;
    put(&mut out, &[Piece::Text(b"</svg>\n")])?;
    Ok(out)
}
