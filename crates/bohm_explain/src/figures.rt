//! The figures of a part, and of a whole log.

ghost use Rattle.std.specs.Prelude.{◌≡◌, ℕ, ◌+◌, ◌≤◌, ◌^◌, All, length, sum, count_by, IfOk};
ghost use Rattle.bohm_txn.specs.Sure.{is_sure};
ghost use Rattle.bohm_place.specs.Chains.{greatest};
ghost use Rattle.bohm_place.specs.Shares.{AreWellFormed};
ghost use Rattle.bohm_explain.specs.Figures.{alone, depths as depths_in, figures_of};
ghost use Rattle.bohm_explain.specs.Figures.{plus, totals_of, AreAtMost};
ghost use Rattle.bohm_explain.specs.Wanted.{arrows as wanted_in};
ghost use Rattle.bohm_types.specs.Limits.{largest_batch, most_txns};
ghost use Rattle.bohm_explain.specs.Heaviest.{greatest_weight, most_arrows};

use crate::arrow::Arrow;
use crate::chains::heaviest_to;
use crate::parts::Part;
use crate::weights::{declared, weights};
use bohm_log::LogPart;
use bohm_txn::sure;
use bohm_types::NoMemory;
use std::alloc::Global;

/// The counts of one part.
#[derive(Clone, Copy, Debug, PartialEq, Eq)]
pub struct Figures {
    /// Its transactions.
    pub transactions: u32,
    /// The keys that they declare; a key that a transaction both reads and writes counts twice.
    pub keys: u32,
    /// The sure transactions among them.
    pub sure: u32,
    /// The accesses that want a version of the part.
    pub taken: u32,
    /// The transactions on the longest chain of wanted versions.
    pub depth: u32,
    /// The terms of the bodies; a body without terms counts as one term.
    pub terms: u32,
    /// The terms on the heaviest chain.
    pub heaviest: u32,
}

/// The counts of a whole log: the sums over its parts, since parts run one after another.
#[derive(Clone, Copy, Debug, PartialEq, Eq)]
pub struct Totals {
    pub transactions: u64,
    pub keys: u64,
    pub sure: u64,
    pub taken: u64,
    pub depth: u64,
    pub terms: u64,
    pub heaviest: u64,
}

/// The totals of a part alone.
impl From<Figures> for Totals {
    ghost from_gives = { λ f t. t ≡ alone f };

    fn from(figures: Figures) -> Totals {
        Totals {
            transactions: u64::from(figures.transactions),
            keys: u64::from(figures.keys),
            sure: u64::from(figures.sure),
            taken: u64::from(figures.taken),
            depth: u64::from(figures.depth),
            terms: u64::from(figures.terms),
            heaviest: u64::from(figures.heaviest),
        }
    }
}

impl Totals {
    /// The totals with one more part.
    fn plus(self, figures: Figures) -> Totals
        requires { AreAtMost (2 ^ 63) self }
        ensures sum { result ≡ plus self figures }
        ensures few { (n : ℕ) → AreAtMost n self → AreAtMost (n + 2 ^ 32) result }
    {
        let more = Totals::from(figures);
        Totals {
            transactions: self.transactions + more.transactions,
            keys: self.keys + more.keys,
            sure: self.sure + more.sure,
            taken: self.taken + more.taken,
            depth: self.depth + more.depth,
            terms: self.terms + more.terms,
            heaviest: self.heaviest + more.heaviest,
        }
    }

    /// The totals of some parts.
    pub fn of(parts: &[Part]) -> Totals
        requires { length parts.now ≤ most_txns }
        ensures { result ≡ totals_of parts.now }
    {
        let mut totals = Totals {
            transactions: 0,
            keys: 0,
            sure: 0,
            taken: 0,
            depth: 0,
            terms: 0,
            heaviest: 0,
        };
        for part in parts {
            totals = totals.plus(part.figures);
        }
        totals
    }
}

/// The greatest of these values, or 0.
pub fn greatest(values: &[u32]) -> u32
    ensures { result ≡ greatest values.now }
{
    let mut most = 0;
    for value in values {
        most = most.max(*value);
    }
    most
}

/// The sum of these weights.
fn sum_of(weights: &[u32]) -> u32
    requires few { length weights.now ≤ largest_batch }
    requires light { All (λ w. w ≤ greatest_weight) weights.now }
    ensures { result ≡ sum weights.now }
{
    let mut total = 0;
    for weight in weights {
        total += *weight;
    }
    total
}

/// The number of sure transactions.
fn count_sure(txns: &LogPart<'_>) -> u32
    requires few { length txns.now ≤ largest_batch }
    ensures { result ≡ count_by is_sure txns.now }
{
    let mut count = 0;
    for index in 0..txns.len() {
        if sure(&txns.txn(index)) {
            count += 1;
        }
    }
    count
}

/// The figures of a part with these wanted versions and depths.
pub fn counted(
    alloc: Global,
    txns: &LogPart<'_>,
    arrows: &[Arrow],
    depths: &[u32],
) -> Result<Figures, NoMemory>
    requires few { length txns.now ≤ largest_batch }
    requires formed { AreWellFormed txns.now }
    requires arrows { arrows.now ≡ wanted_in txns.now }
    requires few_arrows { length arrows.now ≤ most_arrows }
    requires depths { depths.now ≡ depths_in txns.now }
    ensures { IfOk result (λ f. f ≡ figures_of txns.now) }
{
    let weights = weights(alloc, txns)?;
    let chains = heaviest_to(alloc, weights.as_slice(), arrows)?;
    Ok(Figures {
        transactions: txns.len() as u32,
        keys: declared(txns),
        sure: count_sure(txns),
        taken: arrows.len() as u32,
        depth: greatest(depths),
        terms: sum_of(weights.as_slice()),
        heaviest: greatest(chains.as_slice()),
    })
}
