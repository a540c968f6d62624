//! The longest chain of a log.

ghost use Rattle.std.specs.Prelude.{◌≡◌, ◌+◌, ◌<◌, ◌≤◌, All, length, map, IfOk, OnOk};
ghost use Rattle.bohm_explain.specs.Longest.{IsLonger, IsLongestOf};
ghost use Rattle.bohm_explain.specs.Waiting.{AreWaits};
ghost use Rattle.bohm_types.specs.Limits.{largest_batch, most_txns};

use crate::figures::greatest;
use crate::waits::Waits;
use crate::walking::heaviest_chain;
use crate::weights::alike;
use bohm_log::LogPart;
use bohm_types::NoMemory;
use std::alloc::Global;

/// The places in the log of these positions of a part whose first transaction is at `first`.
fn placed(alloc: Global, first: u32, positions: &[u32]) -> Result<Vec<u32>, NoMemory>
    requires first { first ≤ most_txns }
    requires inside { All (λ p. p < largest_batch) positions.now }
    ensures { IfOk result (λ v. v.items ≡ map (λ p. first + p) positions.now) }
{
    let mut places = Vec::with_capacity(alloc, positions.len())?;
    for position in positions {
        places.push(first + *position)?;
    }
    Ok(places)
}

/// A longest chain of a part, as places in the log, where the part's first transaction is at
/// place `first`.
fn longest_chain(
    alloc: Global,
    txns: &LogPart<'_>,
    waits: &Waits,
    first: u32,
) -> Result<Vec<u32>, NoMemory>
    requires some { 0 < length txns.now }
    requires few { length txns.now ≤ largest_batch }
    requires waits { AreWaits txns.now waits.now }
    requires first { first ≤ most_txns }
    ensures { IfOk result (λ v. IsLongestOf first txns.now v.items) }
{
    let alike = alike(alloc, txns.len())?;
    let chain = heaviest_chain(
        alloc,
        alike.as_slice(),
        waits.arrows.as_slice(),
        waits.depths.as_slice(),
    )?;
    placed(alloc, first, chain.as_slice())
}

/// Replaces `longest` by a longest chain of a part if that is longer.
pub fn keep_longer(
    alloc: Global,
    txns: &LogPart<'_>,
    waits: &Waits,
    first: u32,
    longest: &mut Vec<u32>,
) -> Result<(), NoMemory>
    requires few { length txns.now ≤ largest_batch }
    requires waits { AreWaits txns.now waits.now }
    requires first { first ≤ most_txns }
    ensures { OnOk result (IsLonger first txns.now longest.old.items longest.new.items) }
{
    if greatest(waits.depths.as_slice()) as usize <= longest.len() {
        return Ok(());
    }
    *longest = longest_chain(alloc, txns, waits, first)?;
    Ok(())
}
