//! The arrows and chains of a part.

ghost use Rattle.std.specs.Prelude.{◌≤◌, length, IfOk};
ghost use Rattle.bohm_place.specs.Plans.{IsPlannable, IsRightPlan};
ghost use Rattle.bohm_explain.specs.Waiting.{AreWaits};
ghost use Rattle.bohm_types.specs.Limits.{largest_batch};

use crate::arrow::{Arrow, wanted};
use crate::chains::{heaviest_from, heaviest_to};
use crate::weights::alike;
use bohm_log::LogPart;
use bohm_place::Plan;
use bohm_types::NoMemory;
use std::alloc::Global;

/// The wanted versions of a part, and the chains of them.
#[derive(Drop)]
pub struct Waits {
    pub arrows: Vec<Arrow>,
    /// The transactions on the longest chain that ends at each position.
    pub depths: Vec<u32>,
    /// The transactions on the longest chain that begins at each position.
    pub heights: Vec<u32>,
}

/// The arrows and chains of the part of this plan. The time grows with the number of declared
/// keys.
pub fn waits_in(alloc: Global, plan: &Plan, txns: &LogPart<'_>) -> Result<Waits, NoMemory>
    requires few { length txns.now ≤ largest_batch }
    requires plannable { IsPlannable plan.now.first txns.now }
    requires right { IsRightPlan txns.now plan.now }
    ensures { IfOk result (AreWaits txns.now) }
{
    let arrows = wanted(alloc, plan, txns)?;
    let alike = alike(alloc, txns.len())?;
    let depths = heaviest_to(alloc, alike.as_slice(), arrows.as_slice())?;
    let heights = heaviest_from(alloc, alike.as_slice(), arrows.as_slice())?;
    Ok(Waits {
        arrows,
        depths,
        heights,
    })
}
