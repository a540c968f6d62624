//! One of the heaviest chains, walked along its arrows.

ghost use Rattle.std.specs.Prelude.{◌≡◌, ◌++◌, ◌∷◌, [], ◌<◌, ◌≤◌, ◌^◌, All};
ghost use Rattle.std.specs.Prelude.{false, length, slice_index, true, IfOk};
ghost use Rattle.bohm_place.specs.Chains.{greatest};
ghost use Rattle.bohm_explain.specs.Chains.{EndsAt, IsChain, weight_of};
ghost use Rattle.bohm_explain.specs.Heaviest.{AreChainable, IsInside, greatest_weight, heaviest_to};
ghost use Rattle.bohm_explain.specs.Walks.{goes_on};
ghost use Rattle.bohm_types.specs.Limits.{largest_batch};

use crate::arrow::Arrow;
use bohm_types::NoMemory;
use std::alloc::Global;

/// The first position of the greatest of these values.
fn heaviest_end(heaviest: &[u32]) -> u32
    requires some { 0 < length heaviest.now }
    requires few { length heaviest.now ≤ largest_batch }
    ensures inside { result < length heaviest.now }
    ensures greatest { slice_index heaviest.now result ≡ greatest heaviest.now }
{
    let mut end = 0;
    for position in 0..heaviest.len() {
        if heaviest[position] > heaviest[end] {
            end = position;
        }
    }
    end as u32
}

/// Whether a heaviest chain to `first` comes through this arrow.
fn goes_on(weights: &[u32], heaviest: &[u32], first: u32, arrow: &Arrow) -> bool
    requires first { first < length weights.now }
    requires paired { length heaviest.now ≡ length weights.now }
    requires inside { IsInside (length weights.now) arrow.now }
    requires light { All (λ w. w ≤ greatest_weight) weights.now }
    requires light_to { All (λ c. c ≤ 2 ^ 24) heaviest.now }
    ensures { result ≡ goes_on weights.now heaviest.now first arrow.now }
{
    let reached = first as usize;
    arrow.to == first && heaviest[arrow.from as usize] + weights[reached] == heaviest[reached]
}

/// Extends a chain, walked backwards to `first`, by the arrow's start if the chain comes through
/// the arrow. Returns the chain's new first position.
fn step(
    out: &mut Vec<u32>,
    weights: &[u32],
    heaviest: &[u32],
    first: u32,
    arrow: &Arrow,
) -> Result<u32, NoMemory>
    requires first { first < length weights.now }
    requires paired { length heaviest.now ≡ length weights.now }
    requires inside { IsInside (length weights.now) arrow.now }
    requires light { All (λ w. w ≤ greatest_weight) weights.now }
    requires light_to { All (λ c. c ≤ 2 ^ 24) heaviest.now }
    ensures on { IfOk result (λ next. goes_on weights.now heaviest.now first arrow.now ≡ true
        → (next ≡ arrow.now.from) × (out.new.items ≡ out.old.items ++ arrow.now.from ∷ [])) }
    ensures stays { IfOk result (λ next. goes_on weights.now heaviest.now first arrow.now ≡ false
        → (next ≡ first) × (out.new.items ≡ out.old.items)) }
{
    if !goes_on(weights, heaviest, first, arrow) {
        return Ok(first);
    }
    out.push(arrow.from)?;
    Ok(arrow.from)
}

/// The positions of a heaviest chain that ends at this one. `heaviest` has the weight of the
/// heaviest chain to each position.
fn chain_to(
    alloc: Global,
    weights: &[u32],
    arrows: &[Arrow],
    heaviest: &[u32],
    end: u32,
) -> Result<Vec<u32>, NoMemory>
    requires chainable { AreChainable weights.now arrows.now }
    requires heaviest { heaviest.now ≡ heaviest_to weights.now arrows.now }
    requires light_to { All (λ c. c ≤ 2 ^ 24) heaviest.now }
    requires paired { length heaviest.now ≡ length weights.now }
    requires inside { end < length weights.now }
    ensures chain { IfOk result (λ v. IsChain (length weights.now) arrows.now v.items) }
    ensures ends { IfOk result (λ v. EndsAt end v.items) }
    ensures weighs { IfOk result (λ v. weight_of weights.now v.items
        ≡ slice_index heaviest.now end) }
{
    let mut chain = Vec::new(alloc);
    let mut first = end;
    chain.push(first)?;
    for index in (0..arrows.len()).rev() {
        first = step(&mut chain, weights, heaviest, first, &arrows[index])?;
    }
    chain.reverse();
    Ok(chain)
}

/// The positions of one of the heaviest chains. `heaviest` has the weight of the heaviest chain to
/// each position. The time grows with the number of arrows.
pub fn heaviest_chain(
    alloc: Global,
    weights: &[u32],
    arrows: &[Arrow],
    heaviest: &[u32],
) -> Result<Vec<u32>, NoMemory>
    requires some { 0 < length weights.now }
    requires chainable { AreChainable weights.now arrows.now }
    requires heaviest { heaviest.now ≡ heaviest_to weights.now arrows.now }
    requires light_to { All (λ c. c ≤ 2 ^ 24) heaviest.now }
    requires paired { length heaviest.now ≡ length weights.now }
    ensures chain { IfOk result (λ v. IsChain (length weights.now) arrows.now v.items) }
    ensures inside { IfOk result (λ v. All (λ p. p < length weights.now) v.items) }
    ensures weighs { IfOk result (λ v. weight_of weights.now v.items ≡ greatest heaviest.now) }
{
    chain_to(alloc, weights, arrows, heaviest, heaviest_end(heaviest))
}
