//! The heaviest chains of wanted versions.

ghost use Rattle.std.specs.Prelude.{◌≡◌, ◌≤◌, ◌^◌, All, length, IfOk};
ghost use Rattle.bohm_explain.specs.Heaviest.{AreChainable, IsInside, heaviest_from};
ghost use Rattle.bohm_explain.specs.Heaviest.{heaviest_to, through};

use crate::arrow::Arrow;
use bohm_types::NoMemory;
use std::alloc::Global;

/// For each position the greatest weight of a chain of wanted versions that ends there.
pub fn heaviest_to(alloc: Global, weights: &[u32], arrows: &[Arrow]) -> Result<Vec<u32>, NoMemory>
    requires { AreChainable weights.now arrows.now }
    ensures chains { IfOk result (λ v. v.items ≡ heaviest_to weights.now arrows.now) }
    ensures paired { IfOk result (λ v. length v.items ≡ length weights.now) }
    ensures light { IfOk result (λ v. All (λ c. c ≤ 2 ^ 24) v.items) }
{
    let mut heaviest = Vec::from_slice(alloc, weights)?;
    for arrow in arrows {
        let to = arrow.to as usize;
        let chain = weights[to] + heaviest[arrow.from as usize];
        heaviest[to] = heaviest[to].max(chain);
    }
    Ok(heaviest)
}

/// For each position the greatest weight of a chain of wanted versions that begins there.
pub fn heaviest_from(alloc: Global, weights: &[u32], arrows: &[Arrow]) -> Result<Vec<u32>, NoMemory>
    requires { AreChainable weights.now arrows.now }
    ensures chains { IfOk result (λ v. v.items ≡ heaviest_from weights.now arrows.now) }
    ensures paired { IfOk result (λ v. length v.items ≡ length weights.now) }
    ensures light { IfOk result (λ v. All (λ c. c ≤ 2 ^ 24) v.items) }
{
    let mut heaviest = Vec::from_slice(alloc, weights)?;
    for index in (0..arrows.len()).rev() {
        let arrow = arrows[index];
        let from = arrow.from as usize;
        let chain = weights[from] + heaviest[arrow.to as usize];
        heaviest[from] = heaviest[from].max(chain);
    }
    Ok(heaviest)
}

/// For each arrow the greatest weight of a chain through it, from the greatest weights of the
/// chains that end and begin at each position.
pub fn chains_through(
    alloc: Global,
    arrows: &[Arrow],
    to: &[u32],
    from: &[u32],
) -> Result<Vec<u32>, NoMemory>
    requires inside { All (IsInside (length to.now)) arrows.now }
    requires paired { length from.now ≡ length to.now }
    requires light_to { All (λ c. c ≤ 2 ^ 24) to.now }
    requires light_from { All (λ c. c ≤ 2 ^ 24) from.now }
    ensures chains { IfOk result (λ v. v.items ≡ through to.now from.now arrows.now) }
    ensures paired { IfOk result (λ v. length v.items ≡ length arrows.now) }
{
    let mut chains = Vec::with_capacity(alloc, arrows.len())?;
    for arrow in arrows {
        chains.push(to[arrow.from as usize] + from[arrow.to as usize])?;
    }
    Ok(chains)
}
