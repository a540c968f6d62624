//! Ranks keys, the hottest first.

ghost use Rattle.std.specs.Prelude.{◌≡◌, map};
ghost use Rattle.std.specs.List.{IsDistinct};
ghost use Rattle.std.specs.Str.{bytes_eq};
ghost use Rattle.bohm_explain.specs.Ranking.{accesses, rank_cmp, IsRanking};

use crate::heat::Heat;
use std::cmp::Ordering;

/// The number of transactions that write the key, plus the number of those that read it.
fn accesses(heat: &Heat) -> u64
    ensures { result ≡ accesses heat.now }
{
    u64::from(heat.writers) + u64::from(heat.readers)
}

/// `Less` if the first heat is hotter.
fn rank_cmp(heat: &Heat, other: &Heat) -> Ordering
    ensures { result ≡ rank_cmp heat.now other.now }
{
    accesses(other)
        .cmp(&accesses(heat))
        .then_with(|| other.chain.cmp(&heat.chain))
        .then_with(|| heat.key.cmp(&other.key))
}

/// The heats, each hotter than those after it: by accesses, then by chain, then by key. The time
/// grows with their number n as n log n.
pub fn rank(mut heats: Vec<Heat>) -> Vec<Heat>
    requires distinct { IsDistinct bytes_eq (map (λ h. h.key) heats.items) }
    ensures { IsRanking heats.items result.items }
{
    heats.sort_unstable_by(rank_cmp);
    heats
}
