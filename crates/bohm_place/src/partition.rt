//! Partitions of the keys.

ghost use Rattle.std.specs.Prelude.{◌≡◌, ℕ, List, ◌<◌};
ghost use Rattle.std.proofs.Common.{rules};

use bohm_types::Key;

/// A partition of the keys. The results of both calls depend only on the value and the key.
pub trait Partition: Sync {
    ghost count: { Self → ℕ };

    ghost part_of: { Self → List ℕ → ℕ };

    /// The number of parts, at least 1.
    fn parts(&self) -> u32
        ensures count { result ≡ count self.now }
        ensures some { 0 < result };

    /// The part of a key, counted from 0.
    fn part(&self, key: &Key) -> u32
        ensures part { result ≡ part_of self.now key.now }
        ensures below { result < count self.now };

    ghost in_range: { (s : Self) (k : List ℕ) → part_of s k < count s };
}

/// All keys in one part.
pub(crate) struct Undivided;

impl Partition for Undivided {
    ghost count = { λ _. 1 };

    ghost part_of = { λ _ _. 0 };

    fn parts(&self) -> u32 {
        1
    }

    fn part(&self, _key: &Key) -> u32 {
        0
    }

    ghost in_range = { λ _ _. Prim.search rules };
}
