//! The seeds of key hashes.

ghost use Rattle.std.specs.Prelude.{◌≡◌};
ghost use Rattle.bohm_log.specs.Hashing.{folded};
ghost use Rattle.std.specs.contracts.prelude.FoldHasherHasher.TheImpl as fold_impl;

use std::hash::{BuildHasher, FoldHasher, Hasher};
use std::random::RandomSource;

/// The seed with which a map hashes its keys: a drawn one or the fixed one. Keys that collide under
/// one seed needn't collide under another. No result depends on the seed.
#[derive(Clone, Copy)]
pub struct HashSeed {
    start: FoldHasher,
}

/// A seed from a source of randomness. Functions that take it stay fast if untrusted parties choose
/// the keys: whoever doesn't know the seed can't choose keys that collide.
#[derive(Clone, Copy)]
pub struct DrawnSeed {
    seed: HashSeed,
}

/// The seed that is always the same, for keys that no untrusted party chooses: n keys that were
/// chosen to collide under it take time that grows with n².
#[derive(Clone, Copy, Debug, Default)]
pub struct FixedSeed;

impl DrawnSeed {
    /// Draws a seed of 16 bytes from a source of randomness. Bytes that a failing source doesn't
    /// supply are zeros.
    pub fn draw<R: RandomSource>(source: &R) -> DrawnSeed {
        let mut bytes = [0u8; 16];
        // No result depends on the seed, so no run ends because a source fails.
        let _ = source.fill_bytes(&mut bytes);
        let mut start = FoldHasher::default();
        start.write(&bytes);
        DrawnSeed {
            seed: HashSeed { start },
        }
    }
}

impl From<DrawnSeed> for HashSeed {
    ghost from_gives = { λ drawn seed. seed ≡ drawn.seed };

    fn from(drawn: DrawnSeed) -> HashSeed {
        drawn.seed
    }
}

impl From<FixedSeed> for HashSeed {
    fn from(_fixed: FixedSeed) -> HashSeed {
        HashSeed {
            start: FoldHasher::default(),
        }
    }
}

impl BuildHasher for HashSeed {
    type Hasher = KeyHasher;

    ghost use Rattle.std.specs.Prelude.{bit_or};

    ghost build_hasher = { λ seed. record { fold = seed.start; factor = bit_or (fold_impl.ghosts.finish seed.start) 1 } };

    fn build_hasher(&self) -> KeyHasher {
        KeyHasher {
            fold: self.start,
            factor: self.start.finish() | 1,
        }
    }
}

/// Hashes a key by a seed, which it mixes in before the key and once more after it. A `FoldHasher`
/// does only the former: under one seed in a hundred, names that differ in few letters then fill a
/// table so unevenly that an insertion passes several full groups of places.
#[derive(Clone, Copy)]
pub struct KeyHasher {
    fold: FoldHasher,
    /// Odd, so that no state is lost when it is multiplied.
    factor: u64,
}

impl Hasher for KeyHasher {
    ghost write = { λ hasher bytes. record hasher { fold = fold_impl.ghosts.write hasher.fold bytes } };

    ghost finish = { λ hasher. folded (fold_impl.ghosts.finish hasher.fold) hasher.factor };

    fn finish(&self) -> u64 {
        folded_multiply(self.fold.finish(), self.factor)
    }

    fn write(&mut self, bytes: &[u8]) {
        self.fold.write(bytes);
    }
}

/// The halves of a product of 128 bits, joined by exclusive or.
fn folded_multiply(a: u64, b: u64) -> u64
    ensures { result ≡ folded a b }
{
    let product = a as u128 * b as u128;
    (product & 0xFFFF_FFFF_FFFF_FFFF) as u64 ^ (product >> 64) as u64
}
