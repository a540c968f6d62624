//! Hashes of names that differ in few letters, under many seeds.

use crate::draws::Draws;
use bohm_log::{DrawnSeed, HashSeed};
use bohm_types::Key;
use std::alloc::Global;
use std::hash::{BuildHasher, Hash, Hasher};
use std::io;
use std::process::Abort;
use std::random::RandomSource;

/// The groups of a table for 144 keys, and the places in a group.
const GROUPS: usize = 16;

const PLACES: u8 = 16;

/// A source whose bytes a number determines.
#[derive(Drop)]
struct Drawn {
    number: u32,
}

impl RandomSource for Drawn {
    fn fill_bytes(&self, bytes: &mut [u8]) -> io::Result<()> {
        let mut draws = Draws::new(self.number);
        for byte in bytes {
            *byte = draws.below(256) as u8;
        }
        Ok(())
    }
}

/// The 144 names from `aa00` to `ai33`.
fn names(rt: &impl Abort, alloc: Global) -> Vec<Key> {
    let mut names = Vec::new(alloc);
    for number in 0..144u32 {
        let letter = b'a' + (number / 16 % 9) as u8;
        let high = b'0' + (number / 4 % 4) as u8;
        let low = b'0' + (number % 4) as u8;
        let name = Key::new(&[b'a', letter, high, low]).expect(rt, "a key");
        names.push(name).expect(rt, "memory");
    }
    names
}

/// The group that a key's hash determines: the halves of a hash are joined, as the toolchain's
/// tables join them.
fn group_of(seed: &HashSeed, key: &Key) -> usize {
    let mut hasher = seed.build_hasher();
    key.hash(&mut hasher);
    let hash = hasher.finish();
    ((hash ^ (hash >> 32)) % GROUPS as u64) as usize
}

/// Takes a place in the first group with a free one, from this group on. Returns how many full
/// groups are passed.
fn insert(used: &mut [u8; GROUPS], group: usize) -> u32 {
    for passed in 0..GROUPS {
        let at = (group % GROUPS + passed) % GROUPS;
        if used[at] < PLACES {
            used[at] += 1;
            return passed as u32;
        }
    }
    GROUPS as u32
}

/// How many full groups the insertions of all names pass, nine names for each group.
fn passed(seed: &HashSeed, names: &[Key]) -> u32 {
    let mut used = [0u8; GROUPS];
    let mut sum = 0u32;
    for name in names {
        sum = sum.saturating_add(insert(&mut used, group_of(seed, name)));
    }
    sum
}

/// The insertions pass 0.25 groups on average under random functions, and 14 under the worst of
/// 10,000.
#[test]
fn no_seed_is_bad(rt: HostRuntime) {
    let names = names(&rt, rt.alloc());
    for number in 0..10_000 {
        let seed = HashSeed::from(DrawnSeed::draw(&Drawn { number }));
        let sum = passed(&seed, &names);
        assert!(rt; sum <= 28, "{number}: {sum}");
    }
}
