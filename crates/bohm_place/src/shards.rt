//! `Shards`: the chains of all parts of the keys, with separate `Places` for each part.

ghost use Rattle.std.specs.Prelude.{◌≡◌, ℕ, List, [], ◌<◌, length, slice_get, Some, All, IfOk};
ghost use Rattle.bohm_place.specs.Chains.{AreEmpty, AreKept};

use crate::places::Places;
use bohm_log::{DrawnSeed, FixedSeed, HashSeed};
use bohm_types::NoMemory;
use std::alloc::Global;
use std::marker::Model;

/// `count` parts without chains.
pub fn empty_parts(alloc: Global, count: usize, seed: HashSeed) -> Result<Vec<Places>, NoMemory>
    ensures count { IfOk result (λ v. length v.items ≡ count) }
    ensures empty { IfOk result (λ v. AreEmpty v.items) }
{
    let mut parts = Vec::with_capacity(alloc, count)?;
    for _ in 0..count {
        parts.push(Places::with_seed(alloc, seed))?;
    }
    Ok(parts)
}

fn trim_parts(parts: &mut [Places], floor: u32)
    ensures { AreKept floor parts.old parts.new }
{
    for i in 0..parts.len() {
        parts[i].trim(floor);
    }
}

/// The chains of the keys, separately for each part of a partition.
#[derive(Drop)]
pub struct Shards {
    parts: Vec<Places>,
}

impl Model for Shards {
    ghost use Rattle.std.specs.Prelude.{List};
    ghost use Rattle.bohm_place.specs.Chains.{Keyed};

    ghost Value = { List Keyed };

    ghost view = { λ s. s.parts.items };
}

impl Shards {
    ghost use Rattle.bohm_place.specs.Chains.{chain_in, kept};

    /// `parts` parts without chains. Keys are hashed with the fixed seed.
    pub fn new(alloc: Global, parts: u32) -> Result<Shards, NoMemory>
        ensures parts { IfOk result (λ s. length s ≡ parts) }
        ensures empty { IfOk result
            (λ s. (part : List ℕ → ℕ) (k : List ℕ) → chain_in part s k ≡ []) }
    {
        let parts = empty_parts(alloc, parts as usize, HashSeed::from(FixedSeed))?;
        Ok(Shards { parts })
    }

    /// `parts` parts without chains. Keys are hashed with a drawn seed.
    pub fn with_seed(alloc: Global, parts: u32, seed: DrawnSeed) -> Result<Shards, NoMemory>
        ensures parts { IfOk result (λ s. length s ≡ parts) }
        ensures empty { IfOk result
            (λ s. (part : List ℕ → ℕ) (k : List ℕ) → chain_in part s k ≡ []) }
    {
        let parts = empty_parts(alloc, parts as usize, HashSeed::from(seed))?;
        Ok(Shards { parts })
    }

    /// The chains of the part with the number `i`.
    pub fn places(&self, i: u32) -> &Places
        requires { i < length self.now }
        ensures { slice_get self.now i ≡ Some result.now }
    {
        &self.parts[i as usize]
    }

    /// Keeps in each chain the newest begin at or below the floor, and all begins above it. The
    /// time grows with the number of chains with more than one begin, and with the number of begins
    /// dropped.
    pub fn trim_places(&mut self, floor: u32)
        ensures parts { length self.new ≡ length self.old }
        ensures chains { (part : List ℕ → ℕ) (k : List ℕ)
            → chain_in part self.new k ≡ kept floor (chain_in part self.old k) }
        ensures below { (part : List ℕ → ℕ) (k : List ℕ) (ts : ℕ)
            → All (λ b. b < ts) (chain_in part self.old k)
            → All (λ b. b < ts) (chain_in part self.new k) }
    {
        trim_parts(self.parts.as_mut_slice(), floor);
    }

    /// The shards of these parts.
    pub(crate) fn from_parts(parts: Vec<Places>) -> Shards
        ensures { result ≡ parts.items }
    {
        Shards { parts }
    }

    /// The chains of each part.
    pub(crate) fn into_parts(self) -> Vec<Places>
        ensures { result.items ≡ self }
    {
        let Shards { parts } = self;
        parts
    }
}
