//! `Places`: a `Chain` for each key of one part. `Shards` has the chains of all parts.

ghost use Rattle.std.specs.Prelude.{◌≡◌, ℕ, List, [], ◌∷◌, ◌++◌, ◌<◌, ◌&&◌};
ghost use Rattle.std.specs.Prelude.{All, length, is_ok, true, false, IfOk, if◌then◌else◌};
ghost use Rattle.std.specs.Str.{bytes_eq};
ghost use Rattle.bohm_types.specs.Keys.{IsAmong};
ghost use Rattle.bohm_place.specs.Chains.{items_at, kept_items, last_or, none};

use crate::chain::Chain;
use crate::placeholder::Placeholder;
use bohm_log::{FixedSeed, HashSeed};
use bohm_types::{Key, NoMemory};
use std::alloc::Global;
use std::collections::HashMap;
use std::marker::Model;

// Adds a placeholder to the chain of its key, and returns the newest one before it.
fn append(
    chains: &mut HashMap<Key, Chain, HashSeed>,
    long: &mut Vec<Key>,
    alloc: Global,
    key: Key,
    next: Placeholder,
) -> Result<Placeholder, NoMemory>
    requires { (k : List ℕ) → 1 < length (items_at chains.old k) → IsAmong long.old.items k }
    ensures newest { IfOk result (λ v. v ≡ last_or none (items_at chains.old key)) }
    ensures chains { (k : List ℕ) → items_at chains.new k
        ≡ (if (is_ok result && bytes_eq key k)
        then items_at chains.old k ++ next ∷ [] else items_at chains.old k) }
    ensures listed { (k : List ℕ) → 1 < length (items_at chains.new k) → IsAmong long.new.items k }
{
    match chains.get_mut(&key) {
        Some(chain) => chain.extend(long, key, next),
        None => {
            chains.insert(key, Chain::new(alloc, next))?;
            Ok(Placeholder::none())
        }
    }
}

// Shortens the chain of a key, and returns whether it still has more than one begin.
fn shorten(chains: &mut HashMap<Key, Chain, HashSeed>, key: &Key, floor: u32) -> bool
    ensures chains { (k : List ℕ) → items_at chains.new k
        ≡ (if bytes_eq key.now k
        then kept_items floor (items_at chains.old k) else items_at chains.old k) }
    ensures short { result ≡ false → (k : List ℕ) → bytes_eq key.now k ≡ true
        → length (items_at chains.new k) < 2 }
{
    match chains.get_mut(key) {
        Some(chain) => chain.shorten(floor),
        None => false,
    }
}

// Shortens the listed chains. Those that still have more than one begin remain listed.
fn shorten_all(chains: &mut HashMap<Key, Chain, HashSeed>, long: &mut Vec<Key>, floor: u32)
    requires { (k : List ℕ) → 1 < length (items_at chains.old k) → IsAmong long.old.items k }
    ensures chains { (k : List ℕ)
        → items_at chains.new k ≡ kept_items floor (items_at chains.old k) }
    ensures listed { (k : List ℕ) → 1 < length (items_at chains.new k) → IsAmong long.new.items k }
{
    let mut kept = 0;
    for i in 0..long.len() {
        let key = long[i];
        if shorten(chains, &key, floor) {
            long[kept] = key;
            kept += 1;
        }
    }
    long.truncate(kept);
}

/// The chains of one part of the keys: for each key the begins of its versions, strictly rising.
#[derive(Drop)]
pub struct Places {
    chains: HashMap<Key, Chain, HashSeed>,
    // Contains all keys whose chain has more than one begin.
    long: Vec<Key>,
}

impl Model for Places {
    ghost use Rattle.bohm_place.specs.Chains.{Keyed, IsPlaces, table};

    ghost Value = { Keyed };

    ghost view = { λ p. table p.chains.entries };

    ghost invariant = { λ p. IsPlaces p.chains p.long.items };
}

impl Places {
    ghost use Rattle.bohm_place.specs.Chains.{placeholders, chain, greatest_below, kept, RisesFrom};

    /// No chains: each key has the empty chain. Keys are hashed with the fixed seed.
    pub fn new(alloc: Global) -> Places
        ensures { (k : List ℕ) → placeholders result k ≡ [] }
    {
        Places::with_seed(alloc, HashSeed::from(FixedSeed))
    }

    /// No chains, with keys hashed with this seed.
    pub(crate) fn with_seed(alloc: Global, seed: HashSeed) -> Places
        ensures { (k : List ℕ) → placeholders result k ≡ [] }
    {
        Places {
            chains: HashMap::with_hasher(alloc, seed),
            long: Vec::new(alloc),
        }
    }

    /// Adds a begin to the chain of a key. The time is that of one look-up.
    pub fn place(&mut self, alloc: Global, key: Key, ts: u32) -> Result<(), NoMemory>
        requires timestamp { 0 < ts }
        requires above { All (λ b. b < ts) (chain self.old key) }
        ensures { (k : List ℕ)
            → chain self.new k
            ≡ (if (is_ok result && bytes_eq key k) then chain self.old k ++ ts
            ∷ [] else chain self.old k) }
    {
        let next = Placeholder {
            begin: ts,
            index: 0,
        };
        self.annotate(alloc, key, next)?;
        Ok(())
    }

    /// Adds a placeholder to the chain of a key, and returns the newest one before it.
    pub(crate) fn annotate(
        &mut self,
        alloc: Global,
        key: Key,
        next: Placeholder,
    ) -> Result<Placeholder, NoMemory>
        requires timestamp { 0 < next.begin }
        requires above { All (λ b. b < next.begin) (chain self.old key) }
        ensures newest { IfOk result (λ v. v ≡ last_or none (placeholders self.old key)) }
        ensures chains { (k : List ℕ) → placeholders self.new k
            ≡ (if (is_ok result && bytes_eq key k)
            then placeholders self.old k ++ next ∷ [] else placeholders self.old k) }
    {
        append(&mut self.chains, &mut self.long, alloc, key, next)
    }

    /// The newest placeholder of a key.
    pub(crate) fn newest(&self, key: &Key) -> Placeholder
        ensures { result ≡ last_or none (placeholders self.now key.now) }
    {
        match self.chains.get(key) {
            Some(chain) => chain.newest,
            None => Placeholder::none(),
        }
    }

    /// The greatest begin below a timestamp in the chain of a key, or 0 if there is none. The time
    /// is that of one look-up, and grows with the number of the chain's begins at or above the
    /// timestamp.
    pub fn source(&self, key: &Key, ts: u32) -> u32
        ensures source { result ≡ greatest_below ts (chain self.now key.now) }
        ensures rises { RisesFrom 0 (chain self.now key.now) }
    {
        match self.chains.get(key) {
            Some(chain) => chain.greatest_below(ts),
            None => 0,
        }
    }

    /// Keeps in each chain the newest begin at or below the floor, and all begins above it. The
    /// time grows with the number of chains with more than one begin, and with the number of begins
    /// dropped.
    pub(crate) fn trim(&mut self, floor: u32)
        ensures { (k : List ℕ) → chain self.new k ≡ kept floor (chain self.old k) }
    {
        shorten_all(&mut self.chains, &mut self.long, floor);
    }
}
