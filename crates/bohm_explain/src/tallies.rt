//! Counters for each key.

ghost use Rattle.std.specs.Prelude.{◌≡◌, ℕ, List, true, ◌||◌, All, length, if◌then◌else◌, OnOk};
ghost use Rattle.std.specs.List.{list_any, zip};
ghost use Rattle.std.specs.Str.{bytes_eq};
ghost use Rattle.bohm_types.specs.Keys.{is_among, rising};
ghost use Rattle.bohm_place.specs.Shares.{AreWellFormed};
ghost use Rattle.bohm_explain.specs.Heats.{chain_in, declares};
ghost use Rattle.bohm_explain.specs.Tallies.{counted_in, lists, nothing, plus};
ghost use Rattle.bohm_explain.specs.Tallies.{raised, tally, HasRoom, HasRoomFor};

use crate::arrow::Arrow;
use bohm_log::{HashSeed, Keys, LogPart};
use bohm_place::DeclaredSet;
use bohm_types::{Key, NoMemory};
use indexmap::IndexMap;

/// The counts of a key.
#[derive(Clone, Copy, Debug, PartialEq, Eq)]
pub struct Tally {
    /// The transactions that declare to write the key.
    pub writers: u32,
    /// The transactions that declare to read the key.
    pub readers: u32,
    /// The transactions on the longest chain through an arrow for the key.
    pub chain: u32,
}

impl Tally {
    /// The tally of a key that hasn't been counted.
    fn nothing() -> Tally
        ensures { result ≡ nothing }
    {
        Tally {
            writers: 0,
            readers: 0,
            chain: 0,
        }
    }

    /// The tally with one more transaction that has the key in this set.
    fn plus(self, set: DeclaredSet) -> Tally
        requires { HasRoom set 1 self }
        ensures { result ≡ plus set self }
    {
        match set {
            DeclaredSet::Reads => Tally {
                readers: self.readers + 1,
                ..self
            },
            DeclaredSet::Writes => Tally {
                writers: self.writers + 1,
                ..self
            },
        }
    }
}

/// Counts a transaction that has the key in this set.
fn count(
    tallies: &mut IndexMap<Key, Tally, HashSeed>,
    key: Key,
    set: DeclaredSet,
) -> Result<(), NoMemory>
    requires room { HasRoom set 1 (tally tallies.old key) }
    ensures counts { OnOk result ((k : List ℕ) → tally tallies.new k
        ≡ (if bytes_eq key k then plus set (tally tallies.old k) else tally tallies.old k)) }
    ensures listed { OnOk result ((k : List ℕ) → lists tallies.new k
        ≡ (lists tallies.old k || bytes_eq key k)) }
{
    match tallies.get_mut(&key) {
        Some(tally) => *tally = tally.plus(set),
        None => {
            tallies.insert(key, Tally::nothing().plus(set))?;
        }
    }
    Ok(())
}

/// Counts a transaction that has these keys in this set.
fn count_keys(
    tallies: &mut IndexMap<Key, Tally, HashSeed>,
    keys: &Keys<'_>,
    set: DeclaredSet,
) -> Result<(), NoMemory>
    requires rises { rising keys.now ≡ true }
    requires room { (k : List ℕ) → HasRoom set 1 (tally tallies.old k) }
    ensures counts { OnOk result ((k : List ℕ) → tally tallies.new k
        ≡ (if is_among keys.now k then plus set (tally tallies.old k) else tally tallies.old k)) }
    ensures listed { OnOk result ((k : List ℕ) → lists tallies.new k
        ≡ (lists tallies.old k || is_among keys.now k)) }
{
    for index in 0..keys.len() {
        count(tallies, *keys.key(index), set)?;
    }
    Ok(())
}

/// Counts transactions by the keys that they declare.
pub fn count_all(
    tallies: &mut IndexMap<Key, Tally, HashSeed>,
    txns: &LogPart<'_>,
) -> Result<(), NoMemory>
    requires formed { AreWellFormed txns.now }
    requires room { HasRoomFor (length txns.now) tallies.old }
    ensures counts { OnOk result ((k : List ℕ) → tally tallies.new k
        ≡ counted_in (tally tallies.old k) txns.now k) }
    ensures listed { OnOk result ((k : List ℕ) → lists tallies.new k
        ≡ (lists tallies.old k || list_any (declares k) txns.now)) }
{
    for index in 0..txns.len() {
        let txn = txns.txn(index);
        count_keys(tallies, &DeclaredSet::Reads.keys(&txn), DeclaredSet::Reads)?;
        count_keys(
            tallies,
            &DeclaredSet::Writes.keys(&txn),
            DeclaredSet::Writes,
        )?;
    }
    Ok(())
}

/// Records a chain through an arrow for the key.
fn raise(tallies: &mut IndexMap<Key, Tally, HashSeed>, key: &Key, chain: u32)
    requires there { lists tallies.old key.now ≡ true }
    ensures chains { (k : List ℕ) → tally tallies.new k
        ≡ (if bytes_eq key.now k then raised (tally tallies.old k) chain else tally tallies.old k) }
    ensures listed { (k : List ℕ) → lists tallies.new k ≡ lists tallies.old k }
{
    if let Some(tally) = tallies.get_mut(key) {
        tally.chain = tally.chain.max(chain);
    }
}

/// Records the longest chain through each of these arrows.
pub fn raise_all(tallies: &mut IndexMap<Key, Tally, HashSeed>, arrows: &[Arrow], through: &[u32])
    requires there { All (λ a. lists tallies.old a.key ≡ true) arrows.now }
    ensures chains { (k : List ℕ) → tally tallies.new k
        ≡ raised (tally tallies.old k) (chain_in k (zip arrows.now through.now)) }
    ensures listed { (k : List ℕ) → lists tallies.new k ≡ lists tallies.old k }
{
    for (arrow, chain) in arrows.iter().zip(through) {
        raise(tallies, &arrow.key, *chain);
    }
}
