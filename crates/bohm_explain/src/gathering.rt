//! The keys of a log, gathered part by part.

ghost use Rattle.std.specs.Prelude.{◌≡◌, List, [], ◌∷◌, ◌++◌, length, IfOk, OnOk};
ghost use Rattle.std.specs.List.{zip};
ghost use Rattle.bohm_types.specs.Txn.{Txn};
ghost use Rattle.bohm_place.specs.Shares.{AreWellFormed};
ghost use Rattle.bohm_explain.specs.Heats.{AreHeatsOf, Chained};
ghost use Rattle.bohm_explain.specs.Tallies.{CanTake, IsGathered};
ghost use Rattle.bohm_explain.specs.Wanted.{arrows as wanted_in};

use crate::arrow::Arrow;
use crate::heat::Heat;
use crate::tallies::{Tally, count_all, raise_all};
use bohm_log::{HashSeed, LogPart};
use bohm_types::{Key, NoMemory};
use indexmap::IndexMap;
use std::alloc::Global;

/// The keys of a log's first parts, each with its counts.
#[derive(Drop)]
pub struct Gathering {
    tallies: IndexMap<Key, Tally, HashSeed>,
}

impl Gathering {
    /// For no part yet. Keys are hashed with this seed. It allocates nothing.
    pub fn new(alloc: Global, seed: HashSeed) -> Gathering
        ensures { IsGathered [] [] result }
    {
        Gathering {
            tallies: IndexMap::with_hasher(alloc, seed),
        }
    }

    /// Adds a part: its transactions, its arrows, and for each arrow the number of transactions on
    /// the longest chain through it. The time grows with the number of declared keys and arrows.
    pub fn note(
        &mut self,
        txns: &LogPart<'_>,
        arrows: &[Arrow],
        through: &[u32],
    ) -> Result<(), NoMemory>
        requires formed { AreWellFormed txns.now }
        requires arrows { arrows.now ≡ wanted_in txns.now }
        requires room { CanTake (length txns.now) self.old }
        ensures { OnOk result ((log : List Txn) (batches : List Chained)
            → IsGathered log batches self.old
            → IsGathered (log ++ txns.now) (batches ++ zip arrows.now through.now ∷ []) self.new) }
    {
        count_all(&mut self.tallies, txns)?;
        raise_all(&mut self.tallies, arrows, through);
        Ok(())
    }

    /// The heats of the keys that were declared, each key once.
    pub fn heats(&self, alloc: Global) -> Result<Vec<Heat>, NoMemory>
        ensures { IfOk result (λ v. (log : List Txn) (batches : List Chained)
            → IsGathered log batches self.now → AreHeatsOf log batches v.items) }
    {
        let mut heats = Vec::with_capacity(alloc, self.tallies.len())?;
        for (key, tally) in &self.tallies {
            heats.push(Heat {
                key: *key,
                writers: tally.writers,
                readers: tally.readers,
                chain: tally.chain,
            })?;
        }
        Ok(heats)
    }
}
