//! `Chain`: the placeholders of one key. `Places` has the chains of one part of the keys.

ghost use Rattle.std.specs.Prelude.{◌≡◌, ℕ, List, [], ◌∷◌, ◌++◌, ◌<◌, ◌↔◌};
ghost use Rattle.std.specs.Prelude.{length, IfOk, OnOk, OnErr, IsTrue};
ghost use Rattle.bohm_types.specs.Keys.{IsAmong};
ghost use Rattle.bohm_place.specs.Chains.{items, second, begins};
ghost use Rattle.bohm_place.specs.Chains.{kept_items, greatest_below, RisesFrom};

use crate::placeholder::Placeholder;
use bohm_types::{Key, NoMemory};
use std::alloc::Global;
use std::collections::VecDeque;

/// The placeholders of one key, rising. It is never empty; the newest placeholder needs no
/// allocation.
#[derive(Drop)]
pub struct Chain {
    pub older: VecDeque<Placeholder>,
    pub newest: Placeholder,
}

impl Chain {
    pub fn new(alloc: Global, newest: Placeholder) -> Chain
        ensures { items result ≡ newest ∷ [] }
    {
        Chain {
            older: VecDeque::new(alloc),
            newest,
        }
    }

    /// Appends a placeholder, and returns the previous newest one. The key is added to the list
    /// `long` if it wasn't there; after an error it may have been added too.
    pub fn extend(
        &mut self,
        long: &mut Vec<Key>,
        key: Key,
        next: Placeholder,
    ) -> Result<Placeholder, NoMemory>
        requires { 1 < length (items self.old) → IsAmong long.old.items key }
        ensures newest { IfOk result (λ v. v ≡ self.old.newest) }
        ensures items { OnOk result (items self.new ≡ items self.old ++ next ∷ []) }
        ensures key { OnOk result (IsAmong long.new.items key) }
        ensures err { OnErr result (items self.new ≡ items self.old) }
        ensures listed { (k : List ℕ) → IsAmong long.old.items k → IsAmong long.new.items k }
    {
        if self.older.is_empty() {
            long.push(key)?;
        }
        let newest = self.newest;
        self.older.push_back(newest)?;
        self.newest = next;
        Ok(newest)
    }

    /// The begin of the second oldest placeholder, if there is one.
    fn second(&self) -> Option<u32>
        ensures { result ≡ second (items self.now) }
    {
        match self.older.len() {
            0 => None,
            1 => Some(self.newest.begin),
            _ => Some(self.older[1].begin),
        }
    }

    /// Drops all placeholders older than the newest one at or below the floor, and returns whether
    /// more than one is left. The time grows with the number of placeholders dropped.
    pub fn shorten(&mut self, floor: u32) -> bool
        ensures items { items self.new ≡ kept_items floor (items self.old) }
        ensures left { IsTrue result ↔ (1 < length (items self.new)) }
    {
        while let Some(second) = self.second() {
            if floor < second {
                return true;
            }
            self.older.pop_front();
        }
        false
    }

    /// The greatest begin below a timestamp, or 0. The time grows with the number of begins at or
    /// above the timestamp.
    pub fn greatest_below(&self, ts: u32) -> u32
        requires { RisesFrom 0 (begins (items self.now)) }
        ensures { result ≡ greatest_below ts (begins (items self.now)) }
    {
        if self.newest.begin < ts {
            return self.newest.begin;
        }
        let mut i = self.older.len();
        while i > 0 {
            i -= 1;
            let begin = self.older[i].begin;
            if begin < ts {
                return begin;
            }
        }
        0
    }
}
