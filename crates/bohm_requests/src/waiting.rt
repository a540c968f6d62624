//! The requests of the next commit.

ghost use Rattle.std.specs.Prelude.{◌≡◌, ◌++◌, ◌∷◌, [], ℕ, List, false, IfOk, OnOk};
ghost use Rattle.bohm_requests.specs.Taking.{IsTaken, is_stored};

use crate::turn::Turn;
use bohm_log::{DrawnSeed, HashSeed};
use bohm_types::NoMemory;
use std::alloc::Global;
use std::collections::HashMap;

/// Where an entry of the next commit is in its text, and which one it is.
#[derive(Clone, Copy, Debug)]
pub(crate) struct Span {
    pub(crate) start: usize,
    pub(crate) end: usize,
    pub(crate) index: usize,
}

/// The requests of the next commit.
#[derive(Drop)]
pub(crate) struct Waiting {
    alloc: Global,
    /// The texts of the entries that are to be stored, one behind the other.
    batch: Vec<u8>,
    /// How many they are.
    entries: usize,
    /// How many of them are transactions or calls.
    transactions: u64,
    /// How each request is answered.
    turns: Vec<Turn>,
    /// The entries that carry an id, by their ids.
    ids: HashMap<Vec<u8>, Span, HashSeed>,
    /// Whether no request may be added: what follows depends on the commit.
    is_closed: bool,
}

impl Waiting {
    /// No request. Ids are hashed with the seed.
    pub(crate) fn none(alloc: Global, seed: DrawnSeed) -> Waiting
        ensures batch { result.batch.items ≡ [] }
        ensures turns { result.turns.items ≡ [] }
    {
        Waiting {
            alloc,
            batch: Vec::new(alloc),
            entries: 0,
            transactions: 0,
            turns: Vec::new(alloc),
            ids: HashMap::with_hasher(alloc, HashSeed::from(seed)),
            is_closed: false,
        }
    }

    /// Takes all requests away.
    pub(crate) fn clear(&mut self)
        ensures batch { self.new.batch.items ≡ [] }
        ensures turns { self.new.turns.items ≡ [] }
    {
        self.batch.clear();
        self.entries = 0;
        self.transactions = 0;
        self.turns.clear();
        self.ids.clear();
        self.is_closed = false;
    }

    pub(crate) fn batch(&self) -> &[u8]
        ensures { result.now ≡ self.now.batch.items }
    {
        self.batch.as_slice()
    }

    pub(crate) fn turns(&self) -> &[Turn]
        ensures { result.now ≡ self.now.turns.items }
    {
        self.turns.as_slice()
    }

    pub(crate) fn transactions(&self) -> u64 {
        self.transactions
    }

    pub(crate) fn is_closed(&self) -> bool {
        self.is_closed
    }

    /// How many requests there are.
    pub(crate) fn len(&self) -> usize {
        self.turns.len()
    }

    /// Which entry carries an id, if one does.
    pub(crate) fn with_id(&self, id: &[u8]) -> Option<Span> {
        self.ids.get(id).copied()
    }

    /// Whether the entry there is this one.
    pub(crate) fn is_at(&self, span: Span, entry: &[u8]) -> bool {
        match self.batch.as_slice().get(span.start..span.end) {
            Some(text) => text == entry,
            None => false,
        }
    }

    /// Adds a request of which nothing is stored.
    pub(crate) fn tell(&mut self, turn: Turn) -> Result<(), NoMemory>
        ensures ok { OnOk result (self.new.turns.items ≡ self.old.turns.items ++ turn ∷ []) }
        ensures told { OnOk result ((request : List ℕ) → is_stored turn ≡ false
            → IsTaken request self.old.turns.items self.old.batch.items self.new.turns.items self.new.batch.items) }
        ensures batch { self.new.batch ≡ self.old.batch }
    {
        self.turns.push(turn)?;
        Ok(())
    }

    /// Notes the id of the entry that comes next, whose text ends the batch from `start` on.
    fn note_id(&mut self, id: &[u8], start: usize) -> Result<Vec<u8>, NoMemory>
        ensures id { IfOk result (λ it. it.items ≡ id.now) }
        ensures batch { self.new.batch ≡ self.old.batch }
        ensures turns { self.new.turns ≡ self.old.turns }
        ensures entries { self.new.entries ≡ self.old.entries }
    {
        let span = Span {
            start,
            end: self.batch.len(),
            index: self.entries,
        };
        self.ids.insert(Vec::from_slice(self.alloc, id)?, span)?;
        Ok(Vec::from_slice(self.alloc, id)?)
    }

    /// Adds an entry that is to be stored.
    pub(crate) fn store(
        &mut self,
        id: Option<&[u8]>,
        entry: &[u8],
        is_definition: bool,
    ) -> Result<(), NoMemory>
        ensures taken { OnOk result (IsTaken entry.now self.old.turns.items self.old.batch.items self.new.turns.items self.new.batch.items) }
    {
        let start = self.batch.len();
        self.batch.extend_from_slice(entry)?;
        let named = match id {
            Some(id) => Some(self.note_id(id, start)?),
            None => None,
        };
        self.tell(Turn::Stored { id: named })?;
        self.entries = self.entries.saturating_add(1);
        if is_definition {
            self.is_closed = true;
        } else {
            self.transactions = self.transactions.saturating_add(1);
        }
        Ok(())
    }
}
