//! How requests are taken into the next commit.

ghost use Rattle.std.specs.Prelude.{◌≡◌, ◌≤◌, ℕ, List, false, IfOk, OnOk};
ghost use Rattle.sqlite_trees.specs.Tree.{Trees};
ghost use Rattle.sqlite_trees.specs.View.{doubt, IsClean};
ghost use Rattle.bohm_ledger.specs.Ledgers.{IsReady};
ghost use Rattle.bohm_ledger.specs.Rules.{origin, requests};
ghost use Rattle.bohm_replay.specs.Entries.{entry_rules};
ghost use Rattle.bohm_requests.specs.Taking.{IsTaken, is_stored};
ghost use Rattle.bohm_requests.specs.Knowing.{IsKnown, IsNoEntry};

use crate::archives::Archives;
use crate::desk::{DeskMachine, RequestDesk};
use crate::fault::DeskFault;
use crate::read_request::{ReadRequest, read_request};
use crate::turn::Turn;
use bohm_entries::{EntryFault, Kind, Refusal, read_first_line};
use bohm_ledger::Machine;
use bohm_text::split_line;
use bohm_types::{Key, NoMemory};
use sqlite_trees::store::Store;
use std::alloc::Global;

/// What is known of an entry's id.
enum Known {
    /// No entry has it.
    No,
    /// The entry itself has it, and is answered so.
    Same(Turn),
    /// Another entry has it.
    Other,
}

/// A copy of an id.
fn copied(alloc: Global, id: Option<&[u8]>) -> Result<Option<Vec<u8>>, NoMemory> {
    match id {
        Some(id) => Ok(Some(Vec::from_slice(alloc, id)?)),
        None => Ok(None),
    }
}

impl<S: Store + Drop> RequestDesk<S> {
    /// Takes a request into the next commit.
    pub(crate) fn take<A: Archives>(
        &mut self,
        archives: &mut A,
        request: &[u8],
    ) -> Result<(), DeskFault>
        ensures taken { OnOk result (IsTaken request.now self.old.waiting.turns.items self.old.waiting.batch.items
            self.new.waiting.turns.items self.new.waiting.batch.items) }
        ensures machine { self.new.ledger.machine ≡ self.old.ledger.machine }
        ensures edition { self.new.ledger.edition ≡ self.old.ledger.edition }
        ensures clean { doubt (S.view self.old.ledger.store).is_clean ≤ doubt (S.view self.new.ledger.store).is_clean }
        ensures ready { IsClean (S.view self.new.ledger.store) → OnOk result ((bs : List (List ℕ))
            → IsReady entry_rules self.old.ledger.edition bs (S.view self.old.ledger.store) self.old.ledger.place self.old.ledger.checkpoint
            (⟦<DeskMachine as Machine>⟧.state self.old.ledger.machine) (⟦<DeskMachine as Machine>⟧.saved self.old.ledger.machine)
            → IsReady entry_rules self.old.ledger.edition bs (S.view self.new.ledger.store) self.new.ledger.place self.new.ledger.checkpoint
            (⟦<DeskMachine as Machine>⟧.state self.new.ledger.machine) (⟦<DeskMachine as Machine>⟧.saved self.new.ledger.machine)) }
        ensures any_moment { (db : Trees) → S.recovers self.new.ledger.store db → S.recovers self.old.ledger.store db }
    {
        let Some((line, _)) = split_line(request) else {
            return self.refuse(None, Refusal::Shape);
        };
        if let Some(read) = read_request(line) {
            return self.take_read(read);
        }
        match read_first_line(line) {
            Some(first) => {
                let is_definition = matches!(first.kind, Kind::Define);
                self.take_entry(archives, first.id, is_definition, request)
            }
            None => self.refuse(None, Refusal::Shape),
        }
    }

    fn refuse(&mut self, id: Option<&[u8]>, refusal: Refusal) -> Result<(), DeskFault>
        ensures taken { OnOk result ((request : List ℕ) → IsTaken request self.old.waiting.turns.items self.old.waiting.batch.items
            self.new.waiting.turns.items self.new.waiting.batch.items) }
        ensures ledger { self.new.ledger ≡ self.old.ledger }
    {
        let id = copied(self.alloc, id)?;
        self.waiting.tell(Turn::Refused { id, refusal })?;
        Ok(())
    }

    /// The number of the last transaction, as it will be after the entries that wait.
    fn next_top(&self) -> u64 {
        self.top().saturating_add(self.waiting.transactions())
    }

    fn take_read(&mut self, read: ReadRequest) -> Result<(), DeskFault>
        ensures taken { OnOk result ((request : List ℕ) → IsTaken request self.old.waiting.turns.items self.old.waiting.batch.items
            self.new.waiting.turns.items self.new.waiting.batch.items) }
        ensures ledger { self.new.ledger ≡ self.old.ledger }
    {
        let last = self.next_top();
        let turn = match read {
            ReadRequest::Top => Turn::Top { last },
            ReadRequest::Digest => Turn::Digest { after: last },
            ReadRequest::Get { key, at } => self.turn_of_get(key, at.unwrap_or(last)),
        };
        self.waiting.tell(turn)?;
        Ok(())
    }

    fn turn_of_get(&self, key: Key, after: u64) -> Turn
        ensures { is_stored result ≡ false }
    {
        if after > self.next_top() {
            Turn::Future
        } else if after < self.ledger.checkpointed() {
            Turn::Trimmed
        } else {
            Turn::Cell { key, after }
        }
    }

    fn take_entry<A: Archives>(
        &mut self,
        archives: &mut A,
        id: Option<&[u8]>,
        is_definition: bool,
        entry: &[u8],
    ) -> Result<(), DeskFault>
        ensures taken { OnOk result (IsTaken entry.now self.old.waiting.turns.items self.old.waiting.batch.items
            self.new.waiting.turns.items self.new.waiting.batch.items) }
        ensures machine { self.new.ledger.machine ≡ self.old.ledger.machine }
        ensures edition { self.new.ledger.edition ≡ self.old.ledger.edition }
        ensures clean { doubt (S.view self.old.ledger.store).is_clean ≤ doubt (S.view self.new.ledger.store).is_clean }
        ensures ready { IsClean (S.view self.new.ledger.store) → OnOk result ((bs : List (List ℕ))
            → IsReady entry_rules self.old.ledger.edition bs (S.view self.old.ledger.store) self.old.ledger.place self.old.ledger.checkpoint
            (⟦<DeskMachine as Machine>⟧.state self.old.ledger.machine) (⟦<DeskMachine as Machine>⟧.saved self.old.ledger.machine)
            → IsReady entry_rules self.old.ledger.edition bs (S.view self.new.ledger.store) self.new.ledger.place self.new.ledger.checkpoint
            (⟦<DeskMachine as Machine>⟧.state self.new.ledger.machine) (⟦<DeskMachine as Machine>⟧.saved self.new.ledger.machine)) }
        ensures any_moment { (db : Trees) → S.recovers self.new.ledger.store db → S.recovers self.old.ledger.store db }
    {
        let known = match id {
            Some(id) => self.known(archives, id, entry)?,
            None => Known::No,
        };
        let is_barred = match known {
            Known::Same(turn) => {
                self.waiting.tell(turn)?;
                return Ok(());
            }
            Known::Other => true,
            Known::No => false,
        };
        self.take_new(id, is_definition, is_barred, entry)
    }

    /// Takes an entry in that wasn't stored. If it is barred, its id is another entry's.
    fn take_new(
        &mut self,
        id: Option<&[u8]>,
        is_definition: bool,
        is_barred: bool,
        entry: &[u8],
    ) -> Result<(), DeskFault>
        ensures taken { OnOk result (IsTaken entry.now self.old.waiting.turns.items self.old.waiting.batch.items
            self.new.waiting.turns.items self.new.waiting.batch.items) }
        ensures ledger { self.new.ledger ≡ self.old.ledger }
    {
        match self.ledger.machine().admit(entry) {
            Ok(()) if is_barred => self.refuse(id, Refusal::Id),
            Ok(()) => {
                self.waiting.store(id, entry, is_definition)?;
                Ok(())
            }
            Err(EntryFault::Refused(refusal)) => self.refuse(id, refusal),
            Err(EntryFault::NoMemory) => Err(DeskFault::OutOfMemory),
        }
    }

    /// What is known of the id of this entry.
    fn known<A: Archives>(
        &mut self,
        archives: &mut A,
        id: &[u8],
        entry: &[u8],
    ) -> Result<Known, DeskFault>
        ensures turn { IfOk result IsNoEntry }
        ensures known { IfOk result (λ it. IsClean (S.view self.new.ledger.store) → (bs : List (List ℕ))
            → IsReady entry_rules self.old.ledger.edition bs (S.view self.old.ledger.store) self.old.ledger.place self.old.ledger.checkpoint
            (⟦<DeskMachine as Machine>⟧.state self.old.ledger.machine) (⟦<DeskMachine as Machine>⟧.saved self.old.ledger.machine)
            → IsKnown (requests entry_rules 1 (origin entry_rules self.old.ledger.edition) bs) id.now it) }
        ensures waiting { self.new.waiting ≡ self.old.waiting }
        ensures machine { self.new.ledger.machine ≡ self.old.ledger.machine }
        ensures edition { self.new.ledger.edition ≡ self.old.ledger.edition }
        ensures clean { doubt (S.view self.old.ledger.store).is_clean ≤ doubt (S.view self.new.ledger.store).is_clean }
        ensures ready { IsClean (S.view self.new.ledger.store) → OnOk result ((bs : List (List ℕ))
            → IsReady entry_rules self.old.ledger.edition bs (S.view self.old.ledger.store) self.old.ledger.place self.old.ledger.checkpoint
            (⟦<DeskMachine as Machine>⟧.state self.old.ledger.machine) (⟦<DeskMachine as Machine>⟧.saved self.old.ledger.machine)
            → IsReady entry_rules self.old.ledger.edition bs (S.view self.new.ledger.store) self.new.ledger.place self.new.ledger.checkpoint
            (⟦<DeskMachine as Machine>⟧.state self.new.ledger.machine) (⟦<DeskMachine as Machine>⟧.saved self.new.ledger.machine)) }
        ensures any_moment { (db : Trees) → S.recovers self.new.ledger.store db → S.recovers self.old.ledger.store db }
    {
        if let Some(span) = self.waiting.with_id(id) {
            if !self.waiting.is_at(span, entry) {
                return Ok(Known::Other);
            }
            return Ok(Known::Same(Turn::Again {
                id: Vec::from_slice(self.alloc, id)?,
                index: span.index,
            }));
        }
        let Some(stored) = self.ledger.request(id)? else {
            return Ok(Known::No);
        };
        if !self.has_entry(archives, stored.place, entry)? {
            return Ok(Known::Other);
        }
        Ok(Known::Same(Turn::Known {
            id: Vec::from_slice(self.alloc, id)?,
            answer: stored.answer,
        }))
    }

    /// Whether the batch that has this place has this entry.
    fn has_entry<A: Archives>(
        &mut self,
        archives: &mut A,
        place: u64,
        entry: &[u8],
    ) -> Result<bool, DeskFault>
        ensures waiting { self.new.waiting ≡ self.old.waiting }
        ensures machine { self.new.ledger.machine ≡ self.old.ledger.machine }
        ensures edition { self.new.ledger.edition ≡ self.old.ledger.edition }
        ensures clean { doubt (S.view self.old.ledger.store).is_clean ≤ doubt (S.view self.new.ledger.store).is_clean }
        ensures ready { IsClean (S.view self.new.ledger.store) → OnOk result ((bs : List (List ℕ))
            → IsReady entry_rules self.old.ledger.edition bs (S.view self.old.ledger.store) self.old.ledger.place self.old.ledger.checkpoint
            (⟦<DeskMachine as Machine>⟧.state self.old.ledger.machine) (⟦<DeskMachine as Machine>⟧.saved self.old.ledger.machine)
            → IsReady entry_rules self.old.ledger.edition bs (S.view self.new.ledger.store) self.new.ledger.place self.new.ledger.checkpoint
            (⟦<DeskMachine as Machine>⟧.state self.new.ledger.machine) (⟦<DeskMachine as Machine>⟧.saved self.new.ledger.machine)) }
        ensures any_moment { (db : Trees) → S.recovers self.new.ledger.store db → S.recovers self.old.ledger.store db }
    {
        if !self.recent.is_at(place) {
            let text = match self.ledger.batch_at(place)? {
                Some(text) => text,
                None => match archives.batch_at(place)? {
                    Some(text) => text,
                    None => return Ok(false),
                },
            };
            self.recent.note(place, text);
        }
        Ok(self.recent.has(entry))
    }
}
