//! A ledger: batches in a store, and a machine that has run them.

ghost use Rattle.std.specs.Prelude.{◌≡◌, ◌≢◌, ◌⊎◌, ◌++◌, ◌+◌, ◌<◌, ◌^◌, ◌≤◌, ℕ, List, [], ◌∷◌, length, min, true, false, MatchOption, IfOk, IfErr, OnOk, OnErr, IsTrue};
ghost use Rattle.sqlite_trees.specs.Tree.{Trees};
ghost use Rattle.sqlite_trees.specs.View.{doubt, IsClean};
ghost use Rattle.bohm_types.specs.declared.edition.Edition.{Edition as TheEdition};
ghost use Rattle.bohm_ledger.specs.Rows.{Has, batch_tree, request_row};
ghost use Rattle.bohm_ledger.specs.Rules.{origin, requests};
ghost use Rattle.bohm_ledger.specs.Ledgers.{IsBlank, IsReady, StandsFor};
ghost use Rattle.bohm_ledger.specs.Places.{IsAt, IsMissing};
ghost use Rattle.bohm_ledger.specs.Steps.{AreYoung, IsSteady};

use crate::balance::replace;
use crate::create::create;
use crate::error::{Fault, MachineFault};
use crate::find::find;
use crate::forget::forget;
use crate::keep::keep;
use crate::load::{Loaded, load};
use crate::machine::Machine;
use crate::tables::{BATCH, LIMIT, read_batch, read_request};
use bohm_types::Edition;
use sqlite_trees::store::Store;
use sqlite_value::row::Row;
use std::alloc::Global;

/// Batches of entries in a store, and a machine that has run them.
#[derive(Drop)]
pub struct Ledger<S: Store + Drop, M: Machine + Drop> {
    store: S,
    machine: M,
    edition: Edition,
    /// The place of the next batch.
    place: u64,
    /// The last transaction that the table `balance` has.
    checkpoint: u64,
    /// Whether a call failed after the machine had run a batch.
    is_behind: bool,
    row: Row,
    alloc: Global,
    ghost small: { place < 2 ^ 63 },
    ghost low: { checkpoint < 2 ^ 63 },
    ghost steady: { IsClean (S.view store) → IsSteady (S.view store) },
}

/// What is stored of an entry with an id.
#[derive(Debug, Drop)]
pub struct Stored {
    /// The place of its batch.
    pub place: u64,
    /// The answer to it.
    pub answer: Vec<u8>,
}

impl<S: Store + Drop, M: Machine + Drop> Ledger<S, M> {
    /// Makes a ledger of this edition in a store whose tables are empty. It fails with `NotEmpty`
    /// if there is one. An `Err` hands the store back.
    pub fn create(
        alloc: Global,
        mut store: S,
        mut machine: M,
        edition: Edition,
    ) -> Result<Ledger<S, M>, (Fault, S)>
        ensures ready { IfOk result (λ it. IsClean (S.view it.store) → IsBlank (S.view store).committed
            → IsReady M.rules edition [] (S.view it.store)
            it.place it.checkpoint (M.state it.machine) (M.saved it.machine)) }
        ensures edition { IfOk result (λ it. it.edition ≡ edition) }
        ensures clean { IfOk result (λ it. doubt (S.view store).is_clean ≤ doubt (S.view it.store).is_clean) }

        // A crash on the way leaves the ledger without batches, or what it could have left before.
        ensures any_moment { IfOk result (λ it. IsClean (S.view it.store) → IsBlank (S.view store).committed
            → (db : Trees) → S.recovers it.store db → StandsFor M.rules edition [] db ⊎ S.recovers store db) }
        ensures any_moment_err { IfErr result (λ e. IsClean (S.view e.1) → IsBlank (S.view store).committed
            → (db : Trees) → S.recovers e.1 db → StandsFor M.rules edition [] db ⊎ S.recovers store db) }
    {
        let mut row = Row::new(alloc);
        match create(&mut store, &mut machine, &mut row, edition) {
            Ok(()) => Ok(Ledger {
                store,
                machine,
                edition,
                place: 1,
                checkpoint: 0,
                is_behind: false,
                row,
                alloc,
            }),
            Err(fault) => Err((fault, store)),
        }
    }

    /// Opens the ledger that the store has committed: takes its checkpoint in, and runs the
    /// batches after it in order. An `Err` hands the store back. The time grows with the number of
    /// keys, the number of batches in the store, and the time of running those after the
    /// checkpoint.
    pub fn open(alloc: Global, mut store: S, mut machine: M) -> Result<Ledger<S, M>, (Fault, S)>
        // Whichever batches the store's last commit stands for: the machine has run them.
        ensures ready { IfOk result (λ it. IsClean (S.view it.store) → (edition : TheEdition) (bs : List (List ℕ))
            → StandsFor M.rules edition bs (S.view store).committed → (it.edition ≡ edition)
            × IsReady M.rules edition bs (S.view it.store)
            it.place it.checkpoint (M.state it.machine) (M.saved it.machine)) }
        ensures same { IfOk result (λ it. IsClean (S.view it.store) → (S.view it.store).trees ≡ (S.view store).committed) }
        ensures clean { IfOk result (λ it. doubt (S.view store).is_clean ≤ doubt (S.view it.store).is_clean) }

        // A crash on the way leaves what it could have left before.
        ensures any_moment { IfOk result (λ it. (db : Trees) → S.recovers it.store db → S.recovers store db) }
        ensures any_moment_err { IfErr result (λ e. (db : Trees) → S.recovers e.1 db → S.recovers store db) }
    {
        let mut row = Row::new(alloc);
        match load(&mut store, &mut machine, alloc, &mut row) {
            Ok(
                Loaded {
                    edition,
                    checkpoint,
                    place,
                },
            ) => Ok(Ledger {
                store,
                machine,
                edition,
                place,
                checkpoint,
                is_behind: false,
                row,
                alloc,
            }),
            Err(fault) => Err((fault, store)),
        }
    }

    /// Runs a batch and commits it, with the answers to its entries that carry an id. At `Ok` it is
    /// acknowledged: from then on each crash leaves it. After an `Err` that follows the run, each
    /// further call fails with `Behind`: open the ledger again.
    pub fn append(&mut self, batch: &[u8]) -> Result<Vec<M::Reply>, Fault>
        ensures stored { OnOk result (IsClean (S.view self.new.store) → (bs : List (List ℕ))
            → IsReady M.rules self.old.edition bs (S.view self.old.store)
            self.old.place self.old.checkpoint (M.state self.old.machine) (M.saved self.old.machine)
            → IsReady M.rules self.old.edition (bs ++ batch.now ∷ []) (S.view self.new.store)
            self.new.place self.new.checkpoint (M.state self.new.machine) (M.saved self.new.machine)) }
        ensures replies { IfOk result (λ it. it.items ≡ M.replies (M.state self.old.machine) batch.now) }
        ensures durable { OnOk result (IsClean (S.view self.new.store) → (bs : List (List ℕ))
            → IsReady M.rules self.old.edition bs (S.view self.old.store)
            self.old.place self.old.checkpoint (M.state self.old.machine) (M.saved self.old.machine)
            → (db : Trees) → S.recovers self.new.store db → StandsFor M.rules self.old.edition (bs ++ batch.now ∷ []) db) }
        ensures unchanged { OnErr result (IsClean (S.view self.new.store) → self.new.is_behind ≡ false → (bs : List (List ℕ))
            → IsReady M.rules self.old.edition bs (S.view self.old.store)
            self.old.place self.old.checkpoint (M.state self.old.machine) (M.saved self.old.machine)
            → IsReady M.rules self.old.edition bs (S.view self.new.store)
            self.new.place self.new.checkpoint (M.state self.new.machine) (M.saved self.new.machine)) }
        ensures behind { result ≡ Err Fault.Behind → self.old.is_behind ≡ true }
        ensures no_ledger { result ≢ Err Fault.NoLedger }
        ensures full { result ≡ Err Fault.Full → (2 ^ 63 ≤ self.old.place + 1) ⊎ (2 ^ 63 ≤ (M.state self.old.machine).top + 1) }
        ensures unreadable { result ≡ Err (Fault.Machine MachineFault.Unreadable)
            → ¬ M.reads (M.state self.old.machine).defs batch.now }
        ensures machine_full { result ≡ Err (Fault.Machine MachineFault.Full)
            → (M.room self.old.machine < M.rules.size batch.now) ⊎ (2 ^ 64 ≤ (M.state self.old.machine).top + M.rules.size batch.now) }
        ensures room { OnOk result (M.room self.old.machine ≤ M.room self.new.machine + M.rules.size batch.now) }
        ensures edition { self.new.edition ≡ self.old.edition }
        ensures clean { doubt (S.view self.old.store).is_clean ≤ doubt (S.view self.new.store).is_clean }

        // A crash at any moment of the call leaves the batches from before it, with this one or
        // without.
        ensures any_moment { IsClean (S.view self.new.store) → (bs : List (List ℕ))
            → IsReady M.rules self.old.edition bs (S.view self.old.store)
            self.old.place self.old.checkpoint (M.state self.old.machine) (M.saved self.old.machine)
            → (db : Trees) → S.recovers self.new.store db
            → StandsFor M.rules self.old.edition bs db ⊎ StandsFor M.rules self.old.edition (bs ++ batch.now ∷ []) db }
    {
        if self.is_behind {
            return Err(Fault::Behind);
        }
        let top = self.machine.top();
        if self.place + 1 >= LIMIT || top >= LIMIT - 1 {
            return Err(Fault::Full);
        }
        self.is_behind = true;
        let ran = self.machine.run(self.alloc, batch)?;
        let answers = ran.answers.as_slice();
        keep(
            &mut self.store,
            &mut self.row,
            self.place,
            top + 1,
            batch,
            answers,
        )?;
        self.place += 1;
        self.is_behind = false;
        Ok(ran.replies)
    }

    /// Puts the keys that changed since the last checkpoint into the table `balance`, and commits.
    /// The time grows with their number.
    pub fn checkpoint(&mut self) -> Result<(), Fault>
        ensures ready { OnOk result (IsClean (S.view self.new.store) → (bs : List (List ℕ))
            → IsReady M.rules self.old.edition bs (S.view self.old.store)
            self.old.place self.old.checkpoint (M.state self.old.machine) (M.saved self.old.machine)
            → IsReady M.rules self.old.edition bs (S.view self.new.store)
            self.new.place self.new.checkpoint (M.state self.new.machine) (M.saved self.new.machine)) }
        ensures marked { OnOk result (self.new.checkpoint ≡ (M.state self.old.machine).top) }
        ensures unchanged { OnErr result (IsClean (S.view self.new.store) → IsTrue (S.view self.new.store).is_open → (bs : List (List ℕ))
            → IsReady M.rules self.old.edition bs (S.view self.old.store)
            self.old.place self.old.checkpoint (M.state self.old.machine) (M.saved self.old.machine)
            → IsReady M.rules self.old.edition bs (S.view self.new.store)
            self.new.place self.new.checkpoint (M.state self.new.machine) (M.saved self.new.machine)) }
        ensures behind { result ≡ Err Fault.Behind → self.old.is_behind ≡ true }
        ensures no_ledger { result ≢ Err Fault.NoLedger }
        ensures full { result ≡ Err Fault.Full → 2 ^ 63 ≤ (M.state self.old.machine).top }
        ensures machine { (fault : _) → result ≢ Err (Fault.Machine fault) }
        ensures room { OnOk result (2 ^ 31 ≤ M.room self.new.machine) }
        ensures edition { self.new.edition ≡ self.old.edition }
        ensures clean { doubt (S.view self.old.store).is_clean ≤ doubt (S.view self.new.store).is_clean }

        // A crash at any moment of the call leaves the same batches.
        ensures any_moment { IsClean (S.view self.new.store) → (bs : List (List ℕ))
            → IsReady M.rules self.old.edition bs (S.view self.old.store)
            self.old.place self.old.checkpoint (M.state self.old.machine) (M.saved self.old.machine)
            → (db : Trees) → S.recovers self.new.store db → StandsFor M.rules self.old.edition bs db }
    {
        if self.is_behind {
            return Err(Fault::Behind);
        }
        let top = self.machine.top();
        if top >= LIMIT {
            return Err(Fault::Full);
        }
        self.machine.sort_changed();
        replace(
            &mut self.store,
            &self.machine,
            &mut self.row,
            self.edition,
            top,
        )?;
        self.machine.note_checkpoint();
        self.checkpoint = top;
        Ok(())
    }

    /// Takes the batches out of the store whose transactions are all at or below this one and the
    /// checkpoint, and commits. Batches with a definition stay, and the last one. The time grows
    /// with the number of batches that are looked at.
    pub fn forget_before(&mut self, sequence: u64) -> Result<(), Fault>
        // No such batch is left.
        ensures gone { OnOk result (IsClean (S.view self.new.store) → (bs : List (List ℕ))
            → IsReady M.rules self.old.edition bs (S.view self.old.store)
            self.old.place self.old.checkpoint (M.state self.old.machine) (M.saved self.old.machine)
            → AreYoung M.rules (min sequence self.old.checkpoint) (1 + length bs) ((S.view self.new.store).trees batch_tree)) }
        ensures ready { OnOk result (IsClean (S.view self.new.store) → (bs : List (List ℕ))
            → IsReady M.rules self.old.edition bs (S.view self.old.store)
            self.old.place self.old.checkpoint (M.state self.old.machine) (M.saved self.old.machine)
            → IsReady M.rules self.old.edition bs (S.view self.new.store)
            self.new.place self.new.checkpoint (M.state self.new.machine) (M.saved self.new.machine)) }
        ensures unchanged { OnErr result (IsClean (S.view self.new.store) → IsTrue (S.view self.new.store).is_open → (bs : List (List ℕ))
            → IsReady M.rules self.old.edition bs (S.view self.old.store)
            self.old.place self.old.checkpoint (M.state self.old.machine) (M.saved self.old.machine)
            → IsReady M.rules self.old.edition bs (S.view self.new.store)
            self.new.place self.new.checkpoint (M.state self.new.machine) (M.saved self.new.machine)) }
        ensures no_ledger { result ≡ Err Fault.NoLedger → IsClean (S.view self.new.store) → (bs : List (List ℕ))
            → ¬ IsReady M.rules self.old.edition bs (S.view self.old.store)
            self.old.place self.old.checkpoint (M.state self.old.machine) (M.saved self.old.machine) }
        ensures edition { self.new.edition ≡ self.old.edition }
        ensures clean { doubt (S.view self.old.store).is_clean ≤ doubt (S.view self.new.store).is_clean }

        // A crash at any moment of the call leaves the same batches.
        ensures any_moment { IsClean (S.view self.new.store) → (bs : List (List ℕ))
            → IsReady M.rules self.old.edition bs (S.view self.old.store)
            self.old.place self.old.checkpoint (M.state self.old.machine) (M.saved self.old.machine)
            → (db : Trees) → S.recovers self.new.store db → StandsFor M.rules self.old.edition bs db }
    {
        let bound = sequence.min(self.checkpoint);
        forget(
            &mut self.store,
            &self.machine,
            &mut self.row,
            bound,
            self.place,
        )?;
        Ok(())
    }

    /// What is stored of the entry with this id, if one was. The time is that of one search.
    pub fn request(&mut self, id: &[u8]) -> Result<Option<Stored>, Fault>
        ensures found { IfOk result (λ it. IsClean (S.view self.new.store) → (bs : List (List ℕ))
            → IsReady M.rules self.old.edition bs (S.view self.old.store)
            self.old.place self.old.checkpoint (M.state self.old.machine) (M.saved self.old.machine)
            → MatchOption it
            ((place : ℕ) (answer : List ℕ) → ¬ Has (request_row place (id.now, answer)) (requests M.rules 1 (origin M.rules self.old.edition) bs))
            (λ it. Has (request_row it.place (id.now, it.answer.items)) (requests M.rules 1 (origin M.rules self.old.edition) bs))) }
        ensures ready { IsClean (S.view self.new.store) → OnOk result ((bs : List (List ℕ))
            → IsReady M.rules self.old.edition bs (S.view self.old.store)
            self.old.place self.old.checkpoint (M.state self.old.machine) (M.saved self.old.machine)
            → IsReady M.rules self.old.edition bs (S.view self.new.store)
            self.new.place self.new.checkpoint (M.state self.new.machine) (M.saved self.new.machine)) }
        ensures machine { self.new.machine ≡ self.old.machine }
        ensures no_ledger { result ≡ Err Fault.NoLedger → IsClean (S.view self.new.store) → (bs : List (List ℕ))
            → ¬ IsReady M.rules self.old.edition bs (S.view self.old.store)
            self.old.place self.old.checkpoint (M.state self.old.machine) (M.saved self.old.machine) }
        ensures edition { self.new.edition ≡ self.old.edition }
        ensures clean { doubt (S.view self.old.store).is_clean ≤ doubt (S.view self.new.store).is_clean }
        ensures any_moment { (db : Trees) → S.recovers self.new.store db → S.recovers self.old.store db }
    {
        if !find(&mut self.store, &mut self.row, id)? {
            return Ok(None);
        }
        match read_request(&self.row) {
            Some((place, answer)) => Ok(Some(Stored {
                place,
                answer: Vec::from_slice(self.alloc, answer)?,
            })),
            None => Err(Fault::NoLedger),
        }
    }

    /// The text of the batch that has this place, the first of them 1, if there is one that wasn't
    /// taken out. The time is that of one search, and grows with the text.
    pub fn batch_at(&mut self, place: u64) -> Result<Option<Vec<u8>>, Fault>
        ensures found { IfOk result (λ it. IsClean (S.view self.new.store) → (bs : List (List ℕ))
            → IsReady M.rules self.old.edition bs (S.view self.old.store)
            self.old.place self.old.checkpoint (M.state self.old.machine) (M.saved self.old.machine)
            → MatchOption it (IsMissing M.rules self.old.checkpoint place 1 1 bs) (λ text. IsAt place 1 text.items bs)) }
        ensures ready { IsClean (S.view self.new.store) → OnOk result ((bs : List (List ℕ))
            → IsReady M.rules self.old.edition bs (S.view self.old.store)
            self.old.place self.old.checkpoint (M.state self.old.machine) (M.saved self.old.machine)
            → IsReady M.rules self.old.edition bs (S.view self.new.store)
            self.new.place self.new.checkpoint (M.state self.new.machine) (M.saved self.new.machine)) }
        ensures machine { self.new.machine ≡ self.old.machine }
        ensures no_ledger { result ≡ Err Fault.NoLedger → IsClean (S.view self.new.store) → (bs : List (List ℕ))
            → ¬ IsReady M.rules self.old.edition bs (S.view self.old.store)
            self.old.place self.old.checkpoint (M.state self.old.machine) (M.saved self.old.machine) }
        ensures edition { self.new.edition ≡ self.old.edition }
        ensures clean { doubt (S.view self.old.store).is_clean ≤ doubt (S.view self.new.store).is_clean }
        ensures any_moment { (db : Trees) → S.recovers self.new.store db → S.recovers self.old.store db }
    {
        if place >= self.place {
            return Ok(None);
        }
        if !self.store.get(BATCH, place as i64, &mut self.row)? {
            return Ok(None);
        }
        match read_batch(&self.row) {
            Some((_, _, text)) => Ok(Some(Vec::from_slice(self.alloc, text)?)),
            None => Err(Fault::NoLedger),
        }
    }

    /// Takes it apart, with the machine and the store as they are.
    pub fn into_parts(self) -> (S, M)
        ensures { result ≡ (self.store, self.machine) }
    {
        let Ledger { store, machine, .. } = self;
        (store, machine)
    }

    /// The machine.
    pub fn machine(&self) -> &M
        ensures { result.now ≡ self.now.machine }
    {
        &self.machine
    }

    /// The edition of its entries.
    pub fn edition(&self) -> Edition
        ensures { result ≡ self.now.edition }
    {
        self.edition
    }

    /// The last transaction whose store the table `balance` holds.
    pub fn checkpointed(&self) -> u64
        ensures { result ≡ self.now.checkpoint }
    {
        self.checkpoint
    }
}
