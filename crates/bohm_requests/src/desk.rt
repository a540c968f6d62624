//! A ledger that answers requests.

ghost use Rattle.std.specs.Prelude.{◌≡◌, ◌⊎◌, ◌++◌, ◌+◌, ◌≤◌, ℕ, List, [], ◌∷◌, codes, drop, length, min, IfOk, IfErr, MatchOption, OnOk, OnErr};
ghost use Rattle.sqlite_trees.specs.Tree.{Trees};
ghost use Rattle.sqlite_trees.specs.View.{doubt, IsClean};
ghost use Rattle.bohm_types.specs.declared.edition.Edition.{Edition as TheEdition};
ghost use Rattle.bohm_ledger.specs.Ledgers.{IsBlank, IsReady, StandsFor};
ghost use Rattle.bohm_ledger.specs.Places.{IsAt, IsMissing};
ghost use Rattle.bohm_ledger.specs.Rows.{batch_tree};
ghost use Rattle.bohm_ledger.specs.Steps.{AreYoung};
ghost use Rattle.bohm_entries.specs.Batches.{entries_of};
ghost use Rattle.bohm_replay.specs.Entries.{answers_by, entry_rules};
ghost use Rattle.bohm_requests.specs.Lines.{AreLines, numbered_words};
ghost use Rattle.bohm_requests.specs.Taking.{IsTaken, TakesFrom};
ghost use Rattle.bohm_requests.specs.Desks.{batches_of};

use crate::answering::put_lines;
use crate::archives::Archives;
use crate::fault::DeskFault;
use crate::lines::put_number;
use crate::recent::Recent;
use crate::waiting::Waiting;
use bohm_durable::Checkpointed;
use bohm_ledger::{Ledger, Machine};
use bohm_log::DrawnSeed;
use bohm_replay::{AnswerText, EntryMachine};
use bohm_request_text::split_request;
use bohm_types::Edition;
use sqlite_trees::store::Store;
use std::alloc::Global;

/// The machine of a desk's ledger.
pub type DeskMachine = EntryMachine<Checkpointed>;

/// A commit's text has fewer bytes than these and an entry's.
const MOST_BYTES: usize = 1 << 24;

/// The request for a checkpoint.
const CHECKPOINT: &[u8] = b"checkpoint\n";

/// Whether a text begins with a request for a checkpoint, which is answered apart from others.
pub fn asks_for_checkpoint(text: &[u8]) -> bool {
    text.starts_with(CHECKPOINT)
}

/// A ledger that answers requests in order. Those that wait are stored in one commit, and answered
/// once it is on the disk.
#[derive(Drop)]
pub struct RequestDesk<S: Store + Drop> {
    pub(crate) alloc: Global,
    pub(crate) ledger: Ledger<S, DeskMachine>,
    /// The most requests of a commit.
    most: usize,
    pub(crate) waiting: Waiting,
    pub(crate) recent: Recent,
}

impl<S: Store + Drop> RequestDesk<S> {
    fn new(
        alloc: Global,
        seed: DrawnSeed,
        ledger: Ledger<S, DeskMachine>,
        most: usize,
    ) -> RequestDesk<S>
        ensures { result.ledger ≡ ledger }
    {
        RequestDesk {
            alloc,
            ledger,
            most,
            waiting: Waiting::none(alloc, seed),
            recent: Recent::none(alloc),
        }
    }

    /// Makes a ledger of this edition in a store whose tables are empty. A commit has at most so
    /// many requests. An `Err` hands the store back.
    pub fn create(
        alloc: Global,
        seed: DrawnSeed,
        store: S,
        edition: Edition,
        most: usize,
    ) -> Result<RequestDesk<S>, (DeskFault, S)>
        ensures ready { IfOk result (λ it. IsClean (S.view it.ledger.store) → IsBlank (S.view store).committed
            → IsReady entry_rules edition [] (S.view it.ledger.store) it.ledger.place it.ledger.checkpoint
            (⟦<DeskMachine as Machine>⟧.state it.ledger.machine) (⟦<DeskMachine as Machine>⟧.saved it.ledger.machine)) }
        ensures edition { IfOk result (λ it. it.ledger.edition ≡ edition) }
    {
        let Ok(past) = Checkpointed::new(alloc, seed) else {
            return Err((DeskFault::OutOfMemory, store));
        };
        let machine = EntryMachine::new(alloc, seed, past);
        match Ledger::create(alloc, store, machine, edition) {
            Ok(ledger) => Ok(RequestDesk::new(alloc, seed, ledger, most)),
            Err((fault, store)) => Err((DeskFault::Ledger(fault), store)),
        }
    }

    /// Opens the ledger that the store has committed. A commit has at most so many requests. An
    /// `Err` hands the store back.
    pub fn open(
        alloc: Global,
        seed: DrawnSeed,
        store: S,
        most: usize,
    ) -> Result<RequestDesk<S>, (DeskFault, S)>
        // Whichever batches the store's last commit stands for: the machine has run them.
        ensures ready { IfOk result (λ it. IsClean (S.view it.ledger.store) → (edition : TheEdition) (bs : List (List ℕ))
            → StandsFor entry_rules edition bs (S.view store).committed → (it.ledger.edition ≡ edition)
            × IsReady entry_rules edition bs (S.view it.ledger.store) it.ledger.place it.ledger.checkpoint
            (⟦<DeskMachine as Machine>⟧.state it.ledger.machine) (⟦<DeskMachine as Machine>⟧.saved it.ledger.machine)) }

        // A crash on the way leaves what it could have left before.
        ensures any_moment { IfOk result (λ it. (db : Trees) → S.recovers it.ledger.store db → S.recovers store db) }
        ensures any_moment_err { IfErr result (λ e. (db : Trees) → S.recovers e.1 db → S.recovers store db) }
    {
        let Ok(past) = Checkpointed::new(alloc, seed) else {
            return Err((DeskFault::OutOfMemory, store));
        };
        let machine = EntryMachine::new(alloc, seed, past);
        match Ledger::open(alloc, store, machine) {
            Ok(ledger) => Ok(RequestDesk::new(alloc, seed, ledger, most)),
            Err((fault, store)) => Err((DeskFault::Ledger(fault), store)),
        }
    }

    /// The ledger's edition.
    pub fn edition(&self) -> Edition
        ensures { result ≡ self.now.ledger.edition }
    {
        self.ledger.edition()
    }

    /// The number of the last transaction.
    pub fn top(&self) -> u64
        ensures { result ≡ self.now.ledger.machine.top }
    {
        self.ledger.machine().top()
    }

    /// The number of the last transaction at the last checkpoint.
    pub fn checkpointed(&self) -> u64
        ensures { result ≡ self.now.ledger.checkpoint }
    {
        self.ledger.checkpointed()
    }

    /// Its machine.
    pub fn machine(&self) -> &DeskMachine
        ensures { result.now ≡ self.now.ledger.machine }
    {
        self.ledger.machine()
    }

    /// Takes it apart: the store as it is.
    pub fn into_store(self) -> S
        ensures { result ≡ self.ledger.store }
    {
        let RequestDesk { ledger, .. } = self;
        let (store, _) = ledger.into_parts();
        store
    }

    /// Makes a checkpoint, if there were transactions since the last one. The time grows with the
    /// number of keys that changed.
    pub fn checkpoint(&mut self) -> Result<(), DeskFault>
        ensures ready { OnOk result (IsClean (S.view self.new.ledger.store) → (bs : List (List ℕ))
            → IsReady entry_rules self.old.ledger.edition bs (S.view self.old.ledger.store) self.old.ledger.place self.old.ledger.checkpoint
            (⟦<DeskMachine as Machine>⟧.state self.old.ledger.machine) (⟦<DeskMachine as Machine>⟧.saved self.old.ledger.machine)
            → IsReady entry_rules self.old.ledger.edition bs (S.view self.new.ledger.store) self.new.ledger.place self.new.ledger.checkpoint
            (⟦<DeskMachine as Machine>⟧.state self.new.ledger.machine) (⟦<DeskMachine as Machine>⟧.saved self.new.ledger.machine)) }
        ensures edition { self.new.ledger.edition ≡ self.old.ledger.edition }
        ensures clean { doubt (S.view self.old.ledger.store).is_clean ≤ doubt (S.view self.new.ledger.store).is_clean }

        // A crash at any moment of the call leaves the same batches.
        ensures any_moment { IsClean (S.view self.new.ledger.store) → (bs : List (List ℕ))
            → IsReady entry_rules self.old.ledger.edition bs (S.view self.old.ledger.store) self.old.ledger.place self.old.ledger.checkpoint
            (⟦<DeskMachine as Machine>⟧.state self.old.ledger.machine) (⟦<DeskMachine as Machine>⟧.saved self.old.ledger.machine)
            → (db : Trees) → S.recovers self.new.ledger.store db
            → S.recovers self.old.ledger.store db ⊎ StandsFor entry_rules self.old.ledger.edition bs db }
        ensures waiting { self.new.waiting ≡ self.old.waiting }
    {
        if self.top() != self.ledger.checkpointed() {
            self.ledger.checkpoint()?;
        }
        Ok(())
    }

    /// Takes the batches out of the store whose transactions are all at or below this one and the
    /// checkpoint, but for those with a definition and the last one.
    pub fn forget_before(&mut self, sequence: u64) -> Result<(), DeskFault>
        // No such batch is left.
        ensures gone { OnOk result (IsClean (S.view self.new.ledger.store) → (bs : List (List ℕ))
            → IsReady entry_rules self.old.ledger.edition bs (S.view self.old.ledger.store) self.old.ledger.place self.old.ledger.checkpoint
            (⟦<DeskMachine as Machine>⟧.state self.old.ledger.machine) (⟦<DeskMachine as Machine>⟧.saved self.old.ledger.machine)
            → AreYoung entry_rules (min sequence self.old.ledger.checkpoint) (1 + length bs) ((S.view self.new.ledger.store).trees batch_tree)) }
        ensures ready { OnOk result (IsClean (S.view self.new.ledger.store) → (bs : List (List ℕ))
            → IsReady entry_rules self.old.ledger.edition bs (S.view self.old.ledger.store) self.old.ledger.place self.old.ledger.checkpoint
            (⟦<DeskMachine as Machine>⟧.state self.old.ledger.machine) (⟦<DeskMachine as Machine>⟧.saved self.old.ledger.machine)
            → IsReady entry_rules self.old.ledger.edition bs (S.view self.new.ledger.store) self.new.ledger.place self.new.ledger.checkpoint
            (⟦<DeskMachine as Machine>⟧.state self.new.ledger.machine) (⟦<DeskMachine as Machine>⟧.saved self.new.ledger.machine)) }
        ensures edition { self.new.ledger.edition ≡ self.old.ledger.edition }
        ensures clean { doubt (S.view self.old.ledger.store).is_clean ≤ doubt (S.view self.new.ledger.store).is_clean }

        // A crash at any moment of the call leaves the same batches.
        ensures any_moment { IsClean (S.view self.new.ledger.store) → (bs : List (List ℕ))
            → IsReady entry_rules self.old.ledger.edition bs (S.view self.old.ledger.store) self.old.ledger.place self.old.ledger.checkpoint
            (⟦<DeskMachine as Machine>⟧.state self.old.ledger.machine) (⟦<DeskMachine as Machine>⟧.saved self.old.ledger.machine)
            → (db : Trees) → S.recovers self.new.ledger.store db → StandsFor entry_rules self.old.ledger.edition bs db }
    {
        self.ledger.forget_before(sequence)?;
        Ok(())
    }

    /// The text of the batch that has this place, the first of them 1, if there is one that wasn't
    /// taken out. The time is that of one search, and grows with the text.
    pub fn batch_at(&mut self, place: u64) -> Result<Option<Vec<u8>>, DeskFault>
        ensures found { IfOk result (λ it. IsClean (S.view self.new.ledger.store) → (bs : List (List ℕ))
            → IsReady entry_rules self.old.ledger.edition bs (S.view self.old.ledger.store) self.old.ledger.place self.old.ledger.checkpoint
            (⟦<DeskMachine as Machine>⟧.state self.old.ledger.machine) (⟦<DeskMachine as Machine>⟧.saved self.old.ledger.machine)
            → MatchOption it (IsMissing entry_rules self.old.ledger.checkpoint place 1 1 bs) (λ text. IsAt place 1 text.items bs)) }
        ensures ready { IsClean (S.view self.new.ledger.store) → OnOk result ((bs : List (List ℕ))
            → IsReady entry_rules self.old.ledger.edition bs (S.view self.old.ledger.store) self.old.ledger.place self.old.ledger.checkpoint
            (⟦<DeskMachine as Machine>⟧.state self.old.ledger.machine) (⟦<DeskMachine as Machine>⟧.saved self.old.ledger.machine)
            → IsReady entry_rules self.old.ledger.edition bs (S.view self.new.ledger.store) self.new.ledger.place self.new.ledger.checkpoint
            (⟦<DeskMachine as Machine>⟧.state self.new.ledger.machine) (⟦<DeskMachine as Machine>⟧.saved self.new.ledger.machine)) }
        ensures edition { self.new.ledger.edition ≡ self.old.ledger.edition }
        ensures clean { doubt (S.view self.old.ledger.store).is_clean ≤ doubt (S.view self.new.ledger.store).is_clean }
        ensures any_moment { (db : Trees) → S.recovers self.new.ledger.store db → S.recovers self.old.ledger.store db }
    {
        Ok(self.ledger.batch_at(place)?)
    }

    /// Stores the entries that wait in one commit, and returns the answers to them.
    #[tactic(auto, using(crate::proofs::Committing::no_batch, crate::proofs::Committing::some_batch, crate::proofs::Committing::no_answers))]
    pub(crate) fn commit(&mut self) -> Result<Vec<AnswerText>, DeskFault>
        ensures stored { OnOk result (IsClean (S.view self.new.ledger.store) → (bs : List (List ℕ))
            → IsReady entry_rules self.old.ledger.edition bs (S.view self.old.ledger.store) self.old.ledger.place self.old.ledger.checkpoint
            (⟦<DeskMachine as Machine>⟧.state self.old.ledger.machine) (⟦<DeskMachine as Machine>⟧.saved self.old.ledger.machine)
            → IsReady entry_rules self.old.ledger.edition (bs ++ batches_of self.old.waiting.batch.items) (S.view self.new.ledger.store)
            self.new.ledger.place self.new.ledger.checkpoint
            (⟦<DeskMachine as Machine>⟧.state self.new.ledger.machine) (⟦<DeskMachine as Machine>⟧.saved self.new.ledger.machine)) }
        ensures durable { OnOk result (IsClean (S.view self.new.ledger.store) → (bs : List (List ℕ))
            → IsReady entry_rules self.old.ledger.edition bs (S.view self.old.ledger.store) self.old.ledger.place self.old.ledger.checkpoint
            (⟦<DeskMachine as Machine>⟧.state self.old.ledger.machine) (⟦<DeskMachine as Machine>⟧.saved self.old.ledger.machine)
            → (db : Trees) → S.recovers self.new.ledger.store db
            → (self.old.waiting.batch.items ≡ []) ⊎ StandsFor entry_rules self.old.ledger.edition (bs ++ batches_of self.old.waiting.batch.items) db) }
        ensures any_moment { IsClean (S.view self.new.ledger.store) → (bs : List (List ℕ))
            → IsReady entry_rules self.old.ledger.edition bs (S.view self.old.ledger.store) self.old.ledger.place self.old.ledger.checkpoint
            (⟦<DeskMachine as Machine>⟧.state self.old.ledger.machine) (⟦<DeskMachine as Machine>⟧.saved self.old.ledger.machine)
            → (db : Trees) → S.recovers self.new.ledger.store db
            → S.recovers self.old.ledger.store db ⊎ (StandsFor entry_rules self.old.ledger.edition bs db
            ⊎ StandsFor entry_rules self.old.ledger.edition (bs ++ batches_of self.old.waiting.batch.items) db) }
        ensures replies { IfOk result (λ it. it.items
            ≡ answers_by (⟦<DeskMachine as Machine>⟧.state self.old.ledger.machine) (entries_of self.old.waiting.batch.items)) }
        ensures edition { self.new.ledger.edition ≡ self.old.ledger.edition }
        ensures clean { doubt (S.view self.old.ledger.store).is_clean ≤ doubt (S.view self.new.ledger.store).is_clean }
        ensures waiting { self.new.waiting ≡ self.old.waiting }
    {
        if self.waiting.batch().is_empty() {
            return Ok(Vec::new(self.alloc));
        }
        Ok(self.ledger.append(self.waiting.batch())?)
    }

    /// Stores the entries that wait, and appends the lines of all requests that do.
    fn finish(&mut self, out: &mut Vec<u8>) -> Result<(), DeskFault>
        ensures stored { OnOk result (IsClean (S.view self.new.ledger.store) → (bs : List (List ℕ))
            → IsReady entry_rules self.old.ledger.edition bs (S.view self.old.ledger.store) self.old.ledger.place self.old.ledger.checkpoint
            (⟦<DeskMachine as Machine>⟧.state self.old.ledger.machine) (⟦<DeskMachine as Machine>⟧.saved self.old.ledger.machine)
            → IsReady entry_rules self.old.ledger.edition (bs ++ batches_of self.old.waiting.batch.items) (S.view self.new.ledger.store)
            self.new.ledger.place self.new.ledger.checkpoint
            (⟦<DeskMachine as Machine>⟧.state self.new.ledger.machine) (⟦<DeskMachine as Machine>⟧.saved self.new.ledger.machine)) }
        ensures durable { OnOk result (IsClean (S.view self.new.ledger.store) → (bs : List (List ℕ))
            → IsReady entry_rules self.old.ledger.edition bs (S.view self.old.ledger.store) self.old.ledger.place self.old.ledger.checkpoint
            (⟦<DeskMachine as Machine>⟧.state self.old.ledger.machine) (⟦<DeskMachine as Machine>⟧.saved self.old.ledger.machine)
            → (db : Trees) → S.recovers self.new.ledger.store db
            → (self.old.waiting.batch.items ≡ []) ⊎ StandsFor entry_rules self.old.ledger.edition (bs ++ batches_of self.old.waiting.batch.items) db) }
        ensures any_moment { IsClean (S.view self.new.ledger.store) → (bs : List (List ℕ))
            → IsReady entry_rules self.old.ledger.edition bs (S.view self.old.ledger.store) self.old.ledger.place self.old.ledger.checkpoint
            (⟦<DeskMachine as Machine>⟧.state self.old.ledger.machine) (⟦<DeskMachine as Machine>⟧.saved self.old.ledger.machine)
            → (db : Trees) → S.recovers self.new.ledger.store db
            → S.recovers self.old.ledger.store db ⊎ (StandsFor entry_rules self.old.ledger.edition bs db
            ⊎ StandsFor entry_rules self.old.ledger.edition (bs ++ batches_of self.old.waiting.batch.items) db) }
        ensures lines { OnOk result ((text : List ℕ) × (out.new.items ≡ out.old.items ++ text)
            × AreLines self.new.ledger.machine.past.machine self.new.ledger.machine.top
            (answers_by (⟦<DeskMachine as Machine>⟧.state self.old.ledger.machine) (entries_of self.old.waiting.batch.items))
            (answers_by (⟦<DeskMachine as Machine>⟧.state self.old.ledger.machine) (entries_of self.old.waiting.batch.items))
            self.old.waiting.turns.items text) }
        ensures unanswered { OnErr result (out.new.items ≡ out.old.items) }
        ensures edition { self.new.ledger.edition ≡ self.old.ledger.edition }
        ensures clean { doubt (S.view self.old.ledger.store).is_clean ≤ doubt (S.view self.new.ledger.store).is_clean }
        ensures waiting { self.new.waiting ≡ self.old.waiting }
    {
        let replies = self.commit()?;
        put_lines(
            self.ledger.machine(),
            replies.as_slice(),
            self.waiting.turns(),
            self.alloc,
            out,
        )?;
        Ok(())
    }

    /// Answers the request for a checkpoint that a text begins with: makes one, and appends the
    /// line. Returns how many bytes of the text it is. After an `Err` nothing is appended.
    pub fn answer_checkpoint(&mut self, out: &mut Vec<u8>) -> Result<usize, DeskFault>
        ensures line { OnOk result (out.new.items ≡ out.old.items ++ numbered_words (codes "checkpoint") self.new.ledger.machine.top ++ 10 ∷ []) }
        ensures unanswered { OnErr result (out.new.items ≡ out.old.items) }

        // A crash at any moment of the call leaves the same batches.
        ensures any_moment { IsClean (S.view self.new.ledger.store) → (bs : List (List ℕ))
            → IsReady entry_rules self.old.ledger.edition bs (S.view self.old.ledger.store) self.old.ledger.place self.old.ledger.checkpoint
            (⟦<DeskMachine as Machine>⟧.state self.old.ledger.machine) (⟦<DeskMachine as Machine>⟧.saved self.old.ledger.machine)
            → (db : Trees) → S.recovers self.new.ledger.store db
            → S.recovers self.old.ledger.store db ⊎ StandsFor entry_rules self.old.ledger.edition bs db }
    {
        self.checkpoint()?;
        let mut line = Vec::new(self.alloc);
        put_number(&mut line, b"checkpoint", self.top())?;
        out.extend_from_slice(line.as_slice())?;
        Ok(CHECKPOINT.len())
    }

    /// Answers the first requests of a text, as many as one commit may have: stores their entries,
    /// and appends a line for each to `out`. Returns how many bytes of the text they are, 0 where
    /// more text has to come or a checkpoint is asked for. After an `Err` nothing is appended.
    pub fn answer<A: Archives>(
        &mut self,
        archives: &mut A,
        text: &[u8],
        out: &mut Vec<u8>,
    ) -> Result<usize, DeskFault>
        // The first requests of the text have turns, and those that are stored among them are the
        // commit's text.
        ensures taken { IfOk result (λ n. TakesFrom text.now (drop n text.now) self.new.waiting.turns.items self.new.waiting.batch.items) }

        // Each is answered as its turn says, the stored ones as the machine answers the commit.
        ensures lines { OnOk result ((answers : List ℕ) × (out.new.items ≡ out.old.items ++ answers)
            × AreLines self.new.ledger.machine.past.machine self.new.ledger.machine.top
            (answers_by (⟦<DeskMachine as Machine>⟧.state self.old.ledger.machine) (entries_of self.new.waiting.batch.items))
            (answers_by (⟦<DeskMachine as Machine>⟧.state self.old.ledger.machine) (entries_of self.new.waiting.batch.items))
            self.new.waiting.turns.items answers) }

        // The ledger holds the commit then, and the machine has run it.
        ensures stored { OnOk result (IsClean (S.view self.new.ledger.store) → (bs : List (List ℕ))
            → IsReady entry_rules self.old.ledger.edition bs (S.view self.old.ledger.store) self.old.ledger.place self.old.ledger.checkpoint
            (⟦<DeskMachine as Machine>⟧.state self.old.ledger.machine) (⟦<DeskMachine as Machine>⟧.saved self.old.ledger.machine)
            → IsReady entry_rules self.old.ledger.edition (bs ++ batches_of self.new.waiting.batch.items) (S.view self.new.ledger.store)
            self.new.ledger.place self.new.ledger.checkpoint
            (⟦<DeskMachine as Machine>⟧.state self.new.ledger.machine) (⟦<DeskMachine as Machine>⟧.saved self.new.ledger.machine)) }

        // Each crash from then on leaves it.
        ensures durable { OnOk result (IsClean (S.view self.new.ledger.store) → (bs : List (List ℕ))
            → IsReady entry_rules self.old.ledger.edition bs (S.view self.old.ledger.store) self.old.ledger.place self.old.ledger.checkpoint
            (⟦<DeskMachine as Machine>⟧.state self.old.ledger.machine) (⟦<DeskMachine as Machine>⟧.saved self.old.ledger.machine)
            → (db : Trees) → S.recovers self.new.ledger.store db
            → (self.new.waiting.batch.items ≡ []) ⊎ StandsFor entry_rules self.old.ledger.edition (bs ++ batches_of self.new.waiting.batch.items) db) }
        ensures unanswered { OnErr result (out.new.items ≡ out.old.items) }

        // A crash at any moment of the call leaves what it could have left before, the batches from
        // before it, or these and the commit.
        ensures any_moment { IsClean (S.view self.new.ledger.store) → (bs : List (List ℕ))
            → IsReady entry_rules self.old.ledger.edition bs (S.view self.old.ledger.store) self.old.ledger.place self.old.ledger.checkpoint
            (⟦<DeskMachine as Machine>⟧.state self.old.ledger.machine) (⟦<DeskMachine as Machine>⟧.saved self.old.ledger.machine)
            → (db : Trees) → S.recovers self.new.ledger.store db
            → S.recovers self.old.ledger.store db ⊎ (StandsFor entry_rules self.old.ledger.edition bs db
            ⊎ StandsFor entry_rules self.old.ledger.edition (bs ++ batches_of self.new.waiting.batch.items) db) }
    {
        self.waiting.clear();
        let taken = self.collect(archives, text)?;
        self.finish(out)?;
        Ok(taken)
    }

    /// Answers a text as one request, which isn't whole: the input ended. After an `Err` nothing is
    /// appended.
    pub fn answer_rest<A: Archives>(
        &mut self,
        archives: &mut A,
        text: &[u8],
        out: &mut Vec<u8>,
    ) -> Result<(), DeskFault>
        // The text has a turn, and is the commit's text if it is stored.
        ensures taken { OnOk result (IsTaken text.now [] [] self.new.waiting.turns.items self.new.waiting.batch.items) }

        // It is answered as its turn says.
        ensures lines { OnOk result ((answers : List ℕ) × (out.new.items ≡ out.old.items ++ answers)
            × AreLines self.new.ledger.machine.past.machine self.new.ledger.machine.top
            (answers_by (⟦<DeskMachine as Machine>⟧.state self.old.ledger.machine) (entries_of self.new.waiting.batch.items))
            (answers_by (⟦<DeskMachine as Machine>⟧.state self.old.ledger.machine) (entries_of self.new.waiting.batch.items))
            self.new.waiting.turns.items answers) }

        // The ledger holds the commit then, and the machine has run it.
        ensures stored { OnOk result (IsClean (S.view self.new.ledger.store) → (bs : List (List ℕ))
            → IsReady entry_rules self.old.ledger.edition bs (S.view self.old.ledger.store) self.old.ledger.place self.old.ledger.checkpoint
            (⟦<DeskMachine as Machine>⟧.state self.old.ledger.machine) (⟦<DeskMachine as Machine>⟧.saved self.old.ledger.machine)
            → IsReady entry_rules self.old.ledger.edition (bs ++ batches_of self.new.waiting.batch.items) (S.view self.new.ledger.store)
            self.new.ledger.place self.new.ledger.checkpoint
            (⟦<DeskMachine as Machine>⟧.state self.new.ledger.machine) (⟦<DeskMachine as Machine>⟧.saved self.new.ledger.machine)) }

        // Each crash from then on leaves it.
        ensures durable { OnOk result (IsClean (S.view self.new.ledger.store) → (bs : List (List ℕ))
            → IsReady entry_rules self.old.ledger.edition bs (S.view self.old.ledger.store) self.old.ledger.place self.old.ledger.checkpoint
            (⟦<DeskMachine as Machine>⟧.state self.old.ledger.machine) (⟦<DeskMachine as Machine>⟧.saved self.old.ledger.machine)
            → (db : Trees) → S.recovers self.new.ledger.store db
            → (self.new.waiting.batch.items ≡ []) ⊎ StandsFor entry_rules self.old.ledger.edition (bs ++ batches_of self.new.waiting.batch.items) db) }
        ensures unanswered { OnErr result (out.new.items ≡ out.old.items) }

        // A crash at any moment of the call leaves what it could have left before, the batches from
        // before it, or these and the commit.
        ensures any_moment { IsClean (S.view self.new.ledger.store) → (bs : List (List ℕ))
            → IsReady entry_rules self.old.ledger.edition bs (S.view self.old.ledger.store) self.old.ledger.place self.old.ledger.checkpoint
            (⟦<DeskMachine as Machine>⟧.state self.old.ledger.machine) (⟦<DeskMachine as Machine>⟧.saved self.old.ledger.machine)
            → (db : Trees) → S.recovers self.new.ledger.store db
            → S.recovers self.old.ledger.store db ⊎ (StandsFor entry_rules self.old.ledger.edition bs db
            ⊎ StandsFor entry_rules self.old.ledger.edition (bs ++ batches_of self.new.waiting.batch.items) db) }
    {
        self.waiting.clear();
        self.take(archives, text)?;
        self.finish(out)
    }

    /// Takes the first requests of a text into the next commit. Returns how many bytes they are.
    #[tactic(auto, using(crate::proofs::Collecting::none_taken, crate::proofs::Collecting::one_taken, crate::proofs::Collecting::left_behind, crate::proofs::Collecting::not_longer))]
    fn collect<A: Archives>(&mut self, archives: &mut A, text: &[u8]) -> Result<usize, DeskFault>
        requires batch { self.old.waiting.batch.items ≡ [] }
        requires turns { self.old.waiting.turns.items ≡ [] }
        ensures taken { IfOk result (λ n. TakesFrom text.now (drop n text.now) self.new.waiting.turns.items self.new.waiting.batch.items) }
        ensures machine { self.new.ledger.machine ≡ self.old.ledger.machine }
        ensures edition { self.new.ledger.edition ≡ self.old.ledger.edition }
        ensures clean { doubt (S.view self.old.ledger.store).is_clean ≤ doubt (S.view self.new.ledger.store).is_clean }
        ensures ready { IsClean (S.view self.new.ledger.store) → OnOk result ((bs : List (List ℕ))
            → IsReady entry_rules self.old.ledger.edition bs (S.view self.old.ledger.store) self.old.ledger.place self.old.ledger.checkpoint
            (⟦<DeskMachine as Machine>⟧.state self.old.ledger.machine) (⟦<DeskMachine as Machine>⟧.saved self.old.ledger.machine)
            → IsReady entry_rules self.old.ledger.edition bs (S.view self.new.ledger.store) self.new.ledger.place self.new.ledger.checkpoint
            (⟦<DeskMachine as Machine>⟧.state self.new.ledger.machine) (⟦<DeskMachine as Machine>⟧.saved self.new.ledger.machine)) }
        ensures any_moment { (db : Trees) → S.recovers self.new.ledger.store db → S.recovers self.old.ledger.store db }
    {
        let mut rest = text;
        'requests: while let Some((request, others)) = split_request(rest) {
            if self.is_full() || request == CHECKPOINT {
                return Ok(text.len() - rest.len());
            }
            self.take(archives, request)?;
            rest = others;
        }
        Ok(text.len() - rest.len())
    }

    fn is_full(&self) -> bool {
        self.waiting.is_closed()
            || self.waiting.len() >= self.most
            || self.waiting.batch().len() >= MOST_BYTES
    }
}
