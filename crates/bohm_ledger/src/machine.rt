//! What runs the batches of a ledger.

ghost use Rattle.std.specs.Prelude.{◌≡◌, ◌≢◌, ◌⊎◌, ◌+◌, ◌<◌, ◌≤◌, ◌^◌, ℕ, List, true, false, map, Err, IfOk, OnOk};
ghost use Rattle.bohm_types.specs.Keys.{is_among, names_of, rising};
ghost use Rattle.bohm_ledger.specs.declared.error.MachineFault.TheVariants as fault_is;
ghost use Rattle.bohm_ledger.specs.Rules.{Look, State, Rules, AreRules, after, cells};
ghost use Rattle.bohm_ledger.specs.Loading.{passed};

use crate::error::MachineFault;
use bohm_types::{Cell, Edition, Key, Value};
use std::alloc::Global;
use std::marker::Model;

/// The id that an entry carried, and the answer to it.
#[derive(Debug, Drop)]
pub struct Answer {
    id: Vec<u8>,
    text: Vec<u8>,
}

impl Model for Answer {
    ghost use Rattle.std.specs.Prelude.{ℕ, List};

    ghost Value = { List ℕ × List ℕ };

    ghost view = { λ a. (a.id.items, a.text.items) };
}

impl Answer {
    /// An answer to the entry with this id.
    pub fn new(id: Vec<u8>, text: Vec<u8>) -> Answer
        ensures { result ≡ (id.items, text.items) }
    {
        Answer { id, text }
    }

    /// The id.
    pub fn id(&self) -> &[u8]
        ensures { result.now ≡ self.now.0 }
    {
        self.id.as_slice()
    }

    /// The answer's text.
    pub fn text(&self) -> &[u8]
        ensures { result.now ≡ self.now.1 }
    {
        self.text.as_slice()
    }
}

/// What running a batch gives.
#[derive(Drop)]
pub struct Ran<T: Drop> {
    /// A reply to each entry, in order.
    pub replies: Vec<T>,
    /// The answers to the entries that carry an id, in order.
    pub answers: Vec<Answer>,
}

/// What runs the batches of a ledger, one after another. It remembers what each key held at the
/// last checkpoint.
pub trait Machine {
    type Reply: Drop;

    ghost Defs: { Type 0 };

    ghost rules: { Rules Defs };

    // The replies to a batch's entries.
    ghost replies: { State Defs → List ℕ → List Self.Reply };

    ghost state: { Self → State Defs };

    // What each key held at the last checkpoint.
    ghost saved: { Self → Look };

    // Whether a batch can be run after these definitions.
    ghost reads: { Defs → List ℕ → Type 0 };

    // How many transactions can be run at least before the machine is full.
    ghost room: { Self → ℕ };

    /// The number of the last transaction.
    fn top(&self) -> u64
        ensures { result ≡ (state self.now).top };

    /// How many transactions a batch has.
    fn size(&self, batch: &[u8]) -> usize
        ensures { result ≡ rules.size batch.now };

    /// Whether a batch has no definition.
    fn is_plain(&self, batch: &[u8]) -> bool
        ensures { result ≡ rules.is_plain batch.now };

    /// Goes to a checkpoint: no definition, the keys as in the store, and the number of the last
    /// transaction before. It fails with `Unreadable` if the keys aren't in order. After an `Err`
    /// nothing is known of the machine.
    fn start(
        &mut self,
        edition: Edition,
        store: &[(Key, Value)],
        top: u64,
    ) -> Result<(), MachineFault>
        ensures state { OnOk result
            (state self.new ≡ record { defs = rules.start edition; look = cells store.now; top = top }) }
        ensures saved { OnOk result (saved self.new ≡ cells store.now) }
        ensures room { OnOk result (2 ^ 31 ≤ room self.new) }
        ensures unreadable { result ≡ Err fault_is.Unreadable → ¬ (rising (names_of store.now) ≡ true) }
        ensures not_full { result ≢ Err fault_is.Full };

    /// Takes the definitions of a batch in, and runs none of its transactions. It fails with
    /// `Unreadable` if the batch can't be run. After an `Err` nothing is known of the machine.
    fn pass(&mut self, batch: &[u8]) -> Result<(), MachineFault>
        ensures state { OnOk result (state self.new ≡ passed rules (state self.old) batch.now) }
        ensures saved { OnOk result (saved self.new ≡ saved self.old) }
        ensures room { OnOk result (room self.old ≤ room self.new) }
        ensures unreadable { result ≡ Err fault_is.Unreadable → ¬ reads (state self.old).defs batch.now }
        ensures not_full { result ≢ Err fault_is.Full };

    /// Runs a batch. It fails with `Unreadable` if the batch can't be run, and with `Full` if the
    /// numbers of its transactions, or the machine's own timestamps, are used up. After an `Err`
    /// nothing is known of the machine.
    fn run(&mut self, alloc: Global, batch: &[u8]) -> Result<Ran<Self::Reply>, MachineFault>
        ensures state { OnOk result (state self.new ≡ after rules (state self.old) batch.now) }
        ensures saved { OnOk result (saved self.new ≡ saved self.old) }
        ensures replies { IfOk result (λ it. it.replies.items ≡ replies (state self.old) batch.now) }
        ensures answers { IfOk result
            (λ it. it.answers.items ≡ rules.answers (state self.old) batch.now) }
        ensures room { OnOk result (room self.old ≤ room self.new + rules.size batch.now) }
        ensures unreadable { result ≡ Err fault_is.Unreadable → ¬ reads (state self.old).defs batch.now }
        ensures full { result ≡ Err fault_is.Full → (room self.old < rules.size batch.now)
            ⊎ (2 ^ 64 ≤ (state self.old).top + rules.size batch.now) };

    /// Brings the keys that `changed` gives into ascending order, each of them once. A checkpoint
    /// writes them in this order.
    fn sort_changed(&mut self)
        ensures state { state self.new ≡ state self.old }
        ensures saved { saved self.new ≡ saved self.old }
        ensures room { room self.new ≡ room self.old };

    /// Keys, among which each key is that changed since the last checkpoint.
    fn changed(&self) -> &[Key]
        ensures { (k : List ℕ) → is_among result.now k ≡ false
            → saved self.now k ≡ (state self.now).look k };

    /// What a key holds.
    fn value(&self, key: &Key) -> Cell
        ensures { result ≡ (state self.now).look key.now };

    /// What a key held at the last checkpoint.
    fn saved_value(&self, key: &Key) -> Cell
        ensures { result ≡ saved self.now key.now };

    /// Makes a checkpoint of this moment, from which on there is room for more transactions.
    fn note_checkpoint(&mut self)
        ensures state { state self.new ≡ state self.old }
        ensures saved { saved self.new ≡ (state self.old).look }
        ensures room { 2 ^ 31 ≤ room self.new };

    ghost keeps_rules: { AreRules rules };
}
