//! What keys hold now, and held at the last checkpoint.

ghost use Rattle.std.specs.Prelude.{◌≡◌, ◌≢◌, ◌+◌, ◌<◌, ◌≤◌, ◌^◌, ◌∷◌, [], ℕ, List, true, false, length, Err, None, Some, IfOk, OnErr, OnOk};
ghost use Rattle.bohm_types.specs.Appending.{empty_document};
ghost use Rattle.bohm_types.specs.Keys.{is_among, names_of, rising};
ghost use Rattle.bohm_types.specs.Procedure.{instance};
ghost use Rattle.bohm_types.specs.Txn.{Txn};
ghost use Rattle.bohm_txn.specs.Meaning.{Look, body};
ghost use Rattle.bohm_txn.specs.Serial.{after, reply_of};
ghost use Rattle.bohm_ledger.specs.Rules.{cells};
ghost use Rattle.bohm_ledger.specs.declared.error.MachineFault.TheVariants as fault_is;

use bohm_ledger::MachineFault;
use bohm_procedures::{Calls, Procedure};
use bohm_txn::{Checked, Replies};
use bohm_types::{Cell, Edition, Key, NoMemory, Value};

/// What runs transactions, one after another, and remembers what each key held at the last
/// checkpoint.
pub trait Past {
    // What each key holds.
    ghost look: { Self → Look };

    // What each key held at the last checkpoint.
    ghost saved: { Self → Look };

    // How many transactions ran since the last checkpoint.
    ghost since: { Self → ℕ };

    // What each key held after so many transactions since the last checkpoint.
    ghost past: { Self → ℕ → Look };

    // How many transactions can be run before `run_one` fails with `Full`.
    ghost room: { Self → ℕ };

    /// Goes to a checkpoint at which keys hold what this store says, whose keys rise: else it fails
    /// with `Unreadable`. After an `Err` nothing is known of what keys hold.
    fn start(&mut self, store: &[(Key, Value)]) -> Result<(), MachineFault>
        ensures look { OnOk result (look self.new ≡ cells store.now) }
        ensures saved { OnOk result (saved self.new ≡ cells store.now) }
        ensures since { OnOk result (since self.new ≡ 0) }
        ensures room { OnOk result (2 ^ 31 ≤ room self.new) }
        ensures unreadable { result ≡ Err fault_is.Unreadable → ¬ (rising (names_of store.now) ≡ true) }
        ensures not_full { result ≢ Err fault_is.Full };

    /// Makes room for more transactions: right after a checkpoint for 2^31 at least. It fails only
    /// with `OutOfMemory`, after which nothing is known of what keys hold.
    fn renew(&mut self) -> Result<(), MachineFault>
        ensures look { OnOk result (look self.new ≡ look self.old) }
        ensures saved { OnOk result (saved self.new ≡ saved self.old) }
        ensures since { OnOk result (since self.new ≡ since self.old) }
        ensures past { OnOk result ((n : ℕ) → n ≤ since self.old → past self.new n ≡ past self.old n) }
        ensures more { OnOk result (room self.old ≤ room self.new) }
        ensures room { OnOk result (since self.old ≡ 0 → 2 ^ 31 ≤ room self.new) }
        ensures memory { OnErr result (result ≡ Err fault_is.OutOfMemory) };

    /// An empty list of calls of procedures of this edition.
    fn calls(&self, edition: Edition) -> Result<Calls, NoMemory>
        ensures { IfOk result (λ c. c ≡ empty_document edition) };

    /// Runs the only transaction of a log. It fails with `Unreadable` if the log has a store, and
    /// with `Full` if there is no room. After an `Err` nothing is known of what keys hold.
    fn run_one(&mut self, log: &Checked) -> Result<Replies, MachineFault>
        requires { length log.now.log ≡ 1 }
        ensures one { IfOk result (λ replies. length replies ≡ 1) }
        ensures replies { IfOk result (λ replies. (t : Txn) → log.now.log ≡ t ∷ []
            → replies ≡ reply_of (body (look self.old) t) ∷ []) }
        ensures look { OnOk result ((t : Txn) → log.now.log ≡ t ∷ []
            → look self.new ≡ after (look self.old) t) }
        ensures saved { OnOk result (saved self.new ≡ saved self.old) }
        ensures since { OnOk result (since self.new ≡ since self.old + 1) }
        ensures past { OnOk result ((n : ℕ) → n ≤ since self.old → past self.new n ≡ past self.old n) }
        ensures room { OnOk result (room self.old ≤ room self.new + 1) }
        ensures unreadable { result ≡ Err fault_is.Unreadable → 0 < length log.now.store }
        ensures full { result ≡ Err fault_is.Full → room self.old ≡ 0 };

    /// Runs the call of a procedure, and puts its reply in the place of those that are there. It
    /// fails with `Full` if there is no room. After an `Err` nothing is known of what keys hold.
    fn run_call(
        &mut self,
        procedure: &Procedure,
        keys: &[Key],
        values: &[Value],
        answered: &mut Replies,
    ) -> Result<(), MachineFault>
        requires keys { length keys.now ≡ length procedure.now.keys }
        requires values { length values.now ≡ length procedure.now.values }
        ensures replies { OnOk result
            (answered.new ≡ reply_of (body (look self.old) (instance procedure.now keys.now values.now)) ∷ []) }
        ensures look { OnOk result
            (look self.new ≡ after (look self.old) (instance procedure.now keys.now values.now)) }
        ensures saved { OnOk result (saved self.new ≡ saved self.old) }
        ensures since { OnOk result (since self.new ≡ since self.old + 1) }
        ensures past { OnOk result ((n : ℕ) → n ≤ since self.old → past self.new n ≡ past self.old n) }
        ensures room { OnOk result (room self.old ≤ room self.new + 1) }
        ensures readable { result ≢ Err fault_is.Unreadable }
        ensures full { result ≡ Err fault_is.Full → room self.old ≡ 0 };

    /// Brings the keys that `changed` gives into ascending order, each of them once.
    fn sort_changed(&mut self)
        ensures look { look self.new ≡ look self.old }
        ensures saved { saved self.new ≡ saved self.old }
        ensures since { since self.new ≡ since self.old }
        ensures past { (n : ℕ) → n ≤ since self.old → past self.new n ≡ past self.old n }
        ensures room { room self.new ≡ room self.old };

    /// Keys, among which each key is that changed since the last checkpoint.
    fn changed(&self) -> &[Key]
        ensures { (k : List ℕ) → is_among result.now k ≡ false → saved self.now k ≡ look self.now k };

    /// What a key holds.
    fn value(&self, key: &Key) -> Cell
        ensures { result ≡ look self.now key.now };

    /// What a key held at the last checkpoint.
    fn saved_value(&self, key: &Key) -> Cell
        ensures { result ≡ saved self.now key.now };

    /// How many transactions ran since the last checkpoint.
    fn ran_since(&self) -> u64
        ensures { result ≡ since self.now };

    /// What a key held after so many transactions since the last checkpoint, if so many ran.
    fn value_after(&self, count: u64, key: &Key) -> Option<Cell>
        ensures within { count ≤ since self.now → result ≡ Some (past self.now count key.now) }
        ensures beyond { since self.now < count → result ≡ None }
        ensures first { count ≡ 0 → result ≡ Some (saved self.now key.now) }
        ensures last { count ≡ since self.now → result ≡ Some (look self.now key.now) };

    /// Makes a checkpoint of this moment.
    fn note_checkpoint(&mut self)
        ensures look { look self.new ≡ look self.old }
        ensures saved { saved self.new ≡ look self.old }
        ensures since { since self.new ≡ 0 };
}

/// Why there is no value of a key after a transaction.
#[derive(Clone, Copy, Debug, PartialEq, Eq)]
pub enum NumberFault {
    /// The transaction is before the last checkpoint.
    Trimmed,
    /// No transaction has this number yet.
    Future,
}
