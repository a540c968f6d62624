//! What a run appends its replies to.

ghost use Rattle.std.specs.Prelude.{◌≡◌, ℕ, ◌+◌, List, [], ◌∷◌, ◌++◌, length, OnOk, OnErr};
ghost use Rattle.bohm_txn.specs.declared.outcome.Reply.{Reply};
ghost use Rattle.bohm_txn.specs.Serial.{reply_with};

use crate::outcome::Outcome;
use bohm_types::{NoMemory, Value};
use std::alloc::Global;

/// What replies are appended to, in log order, such as a list of them or their text. The
/// transactions of successive replies have consecutive timestamps.
pub trait ReplySink {
    /// The second sink is the first one with these replies appended, of transactions with
    /// timestamps from this number on.
    ghost appended: { ℕ → Self → List Reply → Self → Type 0 };

    /// It has no replies.
    ghost is_bare: { Self → Type 0 };

    /// How long it is, in a unit of its own, such as replies or bytes.
    ghost extent: { Self → ℕ };

    /// A sink without replies. It allocates nothing.
    fn empty(alloc: Global) -> Self
        ensures { is_bare result };

    /// Reserves capacity for this many more replies, apart from the values that they show.
    fn reserve(&mut self, more: usize) -> Result<(), NoMemory>
        ensures { (first : ℕ) → appended first self.old [] self.new };

    /// Appends the reply of the transaction with the timestamp `number` and this outcome: a commit
    /// shows these values. An error appends nothing. The time grows with the number of the values.
    fn push(&mut self, number: u64, outcome: Outcome, shows: &[Value]) -> Result<(), NoMemory>
        ensures ok { OnOk result
            (appended number self.old (reply_with outcome shows.now ∷ []) self.new) }
        ensures err { OnErr result (appended number self.old [] self.new) };

    /// Appends the replies of another sink, which were appended to one without replies. An error
    /// appends nothing. The time grows with the number of the replies and of their values.
    fn append(&mut self, more: Self) -> Result<(), NoMemory>
        ensures ok { OnOk result
            ((first : ℕ) (start : Self) (replies : List Reply) → is_bare start
            → appended first start replies more → appended first self.old replies self.new) }
        ensures err { OnErr result ((first : ℕ) → appended first self.old [] self.new) };

    /// Its length, for `truncate`.
    fn len(&self) -> usize
        ensures { result ≡ extent self.now };

    /// Removes the replies that were appended since the sink had this length.
    fn truncate(&mut self, len: usize)
        ensures { (first : ℕ) (start : Self) (replies : List Reply) → extent start ≡ len
            → appended first start replies self.old → self.new ≡ start };

    ghost nothing: { (first : ℕ) (a : Self) → appended first a [] a };

    ghost joined: { (first : ℕ) (a b c : Self) (xs ys : List Reply) → appended first a xs b
        → appended (first + length xs) b ys c → appended first a (xs ++ ys) c };
}
