//! A transaction as a view of the columns.

ghost use Rattle.std.specs.Prelude.{◌≡◌, ◌<◌, length, true, Some, slice_get};
ghost use Rattle.bohm_log.specs.Parts.{txn_of};

use crate::indexed::IndexedTxn;
use crate::keys::Keys;
use crate::slices::TxnSlices;
use crate::stmt::{StmtView, stmt_by};
use bohm_types::Edition;
use std::marker::Model;

/// A transaction, which contracts see as a `Txn` of the definitions.
#[derive(Drop)]
pub struct TxnView<'a> {
    pub(crate) seen: TxnSlices<'a>,
}

impl<'a> Model for TxnView<'a> {
    ghost use Rattle.bohm_types.specs.Txn.{Txn};

    ghost Value = { Txn };

    ghost use Rattle.bohm_log.specs.Seeing.{txn_seen, IsSeen};

    ghost view = { λ v. txn_seen v.seen };

    ghost invariant = { λ v. IsSeen v.seen };
}

impl<'a> TxnView<'a> {
    /// The transaction with indices instead of names.
    pub fn placed(&self) -> IndexedTxn<'a>
        ensures { txn_of self.now.edition result ≡ self.now }
    {
        IndexedTxn { seen: self.seen }
    }

    /// The keys that it declares to read.
    pub fn reads(&self) -> Keys<'a>
        ensures { result ≡ self.now.reads }
    {
        Keys {
            names: self.seen.names,
            ids: self.seen.reads,
        }
    }

    /// The keys that it declares to write.
    pub fn writes(&self) -> Keys<'a>
        ensures { result ≡ self.now.writes }
    {
        Keys {
            names: self.seen.names,
            ids: self.seen.writes,
        }
    }

    /// Whether the numbers of its declared reads are those of its declared writes, in the same
    /// order: then it declares the same keys to be read and written. The time grows with the number
    /// of keys.
    #[tactic(auto, using(crate::proofs::Viewing::same_numbers))]
    pub fn writes_its_reads(&self) -> bool
        ensures { result ≡ true → self.now.reads ≡ self.now.writes }
    {
        self.seen.reads == self.seen.writes
    }
}

impl TxnView<'_> {
    /// Its edition.
    pub fn edition(&self) -> Edition
        ensures { result ≡ self.now.edition }
    {
        self.seen.edition
    }

    /// The number of statements of its body.
    pub fn body_len(&self) -> usize
        ensures { result ≡ length self.now.body }
    {
        self.seen.rows.len()
    }

    /// The statement of its body at an index, counted from 0.
    pub fn stmt(&self, index: usize) -> StmtView<'_>
        requires { index < length self.now.body }
        ensures { slice_get self.now.body index ≡ Some result }
    {
        stmt_by(&self.seen, index)
    }
}
