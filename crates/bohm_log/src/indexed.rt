//! A transaction whose names are indices.

ghost use Rattle.std.specs.Prelude.{◌≡◌, ◌<◌, ◌≤◌, IfSome, length};
ghost use Rattle.std.specs.List.{All, between, IsDistinct};
ghost use Rattle.std.specs.Str.{bytes_eq};
ghost use Rattle.bohm_types.specs.Keys.{place};
ghost use Rattle.bohm_log.specs.Parts.{RowIn, TermIn, name_at};

use crate::keys::{Keys, name_by};
use crate::row::{StmtRow, TermRow};
use crate::slices::TxnSlices;
use bohm_types::Key;
use std::marker::Model;

/// A transaction whose terms and statements have indices instead of names. Its user keeps three
/// arrays: the cells of the declared reads, the cells of the declared writes, and the values of the
/// other names.
#[derive(Drop)]
pub struct IndexedTxn<'a> {
    pub(crate) seen: TxnSlices<'a>,
}

impl<'a> Model for IndexedTxn<'a> {
    ghost use Rattle.bohm_log.specs.Parts.{Parts};
    ghost use Rattle.bohm_log.specs.Seeing.{parts_seen, IsSeen};

    ghost Value = { Parts };

    ghost view = { λ p. parts_seen p.seen };

    ghost invariant = { λ p. IsSeen p.seen };
}

impl<'a> IndexedTxn<'a> {
    /// The same transaction, for a function that takes it by value.
    pub fn copied(&self) -> IndexedTxn<'a>
        ensures { result ≡ self.now }
    {
        IndexedTxn { seen: self.seen }
    }

    /// The index, among the declared reads, of the declared write at an index, if it is a declared
    /// read.
    pub fn read_of_write(&self, write: u32) -> Option<usize>
        requires { write < length self.now.writes }
        ensures place { result ≡ place self.now.reads (name_at self.now.writes write) }
        ensures inside { IfSome result (λ i. i < length self.now.reads) }
    {
        let TxnSlices {
            names,
            reads,
            writes,
            ..
        } = self.seen;
        let key = name_by(names, writes, write as usize);
        Keys { names, ids: reads }.place_of(key)
    }

    /// Its other names: locals, and keys that it doesn't declare.
    pub fn others(&self) -> &'a [Key]
        ensures others { result.now ≡ self.now.others }
        ensures apart { IsDistinct bytes_eq self.now.others }
    {
        self.seen.others
    }

    /// Its literals of more than 32 bits.
    pub fn large(&self) -> &'a [u64]
        ensures { result.now ≡ self.now.large }
    {
        self.seen.large
    }

    /// Its statements.
    pub fn rows(&self) -> &'a [StmtRow]
        ensures rows { result.now ≡ self.now.rows }
        ensures within { All (RowIn self.now) result.now }
    {
        self.seen.rows
    }

    /// The terms from one offset up to another.
    #[tactic(auto, using(crate::proofs::Dividing::terms_between))]
    pub fn terms(&self, from: u32, to: u32) -> &'a [TermRow]
        requires rises { from ≤ to }
        requires end { to ≤ length self.now.terms }
        ensures terms { result.now ≡ between from to self.now.terms }
        ensures within { All (TermIn self.now) result.now }
    {
        &self.seen.terms[from as usize..to as usize]
    }
}
