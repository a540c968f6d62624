//! A slice of a log.

ghost use Rattle.std.specs.Prelude.{◌≡◌, ◌<◌, ◌≤◌, length, Some, slice_get};
ghost use Rattle.std.specs.List.{between};
ghost use Rattle.bohm_log.specs.Numbering.{Numbers};

use crate::declared::DeclaredKeys;
use crate::table::{Head, Table, txn_by};
use crate::view::TxnView;
use std::marker::Model;

/// Consecutive transactions of a log, which contracts see as a list of them. It borrows the log,
/// and allocates nothing.
#[derive(Drop)]
pub struct LogPart<'a> {
    pub(crate) table: Table<'a>,
    pub(crate) heads: &'a [Head],
}

impl<'a> Model for LogPart<'a> {
    ghost use Rattle.std.specs.Prelude.{List, map};
    ghost use Rattle.bohm_types.specs.Txn.{Txn};

    ghost Value = { List Txn };

    ghost use Rattle.bohm_log.specs.Columns.{txn_at};
    ghost use Rattle.bohm_log.specs.Partial.{shared_seen, IsPart};

    ghost view = { λ p. map (txn_at (shared_seen p.table)) p.heads.now };

    ghost invariant = { λ p. IsPart p.table p.heads.now };
}

fn head_at(heads: &[Head], index: usize) -> &Head
    requires { index < length heads.now }
    ensures { slice_get heads.now index ≡ Some result.now }
{
    &heads[index]
}

impl<'a> LogPart<'a> {
    /// How many transactions there are.
    pub fn len(&self) -> usize
        ensures { result ≡ length self.now }
    {
        self.heads.len()
    }

    /// A copy of the slice.
    pub fn fork(&self) -> LogPart<'a>
        ensures { result ≡ self.now }
    {
        LogPart {
            table: self.table,
            heads: self.heads,
        }
    }

    /// The transactions from one index up to another.
    #[tactic(auto, using(crate::proofs::Dividing::divided, crate::proofs::Dividing::part_divided))]
    pub fn between(&self, from: usize, to: usize) -> LogPart<'a>
        requires rises { from ≤ to }
        requires end { to ≤ length self.now }
        ensures { result ≡ between from to self.now }
    {
        LogPart {
            table: self.table,
            heads: &self.heads[from..to],
        }
    }

    /// The transaction at an index, counted from 0.
    pub fn txn(&self, index: usize) -> TxnView<'a>
        requires { index < length self.now }
        ensures { slice_get self.now index ≡ Some result }
    {
        txn_by(self.table, head_at(self.heads, index))
    }

    /// The keys that the transactions declare, by number.
    #[tactic(auto, using(crate::proofs::Dividing::numbers))]
    pub fn keys(&self) -> DeclaredKeys<'a>
        ensures { Numbers result self.now }
    {
        DeclaredKeys {
            names: self.table.names,
            ids: self.table.ids,
            heads: self.heads,
        }
    }
}
