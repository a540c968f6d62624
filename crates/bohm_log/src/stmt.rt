//! A statement as a view of the columns.

ghost use Rattle.std.specs.Prelude.{◌≡◌, ◌<◌, length, map, Some, slice_get};
ghost use Rattle.bohm_types.specs.Parts.{tested, target, bound, is_show};
ghost use Rattle.bohm_log.specs.Parts.{KeyIn, RowIn, key_at, names_at, stmt_of};
ghost use Rattle.bohm_log.specs.Columns.{AllNamed};
ghost use Rattle.bohm_log.specs.Layers.{all_names};
ghost use Rattle.bohm_log.specs.Seeing.{parts_seen, stmt_shown, IsSeen};

use crate::row::{Action, StmtRow};
use crate::slices::TxnSlices;
use crate::sum::{SumView, sum_at};
use bohm_types::{Cmp, Key};
use std::marker::Model;

/// A comparison of two sums.
#[derive(Drop)]
pub struct CondView<'a> {
    pub left: SumView<'a>,
    pub cmp: Cmp,
    pub right: SumView<'a>,
}

/// A statement with its parts.
#[derive(Drop)]
pub enum StmtParts<'a> {
    /// `let $name = SUM`
    Bind {
        name: Key,
        sum: SumView<'a>,
    },
    /// `need SUM CMP SUM`
    Need(CondView<'a>),
    /// `need has KEY`
    Has(Key),
    /// `need no KEY`
    Lacks(Key),
    /// `set KEY = SUM`, with `when SUM CMP SUM` if it has a guard
    Put {
        key: Key,
        sum: SumView<'a>,
        guard: Option<CondView<'a>>,
    },
    /// `drop KEY`
    Remove(Key),
    /// `show SUM`
    Show(SumView<'a>),
    /// `fail`
    Fail,
}

/// A statement, which contracts see as a `Stmt` of the definitions.
#[derive(Drop)]
pub struct StmtView<'a> {
    pub(crate) seen: &'a TxnSlices<'a>,
    pub(crate) row: StmtRow,
}

impl<'a> Model for StmtView<'a> {
    ghost use Rattle.bohm_types.specs.Stmt.{Stmt};

    ghost Value = { Stmt };

    ghost use Rattle.bohm_log.specs.Parts.{stmt_of};
    ghost use Rattle.bohm_log.specs.Seeing.{parts_seen, IsSeenRow};

    ghost view = { λ v. stmt_of (parts_seen v.seen.now) v.row };

    ghost invariant = { λ v. IsSeenRow v.seen.now v.row };
}

/// The key at an index among the declared keys, or else among the other names.
fn key_by(seen: &TxnSlices, keys: &[u32], declared: bool, place: u32) -> Key
    requires named { AllNamed (all_names seen.now.names) keys.now }
    requires within { KeyIn
        (names_at (all_names seen.now.names) keys.now) seen.now.others.now declared place }
    ensures { result
        ≡ key_at (names_at (all_names seen.now.names) keys.now) seen.now.others.now declared place }
{
    if declared {
        *seen.names.name(keys[place as usize] as usize)
    } else {
        seen.others[place as usize]
    }
}

/// The parts of the statement of a row.
fn parts_by<'a>(seen: &'a TxnSlices<'a>, row: StmtRow) -> StmtParts<'a>
    requires seen { IsSeen seen.now }
    requires row { RowIn (parts_seen seen.now) row }
    ensures { stmt_shown result ≡ stmt_of (parts_seen seen.now) row }
{
    let first = sum_at(seen, row.start, row.first);
    match row.action {
        Action::Bind => StmtParts::Bind {
            name: seen.others[row.name as usize],
            sum: first,
        },
        Action::Need(cmp) => StmtParts::Need(CondView {
            left: first,
            cmp,
            right: sum_at(seen, row.first, row.second),
        }),
        Action::Has => StmtParts::Has(key_by(seen, seen.reads, row.declared, row.name)),
        Action::Lacks => StmtParts::Lacks(key_by(seen, seen.reads, row.declared, row.name)),
        Action::Put => StmtParts::Put {
            key: key_by(seen, seen.writes, row.declared, row.name),
            sum: first,
            guard: None,
        },
        Action::PutWhen(cmp) => StmtParts::Put {
            key: key_by(seen, seen.writes, row.declared, row.name),
            sum: first,
            guard: Some(CondView {
                left: sum_at(seen, row.first, row.second),
                cmp,
                right: sum_at(seen, row.second, row.third),
            }),
        },
        Action::Remove => StmtParts::Remove(key_by(seen, seen.writes, row.declared, row.name)),
        Action::Show => StmtParts::Show(first),
        Action::Fail => StmtParts::Fail,
    }
}

impl<'a> StmtView<'a> {
    /// Its parts.
    pub fn parts(&self) -> StmtParts<'a>
        ensures { stmt_shown result ≡ self.now }
    {
        parts_by(self.seen, self.row)
    }

    /// The key whose presence it tests.
    pub fn tested(&self) -> Option<Key>
        ensures { result ≡ tested self.now }
    {
        let (seen, row) = (self.seen, self.row);
        match row.action {
            Action::Has | Action::Lacks => Some(key_by(seen, seen.reads, row.declared, row.name)),
            _ => None,
        }
    }

    /// The key that it writes.
    pub fn target(&self) -> Option<Key>
        ensures { result ≡ target self.now }
    {
        let (seen, row) = (self.seen, self.row);
        match row.action {
            Action::Put | Action::PutWhen(_) | Action::Remove => Some(key_by(
                seen,
                seen.writes,
                row.declared,
                row.name,
            )),
            _ => None,
        }
    }

    /// The name that it binds.
    pub fn bound(&self) -> Option<Key>
        ensures { result ≡ bound self.now }
    {
        let (seen, row) = (self.seen, self.row);
        match row.action {
            Action::Bind => Some(seen.others[row.name as usize]),
            _ => None,
        }
    }

    /// Whether it shows a sum.
    pub fn is_show(&self) -> bool
        ensures { result ≡ is_show self.now }
    {
        matches!(self.row.action, Action::Show)
    }
}

/// The statement at an index of the slices.
#[tactic(auto, using(crate::proofs::Viewing::mapped_at, crate::proofs::Viewing::row_in))]
pub fn stmt_by<'a>(seen: &'a TxnSlices<'a>, index: usize) -> StmtView<'a>
    requires inside { index < length seen.now.rows.now }
    requires seen { IsSeen seen.now }
    ensures { slice_get (map (stmt_of (parts_seen seen.now)) seen.now.rows.now) index
        ≡ Some result }
{
    StmtView {
        seen,
        row: seen.rows[index],
    }
}
