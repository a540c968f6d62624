//! The names that a statement of a transaction may use.

ghost use Rattle.std.specs.Prelude.{◌≡◌, ◌+◌, ℕ, Some, IfOk, OnOk, slice_get};
ghost use Rattle.bohm_types.specs.Txn.{Txn};
ghost use Rattle.bohm_check.specs.Scopes.{IsScopeOf};

use crate::names::{add_name, names_of};
use bohm_log::{StmtView, TxnView};
use bohm_types::{Key, NoMemory};
use std::alloc::Global;
use std::collections::BTreeSet;

/// The keys that a transaction declares, and the locals that its first statements bind.
#[derive(Drop)]
pub struct Scope {
    pub reads: BTreeSet<Key>,
    pub writes: BTreeSet<Key>,
    pub bound: BTreeSet<Key>,
}

impl Scope {
    /// The first statement's scope. The time grows with the number n of declared keys as n log n.
    #[tactic(auto, using(crate::proofs::Named::none_yet))]
    pub fn of(alloc: Global, txn: &TxnView<'_>) -> Result<Scope, NoMemory>
        ensures { IfOk result (IsScopeOf txn.now 0) }
    {
        Ok(Scope {
            reads: names_of(alloc, &txn.reads())?,
            writes: names_of(alloc, &txn.writes())?,
            bound: BTreeSet::new(alloc),
        })
    }

    /// Advances past a statement.
    pub fn pass(&mut self, stmt: &StmtView<'_>) -> Result<(), NoMemory>
        ensures { OnOk result ((t : Txn) (i : ℕ) → IsScopeOf t i self.old
            → slice_get t.body i ≡ Some stmt.now → IsScopeOf t (i + 1) self.new) }
    {
        match stmt.bound() {
            Some(name) => add_name(&mut self.bound, name)?,
            None => {}
        }
        Ok(())
    }
}
