//! Makes the batch that follows the top of the history.

ghost use Rattle.std.specs.Prelude.{◌≡◌, ◌+◌, ◌++◌, map, IfOk, IfErr, OnOk};
ghost use Rattle.bohm_place.specs.Plans.{HasSourcesOf};
ghost use Rattle.bohm_board.specs.Bases.{declared_keys, IsBatched};
ghost use Rattle.bohm_board.specs.Batches.{plan_of, txns_of, Owns};
ghost use Rattle.bohm_store.specs.Nexts.{IsNext};
ghost use Rattle.bohm_store.specs.Versions.{past};

use crate::base::{cell_by, cell_of};
use crate::declared::declared_keys;
use crate::history::History;
use bohm_board::Batch;
use bohm_hints::{IndexHints, TopCells};
use bohm_log::{Keys, LogPart, NameTable};
use bohm_place::Plan;
use bohm_txn::Checked;
use bohm_types::{Cell, Key, NoMemory};
use std::alloc::Global;

impl History {
    /// Makes the batch of these transactions, which starts after the top, with a list of the cells
    /// that their keys have at the top, so that the history can change while the batch runs. On an
    /// error the plan is dropped. The time grows with the number n of keys that the transactions
    /// declare as n log n.
    pub fn batch<'a>(
        &self,
        alloc: Global,
        txns: &LogPart<'a>,
        plan: Plan,
    ) -> Result<Batch<'a>, NoMemory>
        requires batched { IsBatched txns.now plan }
        requires first { plan.first ≡ self.now.top + 1 }
        ensures txns { IfOk result (λ b. txns_of b ≡ txns.entry.now) }
        ensures plan { IfOk result (λ b. HasSourcesOf plan (plan_of b)) }
        ensures next { IfOk result (IsNext self.now) }
    {
        let keys = declared_keys(alloc, txns)?;
        let base = self.cells_at_top(alloc, &keys)?;
        Ok(Batch::new(plan.first(), txns.fork(), plan, base))
    }

    /// Makes the batch as `batch` does, on the history itself: its keys' cells are looked up as
    /// they are needed, with hints for the keys of the log. Its time is constant.
    pub fn batch_with<'a>(
        &'a self,
        hints: &'a IndexHints,
        txns: &LogPart<'a>,
        plan: Plan,
    ) -> Batch<'a>
        requires batched { IsBatched txns.now plan }
        requires first { plan.first ≡ self.now.top + 1 }
        ensures txns { txns_of result ≡ txns.entry.now }
        ensures plan { plan_of result ≡ plan }
        ensures next { IsNext self.now result }
    {
        // The call's contract says that the names are distinct.
        let _ = self.names.table();
        let top = TopCells {
            names: &self.names,
            newest: self.numbered.newest(),
            hints,
        };
        Batch::over(txns.fork(), plan, top)
    }

    /// Makes the batch of a document's transactions as `batch` does. It owns the document and
    /// borrows nothing, so that it can be shared by threads that no scope joins. If an allocation
    /// fails, the document is returned, and the plan is dropped. The time grows with the number of
    /// keys that the transactions declare; with hints for the keys of the log, none is hashed.
    pub fn own_batch(
        &self,
        alloc: Global,
        hints: &mut IndexHints,
        document: Checked,
        plan: Plan,
    ) -> Result<Batch<'static>, Checked>
        requires batched { IsBatched document.log plan }
        requires first { plan.first ≡ self.now.top + 1 }
        ensures owns { IfOk result (λ b. Owns b document) }
        ensures next { IfOk result (IsNext self.now) }
        ensures refused { IfErr result (λ d. d ≡ document) }
    {
        match self.cells_declared(alloc, hints, &document.log()) {
            Ok(base) => Ok(Batch::own(document, plan, base)),
            Err(_) => Err(document),
        }
    }

    // Each key that the transactions declare, each time that it is declared, with its cell at the
    // top.
    fn cells_declared(
        &self,
        alloc: Global,
        hints: &mut IndexHints,
        txns: &LogPart<'_>,
    ) -> Result<Vec<(Key, Cell)>, NoMemory>
        ensures { IfOk result (λ v. v.items
            ≡ map (λ k. (k, past self.now self.now.top k)) (declared_keys txns.now)) }
    {
        hints.cover(txns.keys().names())?;
        let mut cells = Vec::new(alloc);
        for index in 0..txns.len() {
            let txn = txns.txn(index);
            self.add_cells(&mut cells, hints, &txn.reads())?;
            self.add_cells(&mut cells, hints, &txn.writes())?;
        }
        Ok(cells)
    }

    // Appends these keys, each with its cell at the top.
    fn add_cells(
        &self,
        cells: &mut Vec<(Key, Cell)>,
        hints: &mut IndexHints,
        keys: &Keys<'_>,
    ) -> Result<(), NoMemory>
        ensures { OnOk result (cells.new.items ≡ cells.old.items
            ++ map (λ k. (k, past self.now self.now.top k)) keys.now) }
    {
        for place in 0..keys.len() {
            let key = keys.key(place);
            let cell = cell_by(&self.names, &self.numbered, hints, keys.number(place), key);
            cells.push((*key, cell))?;
        }
        Ok(())
    }

    /// Makes room in the hints for the keys of a log with these names, and notes the indexes of
    /// those that are new to the hints. The time grows with the number of these.
    pub fn note_keys(&self, hints: &mut IndexHints, names: NameTable<'_>) -> Result<(), NoMemory> {
        let noted = hints.len();
        hints.cover(names)?;
        for (place, name) in names.own().iter().enumerate() {
            if place >= noted
                && let Some(index) = self.names.find(name)
            {
                hints.note_own(place, index);
            }
        }
        Ok(())
    }

    // Each of these keys, with its cell at the top.
    fn cells_at_top(&self, alloc: Global, keys: &[Key]) -> Result<Vec<(Key, Cell)>, NoMemory>
        ensures { IfOk result (λ v. v.items
            ≡ map (λ k. (k, past self.now self.now.top k)) keys.now) }
    {
        let mut cells = Vec::with_capacity(alloc, keys.len())?;
        for key in keys {
            let cell = cell_of(&self.names, &self.numbered, key, self.top());
            cells.push((*key, cell))?;
        }
        Ok(cells)
    }
}
