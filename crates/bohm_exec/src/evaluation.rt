//! The evaluation of one position.

ghost use Rattle.std.specs.Prelude.{◌≡◌, ◌≤◌, Some, length};
ghost use Rattle.bohm_types.specs.Txn.{Txn};
ghost use Rattle.bohm_place.specs.Plans.{keys_in};
ghost use Rattle.bohm_board.specs.Batches.{accesses_in, IsIn, IsRightOutcome, txn_at};
ghost use Rattle.bohm_board.specs.Inputs.{AreCellsOf};
ghost use Rattle.bohm_exec.specs.Counts.{counted_on};
ghost use Rattle.bohm_exec.specs.Handed.{AreFound, IsReady, AreRightSlots, slot_cell};
ghost use Rattle.bohm_types.specs.Limits.{most_keys};

use crate::wanted::keys_at;
use bohm_board::Batch;
use bohm_log::Keys;
use bohm_place::{DeclaredSet, Source};
use bohm_txn::{Outcome, Scratch, eval};
use bohm_types::{Cell, MOST_KEYS};

/// Copies the cells of the accesses that take the version before the batch, each to its key's
/// index. The keys are those of the declared set.
fn add_base(batch: &Batch, t: u32, set: DeclaredSet, keys: &Keys<'_>, cells: &mut [Cell])
    requires inside { IsIn batch.now t }
    requires keys { (x : Txn) → txn_at batch.now t ≡ Some x → keys.now ≡ keys_in set x }
    requires paired { length (accesses_in set batch.now t) ≡ length cells.old }
    requires few { length cells.old ≤ most_keys }
    requires found { AreFound batch.now (accesses_in set batch.now t) cells.old }
    ensures { (x : Txn) → txn_at batch.now t ≡ Some x →
        AreCellsOf batch.now (keys_in set x) (accesses_in set batch.now t) cells.new }
{
    for index in 0..cells.len() {
        match batch.access(set, t, index as u32).source {
            Source::Before => cells[index] = batch.cell_before(set, t, keys, index as u32),
            Source::Within(_) => {}
        }
    }
}

/// Evaluates one position after another. Its memory is allocated once, and isn't cleared between
/// two positions.
#[derive(Drop)]
pub(crate) struct Evaluator<'a> {
    /// The cells of the position's declared reads, in their order. The cells after them belong to
    /// other positions.
    pub(crate) reads: [Cell; MOST_KEYS],
    /// The cells that the keys of the position's declared writes have before it, in their order. A
    /// sure position needs none.
    pub(crate) earlier: [Cell; MOST_KEYS],
    /// Whether the position is sure.
    pub(crate) sure: bool,
    scratch: &'a mut Scratch,
    // How many evaluations were made, those before it among them: only `evaluate` adds to it.
    evaluations: u64,
}

impl<'a> Evaluator<'a> {
    /// An evaluator, after this many evaluations.
    pub(crate) fn new(scratch: &'a mut Scratch, evaluations: u64) -> Evaluator<'a>
        ensures { result.evaluations ≡ evaluations }
    {
        Evaluator {
            reads: [Cell::Absent; MOST_KEYS],
            earlier: [Cell::Absent; MOST_KEYS],
            sure: false,
            scratch,
            evaluations,
        }
    }

    /// Evaluates the position over its cells. All cells that the batch makes must be there before
    /// the call. After it `slot_cell` returns the cells of the position's slots. This is the only
    /// way to evaluate a position, and it counts.
    pub(crate) fn evaluate(&mut self, batch: &Batch, t: u32) -> Outcome
        requires inside { IsIn batch.now t }
        requires ready { IsReady batch.now t self.old }
        ensures outcome { IsRightOutcome batch.now t result }
        ensures cells { AreRightSlots batch.now t self.new.scratch.now }
        ensures count { self.new.evaluations ≡ counted_on self.old.evaluations 1 }
    {
        self.evaluations = self.evaluations.saturating_add(1);
        let read_keys = keys_at(batch, t, DeclaredSet::Reads);
        let written_keys = keys_at(batch, t, DeclaredSet::Writes);
        let reads = &mut self.reads[..read_keys.len()];
        let earlier = &mut self.earlier[..written_keys.len()];
        add_base(batch, t, DeclaredSet::Reads, &read_keys, reads);
        if !self.sure {
            add_base(batch, t, DeclaredSet::Writes, &written_keys, earlier);
        }
        eval(&batch.txn(t), reads, earlier, self.scratch)
    }

    /// How many evaluations were made, those before it among them.
    pub(crate) fn evaluations(&self) -> u64
        ensures { result ≡ self.now.evaluations }
    {
        self.evaluations
    }

    /// The cell of a slot of the position that was evaluated last: for a declared write, the key's
    /// cell after the position; for a `show`, its value, or `Absent` on an abort.
    pub(crate) fn slot_cell(&self, index: u32) -> Cell
        ensures { result ≡ slot_cell self.now.scratch.now index }
    {
        let (cells, shows) = (self.scratch.cells(), self.scratch.shows());
        let index = index as usize;
        match cells.get(index) {
            Some(cell) => *cell,
            None => match shows.get(index - cells.len()) {
                Some(value) => Cell::Present(*value),
                None => Cell::Absent,
            },
        }
    }
}
