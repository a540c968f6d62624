//! Reading and completing a closed board. No call allocates.

ghost use Rattle.std.specs.Prelude.{◌≡◌, ◌≢◌, ◌+◌, ◌<◌, ◌↔◌, ℕ, IsSome, IfSome};
ghost use Rattle.bohm_board.specs.declared.slot.Slot.{Slot};
ghost use Rattle.bohm_board.specs.Batches.{position, number, width_at, IsIn, IsSlot};
ghost use Rattle.bohm_board.specs.Batches.{IsRightCell, IsRightOutcome};
ghost use Rattle.bohm_board.specs.Closings.{batch_of_closed, status_in, presence_in, unfinished_in};
ghost use Rattle.bohm_board.specs.Closings.{IsFinished, IsUnfinished, HasCell};

use crate::batch::Batch;
use crate::closed::Closed;
use crate::encoding::{outcome_of_word, outcome_word, present_cell, slot_words};
use crate::slot::Slot;
use bohm_txn::Outcome;
use bohm_types::Cell;

impl<'a> Closed<'a> {
    pub fn batch(&self) -> &Batch<'a>
        ensures { result.now ≡ batch_of_closed self.now }
    {
        &self.batch
    }

    /// The batch, without its results.
    pub fn into_batch(self) -> Batch<'a>
        ensures { result ≡ batch_of_closed self.entry }
    {
        let Closed { batch, columns } = self;
        drop(columns);
        batch
    }

    /// The outcome of the position with the timestamp `t`, if it has one.
    pub fn outcome(&self, t: u32) -> Option<Outcome>
        requires { IsIn (batch_of_closed self.now) t }
        ensures some { IsSome result ↔ IsFinished self.now t }
        ensures right { IfSome result (IsRightOutcome (batch_of_closed self.now) t) }
    {
        let position = self.batch.position(t);
        let word = self.columns.statuses[position];
        if word >= 2 {
            Some(outcome_of_word(word))
        } else {
            None
        }
    }

    /// The cell of a slot, if the slot has one.
    pub fn cell(&self, slot: Slot) -> Option<Cell>
        requires { IsSlot (batch_of_closed self.now) slot }
        ensures some { IsSome result ↔ HasCell self.now slot }
        ensures whole { IsFinished self.now slot.txn → IsSome result }
        ensures right { IfSome result (IsRightCell (batch_of_closed self.now) slot) }
    {
        let number = self.batch.number(slot);
        match self.columns.presences[number] {
            0 => None,
            1 => Some(Cell::Absent),
            _ => Some(present_cell(self.columns.values[number])),
        }
    }

    /// The number of positions without an outcome. The time grows with the number of positions.
    pub fn unfinished(&self) -> u32
        ensures { result ≡ unfinished_in self.now }
    {
        self.columns
            .statuses
            .iter()
            .filter(|word| **word < 2)
            .count() as u32
    }

    /// Stores the right cell in a slot whose position has no outcome.
    pub fn set_cell(&mut self, slot: Slot, cell: Cell)
        requires inside { IsSlot (batch_of_closed self.old) slot }
        requires unfinished { IsUnfinished self.old slot.txn }
        requires right { IsRightCell (batch_of_closed self.old) slot cell }
        ensures batch { batch_of_closed self.new ≡ batch_of_closed self.old }
        ensures filled { HasCell self.new slot }
        ensures others { (s : Slot)
            → number (batch_of_closed self.old) s ≢ number (batch_of_closed self.old) slot
            → presence_in self.new s ≡ presence_in self.old s }
        ensures statuses { (t : ℕ) → status_in self.new t ≡ status_in self.old t }
        ensures left { unfinished_in self.new ≡ unfinished_in self.old }
    {
        let number = self.batch.number(slot);
        let (presence, value) = slot_words(cell);
        self.columns.values[number] = value;
        self.columns.presences[number] = presence;
    }

    /// Stores the right outcome of a position that has none.
    pub fn set_outcome(&mut self, t: u32, outcome: Outcome)
        requires inside { IsIn (batch_of_closed self.old) t }
        requires unfinished { IsUnfinished self.old t }
        requires filled { (j : ℕ) → j < width_at (batch_of_closed self.old) t
            → HasCell self.old (record { txn = t; index = j }) }
        requires right { IsRightOutcome (batch_of_closed self.old) t outcome }
        ensures batch { batch_of_closed self.new ≡ batch_of_closed self.old }
        ensures finished { IsFinished self.new t }
        ensures others { (u : ℕ)
            → position (batch_of_closed self.old) u ≢ position (batch_of_closed self.old) t
            → status_in self.new u ≡ status_in self.old u }
        ensures cells { (s : Slot) → presence_in self.new s ≡ presence_in self.old s }
        ensures left { unfinished_in self.new + 1 ≡ unfinished_in self.old }
    {
        let position = self.batch.position(t);
        self.columns.statuses[position] = outcome_word(outcome);
    }
}
