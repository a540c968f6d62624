//! The calls of a board. None blocks, and only `open` and `try_open` allocate.

ghost use Rattle.std.specs.Prelude.{◌≡◌, ◌+◌, ◌≤◌, ℕ, [], length, IfOk, IfErr, IsNone, IfSome};
ghost use Rattle.bohm_board.specs.Batches.{rights_of, txns_of, IsIn, IsSlot, IsRightCell, IsRightOutcome};
ghost use Rattle.bohm_board.specs.Closings.{IsFinished, IsUntaken, HasCell, IsLeft};
ghost use Rattle.bohm_board.specs.Closings.{batch_of_closed, unfinished_in};
ghost use Rattle.bohm_board.specs.declared.slot.Slot.{Slot};
ghost use Rattle.bohm_board.specs.Passes.{IsPassOf, HoldsNothing, Holds, IsDone, IsFilled};
ghost use Rattle.bohm_board.specs.Passes.{KnowsWanted, HasFilledAll, held_timestamp};
ghost use Rattle.bohm_board.specs.Passes.{batch_of, view};
ghost use Rattle.bohm_board.specs.Views.{new_view, after_status, after_claim};
ghost use Rattle.bohm_board.specs.Views.{after_split, after_join};
ghost use Rattle.bohm_board.specs.Views.{after_look, after_fill, after_finish, Recalls, IsUnseen};
ghost use Rattle.bohm_board.specs.Encoding.{status_of_claim};
ghost use Rattle.bohm_board.specs.Shown.{IsSized, words_of};

use crate::batch::Batch;
use crate::board::step_kinds::{Share, Unite};
use crate::board::{Board, Words};
use crate::closed::{Closed, copy_words};
use crate::columns::Columns;
use crate::encoding::{present_cell, status_of_word};
use crate::knowledge::View;
use crate::pass::Pass;
use crate::slot::Slot;
use crate::status::{Claimed, Status};
use atomic_table::{Seat, Table};
use bohm_txn::Outcome;
use bohm_types::{Cell, NoMemory};
use std::alloc::Global;

impl<'a> Board<'a> {
    /// Opens a board for a batch: all positions are Open, and all slots empty. The pass has seen
    /// nothing and holds nothing. An error drops the batch. The time and the memory grow with the
    /// number of transactions and of their slots.
    pub fn open(alloc: Global, batch: Batch<'a>) -> Result<(Board<'a>, Pass), NoMemory>
        ensures batch { IfOk result (λ b. batch_of b.0 ≡ batch.entry) }
        ensures own { IfOk result (λ b. IsPassOf b.0 b.1) }
        ensures view { IfOk result (λ b. view b.1 ≡ new_view (rights_of batch.entry)) }
    {
        match Board::try_open(alloc, batch) {
            Ok(opened) => Ok(opened),
            Err(_) => Err(NoMemory),
        }
    }

    /// Opens a board as `open` does, but if an allocation fails, it returns the batch.
    pub fn try_open(alloc: Global, batch: Batch<'a>) -> Result<(Board<'a>, Pass), Batch<'a>>
        ensures batch { IfOk result (λ b. batch_of b.0 ≡ batch.entry) }
        ensures own { IfOk result (λ b. IsPassOf b.0 b.1) }
        ensures view { IfOk result (λ b. view b.1 ≡ new_view (rights_of batch.entry)) }
        ensures refused { IfErr result (λ b. b ≡ batch.entry) }
    {
        let (table, seat, columns) = match Board::lay(alloc, &batch) {
            Ok(laid) => laid,
            Err(_) => return Err(batch),
        };
        let pass = Pass {
            seat,
            first: batch.first(),
            held: None,
        };
        let board = Board {
            table,
            batch,
            columns,
        };
        Ok((board, pass))
    }

    // The words of a board for this batch, and memory for them once it is closed.
    fn lay(
        alloc: Global,
        batch: &Batch<'a>,
    ) -> Result<(Words<'a>, Seat<(), View>, Columns), NoMemory>
        ensures keyed { IfOk result (λ l. l.0.shared.key ≡ batch.now) }
        ensures sized { let slots = length (rights_of batch.now).slots in IfOk result
            (λ l. l.0.shared.table_id.words ≡ length (rights_of batch.now).outcomes + (slots + slots)) }
        ensures bare { IfOk result (λ l. l.0.shared.table_id.slots ≡ 0) }
        ensures room { IfOk result (λ l. IsSized (rights_of batch.now) (words_of l.2)) }
        ensures seat { IfOk result (λ l. l.1.table_id ≡ l.0.shared.table_id) }
        ensures view { IfOk result (λ l. l.1.me ≡ (new_view (rights_of batch.now), [])) }
    {
        let positions = batch.len() as usize;
        let slots = batch.slots();
        let columns = Columns::new(alloc, positions, slots)?;
        let words = Vec::from_elem(alloc, 0u64, positions + 2 * slots)?;
        let (table, seat) = Table::of_words(alloc, words.as_slice(), batch)?;
        Ok((table, seat, columns))
    }

    /// The batch of a board that is given up. No pass of it can step any more.
    pub fn into_batch(self) -> Batch<'a>
        ensures { result ≡ batch_of self.entry }
    {
        let Board {
            table,
            batch,
            columns,
        } = self;
        drop(table);
        drop(columns);
        batch
    }

    pub fn batch(&self) -> &Batch<'a>
        ensures { result.now ≡ batch_of self.now }
    {
        &self.batch
    }

    /// Splits a pass into two passes, each of which knows what it knew. The first keeps the
    /// positions that it finished.
    pub fn split(&self, pass: Pass) -> (Pass, Pass)
        requires own { IsPassOf self.now pass }
        requires free { HoldsNothing (view pass) }
        ensures own { IsPassOf self.now result.0 × IsPassOf self.now result.1 }
        ensures views { (view result.0 ≡ view pass) × (view result.1 ≡ after_split (view pass)) }
    {
        let Pass {
            mut seat,
            first,
            held,
        } = pass;
        let other = self.table.shared.split_seat::<Share>(&mut seat);
        let left = Pass { seat, first, held };
        let right = Pass {
            seat: other,
            first,
            held,
        };
        (left, right)
    }

    /// Joins two passes into one pass, which knows what the two knew.
    pub fn join(&self, left: Pass, right: Pass) -> Pass
        requires own { IsPassOf self.now left × IsPassOf self.now right }
        requires free { HoldsNothing (view left) × HoldsNothing (view right) }
        ensures own { IsPassOf self.now result }
        ensures view { view result ≡ after_join (view left) (view right) }
    {
        let Pass {
            mut seat,
            first,
            held,
        } = left;
        let Pass {
            seat: other,
            first: _,
            held: _,
        } = right;
        self.table.shared.join_seat::<Unite>(&mut seat, other);
        Pass { seat, first, held }
    }

    /// The timestamp of the position that a pass holds.
    pub fn holding(pass: &Pass) -> Option<u32>
        ensures { result ≡ held_timestamp pass.now }
    {
        match pass.held {
            Some(position) => Some(pass.first + position),
            None => None,
        }
    }

    /// The status of the position with the timestamp `t`. The pass's view records it.
    pub fn status(&self, pass: &mut Pass, t: u32) -> Status
        requires own { IsPassOf self.now pass.old }
        requires inside { IsIn (batch_of self.now) t }
        requires apart { ¬ Holds (batch_of self.now) (view pass.old) t }
        ensures own { IsPassOf self.now pass.new }
        ensures view { view pass.new ≡ after_status (view pass.old) t result }
        ensures recalls { Recalls (view pass.old) t result }
    {
        let position = self.batch.position(t);
        let word = self.see_status(&mut pass.seat, position);
        status_of_word(word)
    }

    /// Claims the position with the timestamp `t`, by a single exchange. If the position was Open,
    /// the pass holds it from then on.
    pub fn claim(&self, pass: &mut Pass, t: u32) -> Claimed
        requires own { IsPassOf self.now pass.old }
        requires inside { IsIn (batch_of self.now) t }
        requires free { HoldsNothing (view pass.old) }
        ensures own { IsPassOf self.now pass.new }
        ensures view { view pass.new ≡ after_claim (view pass.old) t (status_of_claim result) }
        ensures recalls { Recalls (view pass.old) t (status_of_claim result) }
    {
        let position = self.batch.position(t);
        let word = self.exchange_status(&mut pass.seat, position);
        match status_of_word(word) {
            Status::Open => {
                pass.held = Some(position as u32);
                Claimed::Mine
            }
            Status::Busy => Claimed::Busy,
            Status::Done => Claimed::Done,
        }
    }

    /// The cell of a slot, if the slot is filled. The pass's view records it.
    pub fn look(&self, pass: &mut Pass, slot: Slot) -> Option<Cell>
        requires own { IsPassOf self.now pass.old }
        requires inside { IsSlot (batch_of self.now) slot }
        ensures own { IsPassOf self.now pass.new }
        ensures view { view pass.new ≡ after_look (view pass.old) slot result }
        ensures right { IfSome result (IsRightCell (batch_of self.now) slot) }
        ensures none { IsNone result → IsUnseen (view pass.old) slot }
    {
        let number = self.batch.number(slot);
        match self.see_presence(&mut pass.seat, number) {
            0 => None,
            1 => Some(Cell::Absent),
            _ => {
                let value = self.see_value(&mut pass.seat, number);
                Some(present_cell(value))
            }
        }
    }

    /// Stores the right cell in a slot of the position that the pass holds.
    pub fn fill(&self, pass: &mut Pass, slot: Slot, cell: Cell)
        requires own { IsPassOf self.now pass.old }
        requires inside { IsSlot (batch_of self.now) slot }
        requires held { Holds (batch_of self.now) (view pass.old) slot.txn }
        requires wanted { KnowsWanted (batch_of self.now) (view pass.old) slot.txn }
        requires empty { ¬ IsFilled (batch_of self.now) (view pass.old) slot }
        requires right { IsRightCell (batch_of self.now) slot cell }
        ensures own { IsPassOf self.now pass.new }
        ensures view { view pass.new ≡ after_fill (view pass.old) slot cell }
    {
        let number = self.batch.number(slot);
        match cell {
            Cell::Absent => self.store_presence(&mut pass.seat, number, Cell::Absent),
            Cell::Present(value) => {
                self.store_value(&mut pass.seat, number, value);
                self.store_presence(&mut pass.seat, number, Cell::Present(value));
            }
        }
    }

    /// Stores the outcome of the position that the pass holds.
    pub fn finish(&self, pass: &mut Pass, t: u32, outcome: Outcome)
        requires own { IsPassOf self.now pass.old }
        requires inside { IsIn (batch_of self.now) t }
        requires held { Holds (batch_of self.now) (view pass.old) t }
        requires wanted { KnowsWanted (batch_of self.now) (view pass.old) t }
        requires filled { HasFilledAll (batch_of self.now) (view pass.old) t }
        requires right { IsRightOutcome (batch_of self.now) t outcome }
        ensures own { IsPassOf self.now pass.new }
        ensures view { view pass.new ≡ after_finish (view pass.old) t }
    {
        let position = self.batch.position(t);
        self.store_outcome(&mut pass.seat, position, outcome);
        pass.held = None;
    }

    /// Closes the board. Its words show a state of the core, which therefore meets the board law.
    /// Positions that the pass saw Done have an outcome, and those that it finished are distinct.
    /// The time grows with the number of words.
    pub fn close(self, pass: Pass) -> Closed<'a>
        requires own { IsPassOf self pass }
        requires free { HoldsNothing (view pass) }
        ensures batch { batch_of_closed result ≡ batch_of self.entry }
        ensures state { IsLeft result }
        ensures done { (t : ℕ) → IsDone (batch_of self.entry) (view pass) t → IsFinished result t }
        ensures finished { let all = length (txns_of (batch_of self.entry)) in
            length (view pass).finished + unfinished_in result ≤ all }
        ensures untaken { (s : Slot) → IsSlot (batch_of self.entry) s → IsUntaken result s.txn
            → ¬ HasCell result s }
    {
        let Board {
            table,
            batch,
            mut columns,
        } = self;
        let Pass {
            seat,
            first: _,
            held: _,
        } = pass;
        let positions = batch.len() as usize;
        let slots = batch.slots();
        let words = table.close_with(seat);
        copy_words(&words, 0, &mut columns.statuses);
        copy_words(&words, positions, &mut columns.presences);
        copy_words(&words, positions + slots, &mut columns.values);
        words.free();
        Closed { batch, columns }
    }
}
