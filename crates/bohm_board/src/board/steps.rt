//! The seven atomic steps on the words of a board, each one step of its table.

ghost use Rattle.std.specs.Prelude.{◌≡◌, ◌≢◌, ◌+◌, ◌<◌, Some, None, length, slice_get, Contains};
ghost use Rattle.bohm_types.specs.declared.cell.Cell.{Cell};
ghost use Rattle.bohm_board.specs.Batches.{rights_of, right_cell, slot_numbered, timestamp};
ghost use Rattle.bohm_board.specs.Passes.{IsSeatOf, batch_of};
ghost use Rattle.bohm_board.specs.Steps.{IsFillable};
ghost use Rattle.bohm_board.specs.Views.{after_status, after_claim, after_presence_look};
ghost use Rattle.bohm_board.specs.Views.{after_value_store, after_presence_store, after_finish};
ghost use Rattle.bohm_board.specs.Views.{Recalls, HasStored, HasFilledAll, KnowsWanted, IsUnseen};
ghost use Rattle.bohm_board.specs.Encoding.{status_of, presence_at, filled_word, present_at};

use crate::board::Board;
use crate::board::step_kinds::{
    Claim, FillPresence, FillValue, Finish, LookPresence, LookValue, SeeStatus,
};
use crate::encoding::{outcome_word, presence_word, value_word};
use crate::knowledge::View;
use atomic_table::Seat;
use bohm_txn::Outcome;
use bohm_types::{Cell, Value};

impl<'a> Board<'a> {
    fn presence_at(&self, slot: usize) -> usize
        requires { slot < length (rights_of (batch_of self.now)).slots }
        ensures at { result ≡ length (rights_of (batch_of self.now)).outcomes + slot }
        ensures inside { result < self.now.table.shared.table_id.words }
    {
        self.batch.len() as usize + slot
    }

    fn value_at(&self, slot: usize) -> usize
        requires { slot < length (rights_of (batch_of self.now)).slots }
        ensures at { result
            ≡ length (rights_of (batch_of self.now)).outcomes +
            (length (rights_of (batch_of self.now)).slots + slot) }
        ensures inside { result < self.now.table.shared.table_id.words }
    {
        self.batch.len() as usize + self.batch.slots() + slot
    }

    /// Loads a status word.
    pub(crate) fn see_status(&self, seat: &mut Seat<(), View>, position: usize) -> u64
        requires own { IsSeatOf self.now seat.old }
        requires inside { position < length (rights_of (batch_of self.now)).outcomes }
        requires apart { seat.old.me.0.held ≢ Some (timestamp seat.old.me.0.right position) }
        ensures own { IsSeatOf self.now seat.new }
        ensures view { seat.new.me.0
            ≡ after_status seat.old.me.0 (timestamp seat.old.me.0.right position)
            (status_of result) }
        ensures recalls { Recalls seat.old.me.0 (timestamp seat.old.me.0.right position)
            (status_of result) }
    {
        self.table.shared.load::<SeeStatus>(seat, position)
    }

    /// Exchanges a status word from 0 to 1.
    pub(crate) fn exchange_status(&self, seat: &mut Seat<(), View>, position: usize) -> u64
        requires own { IsSeatOf self.now seat.old }
        requires inside { position < length (rights_of (batch_of self.now)).outcomes }
        requires free { seat.old.me.0.held ≡ None }
        ensures own { IsSeatOf self.now seat.new }
        ensures view { seat.new.me.0
            ≡ after_claim seat.old.me.0 (timestamp seat.old.me.0.right position)
            (status_of result) }
        ensures recalls { Recalls seat.old.me.0 (timestamp seat.old.me.0.right position)
            (status_of result) }
    {
        self.table
            .shared
            .compare_exchange::<Claim>(seat, position, 0, 1)
    }

    /// Stores an outcome in the status word of the held position.
    pub(crate) fn store_outcome(&self, seat: &mut Seat<(), View>, position: usize, outcome: Outcome)
        requires own { IsSeatOf self.now seat.old }
        requires held { seat.old.me.0.held ≡ Some (timestamp seat.old.me.0.right position) }
        requires wanted { KnowsWanted (batch_of self.now) seat.old.me.0
            (timestamp seat.old.me.0.right position) }
        requires filled { HasFilledAll (batch_of self.now) seat.old.me.0
            (timestamp seat.old.me.0.right position) }
        requires right { slice_get (rights_of (batch_of self.now)).outcomes position
            ≡ Some outcome }
        ensures own { IsSeatOf self.now seat.new }
        ensures view { seat.new.me.0
            ≡ after_finish seat.old.me.0 (timestamp seat.old.me.0.right position) }
    {
        let word = outcome_word(outcome);
        self.table.shared.store::<Finish>(seat, position, word);
    }

    /// Loads a presence word.
    pub(crate) fn see_presence(&self, seat: &mut Seat<(), View>, slot: usize) -> u64
        requires own { IsSeatOf self.now seat.old }
        requires inside { slot < length (rights_of (batch_of self.now)).slots }
        ensures own { IsSeatOf self.now seat.new }
        ensures view { seat.new.me.0
            ≡ after_presence_look seat.old.me.0 (slot_numbered seat.old.me.0.right slot)
            (presence_at result) }
        ensures empty { result ≡ 0
            → IsUnseen seat.old.me.0 (slot_numbered seat.old.me.0.right slot) }
        ensures right { result ≢ 0 → (c : Cell)
            → right_cell (rights_of (batch_of self.now)) slot ≡ Some c → result ≡ filled_word c }
    {
        let at = self.presence_at(slot);
        self.table.shared.load::<LookPresence>(seat, at)
    }

    /// Loads the value word of a slot that is known to be `Present`.
    pub(crate) fn see_value(&self, seat: &mut Seat<(), View>, slot: usize) -> u64
        requires own { IsSeatOf self.now seat.old }
        requires inside { slot < length (rights_of (batch_of self.now)).slots }
        requires known { Contains seat.old.me.0.present (slot_numbered seat.old.me.0.right slot) }
        ensures own { IsSeatOf self.now seat.new }
        ensures view { seat.new.me.0 ≡ seat.old.me.0 }
        ensures right { right_cell (rights_of (batch_of self.now)) slot ≡ Some (present_at result) }
    {
        let at = self.value_at(slot);
        self.table.shared.load::<LookValue>(seat, at)
    }

    /// Stores the value word of a slot that isn't filled yet.
    pub(crate) fn store_value(&self, seat: &mut Seat<(), View>, slot: usize, value: Value)
        requires own { IsSeatOf self.now seat.old }
        requires fillable { IsFillable (batch_of self.now) seat.old.me.0
            (slot_numbered seat.old.me.0.right slot) }
        requires once { ¬ Contains seat.old.me.0.stored (slot_numbered seat.old.me.0.right slot) }
        requires right { right_cell (rights_of (batch_of self.now)) slot
            ≡ Some (Cell.Present value) }
        ensures own { IsSeatOf self.now seat.new }
        ensures view { seat.new.me.0
            ≡ after_value_store seat.old.me.0 (slot_numbered seat.old.me.0.right slot) }
    {
        let at = self.value_at(slot);
        let word = value_word(value);
        self.table.shared.store::<FillValue>(seat, at, word);
    }

    /// Stores the presence word of a slot, which fills it.
    pub(crate) fn store_presence(&self, seat: &mut Seat<(), View>, slot: usize, cell: Cell)
        requires own { IsSeatOf self.now seat.old }
        requires fillable { IsFillable (batch_of self.now) seat.old.me.0
            (slot_numbered seat.old.me.0.right slot) }
        requires stored { HasStored seat.old.me.0 (slot_numbered seat.old.me.0.right slot) cell }
        requires right { right_cell (rights_of (batch_of self.now)) slot ≡ Some cell }
        ensures own { IsSeatOf self.now seat.new }
        ensures view { seat.new.me.0
            ≡ after_presence_store seat.old.me.0 (slot_numbered seat.old.me.0.right slot) }
    {
        let at = self.presence_at(slot);
        let word = presence_word(cell);
        self.table.shared.store::<FillPresence>(seat, at, word);
    }
}
