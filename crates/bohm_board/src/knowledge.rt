//! Ghost views: what passes have observed. No value of these types is constructed.

use crate::slot::Slot;
use bohm_txn::Outcome;
use bohm_types::Cell;
use std::collections::LinkedList;

/// The cell that a slot gets.
#[derive(Clone, Copy)]
pub struct RightSlot {
    pub slot: Slot,
    pub cell: Cell,
}

/// The results of the serial run of a batch: the outcome of each position, and the cell of each
/// slot.
pub struct Rights {
    /// The timestamp of the first position.
    pub first: u32,
    pub outcomes: LinkedList<Outcome>,
    pub slots: LinkedList<RightSlot>,
}

/// What a pass knows. Positions are timestamps; positions and slots are listed in the order in
/// which the pass learned of them.
pub struct View {
    /// The right outcomes and cells of the pass's batch.
    pub right: Rights,
    /// Positions that it saw Done.
    pub done: LinkedList<u32>,
    /// Positions that it finished.
    pub finished: LinkedList<u32>,
    /// Positions that it saw Busy.
    pub busy: LinkedList<u32>,
    /// Slots that it knows to be `Absent`.
    pub absent: LinkedList<Slot>,
    /// Slots that it knows to be `Present`.
    pub present: LinkedList<Slot>,
    /// The position that it holds.
    pub held: Option<u32>,
    /// Slots of the held position whose value word it stored.
    pub stored: LinkedList<Slot>,
    /// Slots of the held position that it filled.
    pub filled: LinkedList<Slot>,
}
