//! Slots: locations for the cells that transactions produce.

/// A location for a cell that a transaction produces. Indices count from 0 through its declared
/// writes, and then through its `show`s.
#[derive(Clone, Copy, Debug, PartialEq, Eq)]
pub struct Slot {
    /// The timestamp of the transaction.
    pub txn: u32,
    pub index: u32,
}
