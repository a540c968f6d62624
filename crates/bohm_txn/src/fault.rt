//! The faults that the check finds.

/// The kinds of faults. If there are several at one place, the first in this order is reported.
#[derive(Clone, Copy, Debug, PartialEq, Eq)]
pub enum CheckKind {
    /// The store's keys, or a transaction's reads or writes, aren't in strictly ascending order.
    Order,
    /// A statement reads or tests a key that is not among the reads.
    Unread,
    /// A statement writes a key that is not among the writes.
    Unwritten,
    /// A statement reads a local that no earlier one binds, or binds a name that an earlier one
    /// binds.
    Local,
    /// A log has more than 1,000,000 transactions, a transaction more than 64 statements or 16
    /// reads, writes or shown values, or a sum more than 16 terms.
    Limit,
}

/// A document's first fault. Transaction 0 represents the document as a whole, and statement 0 a
/// transaction's sets and counts.
#[derive(Clone, Copy, Debug, PartialEq, Eq)]
pub struct CheckFault {
    pub txn: u32,
    pub stmt: u32,
    pub kind: CheckKind,
}
