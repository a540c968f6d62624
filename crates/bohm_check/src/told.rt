//! Faults with their lines.

use bohm_txn::CheckFault;

/// The most faults that are reported.
pub const MOST_TOLD: usize = 20;

/// A fault of a document.
#[derive(Clone, Copy, Debug, PartialEq, Eq)]
pub struct Told {
    pub fault: CheckFault,
    /// The line of the fault's place in the document's text, counted from 1.
    pub line: u64,
}
