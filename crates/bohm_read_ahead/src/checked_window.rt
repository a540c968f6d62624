//! A window that was parsed.

use bohm_hints::IndexHints;
use bohm_reading::Parsed;
use bohm_txn::CheckFault;

/// The result of parsing a window, and of checking its transactions.
#[derive(Drop)]
pub struct CheckedWindow {
    pub parsed: Parsed,
    /// Their first fault, counted from the window's first transaction, if they were checked.
    pub fault: Option<Option<CheckFault>>,
    /// The expected indexes of its keys in the history.
    pub hints: IndexHints,
}
