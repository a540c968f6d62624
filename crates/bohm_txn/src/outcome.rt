//! How a transaction ends.

use bohm_types::{Items, Value};

/// Why a transaction aborts.
#[derive(Clone, Copy, Debug, PartialEq, Eq)]
pub enum Reason {
    /// A comparison is false, or a key is missing or present contrary to a test.
    Need,
    /// A `fail` was reached.
    Fail,
    /// A sum reads a missing key.
    Absent,
    /// A sum's total isn't a value.
    Range,
}

/// Whether a transaction commits.
#[derive(Clone, Copy, Debug, PartialEq, Eq)]
pub enum Outcome {
    Commit,
    /// The first statement that fails, counted from 1, and why.
    Abort { reason: Reason, stmt: u32 },
}

/// The reply to a transaction.
#[derive(Debug, Drop)]
pub enum Reply {
    /// The shown values, in the order of the statements.
    Commit { shows: Items<Value> },
    /// The first statement that fails, counted from 1, and why.
    Abort { reason: Reason, stmt: u32 },
}
