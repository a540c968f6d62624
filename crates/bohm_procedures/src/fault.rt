//! Why a procedure is refused.

use bohm_txn::CheckFault;

/// Why a text isn't accepted as a procedure.
#[derive(Clone, Copy, Debug, PartialEq, Eq)]
pub enum ProcedureFault {
    /// The complete lines before this one are a prefix of a procedure's text, and with this one
    /// they are not. Lines are counted from 1.
    Line(u64),
    /// The complete lines are a prefix of a procedure's text, but the text isn't a procedure's.
    Short,
    /// The check's fault in the procedure's own instance. Its statements are counted from the `let`
    /// of the first value.
    Check(CheckFault),
    /// An allocation failed, or the 32-bit numbers of a column are used up, which takes more than 4
    /// GiB of text.
    NoMemory,
}
