//! The status of a position.

/// The progress of a position.
#[derive(Clone, Copy, Debug, PartialEq, Eq)]
pub enum Status {
    /// No pass has claimed it.
    Open,
    /// It is claimed, and has no outcome.
    Busy,
    /// It has an outcome, and all its slots are filled.
    Done,
}

/// The result of a claim of a position.
#[derive(Clone, Copy, Debug, PartialEq, Eq)]
pub enum Claimed {
    /// It was open, and the claiming pass holds it.
    Mine,
    /// A pass holds it, or the pass that held it was dropped.
    Busy,
    /// It has an outcome.
    Done,
}
