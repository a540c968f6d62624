//! Why a timestamp can't be read.

use bohm_types::NoMemory;

/// Why a timestamp has no cell.
#[derive(Clone, Copy, Debug, PartialEq, Eq)]
pub enum PastFault {
    /// It is below the floor.
    Trimmed,
    /// It is above the top.
    Future,
}

/// Why a timestamp has no store.
#[derive(Clone, Copy, Debug, PartialEq, Eq)]
pub enum StoreFault {
    /// It is below the floor.
    Trimmed,
    /// It is above the top.
    Future,
    NoMemory,
}
