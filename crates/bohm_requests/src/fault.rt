//! Why requests aren't answered.

use bohm_ledger::{Fault, MachineFault};
use bohm_types::NoMemory;
use std::alloc::{AllocError, AllocFailed};
use std::fmt;

/// Why requests aren't answered.
#[derive(Clone, Copy, Debug, PartialEq, Eq)]
pub enum DeskFault {
    /// An allocation failed.
    OutOfMemory,
    /// The ledger failed.
    Ledger(Fault),
    /// An archive of the ledger couldn't be read.
    Archive,
    /// Batches that are needed were taken away.
    Trimmed,
    /// The machine gave no answer to an entry.
    NoAnswer,
}

impl fmt::Display for DeskFault {
    fn fmt<W: fmt::Write>(&self, f: &mut fmt::Formatter<W>) -> fmt::Result {
        match self {
            DeskFault::OutOfMemory => f.write_str("out of memory"),
            DeskFault::Ledger(fault) => write!(f, "{fault}"),
            DeskFault::Archive => f.write_str("an archive can't be read"),
            DeskFault::Trimmed => f.write_str("earlier batches were taken away"),
            DeskFault::NoAnswer => f.write_str("an entry got no answer"),
        }
    }
}

impl std::error::Error for DeskFault {}

impl From<Fault> for DeskFault {
    fn from(fault: Fault) -> DeskFault {
        DeskFault::Ledger(fault)
    }
}

impl From<MachineFault> for DeskFault {
    fn from(fault: MachineFault) -> DeskFault {
        DeskFault::Ledger(Fault::Machine(fault))
    }
}

impl From<NoMemory> for DeskFault {
    fn from(_: NoMemory) -> DeskFault {
        DeskFault::OutOfMemory
    }
}

impl From<AllocError> for DeskFault {
    fn from(_: AllocError) -> DeskFault {
        DeskFault::OutOfMemory
    }
}

impl<T: Drop> From<AllocFailed<T>> for DeskFault {
    fn from(_: AllocFailed<T>) -> DeskFault {
        DeskFault::OutOfMemory
    }
}
