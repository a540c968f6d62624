//! Why the program ends before the end of its input.

use bohm_requests::DeskFault;
use bohm_types::NoMemory;
use std::alloc::{AllocError, AllocFailed};
use std::{fmt, io};

/// Why the program ends before the end of its input.
#[derive(Debug, Drop)]
pub enum Failure {
    /// The file can't be opened.
    File(sqlite_std_file::OpenError),
    /// The file isn't a ledger's, or is damaged.
    Store(sqlite_store::OpenError),
    /// The ledger failed.
    Desk(DeskFault),
    /// The ledger has another edition.
    Edition,
    /// There is no transaction with this number.
    Future,
    /// An archive, or the folder of the ledger, failed.
    Archive(io::Error),
    /// Standard input can't be read.
    Input,
    /// No thread can be started.
    Thread,
    /// Standard output can't be written.
    Output(io::Error),
    /// An allocation failed.
    OutOfMemory,
}

impl fmt::Display for Failure {
    fn fmt<W: fmt::Write>(&self, f: &mut fmt::Formatter<W>) -> fmt::Result {
        match self {
            Failure::File(error) => write!(f, "{error}"),
            Failure::Store(sqlite_store::OpenError::Refused) => {
                f.write_str("it is no ledger, or is damaged")
            }
            Failure::Store(error) => write!(f, "{error}"),
            Failure::Desk(fault) => write!(f, "{fault}"),
            Failure::Edition => f.write_str("the ledger has the other edition"),
            Failure::Future => f.write_str("the ledger has no such transaction yet"),
            Failure::Archive(error) => write!(f, "{error}"),
            Failure::Input => f.write_str("standard input can't be read"),
            Failure::Thread => f.write_str("no thread can be started"),
            Failure::Output(error) => write!(f, "standard output: {error}"),
            Failure::OutOfMemory => f.write_str("out of memory"),
        }
    }
}

impl From<DeskFault> for Failure {
    fn from(fault: DeskFault) -> Failure {
        Failure::Desk(fault)
    }
}

impl From<NoMemory> for Failure {
    fn from(_: NoMemory) -> Failure {
        Failure::OutOfMemory
    }
}

impl From<AllocError> for Failure {
    fn from(_: AllocError) -> Failure {
        Failure::OutOfMemory
    }
}

impl<T: Drop> From<AllocFailed<T>> for Failure {
    fn from(_: AllocFailed<T>) -> Failure {
        Failure::OutOfMemory
    }
}
