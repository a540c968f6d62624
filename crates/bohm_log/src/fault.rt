//! Why a set of names, a draft or a log isn't extended.

use std::alloc::{AllocError, AllocFailed};
use thiserror::Error;

/// Why a set of names, a draft or a log was not extended. It is unchanged.
#[derive(Clone, Copy, Debug, PartialEq, Eq, Error)]
pub enum LogFault {
    /// An allocation failed.
    #[error("out of memory")]
    NoMemory,
    /// All 32-bit numbers are in use.
    #[error("the log is full")]
    Full,
}

impl From<AllocError> for LogFault {
    ghost use Rattle.std.specs.Prelude.{◌≡◌};
    ghost use Rattle.bohm_log.specs.declared.fault.LogFault.TheVariants as faults;

    ghost from_gives = { λ _ e. e ≡ faults.NoMemory };

    fn from(_e: AllocError) -> LogFault {
        LogFault::NoMemory
    }
}

impl<T: Drop> From<AllocFailed<T>> for LogFault {
    ghost use Rattle.std.specs.Prelude.{◌≡◌};
    ghost use Rattle.bohm_log.specs.declared.fault.LogFault.TheVariants as faults;

    ghost from_gives = { λ _ e. e ≡ faults.NoMemory };

    fn from(_e: AllocFailed<T>) -> LogFault {
        LogFault::NoMemory
    }
}

/// Why a draft's transaction was not added to a log. The log is unchanged.
#[derive(Clone, Copy, Debug, PartialEq, Eq, Error)]
pub enum CloseFault {
    /// Sums of a statement were read, and the statement was not.
    #[error("a statement that was not ended")]
    Open,
    /// The log was not extended: an allocation failed, or it is full.
    #[error("{0}")]
    Log(LogFault),
}

/// Why a sum, or a statement after its sums, was not ended. The draft is unchanged.
#[derive(Clone, Copy, Debug, PartialEq, Eq, Error)]
pub enum SumFault {
    /// The sum being read has no terms, so it has no text.
    #[error("a sum without terms")]
    Empty,
    /// A list was not extended.
    #[error("{0}")]
    Log(LogFault),
}

impl From<LogFault> for SumFault {
    ghost use Rattle.std.specs.Prelude.{◌≡◌};
    ghost use Rattle.bohm_log.specs.declared.fault.SumFault.TheVariants as faults;

    ghost from_gives = { λ fault e. e ≡ faults.Log fault };

    fn from(fault: LogFault) -> SumFault {
        SumFault::Log(fault)
    }
}
