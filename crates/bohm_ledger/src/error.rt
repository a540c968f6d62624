//! Why a call of a ledger fails.

use sqlite_trees::error::StoreError;
use std::alloc::{AllocError, AllocFailed};
use std::error::Error;
use std::fmt;

/// Why a machine can't go on.
#[derive(Clone, Copy, Debug, PartialEq, Eq)]
pub enum MachineFault {
    /// An allocation failed.
    OutOfMemory,
    /// A batch has an entry that isn't one here, or the keys of a checkpoint aren't in order.
    Unreadable,
    /// The numbers of transactions are used up.
    Full,
}

/// Why a call of a ledger fails.
#[derive(Clone, Copy, Debug, PartialEq, Eq)]
pub enum Fault {
    /// An allocation failed.
    OutOfMemory,
    /// The machine can't go on.
    Machine(MachineFault),
    /// The store failed.
    Store(StoreError),
    /// The numbers of batches or transactions would reach 2^63.
    Full,
    /// The trees hold no ledger.
    NoLedger,
    /// The trees hold a ledger already.
    NotEmpty,
    /// An earlier call failed after the machine had run a batch: open the ledger again.
    Behind,
}

impl fmt::Display for MachineFault {
    fn fmt<W: fmt::Write>(&self, f: &mut fmt::Formatter<W>) -> fmt::Result {
        f.write_str(match self {
            MachineFault::OutOfMemory => "out of memory",
            MachineFault::Unreadable => "the ledger has an entry that can't be read",
            MachineFault::Full => "the ledger has no number left",
        })
    }
}

impl Error for MachineFault {}

impl From<AllocError> for MachineFault {
    ghost use Rattle.std.specs.Prelude.{◌≡◌};
    ghost use Rattle.bohm_ledger.specs.declared.error.MachineFault.TheVariants.{OutOfMemory};

    ghost from_gives = { λ _ e. e ≡ OutOfMemory };

    fn from(_: AllocError) -> MachineFault {
        MachineFault::OutOfMemory
    }
}

impl<T: Drop> From<AllocFailed<T>> for MachineFault {
    ghost use Rattle.std.specs.Prelude.{◌≡◌};
    ghost use Rattle.bohm_ledger.specs.declared.error.MachineFault.TheVariants.{OutOfMemory};

    ghost from_gives = { λ _ e. e ≡ OutOfMemory };

    fn from(_: AllocFailed<T>) -> MachineFault {
        MachineFault::OutOfMemory
    }
}

impl fmt::Display for Fault {
    fn fmt<W: fmt::Write>(&self, f: &mut fmt::Formatter<W>) -> fmt::Result {
        match self {
            Fault::OutOfMemory => f.write_str("out of memory"),
            Fault::Machine(fault) => write!(f, "{fault}"),
            Fault::Store(error) => write!(f, "{error}"),
            Fault::Full => f.write_str("the ledger has no number left"),
            Fault::NoLedger => f.write_str("the file is no ledger"),
            Fault::NotEmpty => f.write_str("the file holds a ledger"),
            Fault::Behind => f.write_str("an earlier call failed: open the ledger again"),
        }
    }
}

impl Error for Fault {}

impl From<AllocError> for Fault {
    ghost use Rattle.std.specs.Prelude.{◌≡◌};
    ghost use Rattle.bohm_ledger.specs.declared.error.Fault.TheVariants.{OutOfMemory};

    ghost from_gives = { λ _ e. e ≡ OutOfMemory };

    fn from(_: AllocError) -> Fault {
        Fault::OutOfMemory
    }
}

impl<T: Drop> From<AllocFailed<T>> for Fault {
    ghost use Rattle.std.specs.Prelude.{◌≡◌};
    ghost use Rattle.bohm_ledger.specs.declared.error.Fault.TheVariants.{OutOfMemory};

    ghost from_gives = { λ _ e. e ≡ OutOfMemory };

    fn from(_: AllocFailed<T>) -> Fault {
        Fault::OutOfMemory
    }
}

impl From<MachineFault> for Fault {
    ghost use Rattle.std.specs.Prelude.{◌≡◌};
    ghost use Rattle.bohm_ledger.specs.declared.error.Fault.TheVariants.{Machine};

    ghost from_gives = { λ x e. e ≡ Machine x };

    fn from(fault: MachineFault) -> Fault {
        Fault::Machine(fault)
    }
}

impl From<StoreError> for Fault {
    ghost use Rattle.std.specs.Prelude.{◌≡◌};
    ghost use Rattle.bohm_ledger.specs.declared.error.Fault.TheVariants.{Store};

    ghost from_gives = { λ x e. e ≡ Store x };

    fn from(error: StoreError) -> Fault {
        Fault::Store(error)
    }
}
