//! Why a text is refused.

ghost use Rattle.std.specs.Prelude.{◌≡◌};
ghost use Rattle.bohm_tidy.specs.declared.fault.TidyFault.TheVariants.{NoMemory};

use std::alloc::{AllocError, AllocFailed};

/// Two lines of a store with one key, numbered from 1 in the text that was given.
#[derive(Clone, Copy, Debug)]
pub struct Double {
    pub first: u64,
    pub again: u64,
}

/// Why a text isn't a log, not even a loosely written one.
#[derive(Clone, Copy, Debug)]
pub enum TidyFault {
    /// The lines before this one are a prefix of a log, and with this one they aren't. Lines count
    /// from 1 in the text that was given.
    Line(u64),
    /// The lines are a prefix of a log, but not a whole one.
    Short,
    /// The store names a key twice.
    Twice(Double),
    /// An allocation failed.
    NoMemory,
}

impl From<AllocError> for TidyFault {
    ghost from_gives = { λ _ e. e ≡ NoMemory };

    fn from(_e: AllocError) -> TidyFault {
        TidyFault::NoMemory
    }
}

impl<T: Drop> From<AllocFailed<T>> for TidyFault {
    ghost from_gives = { λ _ e. e ≡ NoMemory };

    fn from(_e: AllocFailed<T>) -> TidyFault {
        TidyFault::NoMemory
    }
}

impl From<bohm_types::NoMemory> for TidyFault {
    ghost from_gives = { λ _ e. e ≡ NoMemory };

    fn from(_e: bohm_types::NoMemory) -> TidyFault {
        TidyFault::NoMemory
    }
}
