//! Faults of the arguments.

ghost use Rattle.std.specs.Prelude.{◌≡◌};
ghost use Rattle.bohm_command.specs.Faults.{IsOfKind};
ghost use Rattle.bohm_command.specs.declared.fault.ArgumentFault.TheVariants.{NoMemory};
ghost use Rattle.clap.specs.Words.{kind_of};

use crate::version::VERSION;
use clap::Error;
use clap::error::ErrorKind;
use std::alloc::{AllocError, AllocFailed, Global};

/// Why arguments make no request.
#[derive(Debug, Drop)]
pub enum ArgumentFault {
    /// The arguments don't fit the program; clap's text.
    Bad(String),
    /// Help was requested; its text.
    Help(String),
    /// The version was requested; its line.
    Version(String),
    /// An allocation failed.
    NoMemory,
}

impl From<AllocError> for ArgumentFault {
    ghost from_gives = { λ _ e. e ≡ NoMemory };

    fn from(_e: AllocError) -> ArgumentFault {
        ArgumentFault::NoMemory
    }
}

impl<T: Drop> From<AllocFailed<T>> for ArgumentFault {
    ghost from_gives = { λ _ e. e ≡ NoMemory };

    fn from(_e: AllocFailed<T>) -> ArgumentFault {
        ArgumentFault::NoMemory
    }
}

/// clap's text; help ends with the program's version.
fn text_of(alloc: Global, error: &Error) -> Result<String, AllocError> {
    match error.kind() {
        ErrorKind::DisplayHelp => format!(in alloc; "{error}\nVersion {VERSION}\n"),
        _ => format!(in alloc; "{error}"),
    }
}

impl ArgumentFault {
    /// clap's error, with its text.
    pub(crate) fn of(alloc: Global, error: Error) -> ArgumentFault
        ensures { IsOfKind (kind_of error) result }
    {
        let kind = error.kind();
        let Ok(text) = text_of(alloc, &error) else {
            return ArgumentFault::NoMemory;
        };
        match kind {
            ErrorKind::OutOfMemory => ArgumentFault::NoMemory,
            ErrorKind::DisplayHelp => ArgumentFault::Help(text),
            ErrorKind::DisplayVersion => ArgumentFault::Version(text),
            _ => ArgumentFault::Bad(text),
        }
    }
}
