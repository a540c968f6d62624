//! Why a text could not be read.

use bohm_log::{CloseFault, LogFault, SumFault};
use std::alloc::{AllocError, AllocFailed};

/// Why a line could not be read.
#[derive(Clone, Copy, Debug, PartialEq, Eq)]
pub enum ReadFault {
    /// It isn't spelled like any line that is allowed there.
    Bad,
    NoMemory,
}

impl From<AllocError> for ReadFault {
    ghost use Rattle.std.specs.Prelude.{◌≡◌};
    ghost use Rattle.bohm_text.specs.declared.fault.ReadFault.TheVariants.{NoMemory};

    ghost from_gives = { λ _ e. e ≡ NoMemory };

    fn from(_e: AllocError) -> ReadFault {
        ReadFault::NoMemory
    }
}

impl<T: Drop> From<AllocFailed<T>> for ReadFault {
    ghost use Rattle.std.specs.Prelude.{◌≡◌};
    ghost use Rattle.bohm_text.specs.declared.fault.ReadFault.TheVariants.{NoMemory};

    ghost from_gives = { λ _ e. e ≡ NoMemory };

    fn from(_e: AllocFailed<T>) -> ReadFault {
        ReadFault::NoMemory
    }
}

impl From<bohm_types::NoMemory> for ReadFault {
    ghost use Rattle.std.specs.Prelude.{◌≡◌};
    ghost use Rattle.bohm_text.specs.declared.fault.ReadFault.TheVariants.{NoMemory};

    ghost from_gives = { λ _ e. e ≡ NoMemory };

    fn from(_e: bohm_types::NoMemory) -> ReadFault {
        ReadFault::NoMemory
    }
}

/// Indices have 32 bits, and each key, term and statement takes its own bytes of the text. So a
/// log, or a transaction, that was read from at most 4 GiB is never `Full`: only longer texts fail
/// with `NoMemory` for that reason.
impl From<LogFault> for ReadFault {
    ghost use Rattle.std.specs.Prelude.{◌≡◌};
    ghost use Rattle.bohm_text.specs.declared.fault.ReadFault.TheVariants.{NoMemory};

    ghost from_gives = { λ _ e. e ≡ NoMemory };

    fn from(_e: LogFault) -> ReadFault {
        ReadFault::NoMemory
    }
}

/// A statement whose sum has no terms isn't a valid line.
impl From<SumFault> for ReadFault {
    ghost use Rattle.std.specs.Prelude.{◌≡◌};
    ghost use Rattle.bohm_text.specs.Taking.{read_fault_of};

    ghost from_gives = { λ fault e. e ≡ read_fault_of fault };

    fn from(fault: SumFault) -> ReadFault {
        match fault {
            SumFault::Empty => ReadFault::Bad,
            SumFault::Log(_) => ReadFault::NoMemory,
        }
    }
}

/// `Open` counts as a bad line. No text causes it, since a line spells a whole statement.
impl From<CloseFault> for ReadFault {
    ghost use Rattle.std.specs.Prelude.{◌≡◌};
    ghost use Rattle.bohm_text.specs.Taking.{closing_fault_of};

    ghost from_gives = { λ fault e. e ≡ closing_fault_of fault };

    fn from(fault: CloseFault) -> ReadFault {
        match fault {
            CloseFault::Open => ReadFault::Bad,
            CloseFault::Log(_) => ReadFault::NoMemory,
        }
    }
}

/// Why a text isn't a document's. A complete line is one that ends with a newline.
#[derive(Clone, Copy, Debug, PartialEq, Eq)]
pub enum TextFault {
    /// The complete lines before this one are a prefix of a document's text, but with this one they
    /// aren't. Lines are counted from 1.
    Line(u64),
    /// The complete lines are a prefix of a document's text, but the text isn't a document's.
    Short,
    /// An allocation failed, or a column has run out of 32-bit indices, which takes more than 4 GiB
    /// of text.
    NoMemory,
}

/// Why a window's text isn't the text of whole transactions. Its lines are counted from 1.
#[derive(Clone, Copy, Debug, PartialEq, Eq)]
pub enum WindowFault {
    /// The complete lines before this one are a prefix of transactions, but with this one they
    /// aren't.
    Line(u64),
    /// The text ends inside a transaction, inside a line, or inside the head and the store of a
    /// first window. Its complete lines, of this number, are a prefix of what a window has.
    Open(u64),
    /// An allocation failed, or a column has run out of 32-bit indices, which takes more than 4 GiB
    /// of text.
    NoMemory,
}

impl From<WindowFault> for TextFault {
    ghost use Rattle.std.specs.Prelude.{◌≡◌};
    ghost use Rattle.bohm_text.specs.Parse.{text_fault_of};

    ghost from_gives = { λ fault e. e ≡ text_fault_of fault };

    fn from(fault: WindowFault) -> TextFault {
        match fault {
            WindowFault::Line(n) => TextFault::Line(n),
            WindowFault::Open(_) => TextFault::Short,
            WindowFault::NoMemory => TextFault::NoMemory,
        }
    }
}
