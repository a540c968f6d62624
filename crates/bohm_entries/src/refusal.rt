//! Why an entry is refused.

use bohm_txn::CheckFault;
use std::alloc::AllocFailed;

/// Why an entry isn't stored.
#[derive(Clone, Copy, Debug, PartialEq, Eq)]
pub enum Refusal {
    /// The first line begins no entry, or has a byte that its form doesn't allow.
    Shape,
    /// This line is the first bad one: of a definition, of the procedure's text. Lines are counted
    /// from 1.
    Line(u64),
    /// The text ends early.
    Short,
    /// The check's fault in the transaction alone, or in the procedure's own instance.
    Check(CheckFault),
    /// No procedure has the name.
    Procedure,
    /// The procedure has another number of parameters.
    Arguments,
    /// An argument for a value isn't one.
    Value,
    /// An argument for a key isn't one.
    Key,
    /// The id is known with another entry.
    Id,
    /// The entry has more than 1,048,576 bytes.
    Large,
}

/// Why an entry isn't taken.
#[derive(Clone, Copy, Debug, PartialEq, Eq)]
pub enum EntryFault {
    /// It is refused, and isn't stored.
    Refused(Refusal),
    /// An allocation failed.
    NoMemory,
}

impl<T: Drop> From<AllocFailed<T>> for EntryFault {
    ghost use Rattle.std.specs.Prelude.{◌≡◌};
    ghost use Rattle.bohm_entries.specs.declared.refusal.EntryFault.TheVariants.{NoMemory};

    ghost from_gives = { λ _ e. e ≡ NoMemory };

    fn from(_e: AllocFailed<T>) -> EntryFault {
        EntryFault::NoMemory
    }
}
