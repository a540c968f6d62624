//! Why a segment isn't run.

ghost use Rattle.std.specs.Prelude.{◌≡◌};
ghost use Rattle.bohm_machine.specs.declared.fault.BatchFault.TheVariants as batch_is;
ghost use Rattle.bohm_machine.specs.declared.fault.ShareFault.TheVariants as share_is;
ghost use Rattle.bohm_machine.specs.declared.fault.SingleFault.TheVariants as single_is;

use bohm_types::NoMemory;
use thiserror::Error;

/// Why a machine refuses a segment before any of it runs.
#[derive(Clone, Copy, Debug, PartialEq, Eq, Error)]
pub enum SegmentFault {
    /// It has a starting store.
    #[error("the segment has a store")]
    Store,
    /// Its timestamps would exceed 4294967295.
    #[error("the segment's timestamps would pass 4294967295")]
    Timestamps,
}

/// Why a batch isn't run.
#[derive(Clone, Copy, Debug, PartialEq, Eq, Error)]
pub enum BatchFault {
    /// The machine refuses it as a segment.
    #[error("{0}")]
    Segment(SegmentFault),
    /// An allocation failed.
    #[error("an allocation failed")]
    NoMemory,
}

impl From<SegmentFault> for BatchFault {
    ghost from_gives = { λ fault e. e ≡ batch_is.Segment fault };

    fn from(fault: SegmentFault) -> BatchFault {
        BatchFault::Segment(fault)
    }
}

impl From<NoMemory> for BatchFault {
    ghost from_gives = { λ _ e. e ≡ batch_is.NoMemory };

    fn from(_e: NoMemory) -> BatchFault {
        BatchFault::NoMemory
    }
}

/// Why calls aren't shared among workers.
#[derive(Clone, Copy, Debug, PartialEq, Eq, Error)]
pub enum ShareFault {
    /// The machine refuses them as a segment.
    #[error("{0}")]
    Segment(SegmentFault),
    /// One worker runs them in less time.
    #[error("one worker runs these calls in less time")]
    InOrder,
    /// An allocation failed.
    #[error("an allocation failed")]
    NoMemory,
}

impl From<SegmentFault> for ShareFault {
    ghost from_gives = { λ fault e. e ≡ share_is.Segment fault };

    fn from(fault: SegmentFault) -> ShareFault {
        ShareFault::Segment(fault)
    }
}

impl From<NoMemory> for ShareFault {
    ghost from_gives = { λ _ e. e ≡ share_is.NoMemory };

    fn from(_e: NoMemory) -> ShareFault {
        ShareFault::NoMemory
    }
}

/// Why a single call isn't run.
#[derive(Clone, Copy, Debug, PartialEq, Eq, Error)]
pub enum SingleFault {
    /// Only a list of calls can run it.
    #[error("the call runs in a list alone")]
    InList,
    /// Its timestamp would exceed 4294967295.
    #[error("the call's timestamp would pass 4294967295")]
    Timestamps,
    /// An allocation failed.
    #[error("an allocation failed")]
    NoMemory,
}

impl From<NoMemory> for SingleFault {
    ghost from_gives = { λ _ e. e ≡ single_is.NoMemory };

    fn from(_e: NoMemory) -> SingleFault {
        SingleFault::NoMemory
    }
}
