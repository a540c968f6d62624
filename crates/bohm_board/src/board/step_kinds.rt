//! The seven kinds of atomic steps, and how views are split and joined.

ghost use Rattle.bohm_board.specs.Views.{spent_view, after_split, after_join};
ghost use Rattle.bohm_board.specs.Steps.{MeetsStatus, MeetsClaim, MeetsFinish, MeetsPresence};
ghost use Rattle.bohm_board.specs.Steps.{MeetsValue, MeetsStore, MeetsFill};

use crate::knowledge::View;
use atomic_table::{Join, Play, Split};

/// A load of a status word.
pub(crate) struct SeeStatus;

impl Play<(), View> for SeeStatus {
    ghost then = { MeetsStatus };
}

/// An exchange of a status word from 0 to 1.
pub(crate) struct Claim;

impl Play<(), View> for Claim {
    ghost then = { MeetsClaim };
}

/// A store of a status word.
pub(crate) struct Finish;

impl Play<(), View> for Finish {
    ghost then = { MeetsFinish };
}

/// A load of a presence word.
pub(crate) struct LookPresence;

impl Play<(), View> for LookPresence {
    ghost then = { MeetsPresence };
}

/// A load of a value word.
pub(crate) struct LookValue;

impl Play<(), View> for LookValue {
    ghost then = { MeetsValue };
}

/// A store of a value word.
pub(crate) struct FillValue;

impl Play<(), View> for FillValue {
    ghost then = { MeetsStore };
}

/// A store of a presence word.
pub(crate) struct FillPresence;

impl Play<(), View> for FillPresence {
    ghost then = { MeetsFill };
}

/// Both new passes know what the split pass knew, and the first keeps the positions that it
/// finished.
pub(crate) struct Share;

impl Split<View> for Share {
    ghost left = { λ v. v };

    ghost right = { after_split };
}

/// The joined pass knows what the two passes knew.
pub(crate) struct Unite;

impl Join<View> for Unite {
    ghost both = { after_join };

    ghost spent = { spent_view };
}
