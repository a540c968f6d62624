//! Passes: the tokens that threads step with.

ghost use Rattle.std.specs.Prelude.{◌≡◌, []};
ghost use Rattle.bohm_board.specs.Views.{IsKept};

use crate::knowledge::View;
use atomic_table::Seat;

/// The token with which a thread steps on a board. Its ghost view is what it has observed. If a
/// pass is dropped, the position that it held stays Busy forever.
#[derive(Drop)]
pub struct Pass {
    pub(crate) seat: Seat<(), View>,
    // The timestamp of the batch's first transaction.
    pub(crate) first: u32,
    // The position that it holds, counted from the batch's first position.
    pub(crate) held: Option<u32>,
    ghost bare: { seat.me.1 ≡ [] },
    ghost fits: { IsKept seat.me.0 first held },
}
