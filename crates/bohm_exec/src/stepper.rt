//! A pass with its board.

use bohm_board::{Board, Pass};

/// A pass, and the board that it steps on.
#[derive(Drop)]
pub(crate) struct Stepper<'a, 'b> {
    pub(crate) board: &'a Board<'b>,
    pub(crate) pass: &'a mut Pass,
}
