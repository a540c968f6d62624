//! The state of one worker.

ghost use Rattle.std.specs.Prelude.{◌≡◌};

use crate::evaluation::Evaluator;
use crate::stepper::Stepper;
use bohm_board::{Board, Pass};
use bohm_txn::Scratch;

/// What a worker uses for one position after another.
#[derive(Drop)]
pub(crate) struct Sweeper<'a, 'b, G> {
    pub(crate) stepper: Stepper<'a, 'b>,
    /// Has capacity for all positions of the batch, and is empty between two calls of `pursue`.
    pub(crate) stack: &'a mut Vec<u32>,
    pub(crate) gate: &'a G,
    pub(crate) evaluator: Evaluator<'a>,
}

impl<'a, 'b, G> Sweeper<'a, 'b, G> {
    pub(crate) fn new(
        board: &'a Board<'b>,
        pass: &'a mut Pass,
        stack: &'a mut Vec<u32>,
        gate: &'a G,
        scratch: &'a mut Scratch,
        evaluations: u64,
    ) -> Sweeper<'a, 'b, G>
        ensures board { result.stepper.board.now ≡ board.now }
        ensures pass { result.stepper.pass.now ≡ pass.old }
        ensures same_pass { result.stepper.pass.ghost_name ≡ pass.entry.ghost_name }
        ensures stack { result.stack.now ≡ stack.old }
        ensures evaluations { result.evaluator.evaluations ≡ evaluations }
    {
        Sweeper {
            stepper: Stepper { board, pass },
            stack,
            gate,
            evaluator: Evaluator::new(scratch, evaluations),
        }
    }
}
