//! Filling a position's slots, and finishing the position.

ghost use Rattle.std.specs.Prelude.{◌≡◌, ◌+◌, length};
ghost use Rattle.bohm_board.specs.Batches.{IsRightOutcome};
ghost use Rattle.bohm_exec.specs.Handed.{AreRightSlots};
ghost use Rattle.bohm_exec.specs.Steps.{HasClaimed, Steps, batch_on, seen_by};
ghost use Rattle.bohm_exec.specs.declared.step.Step.TheVariants.{Done};

use crate::sweeper::Sweeper;
use bohm_board::Slot;
use bohm_txn::Outcome;

impl<G> Sweeper<'_, '_, G> {
    /// Fills all slots of the position that the pass holds, and stores its outcome.
    pub(crate) fn settle(&mut self, t: u32, outcome: Outcome)
        requires claimed { HasClaimed self.old.stepper t }
        requires outcome { IsRightOutcome (batch_on self.old.stepper) t outcome }
        requires all { AreRightSlots (batch_on self.old.stepper) t self.old.evaluator.scratch.now }
        ensures step_on { Steps self.old.stepper t Done self.new.stepper }
        ensures stack { self.new.stack.now ≡ self.old.stack.now }
        ensures finished { length (seen_by self.new.stepper).finished
            ≡ length (seen_by self.old.stepper).finished + 1 }
        ensures evaluations { self.new.evaluator.evaluations ≡ self.old.evaluator.evaluations }
    {
        let board = self.stepper.board;
        let pass = &mut *self.stepper.pass;
        let width = board.batch().width(t);
        for index in 0..width {
            board.fill(
                pass,
                Slot { txn: t, index },
                self.evaluator.slot_cell(index),
            );
        }
        board.finish(pass, t, outcome);
    }
}
