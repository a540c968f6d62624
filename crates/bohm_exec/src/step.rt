//! One step of a sweeper on one position.

ghost use Rattle.std.specs.Prelude.{◌≡◌};
ghost use Rattle.bohm_exec.specs.Counts.{AreCounted};
ghost use Rattle.bohm_exec.specs.Steps.{IsFreeFor, Steps, seen_by};

use crate::gate::{Gate, Point};
use crate::sweeper::Sweeper;
use bohm_board::{Claimed, Status};

/// The result of a step on a position.
#[derive(Clone, Copy)]
pub(crate) enum Step {
    /// It is Done.
    Done,
    /// Another pass holds it.
    Busy,
    /// The version of this transaction is needed first.
    Needs(u32),
}

impl<G: Gate> Sweeper<'_, '_, G> {
    /// Claims a position and evaluates it, if the versions that it wants are available.
    fn attempt(&mut self, t: u32) -> Step
        requires { IsFreeFor self.old.stepper t }
        ensures step_on { Steps self.old.stepper t result self.new.stepper }
        ensures stack { self.new.stack.now ≡ self.old.stack.now }
        ensures counted { AreCounted self.old.evaluator.evaluations (seen_by self.old.stepper)
            self.new.evaluator.evaluations (seen_by self.new.stepper) }
    {
        if let Some(u) = self.find_wanted(t) {
            return Step::Needs(u);
        }
        match self.stepper.board.claim(self.stepper.pass, t) {
            Claimed::Mine => {
                self.gate.at(Point::Claimed(t));
                let outcome = self.evaluator.evaluate(self.stepper.board.batch(), t);
                self.settle(t, outcome);
                self.gate.at(Point::Finished(t));
                Step::Done
            }
            Claimed::Busy => Step::Busy,
            Claimed::Done => Step::Done,
        }
    }

    /// A step on a position. A position that is Done or Busy is left unchanged.
    pub(crate) fn step_on(&mut self, t: u32) -> Step
        requires { IsFreeFor self.old.stepper t }
        ensures step_on { Steps self.old.stepper t result self.new.stepper }
        ensures stack { self.new.stack.now ≡ self.old.stack.now }
        ensures counted { AreCounted self.old.evaluator.evaluations (seen_by self.old.stepper)
            self.new.evaluator.evaluations (seen_by self.new.stepper) }
    {
        match self.stepper.board.status(self.stepper.pass, t) {
            Status::Open => self.attempt(t),
            Status::Busy => Step::Busy,
            Status::Done => Step::Done,
        }
    }
}
