//! Evaluating one position after the positions that it depends on.

ghost use Rattle.std.specs.Prelude.{◌≡◌, ◌∷◌, [], ◌++◌, MatchOption};
ghost use Rattle.bohm_board.specs.Batches.{Leads};
ghost use Rattle.bohm_board.specs.Passes.{IsDone, Keeps};
ghost use Rattle.bohm_exec.specs.Counts.{AreCounted};
ghost use Rattle.bohm_exec.specs.Steps.{IsEmptyFor, IsFree, IsFreeFor, IsSame, batch_on, seen_by};

use crate::gate::Gate;
use crate::step::Step;
use crate::sweeper::Sweeper;

impl<G: Gate> Sweeper<'_, '_, G> {
    /// Evaluates a position after all positions that it leads to. If another pass holds one of
    /// these, it stops, and returns the held position.
    pub(crate) fn pursue(&mut self, start: u32) -> Option<u32>
        requires start { IsFreeFor self.old.stepper start }
        requires stack { IsEmptyFor (batch_on self.old.stepper) self.old.stack.now }
        ensures same { IsSame self.old.stepper self.new.stepper }
        ensures free { IsFree self.old.stepper.board.now self.new.stepper.pass.now }
        ensures stack { IsEmptyFor (batch_on self.old.stepper) self.new.stack.now }
        ensures counted { AreCounted self.old.evaluator.evaluations (seen_by self.old.stepper)
            self.new.evaluator.evaluations (seen_by self.new.stepper) }
        ensures keeps { Keeps (seen_by self.old.stepper) (seen_by self.new.stepper) }
        ensures done { MatchOption result
            (IsDone (batch_on self.old.stepper) (seen_by self.new.stepper) start)
            (Leads (batch_on self.old.stepper) start) }
        ensures busy { MatchOption result
            ((seen_by self.new.stepper).busy ≡ (seen_by self.old.stepper).busy)
            (λ v. (seen_by self.new.stepper).busy ≡ (seen_by self.old.stepper).busy ++ v ∷ []) }
    {
        let Ok(()) = self.stack.push(start) else {
            unreachable!()
        };
        'descent: loop {
            let top = self.stack[self.stack.len() - 1];
            match self.step_on(top) {
                Step::Done => {
                    self.stack.pop();
                    if self.stack.is_empty() {
                        return None;
                    }
                }
                Step::Busy => {
                    self.stack.clear();
                    return Some(top);
                }
                Step::Needs(u) => {
                    let Ok(()) = self.stack.push(u) else {
                        unreachable!()
                    };
                }
            }
        }
    }
}
