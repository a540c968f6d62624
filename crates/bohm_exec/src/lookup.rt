//! Looking up, on the board, the cells that a position needs.

ghost use Rattle.std.specs.Prelude.{◌≡◌, IfSome, IsNone};
ghost use Rattle.bohm_board.specs.Batches.{accesses_in};
ghost use Rattle.bohm_board.specs.Passes.{KnowsWanted};
ghost use Rattle.bohm_exec.specs.Handed.{WantsAllOf, KnowsAll, AreFound, IsReady};
ghost use Rattle.bohm_exec.specs.Steps.{IsMissing, IsPassFor, Looks, batch_on, seen_by};

use crate::stepper::Stepper;
use crate::sweeper::Sweeper;
use crate::wanted::{count, slot_at};
use bohm_place::DeclaredSet;
use bohm_types::{Cell, MOST_KEYS};

impl Stepper<'_, '_> {
    /// Copies the cells of those accesses of a declared set that take a version of the batch, each
    /// to its key's index. Returns the producer of the first version that isn't available yet.
    fn find(&mut self, t: u32, set: DeclaredSet, cells: &mut [Cell; MOST_KEYS]) -> Option<u32>
        requires pass { IsPassFor self.old t }
        requires wanted { WantsAllOf (batch_on self.old) t set }
        ensures looks { Looks self.old self.new }
        ensures missing { IfSome result (IsMissing self.old t) }
        ensures known { IsNone result →
            KnowsAll (batch_on self.old) (seen_by self.new)
            (accesses_in set (batch_on self.old) t) }
        ensures found { IsNone result →
            AreFound (batch_on self.old) (accesses_in set (batch_on self.old) t) cells.new }
    {
        let board = self.board;
        let pass = &mut *self.pass;
        let batch = board.batch();
        for index in 0..count(batch, t, set) {
            if let Some(slot) = slot_at(batch, t, set, index as u32) {
                match board.look(pass, slot) {
                    Some(cell) => cells[index] = cell,
                    None => return Some(slot.txn),
                }
            }
        }
        None
    }
}

impl<G> Sweeper<'_, '_, G> {
    /// Copies the cells of all versions of the batch that a position wants: for its reads and,
    /// unless it is sure, for its writes. Returns the producer of the first version that isn't
    /// available yet.
    pub(crate) fn find_wanted(&mut self, t: u32) -> Option<u32>
        requires pass { IsPassFor self.old.stepper t }
        ensures looks { Looks self.old.stepper self.new.stepper }
        ensures stack { self.new.stack.now ≡ self.old.stack.now }
        ensures evaluations { self.new.evaluator.evaluations ≡ self.old.evaluator.evaluations }
        ensures missing { IfSome result (IsMissing self.old.stepper t) }
        ensures known { IsNone result →
            KnowsWanted (batch_on self.old.stepper) (seen_by self.new.stepper) t }
        ensures ready { IsNone result → IsReady (batch_on self.old.stepper) t self.new.evaluator }
    {
        let evaluator = &mut self.evaluator;
        let stepper = &mut self.stepper;
        match stepper.find(t, DeclaredSet::Reads, &mut evaluator.reads) {
            Some(u) => Some(u),
            None => {
                evaluator.sure = stepper.board.batch().sure(t);
                if evaluator.sure {
                    None
                } else {
                    stepper.find(t, DeclaredSet::Writes, &mut evaluator.earlier)
                }
            }
        }
    }
}
