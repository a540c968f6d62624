//! A sweep of a share of the positions.

ghost use Rattle.std.specs.Prelude.{◌≡◌, All, IfOk, OnErr};
ghost use Rattle.bohm_board.specs.Batches.{IsIn};
ghost use Rattle.bohm_board.specs.Passes.{Keeps, batch_of, view};
ghost use Rattle.bohm_exec.specs.Asides.{IsAccountedFor, IsLedToBusy, IsPickedFrom, positions_in};
ghost use Rattle.bohm_exec.specs.Counts.{AreCounted};
ghost use Rattle.bohm_exec.specs.Steps.{IsFree};

use crate::aside::Aside;
use crate::gate::Gate;
use crate::stepper::Stepper;
use crate::sweeper::Sweeper;
use bohm_board::{Board, Pass};
use bohm_txn::Scratch;
use bohm_types::NoMemory;
use std::alloc::Global;

/// Evaluates the positions of the share, in its order, each after all positions that it leads to.
/// If another pass holds one of these, the position is deferred. An error can occur only before the
/// first step: the work stack has room for the batch, and the result for the share.
///
/// The number of evaluations is added to `evaluations`: as many as the pass finished positions.
pub fn sweep<G: Gate>(
    alloc: Global,
    board: &Board,
    pass: &mut Pass,
    share: &[u32],
    gate: &G,
    scratch: &mut Scratch,
    evaluations: &mut u64,
) -> Result<Aside, NoMemory>
    requires free { IsFree board.now pass.old }
    requires inside { All (IsIn (batch_of board.now)) share.now }
    ensures free { IsFree board.now pass.new }
    ensures counted { AreCounted evaluations.old (view pass.old) evaluations.new (view pass.new) }
    ensures refused { OnErr result (view pass.new ≡ view pass.old) }
    ensures keeps { Keeps (view pass.old) (view pass.new) }
    ensures each { IfOk result (λ aside.
        All (IsAccountedFor (batch_of board.now) (view pass.new) aside) share.now) }
    ensures busy { IfOk result (IsLedToBusy (batch_of board.now) (view pass.old) (view pass.new)) }
    ensures order { IfOk result (λ aside. IsPickedFrom (positions_in aside) share.now) }
{
    let mut stack = Vec::with_capacity(alloc, board.batch().len() as usize)?;
    let mut pairs = Vec::with_capacity(alloc, share.len())?;
    let mut sweeper = Sweeper::new(board, pass, &mut stack, gate, scratch, *evaluations);
    for start in share {
        if let Some(busy) = sweeper.pursue(*start) {
            let Ok(()) = pairs.push((*start, busy)) else {
                unreachable!()
            };
        }
    }
    // Destructuring the sweeper ends its borrow of the pass.
    let Sweeper {
        stepper,
        stack: _,
        gate: _,
        evaluator,
    } = sweeper;
    *evaluations = evaluator.evaluations();
    let Stepper {
        board: _,
        pass: _pass,
    } = stepper;
    Ok(Aside::new(pairs))
}
