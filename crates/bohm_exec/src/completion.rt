//! Evaluating the positions that no sweep finished.

ghost use Rattle.std.specs.Prelude.{◌≡◌, ◌≢◌, ◌+◌, ◌<◌, ◌≤◌, ℕ, length, true};
ghost use Rattle.bohm_board.specs.Batches.{accesses_in, txns_of, IsIn, position, width_at};
ghost use Rattle.bohm_board.specs.Closings.{batch_of_closed, status_in, IsFinished, IsUnfinished};
ghost use Rattle.bohm_board.specs.Closings.{unfinished_in, HasCell};
ghost use Rattle.bohm_exec.specs.Answers.{batch_of_finished, evaluations_of, IsFinishedBefore};
ghost use Rattle.bohm_exec.specs.Asides.{IsSetAside};
ghost use Rattle.bohm_exec.specs.Counts.{counted_on};
ghost use Rattle.bohm_exec.specs.Handed.{WantsAllOf, AreFound, AreRightSlots, slot_of};

use crate::aside::Aside;
use crate::evaluation::Evaluator;
use crate::finished::Finished;
use crate::wanted::{count, slot_at};
use bohm_board::{Closed, Slot};
use bohm_place::DeclaredSet;
use bohm_txn::Scratch;
use bohm_types::{Cell, MOST_KEYS};

/// Copies the cells of those accesses of a declared set that take a version of the batch, each to
/// its key's index.
fn take_cells(closed: &Closed, t: u32, set: DeclaredSet, cells: &mut [Cell; MOST_KEYS])
    requires inside { IsIn (batch_of_closed closed.now) t }
    requires before { IsFinishedBefore closed.now t }
    requires wanted { WantsAllOf (batch_of_closed closed.now) t set }
    ensures { AreFound (batch_of_closed closed.now)
        (accesses_in set (batch_of_closed closed.now) t) cells.new }
{
    let batch = closed.batch();
    for index in 0..count(batch, t, set) {
        if let Some(slot) = slot_at(batch, t, set, index as u32) {
            match closed.cell(slot) {
                Some(cell) => cells[index] = cell,
                None => unreachable!(),
            }
        }
    }
}

/// Stores the cells of all slots of a position without an outcome.
fn put_cells(closed: &mut Closed, t: u32, evaluator: &Evaluator)
    requires inside { IsIn (batch_of_closed closed.old) t }
    requires unfinished { IsUnfinished closed.old t }
    requires right { AreRightSlots (batch_of_closed closed.old) t evaluator.now.scratch.now }
    ensures batch { batch_of_closed closed.new ≡ batch_of_closed closed.old }
    ensures statuses { (u : ℕ) → status_in closed.new u ≡ status_in closed.old u }
    ensures left { unfinished_in closed.new ≡ unfinished_in closed.old }
    ensures all { (j : ℕ) →
        j < width_at (batch_of_closed closed.old) t → HasCell closed.new (slot_of t j) }
{
    let width = closed.batch().width(t);
    for index in 0..width {
        closed.set_cell(Slot { txn: t, index }, evaluator.slot_cell(index));
    }
}

/// Evaluates a position without an outcome, once all positions before it have one.
fn evaluate_left(closed: &mut Closed, t: u32, evaluator: &mut Evaluator)
    requires inside { IsIn (batch_of_closed closed.old) t }
    requires unfinished { IsUnfinished closed.old t }
    requires before { IsFinishedBefore closed.old t }
    ensures batch { batch_of_closed closed.new ≡ batch_of_closed closed.old }
    ensures finished { IsFinished closed.new t }
    ensures left { unfinished_in closed.new + 1 ≡ unfinished_in closed.old }
    ensures counted { evaluator.new.evaluations ≡ counted_on evaluator.old.evaluations 1 }
    ensures others { (u : ℕ) →
        position (batch_of_closed closed.old) u ≢ position (batch_of_closed closed.old) t →
        status_in closed.new u ≡ status_in closed.old u }
{
    take_cells(closed, t, DeclaredSet::Reads, &mut evaluator.reads);
    evaluator.sure = closed.batch().sure(t);
    if !evaluator.sure {
        take_cells(closed, t, DeclaredSet::Writes, &mut evaluator.earlier);
    }
    let outcome = evaluator.evaluate(closed.batch(), t);
    put_cells(closed, t, evaluator);
    closed.set_outcome(t, outcome);
}

/// Whether no position was deferred.
fn are_empty(asides: &[Aside]) -> bool
    ensures { result ≡ true → (t : ℕ) → ¬ IsSetAside asides.now t }
{
    for aside in asides {
        if !aside.pairs().is_empty() {
            return false;
        }
    }
    true
}

/// Evaluates, in log order, each position without an outcome. It allocates nothing. Each such
/// position was deferred by a sweep, so that one of the `Aside`s contains it: if they are empty,
/// the time grows only with their number, otherwise also with the number of positions.
///
/// The sweeps made this many evaluations, at most as many as they finished positions. Each position
/// without an outcome is evaluated once, and no other.
pub fn complete<'a>(
    mut closed: Closed<'a>,
    asides: &[Aside],
    scratch: &mut Scratch,
    evaluations: u64,
) -> Finished<'a>
    requires aside { (t : ℕ) →
        IsIn (batch_of_closed closed) t → IsUnfinished closed t → IsSetAside asides.now t }
    requires counted { evaluations + unfinished_in closed
        ≤ length (txns_of (batch_of_closed closed)) }
    ensures batch { batch_of_finished result ≡ batch_of_closed closed.entry }
    ensures counted { evaluations_of result ≡ evaluations + unfinished_in closed.entry }
{
    if are_empty(asides) {
        return Finished::new(closed, evaluations);
    }
    let mut evaluator = Evaluator::new(scratch, evaluations);
    let (first, len) = (closed.batch().first(), closed.batch().len());
    for distance in 0..len {
        let t = first + distance;
        if closed.outcome(t).is_none() {
            evaluate_left(&mut closed, t, &mut evaluator);
        }
    }
    Finished::new(closed, evaluator.evaluations())
}
