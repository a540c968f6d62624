//! Evaluating a transaction.

ghost use Rattle.std.specs.Prelude.{◌≡◌, ℕ, [], length, map};
ghost use Rattle.bohm_txn.specs.declared.outcome.Outcome.TheVariants as outcomes_are;
ghost use Rattle.bohm_txn.specs.declared.outcome.Reason.{Reason};
ghost use Rattle.bohm_txn.specs.Faulty.{IsWellFormedTxn};
ghost use Rattle.bohm_txn.specs.Meaning.{Look, body};
ghost use Rattle.bohm_txn.specs.Serial.{outcome_of, shows_of, after};
ghost use Rattle.bohm_txn.specs.Sure.{IsSure};

use crate::outcome::Outcome;
use crate::scratch::Scratch;
use bohm_log::TxnView;
use bohm_types::Cell;

/// Runs a transaction over any store in which its declared reads have the cells `reads` and, unless
/// it is sure, its declared writes have the cells `earlier`. Afterwards the scratch has the cells
/// of the declared writes after the transaction, and the shown values. It allocates nothing.
///
/// The time grows with the terms of the body. A term holds its key's index; a local is searched for
/// among the bound ones.
pub fn eval(txn: &TxnView<'_>, reads: &[Cell], earlier: &[Cell], scratch: &mut Scratch) -> Outcome
    requires well { IsWellFormedTxn txn.now }
    requires reads { length txn.now.reads ≡ length reads.now }
    requires earlier { length txn.now.writes ≡ length earlier.now }
    ensures outcome { (look : Look) → map look txn.now.reads ≡ reads.now
        → outcome_of (body look txn.now) ≡ result }
    ensures shows { (look : Look) → map look txn.now.reads ≡ reads.now
        → shows_of (body look txn.now) ≡ scratch.new.shows }
    ensures cells { (look : Look) → map look txn.now.reads ≡ reads.now
        → map look txn.now.writes ≡ earlier.now
        → map (after look txn.now) txn.now.writes ≡ scratch.new.cells }
    ensures sure { IsSure txn.now → (look : Look) → map look txn.now.reads ≡ reads.now
        → map (after look txn.now) txn.now.writes ≡ scratch.new.cells }
{
    let placed = txn.placed();
    match scratch.work.run(txn.edition(), &placed, reads, earlier) {
        Ok(()) => Outcome::Commit,
        Err((reason, stmt)) => {
            scratch.work.take_back(earlier);
            Outcome::Abort { reason, stmt }
        }
    }
}

/// Runs a transaction as `eval` does, in place: over any store in which its declared reads and its
/// declared writes have the cells that the scratch was given. After a commit the scratch has the
/// cells of the declared writes, and the shown values; after an abort it has neither. It allocates
/// nothing, and copies no cell.
pub fn eval_in_place(txn: &TxnView<'_>, scratch: &mut Scratch) -> Outcome
    requires well { IsWellFormedTxn txn.now }
    requires reads { length txn.now.reads ≡ length scratch.old.seen }
    requires earlier { length txn.now.writes ≡ length scratch.old.cells }
    ensures outcome { (look : Look) → map look txn.now.reads ≡ scratch.old.seen
        → outcome_of (body look txn.now) ≡ result }
    ensures shows { (look : Look) → map look txn.now.reads ≡ scratch.old.seen
        → shows_of (body look txn.now) ≡ scratch.new.shows }
    ensures cells { result ≡ outcomes_are.Commit → (look : Look)
        → map look txn.now.reads ≡ scratch.old.seen → map look txn.now.writes ≡ scratch.old.cells
        → map (after look txn.now) txn.now.writes ≡ scratch.new.cells }
    ensures none { (reason : Reason) (stmt : ℕ) → result ≡ outcomes_are.Abort reason stmt
        → scratch.new.cells ≡ [] }
{
    let placed = txn.placed();
    match scratch.work.run_in_place(txn.edition(), &placed) {
        Ok(()) => Outcome::Commit,
        Err((reason, stmt)) => {
            scratch.work.clear();
            Outcome::Abort { reason, stmt }
        }
    }
}
