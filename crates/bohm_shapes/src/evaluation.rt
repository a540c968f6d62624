//! Evaluating a call.

ghost use Rattle.std.specs.Prelude.{◌≡◌, length, map};
ghost use Rattle.bohm_txn.specs.declared.outcome.Outcome.TheVariants as outcomes_are;
ghost use Rattle.bohm_txn.specs.Meaning.{Look, body};
ghost use Rattle.bohm_txn.specs.Serial.{after, outcome_of, shows_of};
ghost use Rattle.bohm_shapes.specs.Calls.{IsCall, txn_of};

use crate::call::Call;
use crate::registers::Registers;
use crate::running::run;
use bohm_txn::Outcome;

/// Runs a call over any store in which its keys have the cells of the registers. After a commit the
/// registers have the keys' cells and the shown values. It allocates nothing. Its time grows with
/// the number of the procedure's terms: no name is compared.
pub fn evaluate(call: &Call<'_>, registers: &mut Registers) -> Outcome
    requires call { IsCall call.now }
    requires cells { length registers.old.cells ≡ length call.now.keys.now }
    ensures outcome { (look : Look) → map look call.now.keys.now ≡ registers.old.cells
        → outcome_of (body look (txn_of call.now)) ≡ result }
    ensures shows { result ≡ outcomes_are.Commit → (look : Look)
        → map look call.now.keys.now ≡ registers.old.cells
        → shows_of (body look (txn_of call.now)) ≡ registers.new.shows }
    ensures cells { result ≡ outcomes_are.Commit → (look : Look)
        → map look call.now.keys.now ≡ registers.old.cells
        → map (after look (txn_of call.now)) call.now.keys.now ≡ registers.new.cells }
{
    match run(call, &mut registers.work) {
        Ok(()) => Outcome::Commit,
        Err((reason, stmt)) => Outcome::Abort { reason, stmt },
    }
}
