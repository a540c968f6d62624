//! Runs calls one after another on the history.

ghost use Rattle.std.specs.Prelude.{◌≡◌, ◌+◌, ◌-◌, ◌<◌, ◌≤◌, ◌^◌, [], ◌∷◌, length, map, take};
ghost use Rattle.std.specs.Prelude.{IfOk, Ok, OnOk, OnErr};
ghost use Rattle.std.specs.Map.{keys_of};
ghost use Rattle.bohm_types.specs.Txn.{Txn};
ghost use Rattle.bohm_txn.specs.Meaning.{body};
ghost use Rattle.bohm_txn.specs.Serial.{after, outcome_of, shows_of};
ghost use Rattle.bohm_txn.specs.declared.outcome.Outcome.TheVariants as outcomes_are;
ghost use Rattle.bohm_shapes.specs.Calls.{IsCall, txn_of};
ghost use Rattle.bohm_store.specs.Nexts.{IsSame, IsSettledKept};
ghost use Rattle.bohm_store.specs.Runs.{IsRunOf};
ghost use Rattle.bohm_store.specs.Versions.{past};
ghost use Rattle.bohm_store.specs.Writes.{AreNumbersOf};

use crate::call_keys::{number_first, push_first, push_others};
use crate::history::History;
use crate::workspace::Workspace;
use bohm_hints::IndexHints;
use bohm_shapes::{Call, Registers, SlotKeys, evaluate};
use bohm_txn::Outcome;
use bohm_types::NoMemory;

impl History {
    /// Runs the call that follows the top on the cells that its keys have at the top, as `run_next`
    /// runs the call's instance: no transaction is made. It adds a version for each key that the
    /// procedure declares to write, even if the call aborts, and trims at `keep` timestamps below
    /// the call. The registers then have its shown values.
    ///
    /// An error leaves the visible state unchanged. The time grows with the terms of the procedure,
    /// and with the number of earlier versions that are dropped. A key is hashed only if its number
    /// differs from the one that it had when it was last seen.
    pub fn run_call(
        &mut self,
        call: &Call<'_>,
        keep: u32,
        hints: &mut IndexHints,
        workspace: &mut Workspace,
        registers: &mut Registers,
    ) -> Result<Outcome, NoMemory>
        requires call { IsCall call.now }
        requires runs { (t : Txn) × IsRunOf call.now t }
        requires timestamp { self.old.top + 1 < 2 ^ 32 }
        ensures outcome { IfOk result (λ outcome.
            outcome_of (body (past self.old self.old.top) (txn_of call.now)) ≡ outcome) }
        ensures shows { result ≡ Ok outcomes_are.Commit
            → shows_of (body (past self.old self.old.top) (txn_of call.now)) ≡ registers.new.shows }
        ensures settled { OnOk result ((t : Txn) → IsRunOf call.now t
            → IsSettledKept self.old self.new (t ∷ []) ((self.old.top + 1) - keep)) }
        ensures same { OnErr result (IsSame self.old self.new) }
    {
        let writes = call.shape.writes;
        self.number_first(hints, call.keys, writes, &mut workspace.numbers)?;
        let numbers = workspace.numbers.as_slice();
        let outcome = self.evaluate_call(call, hints, numbers, registers);
        let floor = (self.top() + 1).saturating_sub(keep);
        self.add_versions(numbers, &registers.cells()[..writes], floor)?;
        Ok(outcome)
    }

    // Replaces the contents of the list with the numbers of the first keys. A key without a number
    // gets one.
    fn number_first(
        &mut self,
        hints: &mut IndexHints,
        keys: &SlotKeys<'_>,
        count: usize,
        numbers: &mut Vec<u32>,
    ) -> Result<(), NoMemory>
        requires { count ≤ length keys.now }
        ensures same { IsSame self.old self.new }
        ensures numbers { OnOk result
            (AreNumbersOf (keys_of self.new.chains) numbers.new.items (take count keys.now)) }
    {
        // The call's contract says that a key without a number has no version.
        let _ = self.numbered.len();
        number_first(&mut self.names, hints, keys, count, numbers)
    }

    // Runs a call on the cells that its keys have at the top. The first keys have these numbers.
    // The registers then have the keys' cells: after an abort those of the first keys alone.
    fn evaluate_call(
        &self,
        call: &Call<'_>,
        hints: &mut IndexHints,
        numbers: &[u32],
        registers: &mut Registers,
    ) -> Outcome
        requires call { IsCall call.now }
        requires numbers { AreNumbersOf (keys_of self.now.chains) numbers.now
            (take call.now.shape.now.writes call.now.keys.now) }
        ensures outcome { outcome_of (body (past self.now self.now.top) (txn_of call.now)) ≡ result }
        ensures shows { result ≡ outcomes_are.Commit
            → shows_of (body (past self.now self.now.top) (txn_of call.now)) ≡ registers.new.shows }
        ensures many { call.now.shape.now.writes ≤ length registers.new.cells }
        ensures cells { map (after (past self.now self.now.top) (txn_of call.now))
            (take call.now.shape.now.writes call.now.keys.now)
            ≡ take call.now.shape.now.writes registers.new.cells }
    {
        // The call's contract says that the names are distinct.
        let _ = self.names.table();
        registers.clear();
        push_first(&self.numbered, numbers, registers);
        push_others(
            &self.names,
            &self.numbered,
            hints,
            call.keys,
            numbers.len(),
            registers,
        );
        let outcome = evaluate(call, registers);
        match outcome {
            Outcome::Commit => {}
            Outcome::Abort { .. } => {
                registers.clear();
                push_first(&self.numbered, numbers, registers);
            }
        }
        outcome
    }
}
