//! Single calls, without a log.

ghost use Rattle.std.specs.Prelude.{◌≡◌, ◌+◌, ◌<◌, ◌≤◌, ◌^◌, ◌++◌, ◌∷◌, [], OnOk, OnErr};
ghost use Rattle.bohm_types.specs.Txn.{Txn};
ghost use Rattle.bohm_txn.specs.Meaning.{body};
ghost use Rattle.bohm_txn.specs.Serial.{replies, reply_of};
ghost use Rattle.bohm_shapes.specs.Calls.{IsCall, txn_of};
ghost use Rattle.bohm_store.specs.Runs.{IsRunOf};
ghost use Rattle.bohm_store.specs.Versions.{past};
ghost use Rattle.bohm_apply.specs.Runs.{IsApplied, IsStillPast};

use crate::serial_executor::SerialExecutor;
use bohm_hints::IndexHints;
use bohm_shapes::Call;
use bohm_store::History;
use bohm_txn::Replies;
use bohm_types::NoMemory;

impl SerialExecutor {
    /// Runs the call that follows the history's top, and appends its reply. No transaction is made.
    /// An error leaves the visible state unchanged, and appends nothing.
    ///
    /// The hints are those of the names of the call's keys; the indexes that were found are noted
    /// in them. The time grows with the terms of the procedure; after an error it also grows with
    /// the number of the history's keys.
    pub fn run_call(
        &mut self,
        history: &mut History,
        answered: &mut Replies,
        call: &Call<'_>,
        hints: &mut IndexHints,
        keep: u32,
    ) -> Result<(), NoMemory>
        requires call { IsCall call.now }
        requires runs { (t : Txn) × IsRunOf call.now t }
        requires ordered { history.old.floor ≤ history.old.top }
        requires timestamp { history.old.top + 1 < 2 ^ 32 }
        ensures applied { OnOk result ((t : Txn) → IsRunOf call.now t
            → IsApplied history.old history.new (t ∷ []) keep
            (replies (past history.old history.old.top) (t ∷ []))) }
        ensures answered { OnOk result (answered.new ≡ answered.old
            ++ reply_of (body (past history.old history.old.top) (txn_of call.now)) ∷ []) }
        ensures same { OnErr result (IsStillPast history.old history.new) }
        ensures unanswered { OnErr result (answered.new ≡ answered.old) }
    {
        let top = history.top();
        let (workspace, registers) = (&mut self.workspace, &mut self.registers);
        // All versions are kept until the reply is appended, so that the call can be undone.
        let outcome = history.run_call(call, u32::MAX, hints, workspace, registers)?;
        if let Err(refusal) = answered.push(outcome, registers.shows()) {
            history.rewind(top);
            return Err(refusal);
        }
        history.trim(history.top().saturating_sub(keep));
        Ok(())
    }
}
