//! Runs calls of procedures on a machine.

ghost use Rattle.std.specs.Prelude.{◌≡◌, ◌<◌, ◌++◌, [], length, take, true, is_ok};
ghost use Rattle.std.specs.Prelude.{Err, IfOk, IfErr, OnOk, OnErr};
ghost use Rattle.bohm_txn.specs.Serial.{replies};
ghost use Rattle.bohm_machine.specs.Machines.{GoesOn, now_of};
ghost use Rattle.bohm_machine.specs.Segments.{AreWholeBatches, IsRefused, IsTaken, RunsOn};
ghost use Rattle.bohm_machine.specs.declared.fault.BatchFault.TheVariants as batch_is;
ghost use Rattle.bohm_machine.specs.declared.fault.SegmentFault.{SegmentFault};
ghost use Rattle.bohm_types.specs.Limits.{largest_batch};

use crate::fault::{BatchFault, SegmentFault};
use crate::machine::Machine;
use bohm_apply::Applied;
use bohm_procedures::Calls;
use bohm_txn::Replies;
use std::alloc::Global;

impl Machine {
    /// Runs the calls after the top, as `apply` runs the log of their instances: the replies are
    /// those of the serial run, and the first one is that of the transaction with the timestamp
    /// `top() + 1`. The floor is unchanged. No text is written or parsed.
    ///
    /// If an allocation fails, the machine is at the end of a batch, and the replies up to there
    /// are returned.
    ///
    /// The time grows as that of `apply`.
    pub fn run_calls(&mut self, alloc: Global, calls: &Calls) -> Result<Applied, SegmentFault>
        ensures taken { OnOk result (IsTaken self.old calls.now) }
        ensures refused { IfErr result (IsRefused self.old calls.now) }
        ensures unchanged { OnErr result (self.new ≡ self.old) }
        ensures goes_on { IfOk result
            (λ a. GoesOn self.old self.new (take (length a.replies) calls.now.log) a.replies) }
        ensures runs_on { IfOk result
            (λ a. RunsOn self.old self.new (take (length a.replies) calls.now.log) a.replies) }
        ensures batches { IfOk result
            (λ a. 0 < length a.replies → AreWholeBatches calls.now.log largest_batch (length a.replies)) }
        ensures whole { IfOk result
            (λ a. is_ok a.end ≡ true → length a.replies ≡ length calls.now.log) }
    {
        self.apply(alloc, calls.segment())
    }

    /// Runs the calls after the top as one batch, all of them or none, and appends their replies to
    /// `answered`, whose memory can so be used again and again: a single call costs least this way.
    /// After `NoMemory` the top and the past are as they were. The floor is unchanged.
    ///
    /// The time grows as that of `apply`.
    pub fn run_batch(&mut self, calls: &Calls, answered: &mut Replies) -> Result<(), BatchFault>
        ensures taken { OnOk result (IsTaken self.old calls.now) }
        ensures goes_on { OnOk result (GoesOn self.old self.new calls.now.log
            (replies (now_of self.old) calls.now.log)) }
        ensures runs_on { OnOk result (RunsOn self.old self.new calls.now.log
            (replies (now_of self.old) calls.now.log)) }
        ensures answered { OnOk result
            (answered.new ≡ answered.old ++ replies (now_of self.old) calls.now.log) }
        ensures refused { (fault : SegmentFault) → result ≡ Err (batch_is.Segment fault)
            → IsRefused self.old calls.now fault }
        ensures unchanged { (fault : SegmentFault) → result ≡ Err (batch_is.Segment fault)
            → self.new ≡ self.old }
        ensures no_memory { result ≡ Err batch_is.NoMemory → GoesOn self.old self.new [] [] }
        ensures unanswered { OnErr result (answered.new ≡ answered.old) }
    {
        let segment = calls.segment();
        self.admit(segment)?;
        self.run_admitted(segment, answered)?;
        Ok(())
    }
}
