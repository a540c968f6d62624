//! The planning side of a run.

ghost use Rattle.std.specs.Prelude.{◌≡◌};
ghost use Rattle.bohm_place.specs.CutLogs.{cutting_of};
ghost use Rattle.bohm_apply.specs.Lines.{IsWholeLine};
ghost use Rattle.bohm_apply.specs.Planning.{CanPlan};

use crate::plan_queue::{Line, PlanNote, PlanSender};
use bohm_place::{CutLog, Newest, Partition, plan_by_number};
use std::alloc::Global;
use std::sync::Wait;
use std::thread::Threads;

/// Plans the batches of a log and sends a note for each, in order: its plan, or, as the last note,
/// that planning failed to allocate. It calls `planned` with the number of each batch, counted from
/// 1, after planning and before sending it. It blocks while the queue is full, forever if no note
/// is taken.
///
/// There are as many planning workers as arrays of newest placeholders. The time grows with the
/// number of keys that the transactions declare.
pub fn plan_ahead<L: Line, P: Partition, F: Fn(u32), R: Threads + Wait + Sync>(
    rt: &R,
    alloc: Global,
    mut sender: PlanSender<L>,
    mut newest: Vec<Newest>,
    log: CutLog<'_>,
    partition: &P,
    planned: &F,
) -> PlanSender<L>
    requires told { F.IsAlwaysCallable planned.now }
    requires plans { CanPlan L.cutting (cutting_of log) sender.notes newest.items }
    ensures whole { IsWholeLine L.cutting result.notes }
    ensures queue { result.queue ≡ sender.queue }
{
    let mut start = 0usize;
    for place in 0..log.batches() {
        let number = place + 1;
        let txns = log.batch(place, start);
        let first = log.first() + start as u32;
        let planning = plan_by_number(rt, alloc, newest, first, &txns, partition);
        let Ok((left, plan)) = planning else {
            sender.send(rt, PlanNote { number, plan: None });
            return sender;
        };
        newest = left;
        planned(number);
        sender.send(
            rt,
            PlanNote {
                number,
                plan: Some(plan),
            },
        );
        start += txns.len();
    }
    sender
}
