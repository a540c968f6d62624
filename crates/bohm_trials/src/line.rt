//! A plan and a refusal in the plan queue, in one thread.

ghost use Rattle.std.specs.Prelude.{◌≡◌, ◌+◌, ◌<◌, ◌≤◌, [], ◌∷◌, length, All, IsSome, OnOk};
ghost use Rattle.bohm_txn.specs.Faulty.{IsWellFormedTxn};
ghost use Rattle.bohm_place.specs.Plans.{IsRightPlan};
ghost use Rattle.bohm_place.specs.Cuttings.{first_at, txns_at};

use bohm_layer_trials::counters;
use bohm_log::LogPart;
use bohm_place::{Plan, Shards, plan};
use bohm_run::{ByteSum, Line, PlanNote, PlanReceiver, PlanSender, plan_line};
use bohm_types::NoMemory;
use std::alloc::Global;
use std::marker::Brand;
use std::process::Abort;
use std::sync::Wait;
use std::test::Fail;
use std::thread::Threads;

// Plans the next batch, and sends the plan with its keys.
fn send_plan<L: Line, R: Abort + Threads + Wait + Sync>(
    rt: &R,
    alloc: Global,
    sender: &mut PlanSender<L>,
    first: u32,
    txns: &LogPart<'_>,
) -> Result<(), NoMemory>
    requires batch { length sender.old.notes < length L.cutting.sizes }
    requires sizes { length L.cutting.sizes ≡ 2 }
    requires open { All (λ sent. IsSome sent.plan) sender.old.notes }
    requires first { first ≡ first_at L.cutting (length sender.old.notes) }
    requires txns { txns.now ≡ txns_at L.cutting (length sender.old.notes) }
    requires position { 0 < first }
    requires room { first + length txns.now ≤ 1000 }
    requires formed { All IsWellFormedTxn txns.now }
    ensures count { OnOk result (length sender.new.notes ≡ length sender.old.notes + 1) }
    ensures open { OnOk result (All (λ sent. IsSome sent.plan) sender.new.notes) }
{
    let parts = ByteSum::new(1).expect(rt, "a part");
    let shards = Shards::new(alloc, 1)?;
    let (_, plan) = plan(rt, alloc, shards, first, txns, 1, &parts)?;
    let note = PlanNote {
        number: sender.sent() + 1,
        plan: Some(plan),
    };
    sender.send(rt, note);
    Ok(())
}

// Takes the next note, which has this number and the plan of these transactions.
fn take_plan<L: Line, R: Abort + Wait>(
    rt: &R,
    receiver: &mut PlanReceiver<L>,
    txns: &LogPart<'_>,
    number: u32,
) -> Plan
    requires batch { length receiver.old.notes < length L.cutting.sizes }
    requires open { All (λ taken. IsSome taken.plan) receiver.old.notes }
    requires txns { txns.now ≡ txns_at L.cutting (length receiver.old.notes) }
    ensures count { length receiver.new.notes ≡ length receiver.old.notes + 1 }
    ensures open { All (λ taken. IsSome taken.plan) receiver.new.notes }
    ensures right { ∥ IsRightPlan txns.entry.now result ∥₁ }
{
    let note = receiver.take(rt);
    assert_eq!(rt; (note.number, receiver.taken()), (number, number));
    note.plan.expect(rt, "a plan")
}

// Sends a plan and then an error, and takes both.
fn take_refusal<L: Line, R: Abort + Threads + Wait + Sync>(
    rt: &R,
    alloc: Global,
    txns: &LogPart<'_>,
) -> Result<(), Fail>
    requires cutting { L.cutting ≡ record { first = 1; log = txns.now; sizes = 1 ∷ 2 ∷ [] } }
    requires three { length txns.now ≡ 3 }
    requires formed { All IsWellFormedTxn txns.now }
{
    let (mut sender, mut receiver) = plan_line::<L>(alloc)?;
    assert_eq!(rt; (sender.sent(), receiver.taken()), (0, 0));
    let one = txns.between(0, 1);
    send_plan(rt, alloc, &mut sender, 1, &one)?;
    let refusal = PlanNote {
        number: 2,
        plan: None,
    };
    sender.send(rt, refusal);
    assert_eq!(rt; sender.sent(), 2);
    take_plan(rt, &mut receiver, &one, 1);
    let note = receiver.take(rt);
    assert_eq!(rt; (note.number, receiver.taken()), (2, 2));
    assert!(rt; note.plan.is_none());
    Ok(())
}

#[test]
fn a_refusal_passes(rt: HostRuntime) -> Result<(), Fail> {
    let alloc: Global = rt.alloc();
    let log = counters(alloc, 3).expect(&rt, "a log");
    let three = log.log().len() == 3;
    assert!(rt; three);
    take_refusal::<Brand, _>(&rt, alloc, &log.log())
}
