//! Calls that workers share, compared with a machine that runs them on one thread.

ghost use Rattle.std.specs.Prelude.{◌≡◌};

use bohm_layer_trials::{Draws, one_of};
use bohm_log::DrawnSeed;
use bohm_machine::{Applied, BatchWorker, Machine, SegmentFault, ShareFault, SharedCalls};
use bohm_procedures::{Calls, Procedure};
use bohm_run::Executors;
use bohm_text::print_replies;
use bohm_types::{Edition, Key, Value};
use std::alloc::Global;
use std::process::Abort;
use std::thread;
use std::thread::Threads;

/// The accounts.
const NAMES: [&[u8]; 6] = [b"ada", b"bob", b"cy", b"dan", b"eve", b"fay"];

/// Puts money into an account.
const DEPOSIT: &[u8] =
    b"procedure 1\nkey to\nvalue amount\nreads\nwrites to\nset to = $amount\nend\n";

/// The head of a transfer, and its last statements.
const TRANSFER: (&str, &str) = (
    "procedure 1\nkey from\nkey to\nvalue amount\nreads from to\nwrites from to\nneed from >= $amount\n",
    "set from = from - $amount\nset to = to + $amount\nshow from\nshow to\nend\n",
);

/// The procedure of a text.
fn read(rt: &impl Abort, alloc: Global, seed: DrawnSeed, text: &[u8]) -> Procedure {
    let read = Procedure::read(alloc, seed, text);
    read.ok().expect(rt, "a procedure")
}

/// A transfer that first checks this many conditions. A sum of two accounts that is small aborts
/// it, and its reply says at which condition.
fn transfer(rt: &impl Abort, alloc: Global, seed: DrawnSeed, conditions: u32) -> Procedure {
    let mut text = String::new(alloc);
    text.push_str(TRANSFER.0).expect(rt, "memory");
    for number in 0..conditions {
        let line = format!(in alloc; "need from + to >= {number}\n").expect(rt, "memory");
        text.push_str(line.as_str()).expect(rt, "memory");
    }
    text.push_str(TRANSFER.1).expect(rt, "memory");
    read(rt, alloc, seed, text.as_bytes())
}

/// Adds a call.
fn push(rt: &impl Abort, calls: &mut Calls, procedure: &Procedure, keys: &[Key], values: &[Value]) {
    assert!(rt; calls.takes(procedure, keys, values));
    calls.push(procedure, keys, values).expect(rt, "memory");
}

fn key(rt: &impl Abort, name: &[u8]) -> Key {
    Key::new(name).expect(rt, "a key")
}

/// A machine whose accounts have 20 each.
fn machine(rt: &impl Abort, alloc: Global, seed: DrawnSeed) -> Machine {
    let mut machine = Machine::restore(alloc, seed, &[], 7).expect(rt, "memory");
    let deposit = read(rt, alloc, seed, DEPOSIT);
    let mut calls = Calls::new(alloc, seed, Edition::One);
    for name in NAMES {
        push(
            rt,
            &mut calls,
            &deposit,
            &[key(rt, name)],
            &[Value::from(20)],
        );
    }
    let applied = machine.run_calls(alloc, &calls).expect(rt, "room");
    assert!(rt; applied.end.is_ok());
    machine
}

/// Transfers between drawn accounts.
fn transfers(
    rt: &impl Abort,
    alloc: Global,
    seed: DrawnSeed,
    draws: &mut Draws,
    conditions: u32,
    count: u32,
) -> Calls {
    let procedure = transfer(rt, alloc, seed, conditions);
    let mut calls = Calls::new(alloc, seed, Edition::One);
    for _ in 0..count {
        let keys = [
            key(rt, one_of(draws, &NAMES)),
            key(rt, one_of(draws, &NAMES)),
        ];
        let amount = Value::from(draws.below(15) as i64);
        push(rt, &mut calls, &procedure, &keys, &[amount]);
    }
    calls
}

/// The replies and the digest at the top, as text.
fn told(rt: &impl Abort, alloc: Global, machine: &Machine, applied: &Applied) -> Vec<u8> {
    assert!(rt; applied.end.is_ok());
    let mut text = print_replies(alloc, &applied.replies).expect(rt, "memory");
    let digest = machine
        .digest(alloc, machine.top())
        .ok()
        .expect(rt, "a digest");
    text.extend_from_slice(digest.as_slice())
        .expect(rt, "memory");
    text
}

/// The next workers of a batch.
fn hired(rt: &impl Abort, alloc: Global, shared: &mut SharedCalls, count: u32) -> Vec<BatchWorker>
    ensures { shared.new ≡ shared.old }
{
    let mut workers = Vec::new(alloc);
    for _ in 0..count {
        let worker = shared.next_worker().expect(rt, "memory");
        workers
            .push(worker.expect(rt, "a worker"))
            .expect(rt, "memory");
    }
    workers
}

/// Runs calls on a machine with four workers, of which this many work, each in its own thread, and
/// this many are dropped before they work.
fn run_shared<R: Abort + Threads + Sync>(
    rt: &R,
    alloc: Global,
    machine: &mut Machine,
    calls: &mut Calls,
    working: u32,
    dropped: u32,
) -> Applied {
    let four = Executors::new(4).expect(rt, "four");
    let mut shared = machine.share(alloc, calls, four).expect(rt, "a batch");
    assert!(rt; calls.is_empty());
    drop(hired(rt, alloc, &mut shared, dropped));
    let workers = hired(rt, alloc, &mut shared, working);
    let ran = thread::map_vec(
        rt,
        workers,
        &|worker: BatchWorker| -> () { worker.work(alloc) },
    );
    drop(ran.expect(rt, "threads"));
    let finished = machine.finish(alloc, shared, calls);
    finished.ok().expect(rt, "no worker")
}

/// Workers run what one runs, whichever of them work.
#[test]
fn workers_run_what_one_runs(rt: HostRuntime) {
    let seed = DrawnSeed::draw(&rt);
    let mut one = machine(&rt, rt.alloc(), seed);
    let mut other = machine(&rt, rt.alloc(), seed);
    let mut draws = Draws::new(5);
    for (working, dropped) in [(4, 0), (0, 0), (1, 0), (3, 1), (2, 2), (0, 4), (4, 0)] {
        let mut calls = transfers(&rt, rt.alloc(), seed, &mut draws, 30, 200);
        let applied = one.run_calls(rt.alloc(), &calls).expect(&rt, "room");
        let want = told(&rt, rt.alloc(), &one, &applied);
        let applied = run_shared(&rt, rt.alloc(), &mut other, &mut calls, working, dropped);
        let found = told(&rt, rt.alloc(), &other, &applied);
        assert_eq!(rt; found.as_slice(), want.as_slice(), "{working}, {dropped}");
        assert_eq!(rt; calls.len(), 200);
        assert_eq!(rt; other.top(), one.top());
    }
}

/// While a worker is left, `finish` does nothing. There are as many workers as calls.
#[test]
fn a_batch_waits_for_its_workers(rt: HostRuntime) {
    let seed = DrawnSeed::draw(&rt);
    let mut machine = machine(&rt, rt.alloc(), seed);
    let mut calls = transfers(&rt, rt.alloc(), seed, &mut Draws::new(6), 30, 2);
    let three = Executors::new(3).expect(&rt, "three");
    let shared = machine.share(rt.alloc(), &mut calls, three);
    let mut shared = shared.expect(&rt, "a batch");
    let workers = hired(&rt, rt.alloc(), &mut shared, 2);
    assert!(rt; shared.next_worker().expect(&rt, "memory").is_none());
    let top = machine.top();
    let Err(shared) = machine.finish(rt.alloc(), shared, &mut calls) else {
        panic!(&rt; "two workers are left")
    };
    assert!(rt; machine.top() == top && calls.is_empty());
    drop(workers);
    let finished = machine.finish(rt.alloc(), shared, &mut calls);
    let applied = finished.ok().expect(&rt, "no worker");
    assert!(rt; applied.end.is_ok() && calls.len() == 2);
    assert_eq!(rt; machine.top().saturating_sub(top), 2);
}

/// Why these calls aren't shared; the list is as it was.
fn refused(
    rt: &impl Abort,
    alloc: Global,
    machine: &mut Machine,
    calls: &mut Calls,
    workers: u32,
) -> ShareFault {
    let (top, count) = (machine.top(), calls.len());
    let workers = Executors::new(workers).expect(rt, "workers");
    let fault = machine.share(alloc, calls, workers).err();
    assert!(rt; machine.top() == top && calls.len() == count);
    fault.expect(rt, "a refusal")
}

#[test]
fn calls_that_one_worker_runs(rt: HostRuntime) {
    let (alloc, seed) = (rt.alloc(), DrawnSeed::draw(&rt));
    let mut machine = machine(&rt, alloc, seed);
    let mut draws = Draws::new(7);
    for (conditions, count, workers) in [(30, 9, 1), (30, 9, 17), (2, 9, 4), (30, 0, 4)] {
        let mut calls = transfers(&rt, alloc, seed, &mut draws, conditions, count);
        let fault = refused(&rt, alloc, &mut machine, &mut calls, workers);
        assert_eq!(rt;
            fault,
            ShareFault::InOrder,
            "{conditions}, {count}, {workers}"
        );
    }
    let mut last = Machine::restore(alloc, seed, &[], u32::MAX).expect(&rt, "memory");
    let mut calls = transfers(&rt, alloc, seed, &mut draws, 30, 1);
    let fault = refused(&rt, alloc, &mut last, &mut calls, 4);
    assert_eq!(rt; fault, ShareFault::Segment(SegmentFault::Timestamps));
}
