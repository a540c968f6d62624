//! A whole batch in one chain, whose claims are held for random times.

use crate::runs::{cuts, run_told, serially, settings};
use bohm_exec::{Gate, Point};
use bohm_layer_trials::counters;
use bohm_txn::Checked;
use std::alloc::Global;
use std::hint::spin_loop;
use std::process::Abort;
use std::random::RandomSource;
use std::sync::Wait;
use std::sync::atomic::{AtomicU64, Ordering};
use std::thread;
use std::thread::Threads;

/// Holds each claim for a number of turns that the round and the timestamp determine.
#[derive(Drop)]
struct Delays {
    round: u64,
    claims: AtomicU64,
}

/// How many turns a claim is held: mostly few, now and then many.
fn turns(round: u64, t: u32) -> u64 {
    let number = round.wrapping_mul(4096).wrapping_add(u64::from(t));
    let drawn = number.wrapping_mul(0x9e37_79b9_7f4a_7c15) / 281_474_976_710_656;
    if drawn % 64 == 0 {
        drawn % 1000
    } else {
        drawn % 16
    }
}

impl Gate for Delays {
    fn at(&self, point: Point) {
        if let Point::Claimed(t) = point {
            self.claims.fetch_add(1, Ordering::SeqCst);
            let turns = turns(self.round, t);
            for _ in 0..turns {
                spin_loop();
            }
            if turns > 512 {
                thread::yield_now();
            }
        }
    }
}

/// One round of a log that is one chain, on eight workers.
fn assert_round<R: Abort + Threads + Wait + Sync + RandomSource>(
    rt: &R,
    alloc: Global,
    log: &Checked,
    round: u64,
    want: &[u8],
) {
    let delays = Delays {
        round,
        claims: AtomicU64::new(0),
    };
    let cuts = cuts(rt, alloc, &[4096]);
    let text = run_told(rt, alloc, log, &cuts, settings(rt, "exec 8"), &delays);
    assert_eq!(rt; text.as_slice(), want, "round {round}");
    let claims = delays.claims.load(Ordering::SeqCst);
    assert!(rt; claims <= 4096, "round {round}");
}

#[test]
fn a_chain_with_held_claims_is_the_serial_one(rt: HostRuntime) {
    let alloc: Global = rt.alloc();
    let log = counters(alloc, 4096).expect(&rt, "a log");
    let want = serially(&rt, alloc, &log);
    for round in 0..50 {
        assert_round(&rt, alloc, &log, round, want.as_slice());
    }
}
