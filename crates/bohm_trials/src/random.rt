//! Drawn logs, each with drawn settings, compared with a serial run.

ghost use Rattle.std.specs.Prelude.{◌<◌};

use crate::draws::{drawn, drawn_settings};
use crate::runs::{ran, told};
use bohm_exec::OpenGate;
use bohm_layer_trials::Draws;
use bohm_run::{Answer, Cuts, Settings};
use bohm_text::{print_replies, print_store};
use bohm_txn::Checked;
use std::alloc::Global;
use std::process::Abort;
use std::random::RandomSource;
use std::sync::Wait;
use std::thread::Threads;

/// The replies, followed by the store after each number of transactions from this one on.
fn serially(rt: &impl Abort, alloc: Global, seed: u32, len: u32, floor: u32) -> Vec<u8> {
    let mut text = serial_replies(rt, alloc, seed, len);
    for count in floor..=len {
        let store = serial_store(rt, alloc, seed, count);
        text.extend_from_slice(store.as_slice())
            .expect(rt, "memory");
    }
    text
}

/// The replies to the first `len` transactions.
fn serial_replies(rt: &impl Abort, alloc: Global, seed: u32, len: u32) -> Vec<u8> {
    let log = drawn(rt, alloc, seed, len);
    let answer = bohm_serial::run(alloc, &log).expect(rt, "memory");
    print_replies(alloc, &answer.replies).expect(rt, "memory")
}

/// The store after the first `len` transactions.
fn serial_store(rt: &impl Abort, alloc: Global, seed: u32, len: u32) -> Vec<u8> {
    let log = drawn(rt, alloc, seed, len);
    let answer = bohm_serial::run(alloc, &log).expect(rt, "memory");
    print_store(alloc, answer.store.as_slice()).expect(rt, "memory")
}

/// Asserts that a run's result is the plain program's.
fn assert_left(
    rt: &impl Abort,
    alloc: Global,
    seed: u32,
    len: u32,
    found: &Answer,
    settings: Settings,
) {
    let floor = len.saturating_sub(settings.keep().timestamps());
    assert_eq!(rt; found.history.floor(), floor, "{seed}: {settings:?}");
    let text = told(rt, alloc, &found.replies, &found.history);
    let want = serially(rt, alloc, seed, len, floor);
    assert_eq!(rt; text.as_slice(), want.as_slice(), "{seed}: {settings:?}");
}

/// Runs the log with these settings.
fn run_drawn<R: Abort + Threads + Wait + Sync + RandomSource>(
    rt: &R,
    alloc: Global,
    seed: u32,
    log: &Checked,
    settings: Settings,
) {
    let len = log.log().len() as u32;
    let cuts = Cuts::even(alloc, len, settings.batch()).expect(rt, "memory");
    let found = ran(rt, alloc, log, &cuts, settings, &OpenGate);
    assert_left(rt, alloc, seed, len, &found, settings);
}

/// Runs the log that a seed determines under three settings that it draws.
fn run_seed<R: Abort + Threads + Wait + Sync + RandomSource>(rt: &R, alloc: Global, seed: u32)
    requires { seed < 1000 }
{
    let log = drawn(rt, alloc, seed, seed % 12 + 1);
    let mut draws = Draws::new(seed + 1000);
    for _ in 0..3 {
        let settings = drawn_settings(&mut draws).expect(rt, "settings");
        run_drawn(rt, alloc, seed, &log, settings);
    }
}

#[test]
fn drawn_logs(rt: HostRuntime) {
    for seed in 0..200 {
        run_seed(&rt, rt.alloc(), seed);
    }
}

/// The drawn logs have results of every kind.
#[test]
fn drawn_ends(rt: HostRuntime) {
    let mut text = Vec::new(rt.alloc());
    for seed in 0..200 {
        let replies = serial_replies(&rt, rt.alloc(), seed, seed % 12 + 1);
        text.extend_from_slice(replies.as_slice())
            .expect(&rt, "memory");
    }
    let text = str::from_utf8(text.as_slice()).expect(&rt, "a text");
    for word in [
        " commit ",
        " abort need ",
        " abort absent ",
        " abort range ",
        " abort fail ",
    ] {
        assert!(rt; text.contains(word), "{word}");
    }
}
