//! Readers and writers that fail or stop, on one log.

use crate::fakes::{Failure, FakeReader, FakeWriter};
use crate::runs::settings;
use bohm_run::{RunFault, Settings, run_text};
use std::io::ErrorKind;
use std::process::Abort;
use std::random::RandomSource;
use std::sync::Wait;
use std::thread::Threads;

/// A log of 56 bytes.
const LOG: &[u8] = b"log 1\na 5\ntxn\nreads a\nwrites a\nset a = a + 1\nshow a\nend\n";

/// The log's answer, of 18 bytes.
const ANSWER: &[u8] = b"1 commit 5\n--\na 6\n";

/// The defaults, and small batches on two workers.
const TWICE: [&str; 2] = ["", "exec 2 batch 1"];

/// The fault of a run of the log with this writer.
fn fault_at<R: AllocGlobal + Threads + Wait + Sync + RandomSource + Copy + Send + 'static>(
    rt: &R,
    writer: &mut FakeWriter,
    settings: Settings,
) -> Option<RunFault> {
    let mut unread = LOG;
    run_text(rt, rt.alloc(), &mut unread, writer, settings).err()
}

/// The result of a reader that returns a byte a call and fails at one of its calls.
fn read_failing<
    R: Abort + AllocGlobal + Threads + Wait + Sync + RandomSource + Copy + Send + 'static,
>(rt: &R, failure: Failure, settings: Settings) -> Option<RunFault> {
    let mut reader = FakeReader {
        bytes: LOG,
        most: 1,
        failure,
    };
    let mut writer = FakeWriter::new(rt.alloc(), 64);
    let found = run_text(rt, rt.alloc(), &mut reader, &mut writer, settings).err();
    let (taken, flushes) = if found.is_none() {
        (ANSWER, 1)
    } else {
        (b"".as_slice(), 0)
    };
    assert_eq!(rt; (writer.taken.as_slice(), writer.flushes), (taken, flushes));
    found
}

/// One byte a call: the 57th call finds the end.
#[test]
fn readers_fail_at_each_call(rt: HostRuntime) {
    for words in TWICE {
        let settings = settings(&rt, words);
        for kind in [ErrorKind::Other, ErrorKind::Interrupted] {
            for calls in 0..58 {
                let found = read_failing(&rt, Failure::after(calls, kind), settings);
                let wanted = if calls < 57 {
                    Some(RunFault::Read)
                } else {
                    None
                };
                assert_eq!(rt; found, wanted, "{kind:?} after {calls} calls, {words}");
            }
        }
    }
}

// Asserts that the whole log is read and its answer written, with at most this many bytes a call.
fn passes<R: Abort + AllocGlobal + Threads + Wait + Sync + RandomSource + Copy + Send + 'static>(
    rt: &R,
    most: usize,
    settings: Settings,
) {
    let mut reader = FakeReader {
        bytes: LOG,
        most,
        failure: Failure::never(),
    };
    let mut writer = FakeWriter::new(rt.alloc(), most);
    let ended = run_text(rt, rt.alloc(), &mut reader, &mut writer, settings);
    let told = (ended, writer.taken.as_slice(), writer.flushes);
    assert_eq!(rt; told, (Ok(()), ANSWER, 1), "{most} bytes a call");
}

#[test]
fn readers_and_writers_take_parts(rt: HostRuntime) {
    for words in TWICE {
        for most in [1, 7, 56, 57] {
            passes(&rt, most, settings(&rt, words));
        }
    }
}

/// Asserts that the writer accepts the answer's first `sent` bytes and then fails.
fn sends<R: Abort + AllocGlobal + Threads + Wait + Sync + RandomSource + Copy + Send + 'static>(
    rt: &R,
    mut writer: FakeWriter,
    sent: u32,
    settings: Settings,
) {
    let found = fault_at(rt, &mut writer, settings);
    let wanted = RunFault::Write {
        sent: u64::from(sent),
    };
    let taken = ANSWER.get(..sent as usize).expect(rt, "a beginning");
    let told = (found, writer.taken.as_slice());
    assert_eq!(rt; told, (Some(wanted), taken), "after {sent} bytes");
}

/// A writer of one byte a call fails at each call, another one at its flush; others accept nothing,
/// or fail after three bytes.
#[test]
fn writers_fail(rt: HostRuntime) {
    for words in TWICE {
        let settings = settings(&rt, words);
        for kind in [ErrorKind::Other, ErrorKind::Interrupted] {
            for calls in 0..18u32 {
                let mut writer = FakeWriter::new(rt.alloc(), 1);
                writer.failure = Failure::after(calls, kind);
                sends(&rt, writer, calls, settings);
            }
            let mut writer = FakeWriter::new(rt.alloc(), 64);
            writer.flush_failure = Failure::after(0, kind);
            sends(&rt, writer, 18, settings);
        }
        sends(&rt, FakeWriter::new(rt.alloc(), 0), 0, settings);
        let mut writer = FakeWriter::new(rt.alloc(), 3);
        writer.failure = Failure::after(1, ErrorKind::Other);
        sends(&rt, writer, 3, settings);
    }
}
