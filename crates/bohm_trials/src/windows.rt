//! Texts read in small windows by one to three readers, compared with the plain program's run of
//! the whole text.

use crate::draws::{drawn_text, put_txns};
use crate::fakes::FakeWriter;
use crate::runs::{serially, settings};
use bohm_run::{RunFault, run_text_in_windows};
use bohm_text::parse;
use bohm_txn::check;
use std::alloc::Global;
use std::process::Abort;
use std::random::RandomSource;
use std::sync::Wait;
use std::thread::Threads;

/// One, two and three readers.
const READERS: [&str; 3] = ["cc 1", "cc 2 batch 3", "cc 3 exec 2"];

/// The sizes of windows, in bytes.
const SIZES: [usize; 3] = [100, 300, 4096];

/// What is inserted between drawn transactions: nothing, a transaction that fails the check, one
/// with a bad line, one without its end, and a line outside of transactions.
const PIECES: [&[u8]; 5] = [
    b"",
    b"txn\nreads\nwrites\nshow q\nend\n",
    b"txn\nreads\nwrites\nshoe 1\nend\n",
    b"txn\nreads\nwrites\n",
    b"end\n",
];

/// The plain program's answer, or why the text is refused.
fn plainly(rt: &impl Abort, alloc: Global, text: &[u8]) -> Result<Vec<u8>, RunFault> {
    let doc = parse(alloc, text)?;
    let checked = check(doc)?;
    Ok(serially(rt, alloc, &checked))
}

/// Asserts that the text, in windows of each size and for each number of readers, has the plain
/// program's answer or is refused with the same fault.
fn agree<R: Abort + AllocGlobal + Threads + Wait + Sync + RandomSource + Copy + Send + 'static>(
    rt: &R,
    text: &[u8],
) {
    let (fault, wanted) = match plainly(rt, rt.alloc(), text) {
        Ok(answer) => (None, answer),
        Err(fault) => (Some(fault), Vec::new(rt.alloc())),
    };
    for words in READERS {
        for size in SIZES {
            let mut reader = text;
            let mut writer = FakeWriter::new(rt.alloc(), 65_536);
            let settings = settings(rt, words);
            let ended = run_text_in_windows(
                rt,
                rt.alloc(),
                &mut reader,
                &mut writer,
                settings,
                size,
            );
            let told = (ended.err(), writer.taken.as_slice());
            assert_eq!(rt;
                told,
                (fault, wanted.as_slice()),
                "{words}, windows of {size}"
            );
        }
    }
}

/// Asserts the same answers for drawn transactions with these two pieces among them.
fn agree_with<
    R: Abort + AllocGlobal + Threads + Wait + Sync + RandomSource + Copy + Send + 'static,
>(rt: &R, first: &[u8], second: &[u8]) {
    for seed in 0..4 {
        let mut text = drawn_text(rt, rt.alloc(), seed, 9);
        text.extend_from_slice(first).expect(rt, "memory");
        put_txns(rt, rt.alloc(), &mut text, seed + 100, 9);
        text.extend_from_slice(second).expect(rt, "memory");
        put_txns(rt, rt.alloc(), &mut text, seed + 200, 9);
        agree(rt, text.as_slice());
    }
}

#[test]
fn windows_answer_as_whole_texts(rt: HostRuntime) {
    for first in PIECES {
        for second in PIECES {
            agree_with(&rt, first, second);
        }
    }
    let text = drawn_text(&rt, rt.alloc(), 7, 8);
    for end in 0..=text.len() {
        let front = text.as_slice().get(..end).expect(&rt, "a beginning");
        agree(&rt, front);
    }
}
