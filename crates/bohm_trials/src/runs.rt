//! Settings from their text, runs, and their results as text.

use bohm_exec::Gate;
use bohm_run::{Answer, ByteSum, Cuts, Settings, run};
use bohm_store::History;
use bohm_text::{print_answer, print_replies, print_store};
use bohm_txn::{Checked, Replies};
use bohm_types::{Key, Value};
use std::alloc::Global;
use std::process::Abort;
use std::random::RandomSource;
use std::sync::Wait;
use std::thread::Threads;

/// The number after a name among these words.
fn named(words: &str, name: &str) -> Option<u32> {
    let (_, rest) = words.split_once(name)?;
    rest.split(' ').next()?.parse::<u32>().ok()
}

/// The settings that the words name, for example `exec 2 batch 1`; the others are the defaults.
pub fn settings(rt: &impl Abort, words: &str) -> Settings {
    let settings = Settings::new(
        named(words, "cc ").unwrap_or(1),
        named(words, "exec ").unwrap_or(1),
        named(words, "parts ").unwrap_or(1),
        named(words, "batch ").unwrap_or(4096),
        named(words, "keep ").unwrap_or(0),
        named(words, "at "),
    );
    settings.expect(rt, "settings")
}

/// Batches of these sizes.
pub fn cuts(rt: &impl Abort, alloc: Global, sizes: &[u32]) -> Cuts {
    let sizes = Vec::from_slice(alloc, sizes).expect(rt, "memory");
    Cuts::new(sizes).expect(rt, "sizes")
}

/// The run of a log in these batches, whatever batch size the settings have.
pub fn ran<G: Gate, R: Abort + Threads + Wait + Sync + RandomSource>(
    rt: &R,
    alloc: Global,
    checked: &Checked,
    cuts: &Cuts,
    settings: Settings,
    gate: &G,
) -> Answer {
    let whole = cuts.total() as usize == checked.log().len();
    assert!(rt; whole);
    let partition = ByteSum::new(settings.parts()).expect(rt, "parts");
    let (cc, exec, keep) = (settings.cc(), settings.exec(), settings.keep());
    let answer = run(rt, alloc, checked, cuts, cc, exec, keep, &partition, gate);
    answer.expect(rt, "memory")
}

/// The plain program's answer.
pub fn serially(rt: &impl Abort, alloc: Global, checked: &Checked) -> Vec<u8> {
    let answer = bohm_serial::run(alloc, checked);
    let bohm_serial::Answer { replies, store } = answer.expect(rt, "memory");
    print_answer(alloc, &replies, store.as_slice()).expect(rt, "memory")
}

/// Appends the text of a store.
fn put_store(rt: &impl Abort, alloc: Global, text: &mut Vec<u8>, store: &[(Key, Value)]) {
    let printed = print_store(alloc, store).expect(rt, "memory");
    text.extend_from_slice(printed.as_slice())
        .expect(rt, "memory");
}

/// The replies, followed by the store at each timestamp from the floor to the top.
pub fn told(rt: &impl Abort, alloc: Global, replies: &Replies, history: &History) -> Vec<u8> {
    let mut text = print_replies(alloc, replies).expect(rt, "memory");
    for ts in history.floor()..=history.top() {
        let store = history.store_at(alloc, ts).expect(rt, "a store");
        put_store(rt, alloc, &mut text, store.as_slice());
    }
    text
}

/// The result, as text, of a run with this gate.
pub fn run_told<G: Gate, R: Abort + Threads + Wait + Sync + RandomSource>(
    rt: &R,
    alloc: Global,
    checked: &Checked,
    cuts: &Cuts,
    settings: Settings,
    gate: &G,
) -> Vec<u8> {
    let Answer { replies, history } = ran(rt, alloc, checked, cuts, settings, gate);
    told(rt, alloc, &replies, &history)
}

/// The floor, the top and the number of versions, followed by the replies and the stores.
pub fn told_with_versions(
    rt: &impl Abort,
    alloc: Global,
    replies: &Replies,
    history: &History,
) -> String {
    let (floor, top) = (history.floor(), history.top());
    let count = history.version_count();
    let head = format!(in alloc; "{floor} to {top}, {count} versions\n");
    let mut text = head.expect(rt, "memory");
    let told = told(rt, alloc, replies, history);
    let told = str::from_utf8(told.as_slice()).expect(rt, "a text");
    text.push_str(told).expect(rt, "memory");
    text
}
