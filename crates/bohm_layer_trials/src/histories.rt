//! Histories in use: batches are settled, the past is read and trimmed.

ghost use Rattle.std.specs.Prelude.{◌<◌, ◌≤◌, All, length};
ghost use Rattle.bohm_txn.specs.Faulty.{IsWellFormedTxn};

use crate::boards::{execute, next_batch};
use crate::logs::checked;
use bohm_log::LogPart;
use bohm_store::History;
use bohm_text::print_store;
use bohm_types::{Key, NoMemory, Value};
use std::alloc::Global;
use std::process::Abort;
use std::thread::Threads;

// Runs the transactions as the next batch of the history.
fn settle<R: Abort + Threads + Sync>(
    rt: &R,
    alloc: Global,
    history: &mut History,
    txns: &LogPart<'_>,
) -> Result<(), NoMemory>
    requires some { 0 < length txns.now }
    requires few { length txns.now ≤ 4096 }
    requires formed { All IsWellFormedTxn txns.now }
    requires early { history.old.top ≤ 1000 }
{
    let batch = next_batch(rt, alloc, history, txns)?;
    let finished = execute(rt, alloc, batch)?;
    history.settle(alloc, &finished)
}

/// The floor, the top and the number of versions, and the store at each timestamp from the floor
/// on.
fn told(rt: &impl Abort, alloc: Global, history: &History) -> String {
    let (floor, top) = (history.floor(), history.top());
    let count = history.version_count();
    let head = format!(in alloc; "{floor} to {top}, {count} versions\n");
    let mut text = head.expect(rt, "memory");
    for ts in floor..=top {
        let store = history.store_at(alloc, ts).expect(rt, "a store");
        put_store(rt, alloc, &mut text, store.as_slice());
    }
    text
}

fn put_store(rt: &impl Abort, alloc: Global, text: &mut String, store: &[(Key, Value)]) {
    let printed = print_store(alloc, store).expect(rt, "memory");
    let printed = str::from_utf8(printed.as_slice()).expect(rt, "a text");
    text.push_str(printed).expect(rt, "memory");
}

// Runs the log as the next batch.
fn settle_log<R: Abort + Threads + Sync>(rt: &R, alloc: Global, history: &mut History, log: &str) {
    let log = checked(rt, alloc, "log 1\n", log);
    let txns = log.log();
    let fits = txns.len() > 0 && txns.len() <= 4096 && history.top() <= 1000;
    assert!(rt; fits);
    settle(rt, alloc, history, &txns).expect(rt, "memory");
}

fn trim(rt: &impl Abort, history: &mut History, floor: u32) {
    let below = floor <= history.top();
    assert!(rt; below);
    history.trim(floor);
}

// A history of this store.
fn opened(rt: &impl Abort, alloc: Global, store: &str) -> History {
    let doc = checked(rt, alloc, "log 1\n", store);
    History::open(alloc, doc.store()).expect(rt, "memory")
}

// Runs a batch, or trims, and asserts what is readable afterwards.
fn goes_on_so<R: Abort + Threads + Sync>(rt: &R, alloc: Global, history: &mut History, part: &str) {
    let (step, want) = part.split_once('@').expect(rt, "a step");
    if step.starts_with("txn") {
        settle_log(rt, alloc, history, step);
    } else if !step.is_empty() {
        let floor = step.parse::<u32>().ok();
        trim(rt, history, floor.expect(rt, "a floor"));
    }
    assert_eq!(rt; told(rt, alloc, history).as_str(), want, "{part}");
}

/// Opens a history of the store before the first `#`. Each part after it has a batch to run, or a
/// number to trim at, and after `@` what is readable afterwards.
fn goes_so<R: Abort + Threads + Sync>(rt: &R, alloc: Global, row: &str) {
    let (store, parts) = row.split_once('#').expect(rt, "a store");
    let mut history = opened(rt, alloc, store);
    for part in parts.split('#') {
        goes_on_so(rt, alloc, &mut history, part);
    }
}

/// A removal. A trim keeps the version that records it.
const REMOVAL: &str = "\
a 5
#@0 to 0, 1 versions
--
a 5
#txn
reads
writes a
drop a
end
txn
reads a
writes
need has a
end
txn
reads a
writes
show a + 1
end
@0 to 3, 2 versions
--
a 5
--
--
--
#2@2 to 3, 1 versions
--
--
#1@2 to 3, 1 versions
--
--
";

/// An aborted writer has a version.
const ABORTED: &str = "\
#@0 to 0, 0 versions
--
#txn
reads
writes a
set a = 1
fail
end
txn
reads a
writes
need no a
end
@0 to 2, 1 versions
--
--
--
";

/// Each batch sees the one before, and the floor is still readable.
const COUNTERS: &str = "\
a 0
#txn
reads a
writes a
set a = a + 1
end
@0 to 1, 2 versions
--
a 0
--
a 1
#txn
reads a
writes a
set a = a + 1
end
txn
reads a
writes a
set a = a + 1
end
@0 to 3, 4 versions
--
a 0
--
a 1
--
a 2
--
a 3
#2@2 to 3, 2 versions
--
a 2
--
a 3
";

/// Batches and trims in turn. The aborted third transaction has a version.
const IN_TURN: &str = "\
a 1
b 2
#@0 to 0, 2 versions
--
a 1
b 2
#txn
reads a
writes a
set a = a + 1
end
txn
reads
writes b c
drop b
set c = 3
end
@0 to 2, 5 versions
--
a 1
b 2
--
a 2
b 2
--
a 2
c 3
#1@1 to 2, 4 versions
--
a 2
b 2
--
a 2
c 3
#txn
reads b
writes a
set a = b
end
@1 to 3, 5 versions
--
a 2
b 2
--
a 2
c 3
--
a 2
c 3
#txn
reads
writes b
set b = 7
end
txn
reads
writes a
drop a
end
@1 to 5, 7 versions
--
a 2
b 2
--
a 2
c 3
--
a 2
c 3
--
a 2
b 7
c 3
--
b 7
c 3
#3@3 to 5, 5 versions
--
a 2
c 3
--
a 2
b 7
c 3
--
b 7
c 3
#5@5 to 5, 3 versions
--
b 7
c 3
";

/// A store is listed in the order of its keys.
const NAMES: &str = "\
a 7
a1 7
ab 7
b 7
c_1 7
#@0 to 0, 5 versions
--
a 7
a1 7
ab 7
b 7
c_1 7
";

#[test]
fn batches_and_trims(rt: HostRuntime) {
    for row in [REMOVAL, ABORTED, COUNTERS, IN_TURN, NAMES] {
        goes_so(&rt, rt.alloc(), row);
    }
}
