//! The results of runs, and of logs applied one after another, with answers computed by hand.

use crate::runs::{cuts, ran, settings, told_with_versions};
use bohm_exec::OpenGate;
use bohm_layer_trials::{checked, counters};
use bohm_run::{Applied, ByteSum, Cuts, Executors, Kept, Planners, apply};
use bohm_store::History;
use bohm_txn::Checked;
use std::alloc::Global;
use std::process::Abort;
use std::random::RandomSource;
use std::sync::Wait;
use std::thread::Threads;

/// The numbers of a row.
fn numbers(rt: &impl Abort, alloc: Global, words: &str) -> Vec<u32> {
    let mut numbers = Vec::new(alloc);
    for word in words.split(' ') {
        let number = word.parse::<u32>().ok().expect(rt, "a number");
        numbers.push(number).ok().expect(rt, "memory");
    }
    numbers
}

/// The result of a log in these batches, with these settings.
fn left<R: Abort + Threads + Wait + Sync + RandomSource>(
    rt: &R,
    alloc: Global,
    log: &Checked,
    sizes: &str,
    words: &str,
) -> String {
    let sizes = numbers(rt, alloc, sizes);
    let cuts = cuts(rt, alloc, sizes.as_slice());
    let found = ran(rt, alloc, log, &cuts, settings(rt, words), &OpenGate);
    told_with_versions(rt, alloc, &found.replies, &found.history)
}

/// Asserts the result of each row, which has the sizes of the batches, settings, and the result.
fn leaves_so<R: Abort + AllocGlobal + Threads + Wait + Sync + RandomSource>(
    rt: &R,
    log: &Checked,
    rows: &str,
) {
    for row in rows.split('#') {
        let (how, want) = row.split_once('@').expect(rt, "what is left");
        let (sizes, words) = how.split_once(", ").expect(rt, "settings");
        let text = left(rt, rt.alloc(), log, sizes, words);
        assert_eq!(rt; text.as_str(), want, "{how}");
    }
}

/// Three counters.
const COUNTED: &str = "\
1 1 1, @3 to 3, 1 versions
1 commit 0
2 commit 1
3 commit 2
--
a 3
#2 1, @3 to 3, 1 versions
1 commit 0
2 commit 1
3 commit 2
--
a 3
#1 2, @3 to 3, 1 versions
1 commit 0
2 commit 1
3 commit 2
--
a 3
#3, @3 to 3, 1 versions
1 commit 0
2 commit 1
3 commit 2
--
a 3
#1 1 1, keep 1@2 to 3, 2 versions
1 commit 0
2 commit 1
3 commit 2
--
a 2
--
a 3
#1 1 1, keep 2@1 to 3, 3 versions
1 commit 0
2 commit 1
3 commit 2
--
a 1
--
a 2
--
a 3
#1 1 1, keep 4096@0 to 3, 4 versions
1 commit 0
2 commit 1
3 commit 2
--
a 0
--
a 1
--
a 2
--
a 3
";

/// Drops `a`, and aborts twice since it is missing.
const REMOVAL: &[u8] = b"\
log 1
a 5
txn
reads
writes a
drop a
end
txn
reads a
writes
need has a
end
txn
reads a
writes
show a + 1
end
";

const REMOVED: &str = "\
3, keep 4096@0 to 3, 2 versions
1 commit
2 abort need 1
3 abort absent 1
--
a 5
--
--
--
#1 2, keep 1@2 to 3, 1 versions
1 commit
2 abort need 1
3 abort absent 1
--
--
";

#[test]
fn versions_that_are_kept(rt: HostRuntime) {
    let counted = counters(rt.alloc(), 3).expect(&rt, "a log");
    leaves_so(&rt, &counted, COUNTED);
    let removal = checked(rt.alloc(), REMOVAL).expect(&rt, "a log");
    leaves_so(&rt, &removal, REMOVED);
}

/// Applies this many counters in batches of two, on two workers of each kind.
fn count_on<R: Abort + Threads + Wait + Sync + RandomSource>(
    rt: &R,
    alloc: Global,
    history: &mut History,
    count: u32,
    keep: Kept,
) -> Applied {
    let log = counters(alloc, count).expect(rt, "a log");
    let txns = log.log();
    let cuts = Cuts::even(alloc, count, 2).expect(rt, "memory");
    let partition = ByteSum::new(2).expect(rt, "parts");
    let fits = txns.len() == count as usize && history.top() < 1000 && count < 1000;
    assert!(rt; fits);
    let planners = Planners::new(2).expect(rt, "planners");
    let executors = Executors::new(2).expect(rt, "executors");
    let applied = apply(
        rt, alloc, history, &txns, &cuts, planners, executors, keep, &partition, &OpenGate,
    );
    assert!(rt; applied.end.is_ok());
    applied
}

/// How many counters to apply, and how many timestamps to keep.
fn counts(rt: &impl Abort, log: &str) -> (u32, Kept) {
    let (count, keep) = log.split_once(" keep ").expect(rt, "a log");
    let count = count.parse::<u32>().ok().expect(rt, "a count");
    let keep = keep.parse::<u32>().ok().expect(rt, "what is kept");
    (count, Kept::new(keep))
}

/// The result of a row's logs, applied one after another; each log is how many counters to apply,
/// and how many timestamps to keep.
fn left_in_turn<R: Abort + Threads + Wait + Sync + RandomSource>(
    rt: &R,
    alloc: Global,
    logs: &str,
) -> String {
    let store = counters(alloc, 0).expect(rt, "a log");
    let mut history = History::open(alloc, store.store()).expect(rt, "memory");
    let mut text = String::new(alloc);
    for log in logs.split(", ") {
        let (count, keep) = counts(rt, log);
        let applied = count_on(rt, alloc, &mut history, count, keep);
        text = told_with_versions(rt, alloc, &applied.replies, &history);
    }
    text
}

/// Logs applied one after another, the replies of the last one, and the stores that are readable.
const APPLIED: &str = "\
3 keep 1@2 to 3, 2 versions
1 commit 0
2 commit 1
3 commit 2
--
a 2
--
a 3
#1 keep 1, 2 keep 1@2 to 3, 2 versions
1 commit 1
2 commit 2
--
a 2
--
a 3
#2 keep 1, 1 keep 1@2 to 3, 2 versions
1 commit 2
--
a 2
--
a 3
#2 keep 1, 3 keep 4096@1 to 5, 5 versions
1 commit 2
2 commit 3
3 commit 4
--
a 1
--
a 2
--
a 3
--
a 4
--
a 5
#2 keep 1, 0 keep 0@1 to 2, 2 versions
--
a 1
--
a 2
#0 keep 0@0 to 0, 1 versions
--
a 0
";

#[test]
fn logs_upon_logs(rt: HostRuntime) {
    for row in APPLIED.split('#') {
        let (logs, want) = row.split_once('@').expect(&rt, "what is left");
        let text = left_in_turn(&rt, rt.alloc(), logs);
        assert_eq!(rt; text.as_str(), want, "{logs}");
    }
}
