//! The names that a log keeps when it is cleared.

use bohm_log::{FixedSeed, HashSeed, Log};
use bohm_types::Key;
use std::process::Abort;

/// One of 10,000,000 keys.
fn key(number: u32) -> Option<Key> {
    let mut name = *b"k0000000";
    let mut left = number;
    for place in 1..8 {
        name[8 - place] = b'0' + (left % 10) as u8;
        left /= 10;
    }
    Key::new(&name)
}

/// Makes handles of this many keys.
fn make_handles(rt: &impl Abort, log: &mut Log<HashSeed>, count: u32) {
    for number in 0..count {
        let named = key(number).expect(rt, "a key");
        let _ = log.handle(&named).expect(rt, "memory");
    }
}

/// How many names the log has, with those of keys that no transaction declares.
fn count_names(log: &Log<HashSeed>) -> usize {
    log.part().keys().names().len()
}

/// At most 65,536 handles count, for four names each.
#[test]
fn many_names_of_handles_go(rt: HostRuntime) {
    let mut log = Log::new(rt.alloc(), HashSeed::from(FixedSeed));
    make_handles(&rt, &mut log, 262_145);
    log.clear();
    assert_eq!(rt; count_names(&log), 0);
}

#[test]
fn few_names_stay(rt: HostRuntime) {
    let mut log = Log::new(rt.alloc(), HashSeed::from(FixedSeed));
    make_handles(&rt, &mut log, 16_384);
    log.clear();
    assert_eq!(rt; count_names(&log), 16_384);
}
