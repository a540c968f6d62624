//! The answers to a batch of entries.

use bohm_durable::Checkpointed;
use bohm_ledger::Machine;
use bohm_log::DrawnSeed;
use bohm_replay::EntryMachine;
use bohm_types::Edition;
use std::test::Fail;

const BATCH: &[u8] =
    b"define #d pay\nprocedure 2\nkey from\nkey to\nvalue amount\nreads from to\nwrites from to\nneed from >= $amount\nset from = from - $amount\nset to = to + $amount\nshow from\nend\ntxn\nreads\nwrites a b\nset a = 10\nset b = 0\nend\ncall #r1 pay a b 4\ncall pay a b 7\n";

#[test]
fn entries_are_answered(rt: HostRuntime) -> Result<(), Fail> {
    let seed = DrawnSeed::draw(&rt);
    let past = Checkpointed::new(rt.alloc(), seed)?;
    let mut machine = EntryMachine::new(rt.alloc(), seed, past);
    machine.start(Edition::Two, &[], 16)?;
    let ran = machine.run(rt.alloc(), BATCH)?;
    assert_eq!(rt; ran.replies.len(), 4);
    assert!(rt; ran.replies[0].as_slice() == b"defined pay".as_slice());
    assert!(rt; ran.replies[1].as_slice() == b"17 commit".as_slice());
    assert!(rt; ran.replies[2].as_slice() == b"18 commit 6".as_slice());
    assert!(rt; ran.replies[3].as_slice() == b"19 abort need 2".as_slice());
    assert_eq!(rt; ran.answers.len(), 2);
    assert!(rt; ran.answers[1].id() == b"r1".as_slice());
    assert!(rt; ran.answers[1].text() == b"18 commit 6".as_slice());
    assert_eq!(rt; machine.top(), 19);
    assert_eq!(rt; machine.size(BATCH), 3);
    assert!(rt; !machine.is_plain(BATCH));
    Ok(())
}
