//! A ledger in a store of memory, which is opened again.

use bohm_durable::Checkpointed;
use bohm_ledger::{Ledger, Machine, restart};
use bohm_log::DrawnSeed;
use bohm_replay::{EntryMachine, NumberFault};
use bohm_types::{Cell, Edition, Key};
use sqlite_trees::memory::MemStore;
use sqlite_trees::schema::Object;
use sqlite_trees::store::Shape;
use sqlite_value::keys::Order;
use std::alloc::{AllocError, Global};
use std::test::Fail;

const DEFINITION: &[u8] =
    b"define #d pay\nprocedure 2\nkey from\nkey to\nvalue amount\nreads from to\nwrites from to\nneed from >= $amount\nset from = from - $amount\nset to = to + $amount\nshow from\nend\n";

const OPENING: &[u8] = b"txn\nreads\nwrites a b\nset a = 10\nset b = 0\nend\ncall #r1 pay a b 4\n";

fn table(name: &str, shape: Shape) -> Object<'_> {
    Object {
        shape,
        kind: "table",
        name,
        table: name,
        reals: 0,
        sql: None,
    }
}

fn empty_store(alloc: Global) -> Result<MemStore, AllocError> {
    let keyed = Shape::Index(Order { digits: 0 });
    let schema = [
        table("ledger", Shape::Table),
        table("batch", Shape::Table),
        table("balance", keyed),
        table("request", keyed),
    ];
    MemStore::new(alloc, &schema)
}

fn new_machine(alloc: Global, seed: DrawnSeed) -> Option<EntryMachine<Checkpointed>> {
    let past = Checkpointed::new(alloc, seed).ok()?;
    Some(EntryMachine::new(alloc, seed, past))
}

type MemLedger = Ledger<MemStore, EntryMachine<Checkpointed>>;

fn new_ledger(alloc: Global, seed: DrawnSeed) -> Option<MemLedger> {
    let store = empty_store(alloc).ok()?;
    let machine = new_machine(alloc, seed)?;
    Ledger::create(alloc, store, machine, Edition::Two).ok()
}

/// Crashes, and opens what was committed with a new machine.
fn opened_again(alloc: Global, seed: DrawnSeed, ledger: MemLedger) -> Option<MemLedger> {
    let (store, _) = ledger.into_parts();
    let machine = new_machine(alloc, seed)?;
    restart(alloc, store, machine)
}

fn holds(ledger: &MemLedger, name: &[u8], amount: i64) -> bool {
    let Some(key) = Key::new(name) else {
        return false;
    };
    match ledger.machine().value(&key) {
        Cell::Present(value) => value.get() == amount,
        Cell::Absent => false,
    }
}

/// Appends an entry, and compares its answer.
fn answers(ledger: &mut MemLedger, entry: &[u8], answer: &[u8]) -> bool {
    match ledger.append(entry) {
        Ok(replies) => replies.len() == 1 && replies[0].as_slice() == answer,
        Err(_) => false,
    }
}

/// Whether the id's entry was answered so.
fn remembers(ledger: &mut MemLedger, id: &[u8], answer: &[u8]) -> bool {
    match ledger.request(id) {
        Ok(Some(stored)) => stored.answer.as_slice() == answer,
        _ => false,
    }
}

#[test]
fn entries_outlast_a_crash(rt: HostRuntime) -> Result<(), Fail> {
    let seed = DrawnSeed::draw(&rt);
    let Some(mut ledger) = new_ledger(rt.alloc(), seed) else {
        assert!(rt; false);
        return Ok(());
    };
    assert!(rt; answers(&mut ledger, DEFINITION, b"defined pay"));
    let opening = ledger.append(OPENING)?;
    assert_eq!(rt; opening.len(), 2);
    let Some(mut ledger) = opened_again(rt.alloc(), seed, ledger) else {
        assert!(rt; false);
        return Ok(());
    };
    assert_eq!(rt; ledger.machine().top(), 2);
    assert!(rt; holds(&ledger, b"a", 6));
    assert!(rt; holds(&ledger, b"b", 4));
    assert!(rt; remembers(&mut ledger, b"r1", b"2 commit 6"));
    assert!(rt; answers(&mut ledger, b"call pay a b 7\n", b"3 abort need 2"));
    Ok(())
}

#[test]
fn a_checkpoint_outlasts_a_crash(rt: HostRuntime) -> Result<(), Fail> {
    let seed = DrawnSeed::draw(&rt);
    let Some(mut ledger) = new_ledger(rt.alloc(), seed) else {
        assert!(rt; false);
        return Ok(());
    };
    assert!(rt; answers(&mut ledger, DEFINITION, b"defined pay"));
    let opening = ledger.append(OPENING)?;
    assert_eq!(rt; opening.len(), 2);
    ledger.checkpoint()?;
    assert!(rt; answers(&mut ledger, b"call pay b a 1\n", b"3 commit 3"));
    ledger.forget_before(2)?;
    let Some(mut ledger) = opened_again(rt.alloc(), seed, ledger) else {
        assert!(rt; false);
        return Ok(());
    };
    assert_eq!(rt; ledger.checkpointed(), 2);
    assert_eq!(rt; ledger.machine().top(), 3);
    assert!(rt; holds(&ledger, b"a", 7));
    assert!(rt; answers(&mut ledger, b"call pay b a 3\n", b"4 commit 0"));
    Ok(())
}

fn held(ledger: &MemLedger, number: u64) -> Result<Cell, NumberFault> {
    match Key::new(b"a") {
        Some(key) => ledger.machine().value_at(&key, number),
        None => Err(NumberFault::Future),
    }
}

fn held_amount(ledger: &MemLedger, number: u64, amount: i64) -> bool {
    let Ok(cell) = held(ledger, number) else {
        return false;
    };
    match cell {
        Cell::Present(value) => value.get() == amount,
        Cell::Absent => false,
    }
}

#[test]
fn values_are_found_by_number(rt: HostRuntime) -> Result<(), Fail> {
    let seed = DrawnSeed::draw(&rt);
    let Some(mut ledger) = new_ledger(rt.alloc(), seed) else {
        assert!(rt; false);
        return Ok(());
    };
    assert!(rt; answers(&mut ledger, DEFINITION, b"defined pay"));
    let opening = ledger.append(OPENING)?;
    assert_eq!(rt; opening.len(), 2);
    assert!(rt; held_amount(&ledger, 1, 10));
    assert!(rt; held_amount(&ledger, 2, 6));
    assert!(rt; matches!(held(&ledger, 3), Err(NumberFault::Future)));
    let before = ledger.machine().past().digest_before(rt.alloc(), 0)?;
    ledger.checkpoint()?;
    assert!(rt; matches!(held(&ledger, 1), Err(NumberFault::Trimmed)));
    assert!(rt; held_amount(&ledger, 2, 6));
    assert!(rt; ledger.machine().past().digest_before(rt.alloc(), 0)? == before);
    Ok(())
}

#[test]
fn unknown_names_are_not_admitted(rt: HostRuntime) -> Result<(), Fail> {
    let seed = DrawnSeed::draw(&rt);
    let Some(mut ledger) = new_ledger(rt.alloc(), seed) else {
        assert!(rt; false);
        return Ok(());
    };
    assert!(rt; ledger.machine().admit(b"call pay a b 4\n").is_err());
    assert!(rt; answers(&mut ledger, DEFINITION, b"defined pay"));
    assert!(rt; ledger.machine().admit(b"call pay a b 4\n").is_ok());
    assert!(rt; ledger.machine().admit(b"call pay a b\n").is_err());
    assert!(rt; ledger.machine().admit(b"call  pay a b 4\n").is_err());
    assert!(rt; ledger.machine().admit(b"call pay a b 4\nend\n").is_err());
    assert!(rt; ledger.machine().admit(b"call #r2 pay a b 4\n").is_ok());
    assert!(rt;
        ledger
            .machine()
            .admit(b"txn more\nreads\nwrites\nend\n")
            .is_err()
    );
    Ok(())
}
