//! Calls, compared with the text of the transactions that they represent.

use bohm_log::DrawnSeed;
use bohm_procedures::{Calls, Procedure};
use bohm_types::{Edition, Key, Value};
use std::alloc::Global;

/// Adds a call; whether the list accepts it and it was added.
fn push(calls: &mut Calls, procedure: &Procedure, keys: &[Key], values: &[Value]) -> bool {
    calls.takes(procedure, keys, values) && calls.push(procedure, keys, values).is_ok()
}

/// Moves money from one account to another.
const TRANSFER: &[u8] =
    b"procedure 1\nkey from\nkey to\nvalue amount\nreads from to\nwrites from to\n\
need $amount > 0\nneed from >= $amount\nset from = from - $amount\nset to = to + $amount\nshow to\nend\n";

/// Two calls of the transfer: with the keys in the other order, and with one key for both.
const TRANSFERS: &[u8] = b"log 1\ntxn\nreads alice bob\nwrites alice bob\nlet $amount = 30\n\
need $amount > 0\nneed bob >= $amount\nset bob = bob - $amount\nset alice = alice + $amount\nshow alice\nend\n\
txn\nreads bob\nwrites bob\nlet $amount = -9223372036854775807 - 1\n\
need $amount > 0\nneed bob >= $amount\nset bob = bob - $amount\nset bob = bob + $amount\nshow bob\nend\n";

/// The text printed for a list of both transfers.
fn print_transfers(alloc: Global, seed: DrawnSeed, procedure: &Procedure) -> Option<Vec<u8>> {
    let (alice, bob) = (Key::new(b"alice")?, Key::new(b"bob")?);
    let mut calls = Calls::new(alloc, seed, Edition::One);
    let one = push(&mut calls, procedure, &[bob, alice], &[Value::from(30)]);
    let two = push(&mut calls, procedure, &[bob, bob], &[Value::from(i64::MIN)]);
    if one && two {
        calls.print(alloc).ok()
    } else {
        None
    }
}

#[test]
fn transfers_print_as_their_text(rt: HostRuntime) {
    let seed = DrawnSeed::draw(&rt);
    let read = Procedure::read(rt.alloc(), seed, TRANSFER);
    let procedure = read.ok().expect(&rt, "a procedure");
    let text = procedure.print(rt.alloc()).expect(&rt, "memory");
    assert_eq!(rt; text.as_slice(), TRANSFER);
    let text = print_transfers(rt.alloc(), seed, &procedure).expect(&rt, "calls");
    assert_eq!(rt; text.as_slice(), TRANSFERS);
}
