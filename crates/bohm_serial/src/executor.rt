//! Runs a log serially.

ghost use Rattle.std.specs.Prelude.{◌≡◌, [], ◌∷◌, ◌++◌, map, length, All, IfOk, OnOk};
ghost use Rattle.std.specs.FinMap.{entries};
ghost use Rattle.bohm_txn.specs.Faulty.{IsWellFormedTxn};
ghost use Rattle.bohm_txn.specs.Meaning.{body};
ghost use Rattle.bohm_txn.specs.Serial.{replies, reply_of, writes_of};
ghost use Rattle.bohm_txn.specs.Stores.{store_of, store_after, cell_in, put_all};
ghost use Rattle.std.specs.List.{zip};

use crate::store::Store;
use bohm_log::{Keys, LogPart, TxnView};
use bohm_txn::{Checked, Replies, Scratch, eval};
use bohm_types::{Cell, Items, Key, NoMemory, Value};
use std::alloc::Global;

/// The result of a run: the replies in log order, and the entries of the final store, sorted by
/// key.
#[derive(Debug, Drop)]
pub struct Answer {
    pub replies: Replies,
    pub store: Items<(Key, Value)>,
}

/// Replaces the list with the cells of these keys, in their order.
fn look_up(store: &Store, keys: &Keys<'_>, cells: &mut Vec<Cell>) -> Result<(), NoMemory>
    ensures { OnOk result (cells.new.items ≡ map (cell_in store.now) keys.now) }
{
    cells.clear();
    for place in 0..keys.len() {
        cells.push(store.get(keys.key(place)))?;
    }
    Ok(())
}

/// Stores the cell of each key.
fn put_cells(store: &mut Store, keys: &Keys<'_>, cells: &[Cell]) -> Result<(), NoMemory>
    requires { length keys.now ≡ length cells.now }
    ensures { OnOk result (store.new ≡ put_all store.old (zip keys.now cells.now)) }
{
    for place in 0..keys.len() {
        store.put(keys.key(place), cells[place])?;
    }
    Ok(())
}

/// The cells over which a transaction runs, and memory to run it in.
#[derive(Drop)]
struct Desk {
    reads: Vec<Cell>,
    earlier: Vec<Cell>,
    scratch: Scratch,
}

impl Desk {
    fn new(alloc: Global) -> Result<Desk, NoMemory> {
        Ok(Desk {
            reads: Vec::new(alloc),
            earlier: Vec::new(alloc),
            scratch: Scratch::new(alloc)?,
        })
    }
}

/// Runs one transaction over the store, and appends its reply.
fn execute(
    store: &mut Store,
    replies: &mut Replies,
    desk: &mut Desk,
    txn: &TxnView<'_>,
) -> Result<(), NoMemory>
    requires { IsWellFormedTxn txn.now }
    ensures reply { OnOk result
        (replies.new ≡ replies.old ++ reply_of (body (cell_in store.old) txn.now) ∷ []) }
    ensures store { OnOk result
        (store.new ≡ put_all store.old (writes_of (body (cell_in store.old) txn.now))) }
{
    let (reads, writes) = (txn.reads(), txn.writes());
    look_up(store, &reads, &mut desk.reads)?;
    look_up(store, &writes, &mut desk.earlier)?;
    let outcome = eval(
        txn,
        desk.reads.as_slice(),
        desk.earlier.as_slice(),
        &mut desk.scratch,
    );
    put_cells(store, &writes, desk.scratch.cells())?;
    replies.push(outcome, desk.scratch.shows())
}

/// Runs the transactions, one after another.
fn execute_all(alloc: Global, store: &mut Store, log: &LogPart<'_>) -> Result<Replies, NoMemory>
    requires { All IsWellFormedTxn log.now }
    ensures replies { IfOk result (λ list. list ≡ replies (cell_in store.old) log.now) }
    ensures store { OnOk result (store.new ≡ store_after store.old log.now) }
{
    let mut desk = Desk::new(alloc)?;
    let mut list = Replies::new(alloc);
    list.reserve(log.len())?;
    for index in 0..log.len() {
        execute(store, &mut list, &mut desk, &log.txn(index))?;
    }
    Ok(list)
}

/// Runs the log's transactions one after another over its starting store.
///
/// The time grows with the terms of the log, and with the number k of the store's keys as k log k.
pub fn run(alloc: Global, checked: &Checked) -> Result<Answer, NoMemory>
    ensures replies { IfOk result
        (λ answer. answer.replies
        ≡ replies (cell_in (store_of checked.now.store)) checked.now.log) }
    ensures store { IfOk result
        (λ answer. answer.store
        ≡ entries (store_after (store_of checked.now.store) checked.now.log)) }
{
    let mut store = Store::new(alloc, checked.store())?;
    let replies = execute_all(alloc, &mut store, &checked.log())?;
    let entries = store.entries(alloc)?;
    Ok(Answer {
        replies,
        store: Items::from(entries),
    })
}
