//! Opening: the checkpoint, then the batches after it.

ghost use Rattle.std.specs.Prelude.{◌≡◌, ◌≢◌, ◌⊎◌, ◌+◌, ◌<◌, ◌^◌, ◌≤◌, ◌++◌, ℕ, List, [], ◌∷◌, map, pos, IfOk, OnOk, MatchOption};
ghost use Rattle.std.specs.FinMap.{entries};
ghost use Rattle.sqlite_value.specs.Keys.{plain};
ghost use Rattle.sqlite_trees.specs.Tree.{Trees};
ghost use Rattle.sqlite_trees.specs.View.{View, doubt, IsClean, KeepsSchema, IsQuiet};
ghost use Rattle.sqlite_trees.specs.declared.store.Shape.{Shape as TheShape};
ghost use Rattle.bohm_types.specs.declared.edition.Edition.{Edition as TheEdition};
ghost use Rattle.bohm_ledger.specs.Rows.{head_tree, batch_tree, balance_tree, head_row, batch_row, balance_row, place_of, first_of, text_of};
ghost use Rattle.bohm_ledger.specs.Rules.{State, cells};
ghost use Rattle.bohm_ledger.specs.Ledgers.{HasTables, IsReady, StandsFor};
ghost use Rattle.bohm_ledger.specs.Loading.{FitsRow, Fit, loaded, next_place, taken};
ghost use Rattle.bohm_ledger.specs.Steps.{IsFresh, IsSteady, OnlyReads};

use crate::error::Fault;
use crate::machine::Machine;
use crate::tables::{BALANCE, BATCH, HEAD, LIMIT, has_tables, read_balance, read_batch, read_head};
use bohm_types::{Edition, Key, Value};
use sqlite_trees::error::StoreError;
use sqlite_trees::store::{Direction, Store};
use sqlite_value::row::Row;
use std::alloc::Global;

/// Goes back to the last commit, and sees that the tables are there.
pub(crate) fn begin<S: Store>(store: &mut S) -> Result<(), Fault>
    ensures ok { OnOk result (IsClean (S.view store.new) → IsFresh (S.view store.old) (S.view store.new)) }
    ensures steady { OnOk result (IsClean (S.view store.new) → IsSteady (S.view store.new)) }
    ensures quiet { IsQuiet S.view S.faults S.recovers S.is_shielded store.old store.new }
    ensures refused { result ≡ Err Fault.NoLedger → ¬ HasTables (S.view store.new) }
{
    store.rollback();
    if store.is_broken() {
        return Err(Fault::Store(StoreError::Broken));
    }
    if !has_tables(store) {
        return Err(Fault::NoLedger);
    }
    Ok(())
}

/// The edition, and the last transaction that `balance` has.
fn load_head<S: Store>(store: &mut S, row: &mut Row) -> Result<(Edition, u64), Fault>
    requires { IsClean (S.view store.old) → (S.view store.old).shape head_tree ≡ TheShape.Table }
    ensures ok { IfOk result (λ it. IsClean (S.view store.new) → (edition : TheEdition) (n : ℕ)
        → (S.view store.old).trees head_tree ≡ head_row edition n ∷ [] → (it.0 ≡ edition) × (it.1 ≡ n)) }
    ensures small { IfOk result (λ it. it.1 < 2 ^ 63) }
    ensures same { OnOk result (IsClean (S.view store.new) → OnlyReads (S.view store.old) (S.view store.new)) }
    ensures quiet { IsQuiet S.view S.faults S.recovers S.is_shielded store.old store.new }
{
    if !store.get(HEAD, 1, row)? {
        return Err(Fault::NoLedger);
    }
    match read_head(row) {
        Some(head) => Ok(head),
        None => Err(Fault::NoLedger),
    }
}

/// Adds what a row of `balance` says.
fn take_entry(balance: &mut Vec<(Key, Value)>, row: &Row) -> Result<(), Fault>
    ensures { OnOk result (map balance_row balance.new.items ≡ map balance_row balance.old.items ++ row.now ∷ []) }
{
    match read_balance(row) {
        Some(entry) => Ok(balance.push(entry)?),
        None => Err(Fault::NoLedger),
    }
}

/// What each key held at the checkpoint.
fn load_balance<S: Store>(
    store: &mut S,
    alloc: Global,
    row: &mut Row,
) -> Result<Vec<(Key, Value)>, Fault>
    ensures ok { IfOk result (λ it. IsClean (S.view store.new)
        → (S.view store.old).trees balance_tree ≡ map balance_row it.items) }
    ensures same { OnOk result (IsClean (S.view store.new) → OnlyReads (S.view store.old) (S.view store.new)) }
    ensures quiet { IsQuiet S.view S.faults S.recovers S.is_shielded store.old store.new }
{
    let mut balance = Vec::new(alloc);
    row.clear();
    store.seek(0, BALANCE, row, Direction::Forward)?;
    'rows: for _ in 0..LIMIT {
        if !store.next(0, row)? {
            return Ok(balance);
        }
        take_entry(&mut balance, row)?;
    }
    Err(Fault::Full)
}

/// Runs one batch, unless all its transactions are at or below the checkpoint: then only its
/// definitions count. Returns the place of the next batch.
fn take_batch<M: Machine>(
    machine: &mut M,
    alloc: Global,
    row: &Row,
    checkpoint: u64,
) -> Result<u64, Fault>
    requires { checkpoint < 2 ^ 63 }
    ensures state { OnOk result (M.state machine.new ≡ taken M.rules checkpoint (M.state machine.old) row.now) }
    ensures saved { OnOk result (M.saved machine.new ≡ M.saved machine.old) }
    ensures place { IfOk result (λ place. (place ≡ place_of row.now + 1) × (place < 2 ^ 63)) }
    ensures refused { result ≡ Err Fault.NoLedger
        → ¬ FitsRow M.rules checkpoint (M.state machine.old) row.now }
{
    let Some((place, first, text)) = read_batch(row) else {
        return Err(Fault::NoLedger);
    };
    let size = machine.size(text) as u64;
    if place + 1 >= LIMIT || size >= LIMIT {
        return Err(Fault::Full);
    }
    if first + size <= checkpoint + 1 {
        machine.pass(text)?;
        return Ok(place + 1);
    }
    if first == 0 || first - 1 != machine.top() {
        return Err(Fault::NoLedger);
    }
    let _ = machine.run(alloc, text)?;
    Ok(place + 1)
}

/// Takes all batches in, and returns the place of the next one.
fn load_batches<S: Store, M: Machine>(
    store: &mut S,
    machine: &mut M,
    alloc: Global,
    row: &mut Row,
    checkpoint: u64,
) -> Result<u64, Fault>
    requires { checkpoint < 2 ^ 63 }
    ensures state { OnOk result (IsClean (S.view store.new) → M.state machine.new
        ≡ loaded M.rules checkpoint (M.state machine.old) ((S.view store.old).trees batch_tree)) }
    ensures saved { OnOk result (M.saved machine.new ≡ M.saved machine.old) }
    ensures place { IfOk result (λ place. IsClean (S.view store.new)
        → place ≡ next_place 1 ((S.view store.old).trees batch_tree)) }
    ensures small { IfOk result (λ place. place < 2 ^ 63) }
    ensures refused { result ≡ Err Fault.NoLedger → IsClean (S.view store.new)
        → ¬ Fit M.rules checkpoint (M.state machine.old) ((S.view store.old).trees batch_tree) }
    ensures same { OnOk result (IsClean (S.view store.new) → OnlyReads (S.view store.old) (S.view store.new)) }
    ensures quiet { IsQuiet S.view S.faults S.recovers S.is_shielded store.old store.new }
{
    row.clear();
    store.seek(0, BATCH, row, Direction::Forward)?;
    let mut place = 1;
    'rows: for _ in 0..LIMIT {
        if !store.next(0, row)? {
            return Ok(place);
        }
        place = take_batch(machine, alloc, row, checkpoint)?;
    }
    Err(Fault::Full)
}

/// What opening found.
pub(crate) struct Loaded {
    pub(crate) edition: Edition,
    /// The last transaction that `balance` has.
    pub(crate) checkpoint: u64,
    /// The place of the next batch.
    pub(crate) place: u64,
}

/// Takes the checkpoint in, and then the batches.
pub(crate) fn load<S: Store, M: Machine>(
    store: &mut S,
    machine: &mut M,
    alloc: Global,
    row: &mut Row,
) -> Result<Loaded, Fault>
    ensures ready { IfOk result (λ it. IsClean (S.view store.new) → (edition : TheEdition) (bs : List (List ℕ))
        → StandsFor M.rules edition bs (S.view store.old).committed → (it.edition ≡ edition)
        × IsReady M.rules edition bs (S.view store.new) it.place it.checkpoint (M.state machine.new) (M.saved machine.new)) }
    ensures small { IfOk result (λ it. (it.place < 2 ^ 63) × (it.checkpoint < 2 ^ 63)) }
    ensures steady { OnOk result (IsClean (S.view store.new) → IsSteady (S.view store.new)) }
    ensures same { OnOk result (IsClean (S.view store.new) → (S.view store.new).trees ≡ (S.view store.old).committed) }
    ensures quiet { IsQuiet S.view S.faults S.recovers S.is_shielded store.old store.new }
{
    begin(store)?;
    let (edition, checkpoint) = load_head(store, row)?;
    let balance = load_balance(store, alloc, row)?;
    machine.start(edition, balance.as_slice(), checkpoint)?;
    let place = load_batches(store, machine, alloc, row, checkpoint)?;
    Ok(Loaded {
        edition,
        checkpoint,
        place,
    })
}
