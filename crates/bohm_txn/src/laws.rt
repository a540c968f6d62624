//! Laws over the definitions alone, for the proofs of the crates that depend on this one. No code
//! calls them.

ghost use Rattle.std.specs.Prelude.{◌≡◌, true, All, ℕ, suc, List, length, map, Some, Ok};
ghost use Rattle.bohm_types.specs.Document.{Document};
ghost use Rattle.bohm_types.specs.Txn.{Txn};
ghost use Rattle.bohm_types.specs.Keys.{IsAmong, rising};
ghost use Rattle.bohm_txn.specs.Declares.{IsUsable, shows_in};
ghost use Rattle.bohm_txn.specs.Faulty.{WellFormed, IsFirstFault, IsWellFormedTxn};
ghost use Rattle.bohm_txn.specs.declared.fault.CheckFault.{CheckFault};
ghost use Rattle.std.specs.List.{AllByRecursion, slice_get};
ghost use Rattle.bohm_txn.specs.Meaning.{Look, Run, body};
ghost use Rattle.bohm_txn.specs.Serial.{writes_of, after, state};
ghost use Rattle.bohm_txn.specs.Stores.{Store, cell_in, store_after};
ghost use Rattle.bohm_txn.specs.Sure.{IsSure};

// ---- of the check

/// The transactions of a well-formed document are well formed.
pub fn log_is_well_formed()
    ensures { (d : Document) → WellFormed d → All IsWellFormedTxn d.log }
{}

/// A document has at most one first fault, and none if it is well formed.
pub fn one_first_fault()
    ensures one { (d : Document) (f g : CheckFault) → IsFirstFault d f → IsFirstFault d g → f ≡ g }
    ensures none { (d : Document) (f : CheckFault) → WellFormed d → ¬ IsFirstFault d f }
{}

/// A well-formed transaction keeps the limits, and declares each key that it reads or writes.
pub fn txn_is_usable()
    ensures { (t : Txn) → IsWellFormedTxn t → IsUsable t }
{}

/// The keys that a well-formed transaction declares are in ascending order.
pub fn sets_are_rising()
    ensures reads { (t : Txn) → IsWellFormedTxn t → rising t.reads ≡ true }
    ensures writes { (t : Txn) → IsWellFormedTxn t → rising t.writes ≡ true }
{}

// ---- of bodies and of the serial run

/// A well-formed transaction's body depends on its declared reads alone.
pub fn same_body()
    ensures { (t : Txn) (look other : Look) → IsWellFormedTxn t
        → ((k : List ℕ) → IsAmong t.reads k → look k ≡ other k)
        → body look t ≡ body other t }
{}

/// The body changes only its declared writes.
pub fn unwritten_stay()
    ensures { (t : Txn) (look : Look) (k : List ℕ) → IsWellFormedTxn t → ¬ IsAmong t.writes k
        → after look t k ≡ look k }
{}

/// Each write that it performs is declared.
pub fn writes_are_declared()
    ensures { (t : Txn) (look : Look) → IsWellFormedTxn t
        → AllByRecursion (λ w. IsAmong t.writes w.0) (writes_of (body look t)) }
{}

/// A commit shows one value for each `show` of the body.
pub fn shows_are_counted()
    ensures { (t : Txn) (look : Look) (run : Run) → body look t ≡ Ok run
        → length run.shows ≡ shows_in t.body }
{}

/// If the body has the same result, a key with the same cell before has the same cell afterwards.
pub fn same_cell_after()
    ensures { (t : Txn) (look other : Look) (k : List ℕ) → body look t ≡ body other t
        → look k ≡ other k → after look t k ≡ after other t k }
{}

/// A sure transaction commits over every store.
pub fn sure_commits()
    ensures { (t : Txn) (look : Look) → IsSure t → (run : Run) × (body look t ≡ Ok run) }
{}

/// A sure transaction's body has the same result over every store.
pub fn sure_body_is_same()
    ensures { (t : Txn) (look other : Look) → IsSure t → body look t ≡ body other t }
{}

/// After a sure transaction its declared writes have the same cells, whatever cells they had
/// before.
pub fn sure_cells_are_same()
    ensures { (t : Txn) (look other : Look) → IsSure t
        → map (after look t) t.writes ≡ map (after other t) t.writes }
{}

/// The store that the serial run leaves has the cells of its last state.
pub fn store_has_last_state()
    ensures { (s : Store) (ts : List Txn)
        → cell_in (store_after s ts) ≡ state (cell_in s) ts (length ts) }
{}

/// Two stores in which each key has the same cell are equal.
pub fn same_cells_same_store()
    ensures { (s r : Store) → ((k : List ℕ) → cell_in s k ≡ cell_in r k) → s ≡ r }
{}

/// Each state is the result of a transaction over the state before it.
pub fn next_state()
    ensures { (look : Look) (ts : List Txn) (i : ℕ) (t : Txn) → slice_get ts i ≡ Some t
        → state look ts (suc i) ≡ after (state look ts i) t }
{}
