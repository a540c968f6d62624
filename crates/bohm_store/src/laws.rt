//! Laws over the definitions alone. No call uses them.

ghost use Rattle.std.specs.Prelude.{◌≡◌, ◌+◌, ◌-◌, ◌≤◌, ◌↔◌, ℕ, List, All, Contains, length};
ghost use Rattle.std.specs.List.{IsDistinct};
ghost use Rattle.std.specs.Map.{keys_of};
ghost use Rattle.std.specs.Str.{bytes_eq};
ghost use Rattle.bohm_types.specs.declared.cell.Cell.TheVariants.{Absent};
ghost use Rattle.bohm_types.specs.Txn.{Txn};
ghost use Rattle.bohm_txn.specs.Faulty.{IsWellFormedTxn};
ghost use Rattle.bohm_txn.specs.Meaning.{Look};
ghost use Rattle.bohm_txn.specs.Serial.{replies, state};
ghost use Rattle.bohm_board.specs.declared.batch.Batch.{Batch};
ghost use Rattle.bohm_board.specs.Batches.{base_of, txns_of};
ghost use Rattle.bohm_store.specs.Nexts.{IsNext, grown_versions};
ghost use Rattle.bohm_store.specs.declared.version.Version.{Version};
ghost use Rattle.bohm_store.specs.Versions.{IsCellAt, IsKept, Rises, Timeline, cell_at};
ghost use Rattle.bohm_store.specs.Versions.{declared_writes};
ghost use Rattle.bohm_store.specs.Versions.{kept_versions, past, produced_versions, total};
ghost use Rattle.bohm_store.specs.Versions.{versions};

/// Of ascending versions, the cell at a timestamp is that of the version with the greatest begin at
/// or below it.
pub fn cell_of_the_newest()
    ensures { (ts : ℕ) (vs : List Version) → Rises vs → IsCellAt ts vs (cell_at ts vs Absent) }
{}

/// Of ascending versions, those that begin above the floor are kept, and the newest one at or below
/// it.
pub fn kept_members()
    ensures { (floor : ℕ) (vs : List Version) (v : Version) → Rises vs
        → Contains (kept_versions floor vs) v ↔ IsKept floor vs v }
{}

/// At each timestamp, the versions that transactions after n produce have the cells that their
/// serial run leaves.
pub fn produced_is_serial()
    ensures { (n ts : ℕ) (look : Look) (txns : List Txn) (k : List ℕ) → All IsWellFormedTxn txns
        → n ≤ ts → ts ≤ n + length txns
        → cell_at ts (produced_versions (n + 1) look txns k) (look k) ≡ state look txns (ts - n) k }
{}

/// Two histories in which each key has the same versions have the same number of versions.
pub fn same_versions_same_count()
    ensures { (t r : Timeline) → IsDistinct bytes_eq (keys_of t.chains)
        → IsDistinct bytes_eq (keys_of r.chains) → ((k : List ℕ) → versions t k ≡ versions r k)
        → total t.chains ≡ total r.chains }
{}

/// If transactions after the top of a history leave each key at least as many versions as it has in
/// another history, then the other has at most as many versions as the first, plus one for each
/// write that the transactions declare.
pub fn grown_count()
    ensures { (was now : Timeline) (txns : List Txn) → IsDistinct bytes_eq (keys_of now.chains)
        → ((k : List ℕ) → length (versions now k) ≤ length (grown_versions was txns k))
        → total now.chains ≤ total was.chains + declared_writes txns }
{}

/// A history's next batch has the same replies over its base as over the past at the top.
pub fn next_replies()
    ensures { (t : Timeline) (b : Batch) → IsNext t b
        → replies (base_of b) (txns_of b) ≡ replies (past t t.top) (txns_of b) }
{}
