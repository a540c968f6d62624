//! Laws over the definitions alone.

ghost use Rattle.std.specs.Prelude.{◌≡◌, ℕ, ◌+◌, ◌-◌, ◌≤◌, ◌↔◌, List, length, Contains};
ghost use Rattle.bohm_types.specs.Txn.{Txn};
ghost use Rattle.bohm_txn.specs.Meaning.{Look};
ghost use Rattle.bohm_txn.specs.Serial.{state};
ghost use Rattle.bohm_place.specs.declared.access.Source.{Source};
ghost use Rattle.bohm_place.specs.Chains.{RisesFrom, IsKept, kept};
ghost use Rattle.bohm_place.specs.Shares.{AreWellFormed};
ghost use Rattle.bohm_place.specs.Writers.{IsNewest, upto, newest_of};

/// In a batch that starts at `first`, a key's cell before the transaction at index i is its cell
/// after its newest writer.
pub fn newest_state()
    ensures { (look : Look) (txns : List Txn) (first i : ℕ) (k : List ℕ) (s : Source)
        → AreWellFormed txns → i ≤ length txns → IsNewest first txns k (first + i) s
        → state look txns i k ≡ state look txns (upto first s) k }
{}

/// In a log, a key's cell before the transaction at t is its cell after its newest writer below t,
/// or its cell in the starting store if there is no such writer.
pub fn newest_state_in_log()
    ensures { (look : Look) (log : List Txn) (t : ℕ) (k : List ℕ) (s : Source)
        → AreWellFormed log → 1 ≤ t → t ≤ length log + 1 → IsNewest 1 log k t s
        → state look log (t - 1) k ≡ state look log (newest_of s) k }
{}

/// Trimming a rising chain keeps the begins above the floor, and the greatest one at or below it.
pub fn kept_members()
    ensures { (floor n b : ℕ) (bs : List ℕ) → RisesFrom n bs
        → IsKept floor bs b ↔ Contains (kept floor bs) b }
{}
