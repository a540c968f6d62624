//! The newest version of a key, as a version.

ghost use Rattle.std.specs.Prelude.{◌≡◌, ◌≤◌, ℕ, [], ◌∷◌, length, option_to_list};
ghost use Rattle.bohm_types.specs.declared.cell.Cell.TheVariants as cells;
ghost use Rattle.bohm_store.specs.Versions.{cell_at, versions_to};
ghost use Rattle.bohm_store.specs.Held.{held_at, held_versions};

use crate::version::Version;
use bohm_hints::Held;
use bohm_types::Cell;

/// The version that begins at this timestamp and has this cell.
pub fn held_from(begin: u32, cell: Cell) -> Held
    ensures { held_versions result ≡ record { begin = begin; cell = cell } ∷ [] }
{
    match cell {
        Cell::Absent => Held::Absent { begin },
        Cell::Present(value) => Held::Present { begin, value },
    }
}

/// The version, if there is one.
pub fn version_of(held: Held) -> Option<Version>
    ensures { option_to_list result ≡ held_versions held }
{
    match held {
        Held::Never => None,
        Held::Absent { begin } => Some(Version {
            begin,
            cell: Cell::Absent,
        }),
        Held::Present { begin, value } => Some(Version {
            begin,
            cell: Cell::Present(value),
        }),
    }
}

/// The number of versions: 0 or 1.
pub fn count_of(held: Held) -> usize
    ensures count { result ≡ length (held_versions held) }
    ensures one { result ≤ 1 }
{
    match held {
        Held::Never => 0,
        _ => 1,
    }
}

/// The version itself if it begins at or below a timestamp, otherwise `Never`.
fn held_up_to(held: Held, ts: u32) -> Held
    ensures { held_versions result ≡ versions_to ts (held_versions held) }
{
    match held {
        Held::Absent { begin } | Held::Present { begin, .. } if ts < begin => Held::Never,
        _ => held,
    }
}

/// The cell at a timestamp, if there is no older version.
pub fn cell_then(held: Held, ts: u32) -> Cell
    ensures { result ≡ cell_at ts (held_versions held) cells.Absent }
{
    match held {
        Held::Present { begin, value } if begin <= ts => Cell::Present(value),
        _ => Cell::Absent,
    }
}

/// Removes the versions that begin above a timestamp. The time grows with the number of keys.
pub fn forget_after(newest: &mut [Held], ts: u32)
    ensures { (n : ℕ) → held_at newest.new n ≡ versions_to ts (held_at newest.old n) }
{
    for i in 0..newest.len() {
        newest[i] = held_up_to(newest[i], ts);
    }
}
