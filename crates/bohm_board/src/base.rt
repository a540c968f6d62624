//! What the keys of a batch hold before it.

ghost use Rattle.std.specs.Prelude.{◌≡◌};
ghost use Rattle.bohm_board.specs.Bases.{cells_of, keys_of, listed_cells, AreSteady};

use bohm_hints::TopCells;
use bohm_types::{Cell, Items, Key};

/// The cells of a batch's keys before it.
#[derive(Drop)]
pub enum Base<'a> {
    /// The cell of each key that the batch declares: one entry for each, or one for each time that
    /// it is declared.
    Listed(Items<(Key, Cell)>),
    /// The cells at the top of a history.
    Top(TopCells<'a>),
}

/// The cell of a key among entries, of which those of one key have the same cell; `Absent` if it has
/// no entry.
pub fn cell_of(entries: &[(Key, Cell)], key: &Key) -> Cell
    requires { AreSteady entries.now }
    ensures { result ≡ listed_cells entries.now key.now }
{
    for (other, cell) in entries {
        if *other == *key {
            return *cell;
        }
    }
    Cell::Absent
}
