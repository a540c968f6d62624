//! A version of a key.

ghost use Rattle.std.specs.Prelude.{◌≡◌, nat_le, if◌then◌else◌};

use bohm_types::Cell;

/// The cell of a key from the transaction with a timestamp on, up to the next version of the key. A
/// version that begins at 0 belongs to the starting store.
#[derive(Clone, Copy, Debug)]
pub struct Version {
    pub begin: u32,
    pub cell: Cell,
}

impl Version {
    /// Its cell if it begins at or below a timestamp, otherwise the cell before it.
    pub fn cell_or(self, ts: u32, before: Cell) -> Cell
        ensures { result ≡ (if nat_le self.begin ts then self.cell else before) }
    {
        if self.begin <= ts { self.cell } else { before }
    }
}
