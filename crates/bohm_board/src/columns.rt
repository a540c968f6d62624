//! The words of a board, in plain vectors.

ghost use Rattle.std.specs.Prelude.{◌≡◌, IfOk, length};

use bohm_types::NoMemory;
use std::alloc::Global;

/// A status word for each position, and a presence word and a value word for each slot.
#[derive(Drop)]
pub struct Columns {
    pub statuses: Vec<u64>,
    pub presences: Vec<u64>,
    pub values: Vec<u64>,
}

impl Columns {
    /// Words that are all 0.
    pub fn new(alloc: Global, positions: usize, slots: usize) -> Result<Columns, NoMemory>
        ensures statuses { IfOk result (λ c. length c.statuses.items ≡ positions) }
        ensures presences { IfOk result (λ c. length c.presences.items ≡ slots) }
        ensures values { IfOk result (λ c. length c.values.items ≡ slots) }
    {
        Ok(Columns {
            statuses: Vec::from_elem(alloc, 0u64, positions)?,
            presences: Vec::from_elem(alloc, 0u64, slots)?,
            values: Vec::from_elem(alloc, 0u64, slots)?,
        })
    }
}
