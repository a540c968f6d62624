//! Adds the versions of one transaction.

ghost use Rattle.std.specs.Prelude.{◌≡◌, ◌+◌, ◌<◌, ◌≤◌, ◌^◌, [], ◌∷◌, OnOk, OnErr};
ghost use Rattle.std.specs.Map.{keys_of};
ghost use Rattle.bohm_types.specs.Txn.{Txn};
ghost use Rattle.bohm_store.specs.Nexts.{IsSame, IsSettledKept};
ghost use Rattle.bohm_store.specs.Runs.{Leaves};

use crate::history::History;
use crate::writes::Writes;
use bohm_types::{Cell, NoMemory};

impl History {
    /// Adds the versions of a transaction that follows the top and leaves these cells at the keys
    /// with these numbers, and trims at a floor. An error leaves the visible state unchanged.
    pub(crate) fn add_versions(
        &mut self,
        numbers: &[u32],
        cells: &[Cell],
        floor: u32,
    ) -> Result<(), NoMemory>
        requires leaves { (t : Txn) × Leaves self.old numbers.now cells.now t }
        requires timestamp { self.old.top + 1 < 2 ^ 32 }
        requires floor { floor ≤ self.old.top + 1 }
        ensures err { OnErr result (IsSame self.old self.new) }
        ensures ok { OnOk result ((t : Txn) → Leaves self.old numbers.now cells.now t
            → IsSettledKept self.old self.new (t ∷ []) floor) }
    {
        self.numbered.cover(self.names.len())?;
        let begin = self.numbered.top() + 1;
        let writes = Writes::Begun(begin, numbers, cells);
        self.numbered
            .add_above(self.names.table(), 1, writes, floor)?;
        Ok(())
    }
}
