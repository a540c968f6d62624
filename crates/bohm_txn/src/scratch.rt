//! Memory to evaluate transactions in.

ghost use Rattle.std.specs.Prelude.{◌≡◌, ◌<◌, ◌++◌, ◌∷◌, [], length, IfOk};
ghost use Rattle.bohm_types.specs.Limits.{most_keys};

use crate::work::Work;
use bohm_types::{Cell, NoMemory, Value};
use std::alloc::Global;
use std::marker::Model;

/// Memory for the evaluation of any well-formed transaction, and the results of the last one.
#[derive(Debug, Drop)]
pub struct Scratch {
    pub(crate) work: Work,
}

impl Model for Scratch {
    ghost use Rattle.bohm_txn.specs.Results.{Results};
    ghost use Rattle.bohm_txn.specs.Room.{IsRoomy};

    ghost Value = { Results };

    ghost view = { λ s.
        record { seen = s.work.seen.0; cells = s.work.cells.0; shows = s.work.shows.0 } };

    ghost invariant = { λ s. IsRoomy s.work };
}

impl Scratch {
    /// A scratch without results.
    pub fn new(alloc: Global) -> Result<Scratch, NoMemory>
        ensures cells { IfOk result (λ scratch. scratch.cells ≡ []) }
        ensures shows { IfOk result (λ scratch. scratch.shows ≡ []) }
    {
        Ok(Scratch {
            work: Work::new(alloc)?,
        })
    }

    /// Removes all cells and shown values, before a transaction is evaluated in place.
    pub fn clear(&mut self)
        ensures { self.new ≡ record { seen = []; cells = []; shows = [] } }
    {
        self.work.clear();
    }

    /// Appends the cell of the next declared read.
    pub fn push_read(&mut self, cell: Cell)
        requires { length self.old.seen < most_keys }
        ensures { self.new ≡ record {
          seen = self.old.seen ++ cell ∷ [];
          cells = self.old.cells;
          shows = self.old.shows;
        } }
    {
        self.work.seen.push(cell);
    }

    /// Appends the cell of the next declared write.
    pub fn push_cell(&mut self, cell: Cell)
        requires { length self.old.cells < most_keys }
        ensures { self.new ≡ record {
          seen = self.old.seen;
          cells = self.old.cells ++ cell ∷ [];
          shows = self.old.shows;
        } }
    {
        self.work.cells.push(cell);
    }

    /// One cell for each declared write of the transaction that was evaluated last.
    pub fn cells(&self) -> &[Cell]
        ensures { result.now ≡ self.now.cells }
    {
        self.work.cells.as_slice()
    }

    /// The values that this transaction shows, in the order of its statements.
    pub fn shows(&self) -> &[Value]
        ensures { result.now ≡ self.now.shows }
    {
        self.work.shows.as_slice()
    }
}
