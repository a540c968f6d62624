//! Memory to evaluate calls in.

ghost use Rattle.std.specs.Prelude.{◌≡◌, ◌<◌, ◌≤◌, ◌++◌, ◌∷◌, [], length, IfOk};
ghost use Rattle.bohm_shapes.specs.Running.{most_slots};

use bohm_txn::Room;
use bohm_types::{Cell, MOST_KEYS, MOST_STMTS, NoMemory, Value};
use std::alloc::Global;
use std::marker::Model;

/// The most names that a procedure declares: those that it reads and those that it writes.
pub(crate) const MOST_SLOTS: usize = 2 * MOST_KEYS;

/// The effects of the statements so far.
#[derive(Debug)]
pub(crate) struct Work {
    /// The values of the first locals.
    pub locals: Room<Value>,
    /// For each key, the cell that the next statement sees.
    pub seen: Room<Cell>,
    /// For each key, its cell after the statements so far.
    pub cells: Room<Cell>,
    /// The values that are shown.
    pub shows: Room<Value>,
}

// Written out: a derived drop is proved anew in each function that drops such a value.
impl Drop for Work {
    fn drop(self) {
        let Self {
            locals,
            seen,
            cells,
            shows,
        } = self;
        drop(locals);
        drop(seen);
        drop(cells);
        drop(shows);
    }
}

/// Memory for the evaluation of any call, and the results of the last one.
#[derive(Debug, Drop)]
pub struct Registers {
    pub(crate) work: Work,
}

impl Model for Registers {
    ghost use Rattle.bohm_shapes.specs.Results.{Results};
    ghost use Rattle.bohm_shapes.specs.Running.{IsRoomy};

    ghost Value = { Results };

    ghost view = { λ r. record { cells = r.work.cells.0; shows = r.work.shows.0 } };

    ghost invariant = { λ r. IsRoomy r.work };
}

impl Registers {
    /// Registers without cells.
    pub fn new(alloc: Global) -> Result<Registers, NoMemory>
        ensures cells { IfOk result (λ registers. registers.cells ≡ []) }
        ensures shows { IfOk result (λ registers. registers.shows ≡ []) }
    {
        Ok(Registers {
            work: Work {
                locals: Room::new(alloc, MOST_STMTS)?,
                seen: Room::new(alloc, MOST_SLOTS)?,
                cells: Room::new(alloc, MOST_SLOTS)?,
                shows: Room::new(alloc, MOST_STMTS)?,
            },
        })
    }

    /// Removes all cells and shown values, before the cells of a call's keys are appended.
    pub fn clear(&mut self)
        ensures { self.new ≡ record { cells = []; shows = [] } }
    {
        self.work.cells.clear();
        self.work.shows.clear();
    }

    /// Appends the cell of the next key.
    pub fn push(&mut self, cell: Cell)
        requires { length self.old.cells < most_slots }
        ensures { self.new ≡ record {
          cells = self.old.cells ++ cell ∷ [];
          shows = self.old.shows;
        } }
    {
        self.work.cells.push(cell);
    }

    /// The cell of each key after the call that was evaluated last.
    pub fn cells(&self) -> &[Cell]
        ensures { result.now ≡ self.now.cells }
    {
        self.work.cells.as_slice()
    }

    /// The values that this call shows, in the order of its statements.
    pub fn shows(&self) -> &[Value]
        ensures { result.now ≡ self.now.shows }
    {
        self.work.shows.as_slice()
    }
}
