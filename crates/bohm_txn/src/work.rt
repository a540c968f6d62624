//! Runs a body, statement by statement.

ghost use Rattle.std.specs.Prelude.{◌≡◌, ◌≤◌, ◌<◌, [], length, true, false};
ghost use Rattle.std.specs.Prelude.{MatchResult, IfOk, Ok, Err};
ghost use Rattle.bohm_types.specs.Keys.{rising};
ghost use Rattle.bohm_log.specs.Parts.{name_at, stmt_of, txn_of};
ghost use Rattle.bohm_txn.specs.Faulty.{IsWellFormedTxn};
ghost use Rattle.bohm_txn.specs.Performing.{CanPerform};
ghost use Rattle.bohm_txn.specs.Seeing.{look_of};
ghost use Rattle.bohm_txn.specs.Tables.{cell_at, start, replaced, written, step, tables_from};
ghost use Rattle.bohm_txn.specs.declared.outcome.Reason.TheVariants as reasons;
ghost use Rattle.bohm_types.specs.Limits.{most_keys};

use crate::environment::Environment;
use crate::outcome::Reason;
use crate::room::Room;
use bohm_log::{Action, IndexedTxn, StmtRow};
use bohm_types::{Cell, Edition, Key, MOST_KEYS, MOST_SHOWS, MOST_STMTS, NoMemory, Value};
use std::alloc::Global;

/// The effects of the statements so far, with capacity for those of any well-formed transaction.
#[derive(Debug)]
pub struct Work {
    /// The values that are bound.
    pub locals: Room<(Key, Value)>,
    /// For each declared read, the cell that the next statement sees.
    pub seen: Room<Cell>,
    /// For each declared write, its cell.
    pub cells: Room<Cell>,
    /// The values that are shown.
    pub shows: Room<Value>,
}

// Written out: a derived drop is proved anew in each function that drops such a value.
impl Drop for Work {
    fn drop(self) {
        let Self {
            locals,
            seen,
            cells,
            shows,
        } = self;
        drop(locals);
        drop(seen);
        drop(cells);
        drop(shows);
    }
}

/// Fails with `Need` unless it holds.
pub fn need(holds: bool) -> Result<(), Reason>
    ensures { MatchResult result (λ _. holds ≡ true)
        (λ reason. (holds ≡ false) × (reason ≡ reasons.Need)) }
{
    if holds { Ok(()) } else { Err(Reason::Need) }
}

impl Work {
    ghost use Rattle.bohm_txn.specs.Room.{tables_of, IsRoomy, IsSized, HasRoom, Grows};

    pub fn new(alloc: Global) -> Result<Work, NoMemory>
        ensures room { IfOk result IsRoomy }
        ensures cells { IfOk result (λ work. work.cells.0 ≡ []) }
        ensures shows { IfOk result (λ work. work.shows.0 ≡ []) }
    {
        Ok(Work {
            locals: Room::new(alloc, MOST_STMTS)?,
            seen: Room::new(alloc, MOST_KEYS)?,
            cells: Room::new(alloc, MOST_KEYS)?,
            shows: Room::new(alloc, MOST_SHOWS)?,
        })
    }

    fn environment<'a>(&'a self, txn: &'a IndexedTxn<'a>) -> Environment<'a>
        requires sized { length self.now.seen.0 ≡ length txn.now.reads }
        requires rising { rising txn.now.reads ≡ true }
        requires few { length txn.now.reads ≤ most_keys }
        ensures cells { look_of result ≡ cell_at txn.now.reads self.now.seen.0 }
        ensures locals { result.locals.now ≡ self.now.locals.0 }
        ensures txn { result.txn.now ≡ txn.now }
    {
        Environment {
            txn,
            cells: self.seen.as_slice(),
            locals: self.locals.as_slice(),
        }
    }

    /// Writes the cell that later statements see of a key, given by its index among the declared
    /// writes, if it is declared to be read.
    fn write_seen(&mut self, txn: &IndexedTxn<'_>, place: u32, cell: &Cell)
        requires sized { length self.old.seen.0 ≡ length txn.now.reads }
        requires place { place < length txn.now.writes }
        ensures locals { self.new.locals ≡ self.old.locals }
        ensures seen { self.new.seen.0
            ≡ replaced txn.now.reads self.old.seen.0 (name_at txn.now.writes place) cell.now }
        ensures room { self.new.seen.1 ≡ self.old.seen.1 }
        ensures cells { self.new.cells ≡ self.old.cells }
        ensures shows { self.new.shows ≡ self.old.shows }
    {
        if let Some(read) = txn.read_of_write(place) {
            self.seen.set(read, *cell);
        }
    }

    /// Writes the cell of the key at an index among the declared writes. In edition two later
    /// statements see it.
    fn write(&mut self, edition: Edition, txn: &IndexedTxn<'_>, place: u32, cell: Cell)
        requires sized { IsSized (txn_of edition txn.now) self.old }
        requires rising { rising txn.now.writes ≡ true }
        requires place { place < length txn.now.writes }
        ensures after { tables_of self.new
            ≡ written (txn_of edition txn.now) (tables_of self.old)
            (name_at txn.now.writes place) cell }
        ensures sized { IsSized (txn_of edition txn.now) self.new }
        ensures room { Grows self.old self.new }
    {
        self.cells.set(place as usize, cell);
        match edition {
            Edition::One => {}
            Edition::Two => self.write_seen(txn, place, &cell),
        }
    }

    /// Runs one statement. The error says why it fails. Inline, as its caller is.
    #[inline(always)]
    fn perform(
        &mut self,
        edition: Edition,
        txn: &IndexedTxn<'_>,
        row: &StmtRow,
    ) -> Result<(), Reason>
        requires can { CanPerform txn.now row.now }
        requires sized { IsSized (txn_of edition txn.now) self.old }
        requires room { HasRoom (stmt_of txn.now row.now) self.old }
        ensures outcome { let next = step (txn_of edition txn.now) (tables_of self.old)
            (stmt_of txn.now row.now) in
            MatchResult result
            (λ _. next ≡ Ok (tables_of self.new)) (λ reason. next ≡ Err reason) }
        ensures sized { IsSized (txn_of edition txn.now) self.new }
        ensures room { Grows self.old self.new }
    {
        let (start, first, second, third) = (row.start, row.first, row.second, row.third);
        let seen = self.environment(txn);
        match row.action {
            Action::Bind => {
                let value = seen.sum(start, first)?;
                let name = txn.others()[row.name as usize];
                self.locals.push((name, value));
            }
            Action::Need(cmp) => need(seen.holds(cmp, start, first, second)?)?,
            Action::Has => need(seen.has(row.declared, row.name))?,
            Action::Lacks => need(!seen.has(row.declared, row.name))?,
            Action::Put => {
                let value = seen.sum(start, first)?;
                self.write(edition, txn, row.name, Cell::Present(value));
            }
            Action::PutWhen(cmp) => {
                if seen.holds(cmp, first, second, third)? {
                    let value = seen.sum(start, first)?;
                    self.write(edition, txn, row.name, Cell::Present(value));
                }
            }
            Action::Remove => self.write(edition, txn, row.name, Cell::Absent),
            Action::Show => {
                let value = seen.sum(start, first)?;
                self.shows.push(value);
            }
            Action::Fail => return Err(Reason::Fail),
        }
        Ok(())
    }

    // Starts with these cells of the declared reads and writes.
    fn begin(&mut self, reads: &[Cell], earlier: &[Cell])
        requires room { IsRoomy self.old }
        requires reads { length reads.now ≤ most_keys }
        requires earlier { length earlier.now ≤ most_keys }
        ensures seen { self.new.seen.0 ≡ reads.now }
        ensures cells { self.new.cells.0 ≡ earlier.now }
        ensures room { IsRoomy self.new }
    {
        self.seen.copy_from(reads);
        self.cells.copy_from(earlier);
    }

    /// Runs the body over these cells. The error says why, and at which statement, it fails.
    pub fn run(
        &mut self,
        edition: Edition,
        txn: &IndexedTxn<'_>,
        reads: &[Cell],
        earlier: &[Cell],
    ) -> Result<(), (Reason, u32)>
        requires room { IsRoomy self.old }
        requires well { IsWellFormedTxn (txn_of edition txn.now) }
        requires reads { length txn.now.reads ≡ length reads.now }
        requires earlier { length txn.now.writes ≡ length earlier.now }
        ensures outcome { let start = start reads.now earlier.now in
            let txn = txn_of edition txn.now in
            MatchResult result
            (λ _. tables_from txn start 1 txn.body ≡ Ok (tables_of self.new))
            (λ fault. tables_from txn start 1 txn.body ≡ Err fault) }
        ensures room { IsRoomy self.new }
    {
        self.begin(reads, earlier);
        self.run_in_place(edition, txn)
    }

    /// Runs the body over the cells that are already stored. The error says why, and at which
    /// statement, it fails. Inline, so that callers can keep the transaction's slices in registers.
    #[inline(always)]
    pub fn run_in_place(
        &mut self,
        edition: Edition,
        txn: &IndexedTxn<'_>,
    ) -> Result<(), (Reason, u32)>
        requires room { IsRoomy self.old }
        requires well { IsWellFormedTxn (txn_of edition txn.now) }
        requires sized { IsSized (txn_of edition txn.now) self.old }
        ensures outcome { let start = start self.old.seen.0 self.old.cells.0 in
            let txn = txn_of edition txn.now in
            MatchResult result
            (λ _. tables_from txn start 1 txn.body ≡ Ok (tables_of self.new))
            (λ fault. tables_from txn start 1 txn.body ≡ Err fault) }
        ensures room { IsRoomy self.new }
    {
        self.locals.clear();
        self.shows.clear();
        for (i, row) in txn.rows().iter().enumerate() {
            if let Err(reason) = self.perform(edition, txn, row) {
                return Err((reason, i as u32 + 1));
            }
        }
        Ok(())
    }

    /// Removes all cells and shown values.
    pub fn clear(&mut self)
        requires room { IsRoomy self.old }
        ensures seen { self.new.seen.0 ≡ [] }
        ensures cells { self.new.cells.0 ≡ [] }
        ensures shows { self.new.shows.0 ≡ [] }
        ensures room { IsRoomy self.new }
    {
        self.seen.clear();
        self.cells.clear();
        self.shows.clear();
    }

    /// Undoes the writes and removes the shown values: `before` has the cells of the declared
    /// writes before the body.
    pub fn take_back(&mut self, before: &[Cell])
        requires room { IsRoomy self.old }
        requires few { length before.now ≤ most_keys }
        ensures cells { self.new.cells.0 ≡ before.now }
        ensures shows { self.new.shows.0 ≡ [] }
        ensures room { IsRoomy self.new }
    {
        self.cells.copy_from(before);
        self.shows.clear();
    }
}
