//! Batches in an archive, and moving them there.

ghost use Rattle.std.specs.Prelude.{◌≡◌, ◌∷◌, [], ℕ, ℤ, OnOk, IsTrue, ◌↔◌};
ghost use Rattle.sqlite_value.specs.declared.value.Value.TheVariants.{Int};
ghost use Rattle.sqlite_trees.specs.declared.store.Shape.{Shape as TheShape};
ghost use Rattle.sqlite_trees.specs.View.{IsClean};

use crate::desk::RequestDesk;
use crate::fault::DeskFault;
use bohm_entries::{count_transactions, has_no_definition};
use bohm_ledger::Fault;
use sqlite_trees::store::{Direction, Shape, Store};
use sqlite_value::row::Row;
use sqlite_value::value::ValueRef;
use std::alloc::{AllocError, Global};

/// The table `batch` of an archive.
const BATCH: u32 = 0;

/// Places and numbers are below this.
const LIMIT: u64 = 1 << 63;

/// A batch's place, and the number of its first transaction.
#[derive(Clone, Copy, Debug, PartialEq, Eq)]
pub struct BatchStart {
    pub place: u64,
    pub first: u64,
}

impl BatchStart {
    /// The first batch of a ledger.
    pub fn of_ledger() -> BatchStart {
        BatchStart { place: 1, first: 1 }
    }

    /// Where the batch behind one with this text begins.
    fn behind(self, text: &[u8]) -> BatchStart {
        BatchStart {
            place: self.place.saturating_add(1),
            first: self.first.saturating_add(count_transactions(text) as u64),
        }
    }
}

/// Whether an archive has the table.
fn has_table<T: Store>(archive: &T) -> bool
    ensures { IsTrue result ↔ ((T.view archive.now).shape 0 ≡ TheShape.Table) }
{
    matches!(archive.shape(BATCH), Shape::Table)
}

/// Writes a rowid over `row`.
fn write_key(row: &mut Row, id: i64) -> Result<(), AllocError>
    ensures { OnOk result (row.new ≡ Int id ∷ []) }
{
    row.clear();
    row.push(ValueRef::Int(id))
}

/// Puts a batch into an archive.
fn put_batch<T: Store>(
    archive: &mut T,
    row: &mut Row,
    start: BatchStart,
    text: &[u8],
) -> Result<(), DeskFault> {
    if start.place >= LIMIT || start.first >= LIMIT || !has_table(archive) {
        return Err(DeskFault::Archive);
    }
    write_key(row, start.place as i64)?;
    row.push(ValueRef::Null)?;
    row.push(ValueRef::Int(start.first as i64))?;
    row.push(ValueRef::Text(text))?;
    match archive.put(BATCH, row) {
        Ok(()) => Ok(()),
        Err(error) => Err(DeskFault::Ledger(Fault::Store(error))),
    }
}

/// The text of the batch that has this place, if the archive has it.
pub fn archived_at<T: Store>(
    alloc: Global,
    archive: &mut T,
    place: u64,
) -> Result<Option<Vec<u8>>, DeskFault> {
    if place >= LIMIT || !has_table(archive) {
        return Err(DeskFault::Archive);
    }
    let mut row = Row::new(alloc);
    match archive.get(BATCH, place as i64, &mut row) {
        Ok(true) => {}
        Ok(false) => return Ok(None),
        Err(_) => return Err(DeskFault::Archive),
    }
    match row.get(3) {
        ValueRef::Text(text) => Ok(Some(Vec::from_slice(alloc, text)?)),
        _ => Err(DeskFault::Archive),
    }
}

/// Where the batch behind an archive's last one begins.
pub fn behind_archive<T: Store>(
    alloc: Global,
    archive: &mut T,
) -> Result<Option<BatchStart>, DeskFault> {
    if !has_table(archive) {
        return Err(DeskFault::Archive);
    }
    let mut row = Row::new(alloc);
    write_key(&mut row, i64::MAX)?;
    if archive.seek(0, BATCH, &row, Direction::Backward).is_err() {
        return Err(DeskFault::Archive);
    }
    match archive.next(0, &mut row) {
        Ok(true) => {}
        Ok(false) => return Ok(None),
        Err(_) => return Err(DeskFault::Archive),
    }
    match (row.get(0), row.get(2), row.get(3)) {
        (ValueRef::Int(place), ValueRef::Int(first), ValueRef::Text(text))
            if place >= 0 && first >= 0 => {
            let start = BatchStart {
                place: place as u64,
                first: first as u64,
            };
            Ok(Some(start.behind(text)))
        }
        _ => Err(DeskFault::Archive),
    }
}

impl<S: Store + Drop> RequestDesk<S> {
    /// Where the batches end, from one on, that come before the checkpoint's; and how many bytes
    /// they have. The time grows with these.
    pub fn archivable(&mut self, from: BatchStart) -> Result<(BatchStart, usize), DeskFault> {
        let mut next = from;
        let mut bytes: usize = 0;
        for _ in 0..u64::MAX {
            let Some(text) = self.batch_at(next.place)? else {
                break;
            };
            let behind = next.behind(text.as_slice());
            if behind.first > self.checkpointed() {
                break;
            }
            bytes = bytes.saturating_add(text.len());
            next = behind;
        }
        Ok((next, bytes))
    }

    /// Puts the batches from one on that have no definition, up to another one, into an empty
    /// archive, and commits.
    pub fn copy_batches<T: Store>(
        &mut self,
        archive: &mut T,
        from: BatchStart,
        until: BatchStart,
    ) -> Result<(), DeskFault> {
        let mut row = Row::new(self.alloc);
        let mut next = from;
        for _ in 0..u64::MAX {
            if next.place >= until.place {
                break;
            }
            let Some(text) = self.batch_at(next.place)? else {
                break;
            };
            if has_no_definition(text.as_slice()) {
                put_batch(archive, &mut row, next, text.as_slice())?;
            }
            next = next.behind(text.as_slice());
        }
        match archive.commit() {
            Ok(()) => Ok(()),
            Err(error) => Err(DeskFault::Ledger(Fault::Store(error))),
        }
    }
}
