//! A store in a file.

ghost use Rattle.std.specs.Prelude.{IsTrue, IfOk};
ghost use Rattle.sqlite_store.specs.Unopened.{AreUsable};

use bohm_requests::{archive_tables, ledger_tables};
use sqlite_disk::{Disk, Files};
use sqlite_pager::{Options, Pager};
use sqlite_pool::probe_blank;
use sqlite_store::{FileStore, OpenError, Unopened};
use sqlite_trees::error::StoreError;
use sqlite_trees::schema::Object;
use sqlite_trees::store::{Direction, Store};
use sqlite_value::row::Row;
use sqlite_wal::PageSize;
use std::alloc::Global;

/// How many tables a ledger has.
const TABLES: u32 = 4;

/// The bytes of a page, as SQLite has them by default.
const PAGE_SIZE: usize = 4096;

fn unopened<D: Disk + Drop>(
    alloc: Global,
    files: Files<D>,
    size: PageSize,
    schema: &[Object<'_>],
) -> Result<Unopened<D>, OpenError>
    requires log { IsTrue (D.Disk.is_usable files.log) }
    requires db { IsTrue (D.Disk.is_usable files.db) }
    ensures { IfOk result AreUsable }
{
    let Ok(pager) = Pager::new(alloc, files, size, Options::new(7)) else {
        return Err(OpenError::OutOfMemory);
    };
    match Unopened::new(alloc, pager, schema) {
        Ok(unopened) => Ok(unopened),
        Err(_) => Err(OpenError::OutOfMemory),
    }
}

/// A store, and whether it is new.
#[derive(Drop)]
pub struct Opened<D: Disk + Drop> {
    pub store: FileStore<D>,
    pub is_new: bool,
}

/// Opens the store of these tables in two files, and makes it where they hold none.
fn open_store<D: Disk + Drop>(
    alloc: Global,
    mut files: Files<D>,
    schema: &[Object<'_>],
) -> Result<Opened<D>, OpenError> {
    let Some(size) = PageSize::new(PAGE_SIZE) else {
        return Err(OpenError::Refused);
    };
    if !files.may_be_used() {
        return Err(OpenError::Io);
    }
    let Ok(is_new) = probe_blank(alloc, &mut files, size, false) else {
        return Err(OpenError::Io);
    };
    if !files.may_be_used() {
        return Err(OpenError::Io);
    }
    let unopened = unopened(alloc, files, size, schema)?;
    if is_new {
        return created(unopened);
    }
    match unopened.open() {
        Ok(store) => Ok(Opened { store, is_new }),
        // Whoever made the file may have been stopped before it had tables.
        Err((OpenError::Refused, unopened)) => finish(alloc, unopened.close(), size, schema),
        Err((error, _)) => Err(error),
    }
}

/// Makes a store where its files hold none, or one that wasn't made to its end.
fn created<D: Disk + Drop>(unopened: Unopened<D>) -> Result<Opened<D>, OpenError>
    requires { AreUsable unopened }
{
    match unopened.create() {
        Ok(store) => Ok(Opened {
            store,
            is_new: true,
        }),
        Err((error, _)) => Err(error),
    }
}

/// Makes a store to its end, whose making was stopped. Other files are refused, and stay as they
/// are.
fn finish<D: Disk + Drop>(
    alloc: Global,
    files: Files<D>,
    size: PageSize,
    schema: &[Object<'_>],
) -> Result<Opened<D>, OpenError> {
    if !files.may_be_used() {
        return Err(OpenError::Io);
    }
    created(unopened(alloc, files, size, schema)?)
}

/// Opens the store of a ledger, and makes it where the files hold none. It is new too where its
/// tables are empty: whoever made them was stopped before the ledger was in them.
pub fn open_ledger<D: Disk + Drop>(alloc: Global, files: Files<D>) -> Result<Opened<D>, OpenError> {
    let Opened { mut store, is_new } = open_store(alloc, files, &ledger_tables())?;
    let is_blank = is_blank(alloc, &mut store).unwrap_or(false);
    Ok(Opened {
        store,
        is_new: is_new || is_blank,
    })
}

/// Opens the store of an archive, and makes it where the files hold none.
pub fn open_archive<D: Disk + Drop>(
    alloc: Global,
    files: Files<D>,
) -> Result<Opened<D>, OpenError> {
    open_store(alloc, files, &archive_tables())
}

/// Whether no table of a ledger has a row.
fn is_blank<S: Store>(alloc: Global, store: &mut S) -> Result<bool, StoreError> {
    let mut row = Row::new(alloc);
    for table in 0..TABLES {
        row.clear();
        store.seek(0, table, &row, Direction::Forward)?;
        if store.next(0, &mut row)? {
            return Ok(false);
        }
    }
    Ok(true)
}
