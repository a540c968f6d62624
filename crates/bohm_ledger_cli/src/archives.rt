//! The archives of a ledger, in files beside its own.

use crate::failure::Failure;
use crate::file::{Opened, open_archive};
use crate::serving::Archiving;
use bohm_requests::{Archives, BatchStart, DeskFault, RequestDesk, archived_at, behind_archive};
use sqlite_std_file::{File, Unknown};
use sqlite_store::FileStore;
use sqlite_trees::store::Store;
use std::alloc::AllocError;
use std::{fs, io};

/// The bytes of batches that go into an archive, at least.
const ARCHIVED: usize = 1 << 24;

/// An archive that is open.
#[derive(Drop)]
struct OpenArchive {
    number: u64,
    store: FileStore<File>,
}

/// The archives of the ledger in a file.
#[derive(Drop)]
pub struct FileArchives<'a> {
    rt: &'a HostRuntime,
    /// The file's path, with no link in it.
    path: String,
    /// The archives' numbers, rising.
    numbers: Vec<u64>,
    /// The archive that was read last.
    open: Option<OpenArchive>,
    /// Where the batches begin that no archive has, once that is known.
    from: Option<BatchStart>,
    /// The batches from there up to here may go into the next archive.
    until: BatchStart,
    /// How many bytes they have.
    bytes: usize,
}

/// The number of an archive with this name, of the ledger in the file with that name.
fn number_of(name: &str, file: &str) -> Option<u64> {
    let digits = name.strip_prefix(file)?.strip_prefix("-")?;
    let number = digits.parse::<u64>().ok()?;
    if digits.starts_with("0") || digits.starts_with("+") {
        return None;
    }
    Some(number)
}

/// The folder of a path, and the name in it.
fn parted(path: &str) -> (&str, &str) {
    match path.rsplit_once("/") {
        Some(("", name)) => ("/", name),
        Some(parts) => parts,
        None => (".", path),
    }
}

/// The numbers of the archives of the ledger in a file, rising.
fn list_numbers(rt: &HostRuntime, path: &str) -> io::Result<Vec<u64>> {
    let (folder, file) = parted(path);
    let mut numbers = Vec::new(rt.alloc());
    for entry in fs::read_dir(rt, folder)? {
        let entry = entry?;
        if let Some(number) = number_of(entry.file_name(), file) {
            numbers.push(number)?;
        }
    }
    numbers.sort()?;
    Ok(numbers)
}

/// Removes a file, if it is there.
fn remove(rt: &HostRuntime, path: &str) -> Result<(), Failure> {
    match fs::remove_file(rt, path) {
        Ok(()) => Ok(()),
        Err(error) if error.kind() == io::ErrorKind::NotFound => Ok(()),
        Err(error) => Err(Failure::Archive(error)),
    }
}

/// Opens the store of an archive in a file, or makes it. Its log is no file that stays.
fn open_file(rt: &HostRuntime, path: &str) -> Result<FileStore<File>, Failure> {
    let files = match sqlite_std_file::open(rt, path, Unknown) {
        Ok(files) => files,
        Err(error) => return Err(Failure::File(error)),
    };
    match open_archive(rt.alloc(), files) {
        Ok(Opened { store, .. }) => Ok(store),
        Err(error) => Err(Failure::Store(error)),
    }
}

impl<'a> FileArchives<'a> {
    /// The archives of the ledger in a file.
    pub fn of(rt: &'a HostRuntime, file: &str) -> Result<FileArchives<'a>, Failure> {
        let path = match fs::canonicalize(rt, file) {
            Ok(path) => String::from_str(rt.alloc(), path.as_str())?,
            Err(error) => return Err(Failure::Archive(error)),
        };
        let numbers = match list_numbers(rt, path.as_str()) {
            Ok(numbers) => numbers,
            Err(error) => return Err(Failure::Archive(error)),
        };
        Ok(FileArchives {
            rt,
            path,
            numbers,
            open: None,
            from: None,
            until: BatchStart::of_ledger(),
            bytes: 0,
        })
    }

    fn path_of(&self, number: u64) -> Result<String, AllocError> {
        format!(in self.rt.alloc(); "{}-{number}", self.path.as_str())
    }

    /// The archive with this number.
    fn opened(&mut self, number: u64) -> Result<&mut FileStore<File>, Failure> {
        let is_open = match &self.open {
            Some(open) => open.number == number,
            None => false,
        };
        if !is_open {
            self.open = None;
            let path = self.path_of(number)?;
            let store = open_file(self.rt, path.as_str())?;
            let log = format!(in self.rt.alloc(); "{}-wal", path.as_str())?;
            remove(self.rt, log.as_str())?;
            self.open = Some(OpenArchive { number, store });
        }
        match &mut self.open {
            Some(open) => Ok(&mut open.store),
            None => unreachable!(),
        }
    }

    /// Whether the ledger's file has less than an archive would, whatever is in its log.
    fn is_small(&self) -> bool {
        match fs::metadata(self.rt, self.path.as_str()) {
            Ok(found) => found.len() < (ARCHIVED / 2) as u64,
            Err(_) => true,
        }
    }

    /// Where the batches begin that no archive has.
    fn begin(&mut self) -> Result<BatchStart, Failure> {
        if let Some(from) = self.from {
            return Ok(from);
        }
        let alloc = self.rt.alloc();
        let found = match self.numbers.last() {
            Some(number) => {
                let number = *number;
                behind_archive(alloc, self.opened(number)?)?
            }
            None => None,
        };
        let from = found.unwrap_or(BatchStart::of_ledger());
        self.from = Some(from);
        self.until = from;
        Ok(from)
    }

    /// Writes an archive of the batches from one up to another.
    fn write<S: Store + Drop>(
        &self,
        desk: &mut RequestDesk<S>,
        number: u64,
        from: BatchStart,
        until: BatchStart,
    ) -> Result<(), Failure> {
        let rt = self.rt;
        let path = self.path_of(number)?;
        let new = format!(in rt.alloc(); "{}.new", path.as_str())?;
        let log = format!(in rt.alloc(); "{}-wal", new.as_str())?;
        remove(rt, new.as_str())?;
        remove(rt, log.as_str())?;
        let mut store = open_file(rt, new.as_str())?;
        desk.copy_batches(&mut store, from, until)?;
        if store.checkpoint().is_err() {
            return Err(Failure::Desk(DeskFault::Archive));
        }
        drop(store);
        remove(rt, log.as_str())?;
        settle(rt, self.path.as_str(), new.as_str(), path.as_str())
    }
}

/// Gives an archive its name, and makes the name durable.
fn settle(rt: &HostRuntime, ledger: &str, from: &str, to: &str) -> Result<(), Failure> {
    if let Err(error) = fs::rename(rt, from, to) {
        return Err(Failure::Archive(error));
    }
    let (folder, _) = parted(ledger);
    let synced = match fs::File::open(rt, folder) {
        Ok(folder) => folder.sync_all(),
        Err(error) => Err(error),
    };
    match synced {
        Ok(()) => Ok(()),
        Err(error) => Err(Failure::Archive(error)),
    }
}

impl<'a> Archives for FileArchives<'a> {
    fn batch_at(&mut self, place: u64) -> Result<Option<Vec<u8>>, DeskFault> {
        let alloc = self.rt.alloc();
        let count = self.numbers.len();
        for back in 0..count {
            let Some(number) = self.numbers.get(count - 1 - back).copied() else {
                return Ok(None);
            };
            let Ok(store) = self.opened(number) else {
                return Err(DeskFault::Archive);
            };
            if let Some(text) = archived_at(alloc, store, place)? {
                return Ok(Some(text));
            }
        }
        Ok(None)
    }
}

impl<'a> Archiving for FileArchives<'a> {
    /// Moves batches that come before the checkpoint's into a new archive, if there are enough of
    /// them. The archive is on the disk before they leave the ledger's file.
    fn archive<S: Store + Drop>(&mut self, desk: &mut RequestDesk<S>) -> Result<(), Failure> {
        if self.is_small() {
            return Ok(());
        }
        let from = self.begin()?;
        let (until, bytes) = desk.archivable(self.until)?;
        self.until = until;
        self.bytes = self.bytes.saturating_add(bytes);
        if self.bytes < ARCHIVED {
            return Ok(());
        }
        let number = match self.numbers.last() {
            Some(last) => last.saturating_add(1),
            None => 1,
        };
        self.numbers.reserve(1)?;
        self.write(desk, number, from, until)?;
        self.numbers.push(number)?;
        self.from = Some(until);
        self.bytes = 0;
        desk.forget_before(until.first.saturating_sub(1))?;
        Ok(())
    }
}
