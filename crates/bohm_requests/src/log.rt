//! The log of a ledger's transactions.

use crate::archives::Archives;
use crate::desk::{DeskMachine, RequestDesk};
use crate::fault::DeskFault;
use bohm_durable::Checkpointed;
use bohm_entries::{count_transactions, is_definition, split_entry};
use bohm_ledger::Machine;
use bohm_log::DrawnSeed;
use bohm_replay::EntryMachine;
use bohm_text::{put_entries, split_line};
use bohm_types::{Edition, Key, Value};
use sqlite_trees::store::Store;
use std::alloc::Global;

/// Prints the log of a range of transactions, batch by batch.
#[derive(Drop)]
pub struct LogPrinter {
    alloc: Global,
    machine: DeskMachine,
    /// Whether the machine runs the transactions before the range. Else it has their definitions
    /// alone.
    runs: bool,
    /// The place of the next batch.
    place: u64,
    /// The number of the next transaction.
    number: u64,
    first: u64,
    last: u64,
    /// Whether the store before the range is printed.
    has_front: bool,
}

/// Appends the first line of a log.
fn put_head(out: &mut Vec<u8>, edition: Edition) -> Result<(), DeskFault> {
    out.extend_from_slice(match edition {
        Edition::One => b"log 1\n",
        Edition::Two => b"log 2\n",
    })?;
    Ok(())
}

/// Appends the log of one transaction without its first line.
fn put_behind_head(out: &mut Vec<u8>, log: &[u8]) -> Result<(), DeskFault> {
    match split_line(log) {
        Some((_, lines)) => out.extend_from_slice(lines)?,
        None => {}
    }
    Ok(())
}

impl LogPrinter {
    /// A printer of the log of the transactions from one to another of a desk's ledger, 1 being the
    /// first. `None` if one of them isn't there yet, or the first is more than one above the last.
    pub fn new<S: Store + Drop>(
        alloc: Global,
        seed: DrawnSeed,
        desk: &RequestDesk<S>,
        first: u64,
        last: u64,
    ) -> Result<Option<LogPrinter>, DeskFault> {
        if first == 0 || first - 1 > last || last > desk.top() {
            return Ok(None);
        }
        let past = Checkpointed::new(alloc, seed)?;
        let mut machine = EntryMachine::new(alloc, seed, past);
        machine.start(desk.edition(), &[], 0)?;
        Ok(Some(LogPrinter {
            alloc,
            machine,
            runs: first <= desk.checkpointed(),
            place: 1,
            number: 1,
            first,
            last,
            has_front: false,
        }))
    }

    /// Whether the last transaction of the range is printed.
    fn is_done(&self) -> bool {
        self.number > self.last
    }

    /// Appends the next piece of the log to `out`. `false` where all of it is there.
    pub fn put_more<S: Store + Drop, A: Archives>(
        &mut self,
        desk: &mut RequestDesk<S>,
        archives: &mut A,
        out: &mut Vec<u8>,
    ) -> Result<bool, DeskFault> {
        if !self.is_done() {
            self.put_batch(desk, archives, out)?;
            return Ok(true);
        }
        if !self.has_front {
            self.put_front(desk, out)?;
            return Ok(true);
        }
        Ok(false)
    }

    /// Appends the log of the transactions of the next batch to `out`; before the first of the
    /// range, the log's first line and the store.
    fn put_batch<S: Store + Drop, A: Archives>(
        &mut self,
        desk: &mut RequestDesk<S>,
        archives: &mut A,
        out: &mut Vec<u8>,
    ) -> Result<(), DeskFault> {
        let text = match desk.batch_at(self.place)? {
            Some(text) => text,
            None => match archives.batch_at(self.place)? {
                Some(text) => text,
                None => return Err(DeskFault::Trimmed),
            },
        };
        self.place = self.place.saturating_add(1);
        let size = count_transactions(text.as_slice()) as u64;
        if self.number.saturating_add(size) <= self.first {
            self.skip(text.as_slice())?;
            self.number = self.number.saturating_add(size);
            return Ok(());
        }
        let mut rest = text.as_slice();
        'entries: while let Some((entry, others)) = split_entry(rest) {
            self.put_entry(desk, entry, out)?;
            rest = others;
        }
        Ok(())
    }

    /// Takes a text of entries in that come before the range.
    fn skip(&mut self, text: &[u8]) -> Result<(), DeskFault> {
        if self.runs {
            let _ = self.machine.run(self.alloc, text)?;
        } else {
            self.machine.pass(text)?;
        }
        Ok(())
    }

    fn put_entry<S: Store + Drop>(
        &mut self,
        desk: &RequestDesk<S>,
        entry: &[u8],
        out: &mut Vec<u8>,
    ) -> Result<(), DeskFault> {
        if is_definition(entry) {
            return self.skip(entry);
        }
        let number = self.number;
        self.number = number.saturating_add(1);
        if number < self.first {
            return self.skip(entry);
        }
        if number == self.first {
            self.put_front(desk, out)?;
        }
        if number > self.last {
            return Ok(());
        }
        if let Some(log) = self.machine.print_entry(entry)? {
            put_behind_head(out, log.as_slice())?;
        }
        Ok(())
    }

    /// Appends the log's first line, and the store before the range.
    fn put_front<S: Store + Drop>(
        &mut self,
        desk: &RequestDesk<S>,
        out: &mut Vec<u8>,
    ) -> Result<(), DeskFault> {
        put_head(out, desk.edition())?;
        match self.store(desk)? {
            Some(store) => put_entries(out, store.as_slice())?,
            None => return Err(DeskFault::Trimmed),
        }
        self.has_front = true;
        Ok(())
    }

    /// The store before the range.
    fn store<S: Store + Drop>(
        &self,
        desk: &RequestDesk<S>,
    ) -> Result<Option<Vec<(Key, Value)>>, DeskFault> {
        let found = if self.runs {
            self.machine.past().store_before(self.alloc, 0)?
        } else {
            let back = desk.top().saturating_sub(self.first.saturating_sub(1));
            desk.machine().past().store_before(self.alloc, back)?
        };
        Ok(found)
    }
}
