//! Messages about the keys and sums of statements.

use crate::marking::{PlacedName, put_marked};
use crate::names::{has, names_of};
use crate::page::Page;
use crate::sets::{in_order, keys_of, put_set_help};
use crate::shown::{put_line, put_name, put_number, put_quoted, put_text};
use crate::terms::{atoms_of, key_read, long_sum};
use bohm_log::{Keys, StmtView, TxnView};
use bohm_types::{Key, MOST_TERMS, NoMemory};
use std::alloc::Global;

/// A page, with the line of the statement that a message is about, and of its transaction. Lines are
/// those of the document.
#[derive(Clone, Copy)]
pub struct Site<'a> {
    pub page: Page<'a>,
    pub line: u64,
    /// The line of the transaction's opening.
    pub opening: u64,
}

impl<'a> Site<'a> {
    /// The statement's line in the document.
    pub fn exact(self) -> &'a [u8] {
        self.page.line(self.line)
    }

    /// The lines of the transaction's reads, of its writes, and of its statement at an index.
    pub fn reads(self) -> u64 {
        self.opening.saturating_add(1)
    }

    pub fn writes(self) -> u64 {
        self.opening.saturating_add(2)
    }

    pub fn statement(self, index: usize) -> u64 {
        self.opening.saturating_add(3).saturating_add(index as u64)
    }
}

/// A declared set that lacks names.
#[derive(Drop)]
struct Declared<'a> {
    keys: Keys<'a>,
    /// The set's line, the word that begins it, and what its keys are.
    line: u64,
    word: &'static str,
    are: &'static str,
}

/// The message about names that a set lacks, and the set with them.
fn put_missing(
    alloc: Global,
    out: &mut Vec<u8>,
    site: Site<'_>,
    set: &Declared<'_>,
    names: &[PlacedName],
) -> Result<(), NoMemory> {
    let Some(first) = names.first() else {
        return Ok(());
    };
    let line = site.page.number(set.line);
    put_marked(out, site.page, site.line, *first)?;
    put_name(out, first.name)?;
    put_text(out, set.are)?;
    put_text(out, " and isn't declared: line ")?;
    put_number(out, line)?;
    put_text(out, " has ")?;
    put_quoted(out, site.page.line(set.line))?;
    put_text(out, "\n")?;
    let mut keys = keys_of(alloc, &set.keys)?;
    for name in names {
        keys.push(name.name)?;
    }
    let keys = in_order(alloc, keys)?;
    put_set_help(out, Some(line), set.word, keys.as_slice())
}

/// The keys that a statement reads and that aren't among these, and the key that it tests.
fn unread_names(
    alloc: Global,
    reads: &Keys<'_>,
    stmt: &StmtView<'_>,
) -> Result<Vec<PlacedName>, NoMemory> {
    let declared = names_of(alloc, reads)?;
    let mut names = Vec::new(alloc);
    for placed in atoms_of(alloc, stmt)? {
        if let Some(name) = key_read(placed.atom) {
            if !has(&declared, &name) {
                names.push(PlacedName {
                    name,
                    is_local: false,
                    word: placed.word,
                })?;
            }
        }
    }
    if let Some(name) = stmt.tested() {
        names.push(PlacedName {
            name,
            is_local: false,
            word: 2,
        })?;
    }
    Ok(names)
}

/// The message about a statement that reads or tests keys that aren't declared.
pub fn put_unread(
    alloc: Global,
    out: &mut Vec<u8>,
    site: Site<'_>,
    txn: &TxnView<'_>,
    stmt: &StmtView<'_>,
) -> Result<(), NoMemory> {
    let set = Declared {
        keys: txn.reads(),
        line: site.reads(),
        word: "reads",
        are: " is read",
    };
    let names = unread_names(alloc, &set.keys, stmt)?;
    put_missing(alloc, out, site, &set, names.as_slice())
}

/// The message about a statement that writes a key that isn't declared.
pub fn put_unwritten(
    alloc: Global,
    out: &mut Vec<u8>,
    site: Site<'_>,
    txn: &TxnView<'_>,
    stmt: &StmtView<'_>,
) -> Result<(), NoMemory> {
    let Some(name) = stmt.target() else {
        return Ok(());
    };
    let set = Declared {
        keys: txn.writes(),
        line: site.writes(),
        word: "writes",
        are: " is written",
    };
    let target = PlacedName {
        name,
        is_local: false,
        word: 1,
    };
    put_missing(alloc, out, site, &set, &[target])
}

/// The message about a statement with too long a sum.
pub fn put_long(out: &mut Vec<u8>, site: Site<'_>, stmt: &StmtView<'_>) -> Result<(), NoMemory> {
    put_line(out, site.page.shown(site.line), 1, 0)?;
    let terms = long_sum(stmt, MOST_TERMS as usize).unwrap_or(0);
    put_text(out, "a sum has at most ")?;
    put_number(out, MOST_TERMS)?;
    put_text(out, " terms, and this one has ")?;
    put_number(out, terms as u64)?;
    put_text(out, "\n")
}
