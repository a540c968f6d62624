//! Messages about locals.

use crate::marking::{PlacedName, bytes_before, put_marked};
use crate::names::{is_unread, names_of};
use crate::shown::{put_name, put_number, put_quoted, put_text};
use crate::statements::Site;
use crate::terms::{atoms_of, local_read, long_sum};
use bohm_log::{StmtView, TxnView};
use bohm_types::{Key, MOST_TERMS, NoMemory};
use std::alloc::Global;
use std::collections::BTreeMap;

/// For each local that a body binds, the index of the first statement that binds it.
#[derive(Drop)]
struct Bindings {
    firsts: BTreeMap<Key, usize>,
}

impl Bindings {
    fn of(alloc: Global, txn: &TxnView<'_>) -> Result<Bindings, NoMemory> {
        let mut firsts = BTreeMap::new(alloc);
        for index in 0..txn.body_len() {
            if let Some(name) = txn.stmt(index).bound() {
                if !firsts.contains_key(&name) {
                    firsts.insert(name, index)?;
                }
            }
        }
        Ok(Bindings { firsts })
    }

    fn first(&self, name: Key) -> Option<usize> {
        self.firsts.get(&name).copied()
    }

    /// The index of the first statement that binds a name, if it is below this number of
    /// statements.
    fn before(&self, stmts: usize, name: Key) -> Option<usize> {
        self.first(name).filter(|index| *index < stmts)
    }
}

/// The first local that a statement reads and no statement before it binds.
fn unbound(
    alloc: Global,
    bindings: &Bindings,
    index: usize,
    stmt: &StmtView<'_>,
) -> Result<Option<PlacedName>, NoMemory> {
    for placed in atoms_of(alloc, stmt)? {
        if let Some(name) = local_read(placed.atom) {
            if bindings.before(index, name).is_none() {
                return Ok(Some(PlacedName {
                    name,
                    is_local: true,
                    word: placed.word,
                }));
            }
        }
    }
    Ok(None)
}

fn put_local(out: &mut Vec<u8>, name: Key) -> Result<(), NoMemory> {
    put_text(out, "$")?;
    put_name(out, name)
}

/// A name that the transaction doesn't use: this one with `_` and a digit appended.
fn fresh_name(alloc: Global, txn: &TxnView<'_>, name: Key) -> Result<Option<Key>, NoMemory> {
    let mut text = Vec::new(alloc);
    text.extend_from_slice(name.text().as_slice())?;
    text.push(b'_')?;
    let placed = txn.placed();
    for digit in b'2'..=b'9' {
        text.push(digit)?;
        let fresh = Key::new(text.as_slice());
        text.pop();
        if let Some(key) = fresh {
            if key.place_among(placed.others()).is_none() {
                return Ok(Some(key));
            }
        }
    }
    Ok(None)
}

/// The statement with a new name, unless it also has an undeclared key or too long a sum.
fn put_rebound_help(
    alloc: Global,
    out: &mut Vec<u8>,
    site: Site<'_>,
    txn: &TxnView<'_>,
    stmt: &StmtView<'_>,
    name: Key,
) -> Result<(), NoMemory> {
    let reads = names_of(alloc, &txn.reads())?;
    if is_unread(&reads, stmt) || long_sum(stmt, MOST_TERMS as usize).is_some() {
        return Ok(());
    }
    let Some(fresh) = fresh_name(alloc, txn, name)? else {
        return Ok(());
    };
    let line = site.exact();
    put_text(out, "help: let ")?;
    put_local(out, fresh)?;
    put_text(out, " ")?;
    out.extend_from_slice(line.get(bytes_before(line, 2)..).unwrap_or(&[]))?;
    put_text(out, "\n")
}

/// The message about a name that a statement binds a second time.
fn put_rebound(out: &mut Vec<u8>, site: Site<'_>, name: Key, first: usize) -> Result<(), NoMemory> {
    let local = PlacedName {
        name,
        is_local: true,
        word: 1,
    };
    put_marked(out, site.page, site.line, local)?;
    put_local(out, name)?;
    put_text(out, " is bound twice: line ")?;
    put_number(out, site.page.number(site.statement(first)))?;
    put_text(out, " has ")?;
    put_quoted(out, site.page.line(site.statement(first)))?;
    put_text(out, "\n")
}

/// The message about a local that is read before it is bound.
fn put_unbound(
    out: &mut Vec<u8>,
    site: Site<'_>,
    bindings: &Bindings,
    local: PlacedName,
) -> Result<(), NoMemory> {
    let name = local.name;
    put_marked(out, site.page, site.line, local)?;
    put_local(out, name)?;
    put_text(out, " isn't bound by an earlier statement")?;
    if let Some(later) = bindings.first(name) {
        put_text(out, ": line ")?;
        put_number(out, site.page.number(site.statement(later)))?;
        put_text(out, " binds it too late")?;
    }
    put_text(out, "\n")
}

/// The message about a statement that binds a name a second time, or else reads a local too early.
pub fn put_misnamed(
    alloc: Global,
    out: &mut Vec<u8>,
    site: Site<'_>,
    txn: &TxnView<'_>,
    index: usize,
    stmt: &StmtView<'_>,
) -> Result<(), NoMemory> {
    let bindings = Bindings::of(alloc, txn)?;
    let unbound = unbound(alloc, &bindings, index, stmt)?;
    if let Some(name) = stmt.bound() {
        if let Some(first) = bindings.before(index, name) {
            put_rebound(out, site, name, first)?;
            return match unbound {
                None => put_rebound_help(alloc, out, site, txn, stmt, name),
                Some(_) => Ok(()),
            };
        }
    }
    match unbound {
        Some(local) => put_unbound(out, site, &bindings, local),
        None => Ok(()),
    }
}
