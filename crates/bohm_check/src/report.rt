//! The report on a document's faults.

ghost use Rattle.std.specs.Prelude.{◌≡◌, ◌++◌, OnErr, OnOk};
ghost use Rattle.bohm_check.specs.Reports.{Adds, IsOwnText, ReportsSome, counted_words};
ghost use Rattle.bohm_check.specs.Reports.{head_at, head_text, numbered};

use crate::heads::{put_counts, put_length, put_sets_order, put_store_order};
use crate::locals::put_misnamed;
use crate::page::Page;
use crate::shown::{put_line, put_number, put_text};
use crate::statements::{Site, put_long, put_unread, put_unwritten};
use crate::told::Told;
use bohm_log::{Doc, TxnView};
use bohm_txn::{CheckFault, CheckKind};
use bohm_types::{MOST_TXNS, NoMemory};
use std::alloc::Global;

/// The place of a fault as a page shows it: a line, a transaction and a statement, where 0 means none.
#[derive(Clone, Copy)]
struct Head {
    line: u64,
    txn: u64,
    stmt: u64,
}

/// The number of the transaction that a fault names: of a log with too many, the first one too many.
fn numbered(fault: CheckFault) -> u64
    ensures { result ≡ numbered fault.kind fault.txn }
{
    match fault.kind {
        CheckKind::Limit => if fault.txn == 0 {
            MOST_TXNS as u64 + 1
        } else {
            u64::from(fault.txn)
        },
        CheckKind::Order | CheckKind::Unread | CheckKind::Unwritten | CheckKind::Local => {
            u64::from(fault.txn)
        }
    }
}

impl Head {
    fn of(page: Page<'_>, told: Told) -> Head
        ensures { IsOwnText page.entry → result ≡ head_at told }
    {
        Head {
            line: page.number(told.line),
            txn: if page.is_procedure() {
                0
            } else {
                numbered(told.fault)
            },
            stmt: u64::from(told.fault.stmt).saturating_sub(page.lets()),
        }
    }

    fn put(self, out: &mut Vec<u8>) -> Result<(), NoMemory>
        ensures { OnOk result (out.new.items ≡ out.old.items ++ head_text self) }
    {
        put_text(out, "line ")?;
        put_number(out, self.line)?;
        put_counted(out, ", transaction ", self.txn)?;
        put_counted(out, ", statement ", self.stmt)?;
        put_text(out, ":\n")
    }
}

/// A word and a number, unless that is 0.
fn put_counted(out: &mut Vec<u8>, word: &str, number: u64) -> Result<(), NoMemory>
    ensures { OnOk result (out.new.items ≡ out.old.items ++ counted_words word.now number) }
{
    if number == 0 {
        return Ok(());
    }
    put_text(out, word)?;
    put_number(out, number)
}

/// The message about the store, or about the length of the log.
fn put_whole(out: &mut Vec<u8>, doc: &Doc, page: Page<'_>, told: Told) -> Result<(), NoMemory> {
    put_line(out, page.shown(told.line), 1, 0)?;
    if told.fault.kind == CheckKind::Order {
        put_store_order(out, doc, told.line)
    } else {
        put_length(out, doc)
    }
}

/// The message about a transaction's sets and counts.
fn put_sets(
    alloc: Global,
    out: &mut Vec<u8>,
    txn: &TxnView<'_>,
    page: Page<'_>,
    told: Told,
) -> Result<(), NoMemory> {
    put_line(out, page.shown(told.line), 1, 0)?;
    if told.fault.kind == CheckKind::Order {
        put_sets_order(alloc, out, txn)
    } else {
        put_counts(out, txn)
    }
}

/// The message about a statement, counted from 0.
fn put_stmt(
    alloc: Global,
    out: &mut Vec<u8>,
    txn: &TxnView<'_>,
    index: usize,
    page: Page<'_>,
    told: Told,
) -> Result<(), NoMemory> {
    if index >= txn.body_len() {
        return Ok(());
    }
    let stmt = txn.stmt(index);
    let site = Site {
        page,
        line: told.line,
        opening: told.line.saturating_sub(index as u64).saturating_sub(3),
    };
    match told.fault.kind {
        CheckKind::Order => Ok(()),
        CheckKind::Unread => put_unread(alloc, out, site, txn, &stmt),
        CheckKind::Unwritten => put_unwritten(alloc, out, site, txn, &stmt),
        CheckKind::Local => put_misnamed(alloc, out, site, txn, index, &stmt),
        CheckKind::Limit => put_long(out, site, &stmt),
    }
}

/// The message about a fault, behind its head.
fn put_words(
    alloc: Global,
    out: &mut Vec<u8>,
    doc: &Doc,
    page: Page<'_>,
    told: Told,
) -> Result<(), NoMemory> {
    let CheckFault { txn, stmt, .. } = told.fault;
    let Some(index) = txn.checked_sub(1) else {
        return put_whole(out, doc, page, told);
    };
    let log = doc.log();
    if index as usize >= log.len() {
        return Ok(());
    }
    let txn = log.txn(index as usize);
    match stmt.checked_sub(1) {
        None => put_sets(alloc, out, &txn, page, told),
        Some(index) => put_stmt(alloc, out, &txn, index as usize, page, told),
    }
}

/// The message about a fault: its head, and what is said of it.
fn put_fault(
    alloc: Global,
    out: &mut Vec<u8>,
    doc: &Doc,
    page: Page<'_>,
    told: Told,
) -> Result<(), NoMemory>
    ensures ok { OnOk result
        (IsOwnText page.entry → Adds (head_at told) out.old.items out.new.items) }
    ensures err { OnErr result (out.new.items ≡ out.old.items) }
{
    let mut message = Vec::new(alloc);
    Head::of(page, told).put(&mut message)?;
    let mut words = Vec::new(alloc);
    put_words(alloc, &mut words, doc, page, told)?;
    message.extend_from_slice(words.as_slice())?;
    out.extend_from_slice(message.as_slice())?;
    Ok(())
}

/// Adds the messages about the faults of the document of a text, in their order, as long as
/// allocations succeed: for each its place, the line, the name with carets below it, what is wrong,
/// and the corrected line if there is one.
pub fn put_faults(alloc: Global, out: &mut Vec<u8>, doc: &Doc, page: Page<'_>, faults: &[Told])
    ensures { IsOwnText page.entry → ReportsSome faults.now out.old.items out.new.items }
{
    let mut shown = page;
    for told in faults {
        let before = u64::from(told.fault.stmt).saturating_add(2);
        shown = shown.at(told.line.saturating_sub(before).max(1));
        match put_fault(alloc, out, doc, shown, *told) {
            Ok(()) => {}
            Err(_) => return,
        }
    }
}
