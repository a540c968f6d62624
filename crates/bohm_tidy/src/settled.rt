//! The text of a document with sorted keys.

ghost use Rattle.std.specs.Prelude.{◌≡◌, ◌++◌, ◌∷◌, [], Err, IfOk, OnOk, codes, if◌then◌else◌};
ghost use Rattle.std.specs.List.{IsDistinct, flat_map};
ghost use Rattle.std.specs.Str.{bytes_eq};
ghost use Rattle.bohm_types.specs.KeySets.{key_set};
ghost use Rattle.bohm_types.specs.Keys.{names_of};
ghost use Rattle.bohm_text.specs.Print.{line_text, lines_text, txn_lines, print_doc};
ghost use Rattle.bohm_tidy.specs.Settled.{body_reads, body_writes, first_flag};
ghost use Rattle.bohm_tidy.specs.Settled.{other_flags, settled, settled_log, settled_txn};

use crate::body_keys::{add_body_reads, add_body_writes};
use crate::key_set::put_set;
use crate::store::{Unsettled, settled_store};
use bohm_log::{Doc, LogPart, TxnView};
use bohm_text::{put_body, put_entries};
use bohm_txn::add_keys;
use bohm_types::{Edition, Key, NoMemory, Value};
use std::alloc::Global;

/// The line of the transaction's reads, or of the keys that its body reads if the reads are
/// missing.
fn put_reads(
    out: &mut Vec<u8>,
    keys: &mut Vec<Key>,
    missing: bool,
    txn: &TxnView<'_>,
) -> Result<(), NoMemory>
    ensures { IfOk result (λ _. out.new.items ≡ out.old.items ++ line_text (codes "reads"
        ∷ key_set (if missing then body_reads txn.now.body else txn.now.reads)) ++ 10 ∷ []) }
{
    keys.clear();
    if missing {
        add_body_reads(keys, txn)?;
        return put_set(out, b"reads", keys);
    }
    add_keys(keys, &txn.reads())?;
    put_set(out, b"reads", keys)
}

/// The line of the transaction's writes, or of the keys that its body writes if the writes are
/// missing.
fn put_writes(
    out: &mut Vec<u8>,
    keys: &mut Vec<Key>,
    missing: bool,
    txn: &TxnView<'_>,
) -> Result<(), NoMemory>
    ensures { IfOk result (λ _. out.new.items ≡ out.old.items ++ line_text (codes "writes"
        ∷ key_set (if missing then body_writes txn.now.body else txn.now.writes)) ++ 10 ∷ []) }
{
    keys.clear();
    if missing {
        add_body_writes(keys, txn)?;
        return put_set(out, b"writes", keys);
    }
    add_keys(keys, &txn.writes())?;
    put_set(out, b"writes", keys)
}

/// A transaction with sorted sets. `keys` is a working buffer.
fn put_txn(
    out: &mut Vec<u8>,
    keys: &mut Vec<Key>,
    no_reads: bool,
    no_writes: bool,
    txn: &TxnView<'_>,
) -> Result<(), NoMemory>
    ensures { IfOk result (λ _. out.new.items
        ≡ out.old.items ++ lines_text (txn_lines (settled_txn no_reads no_writes txn.now))) }
{
    out.extend_from_slice(b"txn\n")?;
    put_reads(out, keys, no_reads, txn)?;
    put_writes(out, keys, no_writes, txn)?;
    put_body(out, txn)?;
    out.extend_from_slice(b"end\n")?;
    Ok(())
}

/// The first flag and the others. With no flags left, nothing is missing.
fn split_flag(flags: &[bool]) -> (bool, &[bool])
    ensures first { result.0 ≡ first_flag flags.now }
    ensures others { result.1.now ≡ other_flags flags.now }
{
    match flags {
        [] => (false, flags),
        [first, others @ ..] => (*first, others),
    }
}

/// Transactions with sorted sets.
fn put_log(
    out: &mut Vec<u8>,
    keys: &mut Vec<Key>,
    no_reads: &[bool],
    no_writes: &[bool],
    log: &LogPart<'_>,
) -> Result<(), NoMemory>
    ensures { IfOk result (λ _. out.new.items ≡ out.old.items
        ++ lines_text (flat_map txn_lines (settled_log no_reads.now no_writes.now log.now))) }
{
    let mut reads = no_reads;
    let mut writes = no_writes;
    for index in 0..log.len() {
        let (no_read, other_reads) = split_flag(reads);
        let (no_write, other_writes) = split_flag(writes);
        put_txn(out, keys, no_read, no_write, &log.txn(index))?;
        reads = other_reads;
        writes = other_writes;
    }
    Ok(())
}

/// The text of the document with these entries as its store, and with sorted sets.
fn print_with_store(
    alloc: Global,
    doc: &Doc,
    store: &[(Key, Value)],
    no_reads: &[bool],
    no_writes: &[bool],
) -> Result<Vec<u8>, NoMemory>
    ensures { IfOk result (λ text. text.items ≡ print_doc (record doc.now {
      store = store.now;
      log = settled_log no_reads.now no_writes.now doc.now.log;
    })) }
{
    let mut out = Vec::new(alloc);
    out.extend_from_slice(match doc.edition() {
        Edition::One => b"log 1\n",
        Edition::Two => b"log 2\n",
    })?;
    put_entries(&mut out, store)?;
    put_log(
        &mut out,
        &mut Vec::new(alloc),
        no_reads,
        no_writes,
        &doc.log(),
    )?;
    Ok(out)
}

/// The exact text of a document whose keys are in any order. A transaction's flags say whether its
/// reads, and its writes, are missing.
pub fn print_settled(
    alloc: Global,
    doc: &Doc,
    no_reads: &[bool],
    no_writes: &[bool],
) -> Result<Vec<u8>, Unsettled>
    ensures text { IfOk result
        (λ text. text.items ≡ print_doc (settled no_reads.now no_writes.now doc.now)) }
    ensures distinct { OnOk result (IsDistinct bytes_eq (names_of doc.now.store)) }
    ensures twice { result ≡ Err Unsettled.Twice → ¬ IsDistinct bytes_eq (names_of doc.now.store) }
{
    let store = settled_store(alloc, doc.store())?;
    Ok(print_with_store(alloc, doc, store.as_slice(), no_reads, no_writes)?)
}
