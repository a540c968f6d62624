//! The check's rules for a statement's sums and names.

ghost use Rattle.std.specs.Prelude.{◌≡◌, ◌<◌, ◌≤◌, length, map, All};
ghost use Rattle.std.specs.List.{flat_map, list_all};
ghost use Rattle.bohm_types.specs.Parts.{bound, sums};
ghost use Rattle.bohm_types.specs.Keys.{some_passes};
ghost use Rattle.bohm_log.specs.Parts.{RowIn, TermIn, name_at, stmt_of, term_of};
ghost use Rattle.bohm_txn.specs.Faulty.{is_bound, locals_bound, is_unread, is_unwritten};
ghost use Rattle.bohm_txn.specs.Faulty.{is_misnamed, is_long};
ghost use Rattle.bohm_txn.specs.Rows.{AreNoted, end_of, is_declared, tests_key, writes_key};
ghost use Rattle.bohm_types.specs.Limits.{most_keys};

use crate::bound::Bound;
use bohm_log::{Action, AtomKind, IndexedTxn, StmtRow, TermRow};
use bohm_types::MOST_TERMS;

/// Where the last sum of a statement ends.
fn end_of(row: &StmtRow) -> u32
    ensures { result ≡ end_of row.now }
{
    match row.action {
        Action::Bind | Action::Put | Action::Show => row.first,
        Action::Need(_) => row.second,
        Action::PutWhen(_) => row.third,
        Action::Has | Action::Lacks | Action::Remove | Action::Fail => row.start,
    }
}

/// The terms of all sums of a statement.
#[tactic(auto, using(crate::proofs::Placing::all_terms, crate::proofs::Placing::end_within))]
fn terms_of<'a>(txn: &IndexedTxn<'a>, row: &StmtRow) -> &'a [TermRow]
    requires { RowIn txn.now row.now }
    ensures terms { map (term_of txn.now) result.now
        ≡ flat_map (λ sum. sum) (sums (stmt_of txn.now row.now)) }
    ensures within { All (TermIn txn.now) result.now }
{
    txn.terms(row.start, end_of(row))
}

fn tests_key(row: &StmtRow) -> bool
    ensures { result ≡ tests_key row.now.action }
{
    matches!(row.action, Action::Has | Action::Lacks)
}

fn writes_key(row: &StmtRow) -> bool
    ensures { result ≡ writes_key row.now.action }
{
    matches!(
        row.action,
        Action::Put | Action::PutWhen(_) | Action::Remove
    )
}

/// Whether a term, if it reads a key, reads a declared one.
fn is_declared(term: &TermRow) -> bool
    ensures { result ≡ is_declared term.now.kind }
{
    !matches!(term.kind, AtomKind::Unread)
}

fn are_declared(terms: &[TermRow]) -> bool
    ensures { result ≡ list_all (λ t. is_declared t.kind) terms.now }
{
    terms.iter().all(|term| is_declared(term))
}

/// Whether the statement reads or tests a key that isn't declared to be read.
pub fn is_unread(txn: &IndexedTxn<'_>, row: &StmtRow) -> bool
    requires row { RowIn txn.now row.now }
    requires few { length txn.now.reads ≤ most_keys }
    ensures { result ≡ is_unread txn.now.reads (stmt_of txn.now row.now) }
{
    !are_declared(terms_of(txn, row)) || tests_key(row) && !row.declared
}

/// Whether the statement writes a key that isn't declared to be written.
#[tactic(auto, using(crate::proofs::Placing::unwritten_row))]
pub fn is_unwritten(txn: &IndexedTxn<'_>, row: &StmtRow) -> bool
    requires row { RowIn txn.now row.now }
    requires few { length txn.now.writes ≤ most_keys }
    ensures { result ≡ is_unwritten txn.now.writes (stmt_of txn.now row.now) }
{
    // Only the contract needs the transaction.
    let _ = txn;
    writes_key(row) && !row.declared
}

/// Whether one of these statements binds the name at an index. Equal names have the same index.
#[tactic(auto, using(crate::proofs::Placing::bound_at))]
fn is_bound(txn: &IndexedTxn<'_>, before: &[StmtRow], noted: &Bound, place: u32) -> bool
    requires inside { place < length txn.now.others }
    requires before { All (RowIn txn.now) before.now }
    requires noted { AreNoted noted.now.noted before.now }
    ensures { result
        ≡ is_bound (map (stmt_of txn.now) before.now) (name_at txn.now.others place) }
{
    // The call's contract says that the names are distinct.
    let _ = txn.others();
    noted.binds(before, place)
}

/// Whether a term, if it reads a local, reads a local that these statements bind.
fn is_defined(txn: &IndexedTxn<'_>, before: &[StmtRow], noted: &Bound, term: &TermRow) -> bool
    requires term { TermIn txn.now term.now }
    requires before { All (RowIn txn.now) before.now }
    requires noted { AreNoted noted.now.noted before.now }
    ensures { result
        ≡ locals_bound (map (stmt_of txn.now) before.now) (term_of txn.now term.now).1 }
{
    match term.kind {
        AtomKind::Local => is_bound(txn, before, noted, term.place),
        _ => true,
    }
}

/// Whether these statements bind each local that the terms read.
fn are_defined(txn: &IndexedTxn<'_>, before: &[StmtRow], noted: &Bound, terms: &[TermRow]) -> bool
    requires terms { All (TermIn txn.now) terms.now }
    requires before { All (RowIn txn.now) before.now }
    requires noted { AreNoted noted.now.noted before.now }
    ensures { result
        ≡ list_all (λ term. locals_bound (map (stmt_of txn.now) before.now) term.1)
        (map (term_of txn.now) terms.now) }
{
    for term in terms {
        if !is_defined(txn, before, noted, term) {
            return false;
        }
    }
    true
}

/// Whether the statement binds a name that one of the statements before it binds.
pub fn rebinds(txn: &IndexedTxn<'_>, before: &[StmtRow], noted: &Bound, row: &StmtRow) -> bool
    requires row { RowIn txn.now row.now }
    requires before { All (RowIn txn.now) before.now }
    requires noted { AreNoted noted.now.noted before.now }
    ensures { result
        ≡ some_passes (is_bound (map (stmt_of txn.now) before.now))
        (bound (stmt_of txn.now row.now)) }
{
    match row.action {
        Action::Bind => is_bound(txn, before, noted, row.name),
        _ => false,
    }
}

/// Whether the statement reads a local that no statement before it binds, or binds a name that one
/// of them binds.
#[tactic(auto, using(crate::proofs::Placing::all_flat))]
pub fn is_misnamed(txn: &IndexedTxn<'_>, before: &[StmtRow], noted: &Bound, row: &StmtRow) -> bool
    requires row { RowIn txn.now row.now }
    requires before { All (RowIn txn.now) before.now }
    requires noted { AreNoted noted.now.noted before.now }
    ensures { result ≡ is_misnamed (map (stmt_of txn.now) before.now) (stmt_of txn.now row.now) }
{
    !are_defined(txn, before, noted, terms_of(txn, row)) || rebinds(txn, before, noted, row)
}

/// Whether a sum of the statement has too many terms.
pub fn is_long(txn: &IndexedTxn<'_>, row: &StmtRow) -> bool
    requires { RowIn txn.now row.now }
    ensures { result ≡ is_long (stmt_of txn.now row.now) }
{
    // Only the contract needs the transaction.
    let _ = txn;
    let first = row.first - row.start > MOST_TERMS;
    let second = row.second - row.first > MOST_TERMS;
    let third = row.third - row.second > MOST_TERMS;
    match row.action {
        Action::Bind | Action::Put | Action::Show => first,
        Action::Need(_) => first || second,
        Action::PutWhen(_) => first || second || third,
        Action::Has | Action::Lacks | Action::Remove | Action::Fail => false,
    }
}
