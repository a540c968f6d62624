//! Statements that a quick test shows to have no fault: most statements of a log are such.

ghost use Rattle.std.specs.Prelude.{◌≡◌, ◌≤◌, All, List, None, true, false, length, map};
ghost use Rattle.std.specs.List.{list_all};
ghost use Rattle.bohm_types.specs.declared.edition.Edition.{Edition};
ghost use Rattle.bohm_log.specs.declared.row.StmtRow.{StmtRow};
ghost use Rattle.bohm_log.specs.Parts.{RowIn, stmt_of, txn_of};
ghost use Rattle.bohm_types.specs.Keys.{some_passes};
ghost use Rattle.bohm_types.specs.Parts.{bound};
ghost use Rattle.bohm_txn.specs.Faulty.{is_bound, stmt_faulty};
ghost use Rattle.bohm_txn.specs.FirstFault.{least};
ghost use Rattle.bohm_txn.specs.Rows.{AreNoted, has_short_sums, is_at_hand, is_placed, is_plain_row};
ghost use Rattle.bohm_types.specs.Limits.{most_keys};

use crate::bound::Bound;
use bohm_log::{Action, AtomKind, IndexedTxn, StmtRow, TermRow};
use bohm_types::MOST_TERMS;

/// Whether a term is a literal, a declared read, or a local with a note that it is bound.
fn is_at_hand(noted: &Bound, term: &TermRow) -> bool
    ensures { result ≡ is_at_hand noted.now.noted term.now.kind term.now.place }
{
    match term.kind {
        AtomKind::Small | AtomKind::Large | AtomKind::Read => true,
        AtomKind::Local => noted.has(term.place),
        AtomKind::Unread => false,
    }
}

fn are_at_hand(noted: &Bound, terms: &[TermRow]) -> bool
    ensures { result
        ≡ list_all (λ t. is_at_hand noted.now.noted t.kind t.place) terms.now }
{
    terms.iter().all(|term| is_at_hand(noted, term))
}

/// Whether a statement's key, if it has one, is declared.
fn is_placed(row: &StmtRow) -> bool
    ensures { result ≡ is_placed row.now.action row.now.declared }
{
    match row.action {
        Action::Bind | Action::Need(_) | Action::Show | Action::Fail => true,
        Action::Has | Action::Lacks | Action::Put | Action::PutWhen(_) | Action::Remove => {
            row.declared
        }
    }
}

/// Whether no sum is too long. A sum that a statement of this kind lacks is empty.
fn has_short_sums(row: &StmtRow) -> bool
    requires first { row.now.start ≤ row.now.first }
    requires second { row.now.first ≤ row.now.second }
    requires third { row.now.second ≤ row.now.third }
    ensures { result ≡ has_short_sums row.now }
{
    row.first - row.start <= MOST_TERMS
        && row.second - row.first <= MOST_TERMS
        && row.third - row.second <= MOST_TERMS
}

fn is_plain_row(row: &StmtRow) -> bool
    requires first { row.now.start ≤ row.now.first }
    requires second { row.now.first ≤ row.now.second }
    requires third { row.now.second ≤ row.now.third }
    ensures { result ≡ is_plain_row row.now }
{
    is_placed(row) && has_short_sums(row)
}

/// Whether the statement's row and terms, and the notes of which names the statements before it
/// bind, show that it has no fault, unless it binds a name that an earlier statement binds.
pub fn is_plain(txn: &IndexedTxn<'_>, noted: &Bound, row: &StmtRow) -> bool
    requires reads { length txn.now.reads ≤ most_keys }
    requires writes { length txn.now.writes ≤ most_keys }
    requires row { RowIn txn.now row.now }
    ensures { result ≡ true → (e : Edition) → (before : List StmtRow)
        → All (RowIn txn.now) before → AreNoted noted.now.noted before
        → some_passes (is_bound (map (stmt_of txn.now) before)) (bound (stmt_of txn.now row.now))
        ≡ false → least (stmt_faulty (txn_of e txn.now) (map (stmt_of txn.now) before)
        (stmt_of txn.now row.now)) ≡ None }
{
    // The call's contract says that the names are distinct.
    let _ = txn.others();
    is_plain_row(row) && are_at_hand(noted, txn.terms(row.start, row.third))
}
