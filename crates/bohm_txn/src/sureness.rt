//! Transactions that commit over every store, with the same cells.

ghost use Rattle.std.specs.Prelude.{◌≡◌, ◌+◌, ◌^◌, ◌<◌, ◌≤◌, IfSome, All};
ghost use Rattle.std.specs.Prelude.{length, map};
ghost use Rattle.std.specs.List.{list_all};
ghost use Rattle.bohm_log.specs.Parts.{RowIn, TermIn, stmt_of, sum_between, term_of};
ghost use Rattle.bohm_txn.specs.Sure.{is_sure_sum, is_sure_stmt, is_target, is_sure};

use bohm_log::{Action, AtomKind, IndexedTxn, StmtRow, TermRow, TxnView};
use bohm_types::Key;

/// The totals of a sum's literals: of those that it adds, and of those that it subtracts. Both have
/// enough bits for as many literals as a sum can have.
#[derive(Clone, Copy)]
struct Literals {
    added: u128,
    taken: u128,
}

/// The number of values below zero.
const NEGATIVE_VALUES: u128 = 9_223_372_036_854_775_808;

impl Literals {
    ghost use Rattle.bohm_txn.specs.Literals.{none_yet, with_literal, literals_from, total_fits};

    fn with(self, minus: bool, number: u64) -> Literals
        requires added { self.added + 2 ^ 64 < 2 ^ 128 }
        requires taken { self.taken + 2 ^ 64 < 2 ^ 128 }
        ensures { result ≡ with_literal self minus number }
    {
        let number = u128::from(number);
        if minus {
            Literals {
                added: self.added,
                taken: self.taken + number,
            }
        } else {
            Literals {
                added: self.added + number,
                taken: self.taken,
            }
        }
    }

    /// The literals of some terms, if they have only literals.
    fn of(txn: &IndexedTxn<'_>, terms: &[TermRow]) -> Option<Literals>
        requires { All (TermIn txn.now) terms.now }
        ensures value { result ≡ literals_from none_yet (map (term_of txn.now) terms.now) }
        ensures added { IfSome result (λ l. l.added + 2 ^ 64 < 2 ^ 128) }
        ensures taken { IfSome result (λ l. l.taken + 2 ^ 64 < 2 ^ 128) }
    {
        // The call's contract bounds the number of terms, so that the sums don't overflow.
        let _count = terms.len();
        let mut literals = Literals { added: 0, taken: 0 };
        for term in terms {
            let number = match term.kind {
                AtomKind::Small => u64::from(term.place),
                AtomKind::Large => txn.large()[term.place as usize],
                AtomKind::Read | AtomKind::Unread | AtomKind::Local => return None,
            };
            literals = literals.with(term.minus, number);
        }
        Some(literals)
    }

    fn is_in_range(self) -> bool
        requires added { self.added + 2 ^ 64 < 2 ^ 128 }
        requires taken { self.taken + 2 ^ 64 < 2 ^ 128 }
        ensures { result ≡ total_fits self }
    {
        self.added < self.taken + NEGATIVE_VALUES && self.taken <= self.added + NEGATIVE_VALUES
    }
}

/// Whether the sum of the terms between two offsets has only literals and is in range.
fn is_sure_sum(txn: &IndexedTxn<'_>, from: u32, to: u32) -> bool
    requires rises { from ≤ to }
    requires end { to ≤ length txn.now.terms }
    ensures { result ≡ is_sure_sum (sum_between txn.now from to) }
{
    match Literals::of(txn, txn.terms(from, to)) {
        Some(literals) => literals.is_in_range(),
        None => false,
    }
}

fn is_sure_stmt(txn: &IndexedTxn<'_>, row: &StmtRow) -> bool
    requires { RowIn txn.now row.now }
    ensures { result ≡ is_sure_stmt (stmt_of txn.now row.now) }
{
    match row.action {
        Action::Put | Action::Show => is_sure_sum(txn, row.start, row.first),
        Action::Remove => true,
        _ => false,
    }
}

fn are_sure(txn: &IndexedTxn<'_>) -> bool
    ensures { result ≡ list_all is_sure_stmt (map (stmt_of txn.now) txn.now.rows) }
{
    for row in txn.rows() {
        if !is_sure_stmt(txn, row) {
            return false;
        }
    }
    true
}

/// Whether a statement writes the key.
fn is_target(txn: &TxnView<'_>, key: &Key) -> bool
    ensures { result ≡ is_target txn.now.body key.now }
{
    for index in 0..txn.body_len() {
        if txn.stmt(index).target() == Some(*key) {
            return true;
        }
    }
    false
}

/// Whether each declared write is the target of a statement.
fn are_targets(txn: &TxnView<'_>) -> bool
    ensures { result ≡ list_all (is_target txn.now.body) txn.now.writes }
{
    let keys = txn.writes();
    for place in 0..keys.len() {
        if !is_target(txn, keys.key(place)) {
            return false;
        }
    }
    true
}

/// Whether the transaction commits over every store, with the same cells: its body has only `set`
/// without a guard, `drop` and `show`; its sums have only literals and are in range; and each
/// declared write is the target of a statement. The time grows with the terms of the body, and with
/// its statements times the declared writes.
pub fn sure(txn: &TxnView<'_>) -> bool
    ensures { result ≡ is_sure txn.now }
{
    are_sure(&txn.placed()) && are_targets(txn)
}
