//! Evaluates the sums and conditions of a statement.

ghost use Rattle.std.specs.Prelude.{◌≡◌, ◌≤◌, pos, ◌+◌, ◌+ℤ◌};
ghost use Rattle.std.specs.Prelude.{◌≤ℤ◌, ◌^◌, length, map, reverse, true, All, IfSome, Some};
ghost use Rattle.std.specs.Option.{option_map, option_copied};
ghost use Rattle.std.specs.List.{find};
ghost use Rattle.std.specs.Str.{bytes_eq};
ghost use Rattle.bohm_types.specs.Keys.{rising};
ghost use Rattle.bohm_log.specs.Parts.{KeyIn, TermIn, key_at, term_of, sum_between};
ghost use Rattle.bohm_txn.specs.Meaning.{newest, is_present, atom_value, total_from};
ghost use Rattle.bohm_txn.specs.Meaning.{sum_value, cond_value, signed};
ghost use Rattle.bohm_txn.specs.Tables.{cell_at};
ghost use lib.IntN.{neg_ℤ};
ghost use Rattle.bohm_types.specs.Limits.{most_keys, most_terms};

use crate::numbers::{SHORT, compares, number_in, number_or_least, signed};
use crate::outcome::Reason;
use bohm_log::{AtomKind, IndexedTxn, TermRow};
use bohm_types::{Cell, Cmp, Key, Value};

/// What a statement sees: its transaction's terms, the cells of the declared reads, and the locals.
#[derive(Clone, Copy)]
pub struct Environment<'a> {
    pub txn: &'a IndexedTxn<'a>,
    pub cells: &'a [Cell],
    pub locals: &'a [(Key, Value)],
    ghost paired: { length txn.now.reads ≡ length cells.now },
    ghost rising: { rising txn.now.reads ≡ true },
    ghost few: { length txn.now.reads ≤ most_keys },
}

fn last_bound<'a>(locals: &'a [(Key, Value)], name: &Key) -> Option<&'a (Key, Value)>
    ensures { option_copied result
        ≡ find (λ local. bytes_eq local.0 name.now) (reverse locals.now) }
{
    locals.iter().rev().find(|local| local.0 == *name)
}

/// The value last bound to a name, or 0.
#[inline(never)]
fn local_among(locals: &[(Key, Value)], name: &Key) -> Value
    ensures { result ≡ newest locals.now name.now (pos 0) }
{
    match last_bound(locals, name) {
        Some(local) => local.1,
        None => Value::from(0),
    }
}

impl Environment<'_> {
    ghost use Rattle.bohm_txn.specs.Seeing.{cond_between, look_of};

    /// The number of a term's atom, unless its key is missing.
    fn atom(&self, term: TermRow) -> Option<i128>
        requires { TermIn self.now.txn.now term }
        ensures value { result
            ≡ atom_value (look_of self.now) self.now.locals.now
            (term_of self.now.txn.now term).1 }
        ensures low { IfSome result (λ z. neg_ℤ (pos (2 ^ 64)) ≤ℤ z) }
        ensures high { IfSome result (λ z. z ≤ℤ pos (2 ^ 64)) }
    {
        let place = term.place as usize;
        match term.kind {
            AtomKind::Small => Some(i128::from(term.place)),
            AtomKind::Large => Some(i128::from(self.txn.large()[place])),
            AtomKind::Read => number_in(self.cells[place]),
            AtomKind::Unread => None,
            AtomKind::Local => {
                let name = &self.txn.others()[place];
                Some(i128::from(local_among(self.locals, name).get()))
            }
        }
    }

    fn add(&self, total: i128, term: &TermRow) -> Option<i128>
        requires within { TermIn self.now.txn.now term.now }
        requires low { neg_ℤ (pos (2 ^ 70)) ≤ℤ total }
        requires high { total ≤ℤ pos (2 ^ 70) }
        ensures value { result
            ≡ option_map (λ z. signed total term.now.minus z)
            (atom_value (look_of self.now) self.now.locals.now
            (term_of self.now.txn.now term.now).1) }
        ensures low { IfSome result (λ z. (neg_ℤ (pos (2 ^ 64)) +ℤ total) ≤ℤ z) }
        ensures high { IfSome result (λ z. z ≤ℤ (total +ℤ pos (2 ^ 64))) }
    {
        let number = self.atom(*term)?;
        Some(if term.minus {
            total - number
        } else {
            total + number
        })
    }

    fn total(&self, terms: &[TermRow]) -> Option<i128>
        requires within { All (TermIn self.now.txn.now) terms.now }
        requires few { length terms.now ≤ most_terms }
        ensures { result
            ≡ total_from (look_of self.now) self.now.locals.now (pos 0)
            (map (term_of self.now.txn.now) terms.now) }
    {
        let mut total: i128 = 0;
        for term in terms {
            total = self.add(total, term)?;
        }
        Some(total)
    }

    /// The number of a term's atom, or the least 64-bit number if its key is missing or the term is
    /// of a rare kind. There is one test for each of the other kinds.
    #[inline(always)]
    fn atom_or_least(&self, term: TermRow) -> i64
        requires { TermIn self.now.txn.now term }
        ensures { neg_ℤ (pos (2 ^ 58)) ≤ℤ result → atom_value (look_of self.now)
            self.now.locals.now (term_of self.now.txn.now term).1 ≡ Some result }
    {
        let place = term.place as usize;
        if let AtomKind::Read = term.kind {
            number_or_least(self.cells[place])
        } else if let AtomKind::Small = term.kind {
            i64::from(term.place)
        } else if let AtomKind::Local = term.kind {
            local_among(self.locals, &self.txn.others()[place]).get()
        } else {
            i64::MIN
        }
    }

    /// The exact total, if no key is missing and each number is short, as nearly all are. It takes
    /// a fifth fewer instructions than a 128-bit total.
    #[inline(always)]
    fn short_total(&self, terms: &[TermRow]) -> Option<i64>
        requires within { All (TermIn self.now.txn.now) terms.now }
        requires few { length terms.now ≤ most_terms }
        ensures { IfSome result
            (λ z. total_from (look_of self.now) self.now.locals.now (pos 0)
            (map (term_of self.now.txn.now) terms.now) ≡ Some z) }
    {
        let mut total: i64 = 0;
        for term in terms {
            let number = self.atom_or_least(*term);
            if number < -SHORT || SHORT < number {
                return None;
            }
            total = signed(total, term.minus, number);
        }
        Some(total)
    }

    /// The value of the sum of the terms between two offsets. A partial total may be out of range.
    #[inline(always)]
    pub fn sum(&self, from: u32, to: u32) -> Result<Value, Reason>
        requires rises { from ≤ to }
        requires end { to ≤ length self.now.txn.now.terms }
        requires few { to ≤ from + most_terms }
        ensures { result
            ≡ sum_value (look_of self.now) self.now.locals.now
            (sum_between self.now.txn.now from to) }
    {
        match self.short_total(self.txn.terms(from, to)) {
            Some(total) => Ok(Value::from(total)),
            None => long_sum(self.txn.copied(), self.cells, self.locals, from, to),
        }
    }

    /// Whether a comparison holds between two sums, whose terms are consecutive.
    #[inline(always)]
    pub fn holds(&self, cmp: Cmp, from: u32, middle: u32, to: u32) -> Result<bool, Reason>
        requires left { from ≤ middle }
        requires right { middle ≤ to }
        requires end { to ≤ length self.now.txn.now.terms }
        requires few_left { middle ≤ from + most_terms }
        requires few_right { to ≤ middle + most_terms }
        ensures { result
            ≡ cond_value (look_of self.now) self.now.locals.now
            (cond_between self.now.txn.now cmp from middle to) }
    {
        let left = self.sum(from, middle)?;
        let right = self.sum(middle, to)?;
        Ok(compares(cmp, left.get().cmp(&right.get())))
    }

    /// The cell of a key that is tested. If the key is declared, the index is one of the reads.
    fn cell(&self, declared: bool, place: u32) -> Cell
        requires { KeyIn self.now.txn.now.reads self.now.txn.now.others declared place }
        ensures { result
            ≡ look_of self.now
            (key_at self.now.txn.now.reads self.now.txn.now.others declared place) }
    {
        if declared {
            self.cells[place as usize]
        } else {
            Cell::Absent
        }
    }

    /// Whether a key that is tested is present.
    pub fn has(&self, declared: bool, place: u32) -> bool
        requires { KeyIn self.now.txn.now.reads self.now.txn.now.others declared place }
        ensures { result
            ≡ is_present
            (look_of self.now
            (key_at self.now.txn.now.reads self.now.txn.now.others declared place)) }
    {
        matches!(self.cell(declared, place), Cell::Present(_))
    }
}

/// The value of the sum of the terms between two offsets, whatever its numbers are. The transaction
/// is passed by value, so that callers, which seldom need this function, can keep its slices in
/// registers.
#[inline(never)]
fn long_sum(
    txn: IndexedTxn<'_>,
    cells: &[Cell],
    locals: &[(Key, Value)],
    from: u32,
    to: u32,
) -> Result<Value, Reason>
    requires paired { length txn.reads ≡ length cells.now }
    requires rising { rising txn.reads ≡ true }
    requires few_reads { length txn.reads ≤ most_keys }
    requires rises { from ≤ to }
    requires end { to ≤ length txn.terms }
    requires few { to ≤ from + most_terms }
    ensures { result ≡ sum_value (cell_at txn.entry.reads cells.now) locals.now
        (sum_between txn.entry from to) }
{
    let environment = Environment {
        txn: &txn,
        cells,
        locals,
    };
    let total = environment
        .total(txn.terms(from, to))
        .ok_or(Reason::Absent)?;
    match i64::try_from(total) {
        Ok(number) => Ok(Value::from(number)),
        Err(_) => Err(Reason::Range),
    }
}
