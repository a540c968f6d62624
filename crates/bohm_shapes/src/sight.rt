//! Evaluates the sums and conditions of a statement.

ghost use Rattle.std.specs.Prelude.{◌≡◌, ◌<◌, ◌≤◌, ◌^◌, ◌+ℤ◌, ◌≤ℤ◌, ℤ, pos, length, true};
ghost use Rattle.std.specs.Prelude.{All, IfSome, Some};
ghost use Rattle.std.specs.Option.{option_map};
ghost use Rattle.bohm_txn.specs.Meaning.{atom_value, cond_value, is_present, newest, signed};
ghost use Rattle.bohm_txn.specs.Meaning.{number_in, sum_value, total_from};
ghost use Rattle.bohm_log.specs.Parts.{name_at};
ghost use Rattle.bohm_shapes.specs.Filled.{is_minus};
ghost use Rattle.bohm_shapes.specs.Apart.{all_apart};
ghost use Rattle.bohm_shapes.specs.Running.{SumIn, TermIn};
ghost use lib.IntN.{neg_ℤ};

use crate::shape::Term;
use crate::slot_keys::SlotKeys;
use bohm_txn::{Reason, SHORT, compares, number_in, number_or_least, signed};
use bohm_types::{Cell, Cmp, Key, Value};

/// What a statement sees: the cells of the keys, and the locals. Only contracts need the names.
#[derive(Clone, Copy)]
pub(crate) struct Sight<'a> {
    pub keys: &'a SlotKeys<'a>,
    pub names: &'a [Key],
    pub cells: &'a [Cell],
    pub locals: &'a [Value],
    ghost paired: { length keys.now ≡ length cells.now },
    ghost apart_keys: { all_apart keys.now ≡ true },
    ghost apart: { all_apart names.now ≡ true },
    ghost few: { length locals.now ≤ length names.now },
}

/// Whether a term is subtracted: a literal is added with its sign.
#[inline(always)]
fn is_minus(term: Term) -> bool
    ensures { result ≡ is_minus term }
{
    match term {
        Term::Number(_) => false,
        Term::Slot { minus, .. } => minus,
        Term::Local { minus, .. } => minus,
    }
}

impl Sight<'_> {
    ghost use Rattle.bohm_shapes.specs.Seeing.{cond_seen, locals_of, look_of, sum_seen, term_seen};

    /// The cell of a key.
    #[tactic(auto, using(crate::proofs::Terms::slot_cell))]
    fn cell(&self, place: usize) -> Cell
        requires { place < length self.now.keys.now }
        ensures { result ≡ look_of self.now (name_at self.now.keys.now place) }
    {
        self.cells[place]
    }

    /// The number of a local.
    #[tactic(auto, using(crate::proofs::Terms::local_number))]
    fn local(&self, place: usize) -> i64
        requires { place < length self.now.locals.now }
        ensures { result
            ≡ newest (locals_of self.now) (name_at self.now.names.now place) (pos 0) }
    {
        self.locals[place].get()
    }

    /// The number of a term, or the least 64-bit number if its key is missing. A literal has its
    /// sign, and isn't subtracted.
    #[inline(always)]
    fn number_or_least(&self, term: Term) -> i64
        requires { TermIn (length self.now.keys.now) (length self.now.locals.now) term }
        ensures { neg_ℤ (pos (2 ^ 58)) ≤ℤ result → (total : ℤ)
            → option_map (λ z. signed total (term_seen self.now term).0 z)
            (atom_value (look_of self.now) (locals_of self.now) (term_seen self.now term).1)
            ≡ Some (signed total (is_minus term) result) }
    {
        match term {
            Term::Number(number) => number,
            Term::Slot { place, .. } => number_or_least(self.cell(place)),
            Term::Local { place, .. } => self.local(place),
        }
    }

    /// The exact total, if no key is missing and each number is short, as nearly all are.
    #[inline(always)]
    fn short_total(&self, terms: &[Term]) -> Option<i64>
        requires { SumIn (length self.now.keys.now) (length self.now.locals.now) terms.now }
        ensures { IfSome result
            (λ z. total_from (look_of self.now) (locals_of self.now) (pos 0)
            (sum_seen self.now terms.now) ≡ Some z) }
    {
        let mut total: i64 = 0;
        for term in terms {
            let number = self.number_or_least(*term);
            if number < -SHORT || SHORT < number {
                return None;
            }
            total = signed(total, is_minus(*term), number);
        }
        Some(total)
    }

    /// The exact number of a term with its sign, unless its key is missing.
    fn add(&self, total: i128, term: Term) -> Option<i128>
        requires within { TermIn (length self.now.keys.now) (length self.now.locals.now) term }
        requires low { neg_ℤ (pos (2 ^ 70)) ≤ℤ total }
        requires high { total ≤ℤ pos (2 ^ 70) }
        ensures value { result
            ≡ option_map (λ z. signed total (term_seen self.now term).0 z)
            (atom_value (look_of self.now) (locals_of self.now) (term_seen self.now term).1) }
        ensures low { IfSome result (λ z. (neg_ℤ (pos (2 ^ 64)) +ℤ total) ≤ℤ z) }
        ensures high { IfSome result (λ z. z ≤ℤ (total +ℤ pos (2 ^ 64))) }
    {
        match term {
            Term::Number(number) => Some(total + i128::from(number)),
            Term::Slot { minus, place } => {
                let number = number_in(self.cell(place))?;
                Some(long_signed(total, minus, number))
            }
            Term::Local { minus, place } => {
                let number = i128::from(self.local(place));
                Some(long_signed(total, minus, number))
            }
        }
    }

    /// The exact total, unless a key is missing.
    fn total(&self, terms: &[Term]) -> Option<i128>
        requires { SumIn (length self.now.keys.now) (length self.now.locals.now) terms.now }
        ensures { result ≡ total_from (look_of self.now) (locals_of self.now) (pos 0)
            (sum_seen self.now terms.now) }
    {
        let mut total: i128 = 0;
        for term in terms {
            total = self.add(total, *term)?;
        }
        Some(total)
    }

    /// The value of a sum, whatever its numbers are.
    #[inline(never)]
    fn long_sum(&self, terms: &[Term]) -> Result<Value, Reason>
        requires { SumIn (length self.now.keys.now) (length self.now.locals.now) terms.now }
        ensures { result
            ≡ sum_value (look_of self.now) (locals_of self.now) (sum_seen self.now terms.now) }
    {
        let total = self.total(terms).ok_or(Reason::Absent)?;
        match i64::try_from(total) {
            Ok(number) => Ok(Value::from(number)),
            Err(_) => Err(Reason::Range),
        }
    }

    /// The value of a sum. A partial total may be out of range.
    #[inline(always)]
    pub fn sum(&self, terms: &[Term]) -> Result<Value, Reason>
        requires { SumIn (length self.now.keys.now) (length self.now.locals.now) terms.now }
        ensures { result
            ≡ sum_value (look_of self.now) (locals_of self.now) (sum_seen self.now terms.now) }
    {
        match self.short_total(terms) {
            Some(total) => Ok(Value::from(total)),
            None => self.long_sum(terms),
        }
    }

    /// Whether a comparison holds between two sums.
    #[inline(always)]
    pub fn holds(&self, left: &[Term], cmp: Cmp, right: &[Term]) -> Result<bool, Reason>
        requires left { SumIn (length self.now.keys.now) (length self.now.locals.now) left.now }
        requires right { SumIn (length self.now.keys.now) (length self.now.locals.now) right.now }
        ensures { result ≡ cond_value (look_of self.now) (locals_of self.now)
            (cond_seen self.now left.now cmp right.now) }
    {
        let left = self.sum(left)?;
        let right = self.sum(right)?;
        Ok(compares(cmp, left.get().cmp(&right.get())))
    }

    /// Whether a key is present.
    pub fn has(&self, place: usize) -> bool
        requires { place < length self.now.keys.now }
        ensures { result ≡ is_present (look_of self.now (name_at self.now.keys.now place)) }
    {
        matches!(self.cell(place), Cell::Present(_))
    }
}

/// The total with one more number added or subtracted.
fn long_signed(total: i128, minus: bool, number: i128) -> i128
    requires low { (neg_ℤ (pos (2 ^ 70)) ≤ℤ total) × (neg_ℤ (pos (2 ^ 64)) ≤ℤ number) }
    requires high { (total ≤ℤ pos (2 ^ 70)) × (number ≤ℤ pos (2 ^ 64)) }
    ensures value { result ≡ signed total minus number }
    ensures low { (neg_ℤ (pos (2 ^ 64)) +ℤ total) ≤ℤ result }
    ensures high { result ≤ℤ (total +ℤ pos (2 ^ 64)) }
{
    if minus {
        total - number
    } else {
        total + number
    }
}
