//! The numbers that cells hold, and how they are added and compared.

ghost use Rattle.std.specs.Prelude.{◌≡◌, pos, ◌+ℤ◌, ◌≤ℤ◌, ◌^◌, IfSome, Some};
ghost use Rattle.bohm_txn.specs.Meaning.{number_in, compares, signed};
ghost use lib.IntN.{neg_ℤ};

use bohm_types::{Cell, Cmp};
use std::cmp::Ordering;

/// The total of sixteen numbers that are no greater than this one, and no less than its negative,
/// fits in 64 bits.
pub const SHORT: i64 = 1 << 58;

/// Whether a comparison holds between two numbers that compare so.
pub fn compares(cmp: Cmp, ordering: Ordering) -> bool
    ensures { result ≡ compares cmp ordering }
{
    match cmp {
        Cmp::Lt => ordering.is_lt(),
        Cmp::Le => ordering.is_le(),
        Cmp::Eq => ordering.is_eq(),
        Cmp::Ge => ordering.is_ge(),
        Cmp::Gt => ordering.is_gt(),
    }
}

/// The number in a cell.
pub fn number_in(cell: Cell) -> Option<i128>
    ensures value { result ≡ number_in cell }
    ensures low { IfSome result (λ z. neg_ℤ (pos (2 ^ 64)) ≤ℤ z) }
    ensures high { IfSome result (λ z. z ≤ℤ pos (2 ^ 64)) }
{
    match cell {
        Cell::Absent => None,
        Cell::Present(value) => Some(i128::from(value.get())),
    }
}

/// The number in a cell, or the least 64-bit number if there is none.
#[inline(always)]
pub fn number_or_least(cell: Cell) -> i64
    ensures { neg_ℤ (pos (2 ^ 58)) ≤ℤ result → number_in cell ≡ Some result }
{
    match cell {
        Cell::Absent => i64::MIN,
        Cell::Present(value) => value.get(),
    }
}

/// The total with a short number added to it or subtracted from it.
#[inline(always)]
pub fn signed(total: i64, minus: bool, number: i64) -> i64
    requires low { (neg_ℤ (pos (2 ^ 62)) ≤ℤ total) × (neg_ℤ (pos (2 ^ 58)) ≤ℤ number) }
    requires high { (total ≤ℤ pos (2 ^ 62)) × (number ≤ℤ pos (2 ^ 58)) }
    ensures value { result ≡ signed total minus number }
    ensures low { (neg_ℤ (pos (2 ^ 58)) +ℤ total) ≤ℤ result }
    ensures high { result ≤ℤ (total +ℤ pos (2 ^ 58)) }
{
    if minus {
        total - number
    } else {
        total + number
    }
}
