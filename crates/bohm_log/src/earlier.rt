//! Parts that an earlier call added to the columns, and that the next call needs too.

ghost use Rattle.std.specs.Prelude.{◌≡◌, ◌≤◌, ◌+◌, ◌^◌, true, length, Err, IfOk, IfSome, OnOk};
ghost use Rattle.std.specs.List.{between};
ghost use Rattle.bohm_log.specs.Columns.{Lands};
ghost use Rattle.bohm_log.specs.Parts.{Begins};
ghost use Rattle.bohm_log.specs.declared.fault.LogFault.TheVariants.{Full};

use crate::columns::{add_all, are_same};
use crate::fault::LogFault;
use crate::row::StmtRow;
use bohm_types::Key;

/// The part of a column that begins at an offset and has `count` entries, and the offset after it.
#[inline(always)]
fn part_at<T>(column: &[T], at: u32, count: usize) -> Option<(&[T], u32)>
    ensures part { IfSome result (λ p. p.0.now ≡ between at p.1 column.now) }
    ensures count { IfSome result (λ p. length p.0.now ≡ count) }
    ensures rise { IfSome result (λ p. at ≤ p.1) }
    ensures end { IfSome result (λ p. p.1 ≤ length column.now) }
{
    let start = at as usize;
    if column.len() < start || column.len() - start < count {
        return None;
    }
    let end = start + count;
    if end > u32::MAX as usize {
        return None;
    }
    Some((&column[start..end], end as u32))
}

/// The offsets between which the column has these names, if it has them from offset `at` on.
pub(crate) fn names_at(column: &[Key], at: u32, names: &[Key]) -> Option<(u32, u32)>
    ensures { IfSome result (λ r. Lands column.now names.now r.0 r.1) }
{
    let (part, end) = part_at(column, at, names.len())?;
    if are_same(part, names) {
        Some((at, end))
    } else {
        None
    }
}

#[inline(always)]
fn is_row(one: &StmtRow, other: &StmtRow) -> bool
    ensures { result ≡ true → one.now ≡ other.now }
{
    // The offsets are compared all at once, without jumps between the comparisons.
    (one.name == other.name)
        & (one.start == other.start)
        & (one.first == other.first)
        & (one.second == other.second)
        & (one.third == other.third)
        && one.declared == other.declared
        && one.action == other.action
}

fn are_rows(part: &[StmtRow], rows: &[StmtRow]) -> bool
    requires { length part.now ≡ length rows.now }
    ensures { result ≡ true → part.now ≡ rows.now }
{
    for i in 0..rows.len() {
        if !is_row(&part[i], &rows[i]) {
            return false;
        }
    }
    true
}

/// The offsets between which the column has these statements, if it has them from offset `at` on.
pub(crate) fn rows_at(column: &[StmtRow], at: u32, rows: &[StmtRow]) -> Option<(u32, u32)>
    ensures { IfSome result (λ r. Lands column.now rows.now r.0 r.1) }
{
    let (part, end) = part_at(column, at, rows.len())?;
    if are_rows(part, rows) {
        Some((at, end))
    } else {
        None
    }
}

/// Appends entries, unless a range was found that already has them.
pub(crate) fn add_once<T: Copy>(
    column: &mut Vec<T>,
    entries: &[T],
    found: Option<(u32, u32)>,
) -> Result<(u32, u32), LogFault>
    requires found { IfSome found (λ r. Lands column.old.items entries.now r.0 r.1) }
    ensures begins { Begins column.old.items column.new.items }
    ensures ok { IfOk result (λ r. Lands column.new.items entries.now r.0 r.1) }
    ensures longer { OnOk result
        (length column.new.items ≤ length column.old.items + length entries.now) }
    ensures full { result ≡ Err Full → 2 ^ 32 ≤ length column.old.items + length entries.now }
{
    match found {
        Some(range) => Ok(range),
        None => add_all(column, entries),
    }
}
