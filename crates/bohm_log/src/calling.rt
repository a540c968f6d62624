//! Builds the instance of a call from a procedure's columns, at the ends of a log's columns.

ghost use Rattle.std.specs.Prelude.{◌≡◌, ◌≢◌, ◌<◌, ◌≤◌, ◌+◌, ◌^◌, ◌++◌, true, drop, map, length};
ghost use Rattle.std.specs.Prelude.{OnOk, IfOk, Err};
ghost use Rattle.bohm_log.specs.declared.fault.LogFault.TheVariants.{Full};
ghost use Rattle.std.specs.Prelude.{IfSome, IfNone, pos, replicate, slice_index_or};
ghost use Rattle.std.specs.List.{AllByRecursion};
ghost use Rattle.bohm_types.specs.Procedure.{is_minus};
ghost use Rattle.bohm_log.specs.Calling.{value_terms, value_large};
ghost use Rattle.bohm_log.specs.Calling.{let_large, let_terms, let_rows};
ghost use Rattle.bohm_log.specs.Calling.{argument_of, term_to, name_by, row_to};
ghost use Rattle.bohm_log.specs.Columns.{Lands};
ghost use Rattle.bohm_log.specs.Handles.{keys_named};
ghost use Rattle.bohm_log.specs.Parts.{Begins};

use crate::call_places::Moves;
use crate::columns::offset;
use crate::earlier::{add_once, rows_at};
use crate::fault::LogFault;
use crate::key_handle::KeyHandle;
use crate::row::{Action, AtomKind, StmtRow, TermRow};
use crate::template::{BodyColumns, DeclaredName};
use bohm_types::{GREATEST_LITERAL, Value};

/// The exclusive upper bound of the literals that are stored as a term's index.
const SMALL_END: u64 = 1 << 32;

/// The handle that a declared name represents, if the name is a parameter.
#[inline(always)]
pub(crate) fn handle_of<'a>(name: &DeclaredName, args: &'a [KeyHandle]) -> Option<&'a KeyHandle>
    ensures some { IfSome result
        (λ h. h.now.key ≡ argument_of (keys_named args.now) name.now) }
    ensures none { IfNone result (argument_of (keys_named args.now) name.now ≡ name.now.name) }
{
    match name.param {
        Some(i) => args.get(i),
        None => None,
    }
}

#[inline(always)]
fn place_or_none(places: &[u32], i: u32) -> u32
    ensures { result ≡ slice_index_or places.now i 0 }
{
    match places.get(i as usize) {
        Some(place) => *place,
        None => 0,
    }
}

#[inline(always)]
fn term_to(places: &[u32], term: &TermRow) -> TermRow
    ensures { result ≡ term_to places.now term.now }
{
    let mut moved = *term;
    // Two tests are faster than a jump by the kind.
    if let AtomKind::Read = term.kind {
        moved.place = place_or_none(places, term.place);
    } else if let AtomKind::Unread = term.kind {
        moved.kind = AtomKind::Small;
        moved.place = 0;
    }
    moved
}

/// The index of a statement's name over other keys.
fn name_to(reads: &[u32], writes: &[u32], action: Action, name: u32) -> u32
    ensures { result ≡ name_by reads.now writes.now action name }
{
    match action {
        Action::Has | Action::Lacks => place_or_none(reads, name),
        Action::Put | Action::PutWhen(_) | Action::Remove => place_or_none(writes, name),
        Action::Bind | Action::Need(_) | Action::Show | Action::Fail => name,
    }
}

fn row_to(reads: &[u32], writes: &[u32], row: &StmtRow) -> StmtRow
    ensures { result ≡ row_to reads.now writes.now row.now }
{
    let mut moved = *row;
    moved.name = name_to(reads, writes, row.action, row.name);
    moved
}

/// Appends terms over other keys.
#[tactic(auto, using(crate::proofs::Widening::begins_by))]
pub(crate) fn relocate_terms(
    column: &mut Vec<TermRow>,
    terms: &[TermRow],
    places: &[u32],
) -> Result<(), LogFault>
    ensures begins { Begins column.old.items column.new.items }
    ensures ok { OnOk result
        (column.new.items ≡ column.old.items ++ map (term_to places.now) terms.now) }
    ensures never_full { result ≢ Err Full }
{
    for term in terms {
        column.push(term_to(places, term))?;
    }
    Ok(())
}

/// Appends statements over other keys.
#[tactic(auto, using(crate::proofs::Widening::begins_by))]
pub(crate) fn relocate_rows(
    column: &mut Vec<StmtRow>,
    rows: &[StmtRow],
    reads: &[u32],
    writes: &[u32],
) -> Result<(), LogFault>
    ensures begins { Begins column.old.items column.new.items }
    ensures ok { OnOk result
        (column.new.items ≡ column.old.items ++ map (row_to reads.now writes.now) rows.now) }
    ensures never_full { result ≢ Err Full }
{
    for row in rows {
        column.push(row_to(reads, writes, row))?;
    }
    Ok(())
}

/// Whether a value is below 0.
fn is_minus(number: i64) -> bool
    ensures { result ≡ is_minus number }
{
    number < 0
}

/// Appends the literal of a value, if it is a large one. The least value has the greatest literal.
#[inline(always)]
#[tactic(auto, using(crate::proofs::Widening::begins_by))]
fn add_large_value(column: &mut Vec<u64>, value: Value) -> Result<(), LogFault>
    ensures begins { Begins column.old.items column.new.items }
    ensures ok { OnOk result (column.new.items ≡ column.old.items ++ value_large value) }
    ensures never_full { result ≢ Err Full }
{
    let size = value.get().unsigned_abs();
    if size < SMALL_END {
        return Ok(());
    }
    if size > GREATEST_LITERAL {
        column.push(GREATEST_LITERAL)?;
    } else {
        column.push(size)?;
    }
    Ok(())
}

/// Appends the large literals of values.
#[tactic(auto, using(crate::proofs::Lets::large_next, crate::proofs::Lets::large_all))]
fn add_large_values(column: &mut Vec<u64>, values: &[Value]) -> Result<(), LogFault>
    ensures begins { Begins column.old.items column.new.items }
    ensures ok { OnOk result (column.new.items ≡ column.old.items ++ let_large values.now) }
    ensures never_full { result ≢ Err Full }
{
    for i in 0..values.len() {
        add_large_value(column, values[i])?;
    }
    Ok(())
}

/// Appends a body's large literals, and then those of values.
pub(crate) fn add_large(
    column: &mut Vec<u64>,
    large: &[u64],
    values: &[Value],
) -> Result<(u32, u32), LogFault>
    ensures begins { Begins column.old.items column.new.items }
    ensures ok { IfOk result
        (λ r. Lands column.new.items (large.now ++ let_large values.now) r.0 r.1) }
    ensures longer { OnOk result (length column.new.items
        ≡ length column.old.items + length (large.now ++ let_large values.now)) }
    ensures full { result ≡ Err Full
        → 2 ^ 32 ≤ length column.old.items + length (large.now ++ let_large values.now) }
{
    let from = offset(column.len())?;
    if !large.is_empty() {
        column.extend_from_slice(large)?;
    }
    add_large_values(column, values)?;
    let to = offset(column.len())?;
    Ok((from, to))
}

/// Appends the terms of a value, given the number of large literals before it. Returns their number
/// with the value's own.
#[inline(always)]
#[tactic(auto, using(crate::proofs::Widening::begins_by))]
fn add_value(column: &mut Vec<TermRow>, many: usize, value: Value) -> Result<usize, LogFault>
    ensures begins { Begins column.old.items column.new.items }
    ensures terms { OnOk result
        (column.new.items ≡ column.old.items ++ value_terms many value) }
    ensures many { IfOk result (λ n. n ≡ many + length (value_large value)) }
    ensures full { result ≡ Err Full → 2 ^ 32 ≤ many }
{
    let minus = is_minus(value.get());
    let size = value.get().unsigned_abs();
    if size < SMALL_END {
        column.push(TermRow {
            kind: AtomKind::Small,
            minus,
            place: size as u32,
        })?;
        return Ok(many);
    }
    let place = offset(many)?;
    column.push(TermRow {
        kind: AtomKind::Large,
        minus,
        place,
    })?;
    if size > GREATEST_LITERAL {
        column.push(TermRow {
            kind: AtomKind::Small,
            minus,
            place: 1,
        })?;
    }
    Ok(many + 1)
}

/// Appends the terms of values, given the number of large literals before theirs.
#[tactic(auto, using(crate::proofs::Lets::terms_next, crate::proofs::Lets::terms_all, crate::proofs::Lets::many_next))]
fn add_values(column: &mut Vec<TermRow>, large: usize, values: &[Value]) -> Result<(), LogFault>
    ensures begins { Begins column.old.items column.new.items }
    ensures ok { OnOk result
        (column.new.items ≡ column.old.items ++ let_terms large values.now) }
    ensures full { result ≡ Err Full → 2 ^ 32 ≤ large + length (let_large values.now) }
{
    let mut many = large;
    for i in 0..values.len() {
        many = add_value(column, many, values[i])?;
    }
    Ok(())
}

/// Appends a body's terms over other keys.
#[tactic(auto, using(crate::proofs::Widening::begins_by))]
fn copy_terms(
    column: &mut Vec<TermRow>,
    body: &BodyColumns,
    moves: &Moves<'_, '_>,
) -> Result<(), LogFault>
    requires { IfSome moves.now.placed (λ b. b.now.terms.items
        ≡ map (term_to moves.now.reads.now) body.now.terms.items) }
    ensures begins { Begins column.old.items column.new.items }
    ensures ok { OnOk result (column.new.items
        ≡ column.old.items ++ map (term_to moves.now.reads.now) body.now.terms.items) }
    ensures never_full { result ≢ Err Full }
{
    match moves.placed {
        Some(placed) => {
            column.extend_from_slice(placed.terms.as_slice())?;
            Ok(())
        }
        None => relocate_terms(column, body.terms.as_slice(), moves.reads),
    }
}

/// Appends a body's terms over other keys, and then those of values.
pub(crate) fn add_terms(
    column: &mut Vec<TermRow>,
    body: &BodyColumns,
    moves: &Moves<'_, '_>,
    values: &[Value],
) -> Result<(u32, u32), LogFault>
    requires { IfSome moves.now.placed (λ b. b.now.terms.items
        ≡ map (term_to moves.now.reads.now) body.now.terms.items) }
    ensures begins { Begins column.old.items column.new.items }
    ensures ok { IfOk result (λ r. Lands column.new.items
        (map (term_to moves.now.reads.now) body.now.terms.items
        ++ let_terms (length body.now.large.items) values.now) r.0 r.1) }
    ensures longer { OnOk result (length column.new.items
        ≡ length column.old.items + length body.now.terms.items
        + length (let_terms (length body.now.large.items) values.now)) }
    ensures full { result ≡ Err Full → 2 ^ 32 ≤ length column.old.items
        + length body.now.terms.items + length body.now.large.items
        + length (let_terms (length body.now.large.items) values.now)
        + length (let_large values.now) }
{
    let from = offset(column.len())?;
    copy_terms(column, body, moves)?;
    add_values(column, body.large.len(), values)?;
    let to = offset(column.len())?;
    Ok((from, to))
}

/// How many terms a value has.
#[inline(always)]
fn terms_len(value: Value) -> usize
    ensures length { result ≡ length (value_terms 0 value) }
    ensures few { result ≤ 2 }
{
    if value.get().unsigned_abs() > GREATEST_LITERAL {
        2
    } else {
        1
    }
}

/// Appends the statements that bind values to the names at these indices. Their terms begin at
/// offset `first`.
#[tactic(auto, using(crate::proofs::Lets::rows_next, crate::proofs::Lets::rows_all, crate::proofs::Lets::start_next))]
pub(crate) fn add_lets(
    column: &mut Vec<StmtRow>,
    first: usize,
    places: &[u32],
    values: &[Value],
) -> Result<(), LogFault>
    requires { length values.now ≡ length places.now }
    ensures begins { Begins column.old.items column.new.items }
    ensures ok { OnOk result
        (column.new.items ≡ column.old.items ++ let_rows first places.now values.now) }
    ensures full { result ≡ Err Full → 2 ^ 32 ≤ first + length (let_terms 0 values.now) }
{
    let mut start = offset(first)?;
    for i in 0..values.len() {
        let end = offset(start as usize + terms_len(values[i]))?;
        column.push(StmtRow {
            action: Action::Bind,
            declared: false,
            name: places[i],
            start,
            first: end,
            second: end,
            third: end,
        })?;
        start = end;
    }
    Ok(())
}

/// Whether each value is one term.
fn are_short(values: &[Value]) -> bool
    ensures { result ≡ true → AllByRecursion (λ v. length (value_terms 0 v) ≡ 1) values.now }
{
    values.iter().all(|value| terms_len(*value) == 1)
}

/// Appends statements that bind values to the names at these indices, and then the body's
/// statements over other keys, without its first statements, one for each value. The statements of
/// a body that is prepared for the call aren't appended if the column already has them at offset
/// `earlier`.
pub(crate) fn add_rows(
    column: &mut Vec<StmtRow>,
    body: &BodyColumns,
    moves: &Moves<'_, '_>,
    places: &[u32],
    values: &[Value],
    earlier: u32,
) -> Result<(u32, u32), LogFault>
    requires placed { IfSome moves.now.placed (λ b. b.now.rows.items
        ≡ let_rows (length body.now.terms.items) places.now
        (replicate (length places.now) (pos 0))
        ++ map (row_to moves.now.reads.now moves.now.writes.now)
        (drop (length places.now) body.now.rows.items)) }
    requires lets { length places.now ≤ length body.now.rows.items }
    requires values { length values.now ≡ length places.now }
    ensures begins { Begins column.old.items column.new.items }
    ensures ok { IfOk result (λ r. Lands column.new.items
        (let_rows (length body.now.terms.items) places.now values.now
        ++ map (row_to moves.now.reads.now moves.now.writes.now)
        (drop (length places.now) body.now.rows.items)) r.0 r.1) }
    ensures longer { OnOk result
        (length column.new.items ≤ length column.old.items + length body.now.rows.items) }
    ensures full { result ≡ Err Full → 2 ^ 32 ≤ length column.old.items
        + length body.now.rows.items + length body.now.terms.items
        + length (let_terms 0 values.now) }
{
    if let Some(placed) = moves.placed
        && are_short(values)
    {
        let rows = placed.rows.as_slice();
        let found = rows_at(column, earlier, rows);
        return add_once(column, rows, found);
    }
    let from = offset(column.len())?;
    add_lets(column, body.terms.len(), places, values)?;
    let rows = &body.rows.as_slice()[places.len()..];
    relocate_rows(column, rows, moves.reads, moves.writes)?;
    let to = offset(column.len())?;
    Ok((from, to))
}
