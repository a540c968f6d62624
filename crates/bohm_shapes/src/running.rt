//! Runs a shape, statement by statement.

ghost use Rattle.std.specs.Prelude.{◌≡◌, ◌≤◌, ◌<◌, ◌+◌, [], ◌∷◌, ◌++◌, length, true, false};
ghost use Rattle.std.specs.Prelude.{MatchResult, Ok, Err, OnOk, slice_set};
ghost use Rattle.std.specs.List.{AllByRecursion};
ghost use Rattle.bohm_types.specs.Limits.{most_stmts};
ghost use Rattle.bohm_types.specs.Sound.{IsNumber};
ghost use Rattle.bohm_log.specs.Parts.{name_at};
ghost use Rattle.bohm_txn.specs.Meaning.{cond_value, is_present, sum_value};
ghost use Rattle.bohm_txn.specs.Tables.{cell_at, start, step, tables_from, written};
ghost use Rattle.bohm_shapes.specs.Calls.{IsCall, txn_of};
ghost use Rattle.bohm_shapes.specs.Filled.{stmt_filled, sum_filled, txn_filled};
ghost use Rattle.bohm_shapes.specs.Running.{Fits, HasRoom, IsRoomy, Keeps, StepIn, SumIn};
ghost use Rattle.bohm_shapes.specs.Running.{bound_to, lets_in, most_slots, tables_of};

use crate::call::Call;
use crate::registers::Work;
use crate::shape::{Shape, Step, Term};
use crate::sight::Sight;
use crate::slot_keys::SlotKeys;
use bohm_txn::{Reason, need};
use bohm_types::{Cell, Cmp, Edition, Value};

/// What the next statement sees. Inline, as its callers are.
#[inline(always)]
fn sight<'a>(shape: &'a Shape, keys: &'a SlotKeys<'a>, work: &'a Work) -> Sight<'a>
    requires { Fits shape.now.locals.items keys.now work.now }
    ensures keys { result.keys.now ≡ keys.now }
    ensures names { result.names.now ≡ shape.now.locals.items }
    ensures cells { result.cells.now ≡ work.now.seen.0 }
    ensures locals { result.locals.now ≡ work.now.locals.0 }
{
    Sight {
        keys,
        names: shape.locals.as_slice(),
        cells: work.seen.as_slice(),
        locals: work.locals.as_slice(),
    }
}

/// The value of a sum.
#[inline(always)]
fn sum(shape: &Shape, keys: &SlotKeys<'_>, work: &Work, terms: &[Term]) -> Result<Value, Reason>
    requires fits { Fits shape.now.locals.items keys.now work.now }
    requires within { SumIn (length keys.now) (length work.now.locals.0) terms.now }
    ensures { result ≡ sum_value (cell_at keys.now work.now.seen.0)
        (bound_to shape.now.locals.items work.now.locals.0)
        (sum_filled shape.now.locals.items keys.now terms.now) }
{
    sight(shape, keys, work).sum(terms)
}

/// Whether a comparison holds.
#[inline(always)]
fn holds(
    shape: &Shape,
    keys: &SlotKeys<'_>,
    work: &Work,
    left: &[Term],
    cmp: Cmp,
    right: &[Term],
) -> Result<bool, Reason>
    requires fits { Fits shape.now.locals.items keys.now work.now }
    requires left { SumIn (length keys.now) (length work.now.locals.0) left.now }
    requires right { SumIn (length keys.now) (length work.now.locals.0) right.now }
    ensures { result ≡ cond_value (cell_at keys.now work.now.seen.0)
        (bound_to shape.now.locals.items work.now.locals.0)
        (record {
          left = sum_filled shape.now.locals.items keys.now left.now;
          cmp = cmp;
          right = sum_filled shape.now.locals.items keys.now right.now;
        }) }
{
    sight(shape, keys, work).holds(left, cmp, right)
}

/// Whether a key is present.
#[inline(always)]
fn has(shape: &Shape, keys: &SlotKeys<'_>, work: &Work, place: usize) -> bool
    requires fits { Fits shape.now.locals.items keys.now work.now }
    requires within { place < length keys.now }
    ensures { result
        ≡ is_present (cell_at keys.now work.now.seen.0 (name_at keys.now place)) }
{
    sight(shape, keys, work).has(place)
}

/// Writes the cell that later statements see of a key.
#[inline(always)]
fn write_seen(work: &mut Work, place: usize, cell: &Cell)
    requires { place < length work.old.seen.0 }
    ensures seen { work.new.seen ≡ (slice_set work.old.seen.0 place cell.now, work.old.seen.1) }
    ensures locals { work.new.locals ≡ work.old.locals }
    ensures cells { work.new.cells ≡ work.old.cells }
    ensures shows { work.new.shows ≡ work.old.shows }
{
    work.seen.set(place, *cell);
}

/// Writes the cell of a key. In edition two later statements see it.
#[inline(always)]
fn write(shape: &Shape, keys: &SlotKeys<'_>, work: &mut Work, place: usize, cell: Cell)
    requires fits { Fits shape.now.locals.items keys.now work.old }
    requires within { place < length keys.now }
    ensures after { tables_of shape.now.locals.items work.new
        ≡ written (txn_filled shape.now keys.now []) (tables_of shape.now.locals.items work.old)
        (name_at keys.now place) cell }
    ensures fits { Fits shape.now.locals.items keys.now work.new }
    ensures keeps { Keeps work.old work.new }
    ensures locals { work.new.locals ≡ work.old.locals }
    ensures shows { work.new.shows ≡ work.old.shows }
{
    work.cells.set(place, cell);
    match shape.edition {
        Edition::One => {}
        Edition::Two => write_seen(work, place, &cell),
    }
}

/// Binds the next local.
#[inline(always)]
#[tactic(auto, using(crate::proofs::Terms::one_more_bound))]
fn bind(shape: &Shape, work: &mut Work, value: Value)
    requires named { length work.old.locals.0 < length shape.now.locals.items }
    requires room { HasRoom work.old }
    ensures locals { bound_to shape.now.locals.items work.new.locals.0
        ≡ bound_to shape.now.locals.items work.old.locals.0
        ++ (name_at shape.now.locals.items (length work.old.locals.0), value) ∷ [] }
    ensures limit { work.new.locals.1 ≡ work.old.locals.1 }
    ensures more { length work.new.locals.0 ≡ length work.old.locals.0 + 1 }
    ensures seen { work.new.seen ≡ work.old.seen }
    ensures cells { work.new.cells ≡ work.old.cells }
    ensures shows { work.new.shows ≡ work.old.shows }
{
    work.locals.push(value);
}

/// Runs one statement. The error says why it fails. Inline, as its caller is.
#[inline(always)]
fn perform(shape: &Shape, keys: &SlotKeys<'_>, work: &mut Work, row: &Step) -> Result<(), Reason>
    requires fits { Fits shape.now.locals.items keys.now work.old }
    requires within { StepIn shape.now.locals.items (length keys.now) (length work.old.locals.0)
        row.now }
    requires room { HasRoom work.old }
    ensures outcome { let names = shape.now.locals.items in
        let next = step (txn_filled shape.now keys.now []) (tables_of names work.old)
        (stmt_filled names keys.now row.now) in
        MatchResult result
        (λ _. next ≡ Ok (tables_of names work.new)) (λ reason. next ≡ Err reason) }
    ensures fits { OnOk result (Fits shape.now.locals.items keys.now work.new) }
    ensures keeps { Keeps work.old work.new }
    ensures locals { OnOk result
        (length work.new.locals.0 ≡ length work.old.locals.0 + lets_in row.now) }
    ensures shows { OnOk result (length work.new.shows.0 ≤ length work.old.shows.0 + 1) }
{
    match row {
        Step::Let { sum: terms, .. } => {
            let value = sum(shape, keys, work, terms.as_slice())?;
            bind(shape, work, value);
        }
        Step::Need { left, cmp, right } => {
            need(holds(shape, keys, work, left.as_slice(), *cmp, right.as_slice())?)?;
        }
        Step::Has { place } => need(has(shape, keys, work, *place))?,
        Step::Lacks { place } => need(!has(shape, keys, work, *place))?,
        Step::Set { place, sum: terms } => {
            let value = sum(shape, keys, work, terms.as_slice())?;
            write(shape, keys, work, *place, Cell::Present(value));
        }
        Step::SetWhen {
            place,
            sum: terms,
            left,
            cmp,
            right,
        } => {
            if holds(shape, keys, work, left.as_slice(), *cmp, right.as_slice())? {
                let value = sum(shape, keys, work, terms.as_slice())?;
                write(shape, keys, work, *place, Cell::Present(value));
            }
        }
        Step::Remove { place } => write(shape, keys, work, *place, Cell::Absent),
        Step::Show { sum: terms } => {
            let value = sum(shape, keys, work, terms.as_slice())?;
            work.shows.push(value);
        }
        Step::Fail => return Err(Reason::Fail),
    }
    Ok(())
}

/// Begins with the cells that the keys have, and with the values as the first locals.
fn begin(work: &mut Work, values: &[Value])
    requires room { IsRoomy work.old }
    requires few { length values.now ≤ most_stmts }
    requires cells { length work.old.cells.0 ≤ most_slots }
    ensures numbers { AllByRecursion IsNumber values.now }
    ensures locals { work.new.locals.0 ≡ values.now }
    ensures seen { work.new.seen.0 ≡ work.old.cells.0 }
    ensures cells { work.new.cells.0 ≡ work.old.cells.0 }
    ensures shows { work.new.shows.0 ≡ [] }
    ensures room { IsRoomy work.new }
{
    work.seen.copy_from(work.cells.as_slice());
    work.shows.clear();
    work.locals.clear();
    for value in values {
        // The call's contract says that the result is a 64-bit number.
        work.locals.push(Value::from(value.get()));
    }
}

/// Runs a call over the cells that its keys have. The error says why, and at which statement, it
/// fails: the bindings of the values come first.
pub(crate) fn run(call: &Call<'_>, work: &mut Work) -> Result<(), (Reason, u32)>
    requires call { IsCall call.now }
    requires cells { length work.old.cells.0 ≡ length call.now.keys.now }
    requires room { IsRoomy work.old }
    ensures outcome { let begin = start work.old.cells.0 work.old.cells.0 in
        MatchResult result
        (λ _. tables_from (txn_of call.now) begin 1 (txn_of call.now).body
        ≡ Ok (tables_of call.now.shape.now.locals.items work.new))
        (λ fault. tables_from (txn_of call.now) begin 1 (txn_of call.now).body ≡ Err fault) }
    ensures room { IsRoomy work.new }
{
    begin(work, call.values);
    let mut number = call.values.len() as u32;
    for row in call.shape.steps.iter() {
        number += 1;
        if let Err(reason) = perform(call.shape, call.keys, work, row) {
            return Err((reason, number));
        }
    }
    Ok(())
}
