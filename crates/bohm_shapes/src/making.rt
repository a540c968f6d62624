//! Makes the shape of a procedure from its own instance.

ghost use Rattle.std.specs.Prelude.{◌≡◌, ◌<◌, ◌≤◌, ◌++◌, ◌∷◌, [], ℕ, List, drop, length, map, take};
ghost use Rattle.std.specs.Prelude.{IfOk, IfSome, OnOk, true};
ghost use Rattle.std.specs.List.{All, AllByRecursion};
ghost use Rattle.bohm_types.specs.Term.{Lit};
ghost use Rattle.bohm_types.specs.Procedure.{procedure_with};
ghost use Rattle.bohm_log.specs.Parts.{RowIn, TermIn, name_at, stmt_of, sum_between, term_of};
ghost use Rattle.bohm_log.specs.Parts.{txn_of, KeyIn, key_at};
ghost use Rattle.bohm_shapes.specs.Filled.{number_term, stmt_filled, steps_filled, sum_filled};
ghost use Rattle.bohm_shapes.specs.Filled.{term_filled};
ghost use Rattle.bohm_log.specs.Parts.{Begins};
ghost use Rattle.bohm_shapes.specs.Made.{IsLike};
ghost use Rattle.bohm_shapes.specs.Running.{IsUsable};

use crate::shape::{Shape, Step, Term};
use crate::usable::is_usable;
use bohm_log::{Action, AtomKind, IndexedTxn, Keys, StmtRow, TermRow, TxnView};
use bohm_types::{GREATEST_LITERAL, Key};
use std::alloc::{AllocError, AllocFailed, Global};

/// Why no shape is made.
#[derive(Clone, Copy, Debug, PartialEq, Eq)]
pub enum ShapeFault {
    /// The transaction has a name that it doesn't declare, or isn't well formed otherwise.
    Unsound,
    /// An allocation failed.
    NoMemory,
}

impl From<AllocError> for ShapeFault {
    fn from(_e: AllocError) -> ShapeFault {
        ShapeFault::NoMemory
    }
}

impl<T: Drop> From<AllocFailed<T>> for ShapeFault {
    fn from(_e: AllocFailed<T>) -> ShapeFault {
        ShapeFault::NoMemory
    }
}

/// The names of keys and locals, by the order of their first use.
#[derive(Clone, Copy)]
struct Names<'a> {
    txn: &'a IndexedTxn<'a>,
    reads: &'a Keys<'a>,
    writes: &'a Keys<'a>,
    keys: &'a [Key],
    locals: &'a [Key],
    ghost same_reads: { reads.now ≡ txn.now.reads },
    ghost same_writes: { writes.now ≡ txn.now.writes },
}

/// The index of a name among others.
#[tactic(auto, using(crate::proofs::Slots::found))]
fn slot_of(names: &[Key], name: &Key) -> Result<usize, ShapeFault>
    ensures { IfOk result (λ i. name_at names.now i ≡ name.now) }
{
    name.place_among(names).ok_or(ShapeFault::Unsound)
}

/// The number of a literal with its sign: 0 has no minus.
fn signed_literal(minus: bool, literal: u64) -> Result<i64, ShapeFault>
    ensures { IfOk result (λ v. number_term v ≡ (minus, Lit literal)) }
{
    if literal > GREATEST_LITERAL {
        return Err(ShapeFault::Unsound);
    }
    if !minus {
        return Ok(literal as i64);
    }
    if literal == 0 {
        return Err(ShapeFault::Unsound);
    }
    Ok(-1 - (literal - 1) as i64)
}

impl Names<'_> {
    /// The index of a declared read.
    fn read(&self, place: u32) -> Result<usize, ShapeFault>
        requires { place < length self.now.reads.now }
        ensures { IfOk result (λ i. name_at self.now.keys.now i ≡ name_at self.now.txn.now.reads place) }
    {
        slot_of(self.keys, self.reads.key(place as usize))
    }

    /// The index of the key that a statement tests.
    fn tested(&self, row: &StmtRow) -> Result<usize, ShapeFault>
        requires { KeyIn self.now.txn.now.reads self.now.txn.now.others row.now.declared row.now.name }
        ensures { IfOk result (λ i. name_at self.now.keys.now i
            ≡ key_at self.now.txn.now.reads self.now.txn.now.others row.now.declared row.now.name) }
    {
        if !row.declared {
            return Err(ShapeFault::Unsound);
        }
        self.read(row.name)
    }

    /// The index of the key that a statement writes.
    fn target(&self, row: &StmtRow) -> Result<usize, ShapeFault>
        requires { KeyIn self.now.txn.now.writes self.now.txn.now.others row.now.declared row.now.name }
        ensures { IfOk result (λ i. name_at self.now.keys.now i
            ≡ key_at self.now.txn.now.writes self.now.txn.now.others row.now.declared row.now.name) }
    {
        if !row.declared {
            return Err(ShapeFault::Unsound);
        }
        slot_of(self.keys, self.writes.key(row.name as usize))
    }

    /// The index of a local.
    fn local(&self, place: u32) -> Result<usize, ShapeFault>
        requires { place < length self.now.txn.now.others }
        ensures { IfOk result (λ i. name_at self.now.locals.now i ≡ name_at self.now.txn.now.others place) }
    {
        slot_of(self.locals, &self.txn.others()[place as usize])
    }

    fn term(&self, row: &TermRow) -> Result<Term, ShapeFault>
        requires { TermIn self.now.txn.now row.now }
        ensures { IfOk result (λ t. term_filled self.now.locals.now self.now.keys.now t
            ≡ term_of self.now.txn.now row.now) }
    {
        let minus = row.minus;
        Ok(match row.kind {
            AtomKind::Small => Term::Number(signed_literal(minus, u64::from(row.place))?),
            AtomKind::Large => {
                let literal = self.txn.large()[row.place as usize];
                Term::Number(signed_literal(minus, literal)?)
            }
            AtomKind::Read => Term::Slot {
                minus,
                place: self.read(row.place)?,
            },
            AtomKind::Unread => return Err(ShapeFault::Unsound),
            AtomKind::Local => Term::Local {
                minus,
                place: self.local(row.place)?,
            },
        })
    }

    /// The sum of the terms between two offsets.
    fn sum(&self, alloc: Global, from: u32, to: u32) -> Result<Vec<Term>, ShapeFault>
        requires rises { from ≤ to }
        requires end { to ≤ length self.now.txn.now.terms }
        ensures { IfOk result (λ v. sum_filled self.now.locals.now self.now.keys.now v.items
            ≡ sum_between self.now.txn.now from to) }
    {
        let mut sum = Vec::new(alloc);
        for row in self.txn.terms(from, to) {
            let term = self.term(row)?;
            sum.push(term)?;
        }
        Ok(sum)
    }

    fn step(&self, alloc: Global, row: &StmtRow) -> Result<Step, ShapeFault>
        requires { RowIn self.now.txn.now row.now }
        ensures { IfOk result (λ s. stmt_filled self.now.locals.now self.now.keys.now s
            ≡ stmt_of self.now.txn.now row.now) }
    {
        let (start, first, second, third) = (row.start, row.first, row.second, row.third);
        Ok(match row.action {
            Action::Bind => Step::Let {
                place: self.local(row.name)?,
                sum: self.sum(alloc, start, first)?,
            },
            Action::Need(cmp) => Step::Need {
                left: self.sum(alloc, start, first)?,
                cmp,
                right: self.sum(alloc, first, second)?,
            },
            Action::Has => Step::Has {
                place: self.tested(row)?,
            },
            Action::Lacks => Step::Lacks {
                place: self.tested(row)?,
            },
            Action::Put => Step::Set {
                place: self.target(row)?,
                sum: self.sum(alloc, start, first)?,
            },
            Action::PutWhen(cmp) => Step::SetWhen {
                place: self.target(row)?,
                sum: self.sum(alloc, start, first)?,
                left: self.sum(alloc, first, second)?,
                cmp,
                right: self.sum(alloc, second, third)?,
            },
            Action::Remove => Step::Remove {
                place: self.target(row)?,
            },
            Action::Show => Step::Show {
                sum: self.sum(alloc, start, first)?,
            },
            Action::Fail => Step::Fail,
        })
    }

    /// The statements.
    fn steps(&self, alloc: Global, rows: &[StmtRow]) -> Result<Vec<Step>, ShapeFault>
        requires { All (RowIn self.now.txn.now) rows.now }
        ensures { IfOk result (λ v. map (stmt_filled self.now.locals.now self.now.keys.now) v.items
            ≡ map (stmt_of self.now.txn.now) rows.now) }
    {
        let mut steps = Vec::new(alloc);
        for row in rows {
            let step = self.step(alloc, row)?;
            steps.push(step)?;
        }
        Ok(steps)
    }
}

/// Appends a name, unless it is among the names.
fn add_name(names: &mut Vec<Key>, name: &Key) -> Result<(), ShapeFault>
    ensures { OnOk result (Begins names.old.items names.new.items) }
{
    if name.place_among(names).is_none() {
        names.push(*name)?;
    }
    Ok(())
}

/// The names that are declared to be written, in their order.
fn written_names(alloc: Global, writes: &Keys<'_>) -> Result<Vec<Key>, ShapeFault>
    ensures { IfOk result (λ v. v.items ≡ writes.now) }
{
    let mut names = Vec::new(alloc);
    for place in 0..writes.len() {
        names.push(*writes.key(place))?;
    }
    Ok(names)
}

/// The names that are declared to be written, and then those that are only read.
fn declared_names(
    alloc: Global,
    reads: &Keys<'_>,
    writes: &Keys<'_>,
) -> Result<Vec<Key>, ShapeFault>
    ensures { IfOk result (λ v. Begins writes.now v.items) }
{
    let mut names = written_names(alloc, writes)?;
    for place in 0..reads.len() {
        add_name(&mut names, reads.key(place))?;
    }
    Ok(names)
}

/// The name that a statement binds is added to the locals.
fn add_local(locals: &mut Vec<Key>, txn: &IndexedTxn<'_>, row: &StmtRow) -> Result<(), ShapeFault>
    requires { RowIn txn.now row.now }
    ensures { OnOk result (Begins locals.old.items locals.new.items) }
{
    if let Action::Bind = row.action {
        locals.push(txn.others()[row.name as usize])?;
    }
    Ok(())
}

/// The names of the values, and of the locals that the statements bind.
fn bound_names(
    alloc: Global,
    values: &[Key],
    txn: &IndexedTxn<'_>,
    rows: &[StmtRow],
) -> Result<Vec<Key>, ShapeFault>
    requires { All (RowIn txn.now) rows.now }
    ensures { IfOk result (λ v. take (length values.now) v.items ≡ values.now) }
{
    let mut locals = Vec::from_slice(alloc, values)?;
    for row in rows {
        add_local(&mut locals, txn, row)?;
    }
    Ok(locals)
}

/// The shape whose statements are those of the transaction behind the bindings of the values.
fn shape_of(
    alloc: Global,
    txn: &TxnView<'_>,
    placed: &IndexedTxn<'_>,
    values: &[Key],
) -> Result<Shape, ShapeFault>
    requires { txn_of txn.now.edition placed.now ≡ txn.now }
    ensures { IfOk result (λ s. (keys : List (List ℕ))
        → IsLike (procedure_with txn.now keys values.now) s) }
{
    let (reads, writes) = (txn.reads(), txn.writes());
    let rows = placed.rows();
    if rows.len() < values.len() {
        return Err(ShapeFault::Unsound);
    }
    let rows = &rows[values.len()..];
    let keys = declared_names(alloc, &reads, &writes)?;
    let locals = bound_names(alloc, values, placed, rows)?;
    let names = Names {
        txn: placed,
        reads: &reads,
        writes: &writes,
        keys: keys.as_slice(),
        locals: locals.as_slice(),
    };
    let steps = names.steps(alloc, rows)?;
    Ok(Shape {
        edition: txn.edition(),
        names: keys,
        writes: writes.len(),
        values: values.len(),
        locals,
        steps,
    })
}

/// The shape of the procedure whose own instance is this transaction, which begins with a binding
/// for each value. It is `Unsound` if the transaction isn't a well-formed one. The time grows with
/// its terms times the number of its names.
pub fn make_shape(alloc: Global, txn: &TxnView<'_>, values: &[Key]) -> Result<Shape, ShapeFault>
    ensures like { IfOk result (λ s. (keys : List (List ℕ))
        → IsLike (procedure_with txn.now keys values.now) s) }
    ensures usable { IfOk result IsUsable }
{
    let placed = txn.placed();
    let shape = shape_of(alloc, txn, &placed, values)?;
    if !is_usable(&shape) {
        return Err(ShapeFault::Unsound);
    }
    Ok(shape)
}
