//! Whether a shape can be run, tested when it is made.

ghost use Rattle.std.specs.Prelude.{◌≡◌, ◌≤◌, length, true};
ghost use Rattle.bohm_types.specs.Keys.{is_among};
ghost use Rattle.bohm_shapes.specs.Apart.{all_apart};
ghost use Rattle.bohm_shapes.specs.Running.{IsUsable, StepIn, StepsIn, SumIn, TermIn, lets_in};

use crate::registers::MOST_SLOTS;
use crate::shape::{Shape, Step, Term};
use bohm_types::{Key, MOST_STMTS, MOST_TERMS};

fn is_term_in(keys: usize, bound: usize, term: Term) -> bool
    ensures { result ≡ true → TermIn keys bound term }
{
    match term {
        Term::Number(_) => true,
        Term::Slot { place, .. } => place < keys,
        Term::Local { place, .. } => place < bound,
    }
}

/// Whether a sum has at most 16 terms, whose indices are below the numbers of keys and of locals
/// that are bound.
fn is_sum_in(keys: usize, bound: usize, terms: &[Term]) -> bool
    ensures { result ≡ true → SumIn keys bound terms.now }
{
    for term in terms {
        if !is_term_in(keys, bound, *term) {
            return false;
        }
    }
    terms.len() <= MOST_TERMS as usize
}

fn is_step_in(locals: &[Key], keys: usize, bound: usize, step: &Step) -> bool
    ensures { result ≡ true → StepIn locals.now keys bound step.now }
{
    match step {
        Step::Let { place, sum } => {
            *place == bound && bound < locals.len() && is_sum_in(keys, bound, sum.as_slice())
        }
        Step::Need { left, right, .. } => {
            is_sum_in(keys, bound, left.as_slice()) && is_sum_in(keys, bound, right.as_slice())
        }
        Step::Has { place } => *place < keys,
        Step::Lacks { place } => *place < keys,
        Step::Set { place, sum } => *place < keys && is_sum_in(keys, bound, sum.as_slice()),
        Step::SetWhen {
            place,
            sum,
            left,
            right,
            ..
        } => {
            *place < keys
                && is_sum_in(keys, bound, sum.as_slice())
                && is_sum_in(keys, bound, left.as_slice())
                && is_sum_in(keys, bound, right.as_slice())
        }
        Step::Remove { place } => *place < keys,
        Step::Show { sum } => is_sum_in(keys, bound, sum.as_slice()),
        Step::Fail => true,
    }
}

/// How many locals a statement binds.
fn lets_in(step: &Step) -> usize
    ensures count { result ≡ lets_in step.now }
    ensures one { result ≤ 1 }
{
    match step {
        Step::Let { .. } => 1,
        _ => 0,
    }
}

/// Whether the indices of statements are within the lists, if so many locals are bound before.
fn are_steps_in(locals: &[Key], keys: usize, bound: usize, steps: &[Step]) -> bool
    requires { bound ≤ length locals.now }
    ensures { result ≡ true → StepsIn locals.now keys bound steps.now }
{
    match steps {
        [] => true,
        [first, others @ ..] => {
            if !is_step_in(locals, keys, bound, first) {
                return false;
            }
            let next = bound + lets_in(first);
            next <= locals.len() && are_steps_in(locals, keys, next, others)
        }
    }
}

/// Whether a name is among others.
fn is_among(names: &[Key], name: &Key) -> bool
    ensures { result ≡ is_among names.now name.now }
{
    names.iter().any(|other| *other == *name)
}

/// Whether no name occurs twice.
fn are_apart(names: &[Key]) -> bool
    ensures { result ≡ all_apart names.now }
{
    match names {
        [] => true,
        [first, others @ ..] => !is_among(others, first) && are_apart(others),
    }
}

/// Whether all indices of a shape are within its lists, each local is bound once and before it is
/// used, and its parts are within the limits of a transaction.
pub(crate) fn is_usable(shape: &Shape) -> bool
    ensures { result ≡ true → IsUsable shape.now }
{
    let locals = shape.locals.as_slice();
    shape.values <= locals.len()
        && shape.names.len() <= MOST_SLOTS
        && shape.writes <= shape.names.len()
        && shape.values <= MOST_STMTS
        && shape.steps.len() <= MOST_STMTS - shape.values
        && are_apart(locals)
        && are_steps_in(
            locals,
            shape.names.len(),
            shape.values,
            shape.steps.as_slice(),
        )
}
