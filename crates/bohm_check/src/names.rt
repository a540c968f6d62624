//! Sets of names, and whether a statement uses only these.

ghost use Rattle.std.specs.Prelude.{◌≡◌, ◌||◌, ℕ, Bool, List, not, IfOk, OnOk};
ghost use Rattle.std.specs.List.{list_all};
ghost use Rattle.std.specs.Str.{bytes_eq};
ghost use Rattle.bohm_types.specs.Keys.{some_passes};
ghost use Rattle.bohm_types.specs.Parts.{sums};
ghost use Rattle.bohm_types.specs.Stmt.{Stmt};
ghost use Rattle.bohm_types.specs.Term.{Atom};
ghost use Rattle.bohm_log.specs.Seeing.{atom_shown};
ghost use Rattle.bohm_txn.specs.Faulty.{is_unread, is_unwritten, is_misnamed};
ghost use Rattle.bohm_check.specs.Names.{has, reads_in, locals_in, Computes};
ghost use Rattle.bohm_check.specs.Names.{AreNamesOf, AreBoundBy};

use bohm_log::{AtomParts, Keys, StmtParts, StmtView, SumView};
use bohm_types::{Key, NoMemory};
use std::alloc::Global;
use std::collections::BTreeSet;

/// Whether a name is one of these. The time grows with the logarithm of their number.
pub fn has(names: &BTreeSet<Key>, name: &Key) -> bool
    ensures { result ≡ has names.now name.now }
{
    names.contains(name)
}

/// Adds a name unless it is there.
#[tactic(auto, using(crate::proofs::Named::inserted))]
pub fn add_name(names: &mut BTreeSet<Key>, name: Key) -> Result<(), NoMemory>
    ensures { OnOk result
        ((k : List ℕ) → has names.new k ≡ (has names.old k || bytes_eq name k)) }
{
    names.insert(name)?;
    Ok(())
}

/// The keys of a set, which may be in any order and repeated. The time grows with their number n as
/// n log n.
#[tactic(auto, using(crate::proofs::Named::none_yet))]
pub fn names_of(alloc: Global, keys: &Keys<'_>) -> Result<BTreeSet<Key>, NoMemory>
    ensures { IfOk result (AreNamesOf keys.now) }
{
    let mut names = BTreeSet::new(alloc);
    for place in 0..keys.len() {
        add_name(&mut names, *keys.key(place))?;
    }
    Ok(names)
}

/// Whether all sums of a statement pass.
fn all_sums<F: Fn(&SumView<'_>) -> bool>(stmt: &StmtView<'_>, passes: F) -> bool
    requires { F.IsAlwaysCallable passes }
    ensures { (p : List (Bool × Atom) → Bool) → Computes F.Fn p passes
        → result ≡ list_all p (sums stmt.now) }
{
    match stmt.parts() {
        StmtParts::Bind { sum, .. } => passes(&sum),
        StmtParts::Show(sum) => passes(&sum),
        StmtParts::Need(cond) => passes(&cond.left) && passes(&cond.right),
        StmtParts::Put { sum, guard, .. } => {
            passes(&sum)
                && match &guard {
                    Some(cond) => passes(&cond.left) && passes(&cond.right),
                    None => true,
                }
        }
        StmtParts::Has(_) | StmtParts::Lacks(_) | StmtParts::Remove(_) | StmtParts::Fail => true,
    }
}

/// Whether an atom, if it reads a key, reads one of these.
fn is_read_in(names: &BTreeSet<Key>, atom: AtomParts) -> bool
    ensures { result ≡ reads_in names.now (atom_shown atom) }
{
    match atom {
        AtomParts::Read(key) => has(names, &key),
        AtomParts::Lit(_) | AtomParts::Local(_) => true,
    }
}

/// Whether an atom, if it reads a local, reads one of these.
fn is_local_in(names: &BTreeSet<Key>, atom: AtomParts) -> bool
    ensures { result ≡ locals_in names.now (atom_shown atom) }
{
    match atom {
        AtomParts::Local(name) => has(names, &name),
        AtomParts::Lit(_) | AtomParts::Read(_) => true,
    }
}

/// Whether a sum reads only these keys.
fn are_read_in(names: &BTreeSet<Key>, sum: &SumView<'_>) -> bool
    ensures { result ≡ list_all (λ term. reads_in names.now term.1) sum.now }
{
    for index in 0..sum.len() {
        if !is_read_in(names, sum.term(index).atom) {
            return false;
        }
    }
    true
}

/// Whether a sum reads only these locals.
fn are_locals_in(names: &BTreeSet<Key>, sum: &SumView<'_>) -> bool
    ensures { result ≡ list_all (λ term. locals_in names.now term.1) sum.now }
{
    for index in 0..sum.len() {
        if !is_local_in(names, sum.term(index).atom) {
            return false;
        }
    }
    true
}

/// Whether there is a name, and it is one of these.
fn has_some(names: &BTreeSet<Key>, name: Option<Key>) -> bool
    ensures { result ≡ some_passes (has names.now) name }
{
    match name {
        Some(name) => has(names, &name),
        None => false,
    }
}

/// Whether there is a name, and it isn't one of these.
fn lacks_some(names: &BTreeSet<Key>, name: Option<Key>) -> bool
    ensures { result ≡ some_passes (λ k. not (has names.now k)) name }
{
    match name {
        Some(name) => !has(names, &name),
        None => false,
    }
}

/// Whether the statement reads or tests a key that isn't one of these. The time grows with the
/// number of its terms.
#[tactic(auto, using(crate::proofs::Named::unread_by))]
pub fn is_unread(reads: &BTreeSet<Key>, stmt: &StmtView<'_>) -> bool
    ensures { (keys : List (List ℕ)) → AreNamesOf keys reads.now
        → result ≡ is_unread keys stmt.now }
{
    !all_sums(stmt, |sum| are_read_in(reads, sum)) || lacks_some(reads, stmt.tested())
}

/// Whether the statement writes a key that isn't one of these.
#[tactic(auto, using(crate::proofs::Named::unwritten_by))]
pub fn is_unwritten(writes: &BTreeSet<Key>, stmt: &StmtView<'_>) -> bool
    ensures { (keys : List (List ℕ)) → AreNamesOf keys writes.now
        → result ≡ is_unwritten keys stmt.now }
{
    lacks_some(writes, stmt.target())
}

/// Whether the statement reads a local that isn't one of these bound ones, or binds one of them
/// again. The time grows with the number of its terms.
#[tactic(auto, using(crate::proofs::Named::misnamed_by))]
pub fn is_misnamed(bound: &BTreeSet<Key>, stmt: &StmtView<'_>) -> bool
    ensures { (before : List Stmt) → AreBoundBy before bound.now
        → result ≡ is_misnamed before stmt.now }
{
    !all_sums(stmt, |sum| are_locals_in(bound, sum)) || has_some(bound, stmt.bound())
}
