//! The terms of a statement, in the order of its line.

use bohm_log::{AtomParts, CondView, StmtParts, StmtView, SumView};
use bohm_types::{Key, NoMemory};
use std::alloc::Global;

/// An atom, and the index, counted from 0, of its word on the statement's line.
#[derive(Clone, Copy)]
pub struct PlacedAtom {
    pub atom: AtomParts,
    pub word: usize,
}

/// The key that an atom reads.
pub fn key_read(atom: AtomParts) -> Option<Key> {
    match atom {
        AtomParts::Read(name) => Some(name),
        AtomParts::Lit(_) | AtomParts::Local(_) => None,
    }
}

/// The local that an atom reads.
pub fn local_read(atom: AtomParts) -> Option<Key> {
    match atom {
        AtomParts::Local(name) => Some(name),
        AtomParts::Lit(_) | AtomParts::Read(_) => None,
    }
}

/// Adds the atoms of a sum whose first word has an index, and returns the index of the first word
/// of a sum after it: one word is between two terms, and between two sums.
fn add_sum(
    atoms: &mut Vec<PlacedAtom>,
    sum: &SumView<'_>,
    first: usize,
) -> Result<usize, NoMemory> {
    let mut word = first;
    for index in 0..sum.len() {
        let atom = sum.term(index).atom;
        atoms.push(PlacedAtom { atom, word })?;
        word = word.saturating_add(2);
    }
    Ok(word)
}

fn add_cond(
    atoms: &mut Vec<PlacedAtom>,
    cond: &CondView<'_>,
    first: usize,
) -> Result<(), NoMemory> {
    let second = add_sum(atoms, &cond.left, first)?;
    add_sum(atoms, &cond.right, second)?;
    Ok(())
}

/// The atoms of all sums of a statement.
pub fn atoms_of(alloc: Global, stmt: &StmtView<'_>) -> Result<Vec<PlacedAtom>, NoMemory> {
    let mut atoms = Vec::new(alloc);
    match stmt.parts() {
        StmtParts::Bind { sum, .. } => {
            add_sum(&mut atoms, &sum, 3)?;
        }
        StmtParts::Put { sum, guard, .. } => {
            let second = add_sum(&mut atoms, &sum, 3)?;
            if let Some(cond) = guard {
                add_cond(&mut atoms, &cond, second)?;
            }
        }
        StmtParts::Need(cond) => add_cond(&mut atoms, &cond, 1)?,
        StmtParts::Show(sum) => {
            add_sum(&mut atoms, &sum, 1)?;
        }
        StmtParts::Has(_) | StmtParts::Lacks(_) | StmtParts::Remove(_) | StmtParts::Fail => {}
    }
    Ok(atoms)
}

/// The number of a sum's terms, if it is above a limit.
fn length_above(most: usize, sum: &SumView<'_>) -> Option<usize> {
    if sum.len() > most {
        Some(sum.len())
    } else {
        None
    }
}

fn either_above(most: usize, cond: &CondView<'_>) -> Option<usize> {
    length_above(most, &cond.left).or(length_above(most, &cond.right))
}

/// The number of terms of a statement's first sum that exceeds a limit.
pub fn long_sum(stmt: &StmtView<'_>, most: usize) -> Option<usize> {
    match stmt.parts() {
        StmtParts::Bind { sum, .. } => length_above(most, &sum),
        StmtParts::Show(sum) => length_above(most, &sum),
        StmtParts::Need(cond) => either_above(most, &cond),
        StmtParts::Put { sum, guard, .. } => {
            let in_guard = match &guard {
                Some(cond) => either_above(most, cond),
                None => None,
            };
            length_above(most, &sum).or(in_guard)
        }
        StmtParts::Has(_) | StmtParts::Lacks(_) | StmtParts::Remove(_) | StmtParts::Fail => None,
    }
}
