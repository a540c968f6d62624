//! The keys that a body reads, and those that it writes.

ghost use Rattle.std.specs.Prelude.{◌≡◌, ◌++◌, IfOk};
ghost use Rattle.bohm_log.specs.Seeing.{atom_shown, cond_shown, guard_shown};
ghost use Rattle.bohm_types.specs.Parts.{key_read, guard_sums};
ghost use Rattle.std.specs.List.{flat_map};
ghost use Rattle.bohm_tidy.specs.Settled.{the_key, sum_reads, stmt_reads, body_reads, body_writes};

use bohm_log::{AtomParts, CondView, StmtParts, StmtView, SumView, TxnView};
use bohm_types::{Key, NoMemory};

fn add_atom(keys: &mut Vec<Key>, atom: AtomParts) -> Result<(), NoMemory>
    ensures { IfOk result
        (λ _. keys.new.items ≡ keys.old.items ++ the_key (key_read (atom_shown atom))) }
{
    match atom {
        AtomParts::Read(key) => keys.push(key)?,
        AtomParts::Lit(_) | AtomParts::Local(_) => {}
    }
    Ok(())
}

fn add_sum(keys: &mut Vec<Key>, sum: &SumView<'_>) -> Result<(), NoMemory>
    ensures { IfOk result (λ _. keys.new.items ≡ keys.old.items ++ sum_reads sum.now) }
{
    for index in 0..sum.len() {
        add_atom(keys, sum.term(index).atom)?;
    }
    Ok(())
}

fn add_guard(keys: &mut Vec<Key>, guard: &Option<CondView<'_>>) -> Result<(), NoMemory>
    ensures { IfOk result (λ _. keys.new.items
        ≡ keys.old.items ++ flat_map sum_reads (guard_sums (guard_shown guard.now))) }
{
    if let Some(cond) = guard {
        add_sum(keys, &cond.left)?;
        add_sum(keys, &cond.right)?;
    }
    Ok(())
}

fn add_stmt(keys: &mut Vec<Key>, stmt: &StmtView<'_>) -> Result<(), NoMemory>
    ensures { IfOk result (λ _. keys.new.items ≡ keys.old.items ++ stmt_reads stmt.now) }
{
    match stmt.parts() {
        StmtParts::Bind { sum, .. } => add_sum(keys, &sum)?,
        StmtParts::Need(cond) => {
            add_sum(keys, &cond.left)?;
            add_sum(keys, &cond.right)?;
        }
        StmtParts::Has(key) => keys.push(key)?,
        StmtParts::Lacks(key) => keys.push(key)?,
        StmtParts::Put { sum, guard, .. } => {
            add_sum(keys, &sum)?;
            add_guard(keys, &guard)?;
        }
        StmtParts::Remove(_) => {}
        StmtParts::Show(sum) => add_sum(keys, &sum)?,
        StmtParts::Fail => {}
    }
    Ok(())
}

fn add_target(keys: &mut Vec<Key>, target: Option<Key>) -> Result<(), NoMemory>
    ensures { IfOk result (λ _. keys.new.items ≡ keys.old.items ++ the_key target) }
{
    if let Some(key) = target {
        keys.push(key)?;
    }
    Ok(())
}

/// Appends the keys that the transaction's body reads or tests, once for each read or test.
pub fn add_body_reads(keys: &mut Vec<Key>, txn: &TxnView<'_>) -> Result<(), NoMemory>
    ensures { IfOk result (λ _. keys.new.items ≡ keys.old.items ++ body_reads txn.now.body) }
{
    for index in 0..txn.body_len() {
        add_stmt(keys, &txn.stmt(index))?;
    }
    Ok(())
}

/// Appends the keys that the transaction's body writes, once for each write.
pub fn add_body_writes(keys: &mut Vec<Key>, txn: &TxnView<'_>) -> Result<(), NoMemory>
    ensures { IfOk result (λ _. keys.new.items ≡ keys.old.items ++ body_writes txn.now.body) }
{
    for index in 0..txn.body_len() {
        add_target(keys, txn.stmt(index).target())?;
    }
    Ok(())
}
