//! Weights of transactions.

ghost use Rattle.std.specs.Prelude.{◌≡◌, ◌≤◌, ◌*◌, All, length, replicate, sum_by, IfOk};
ghost use Rattle.bohm_place.specs.Shares.{AreWellFormed};
ghost use Rattle.bohm_txn.specs.Declares.{AllShort, IsUsable};
ghost use Rattle.bohm_explain.specs.Weighing.{terms_in, weight, weights, declared_by};
ghost use Rattle.bohm_types.specs.Limits.{largest_batch, most_keys, most_terms};
ghost use Rattle.bohm_explain.specs.Heaviest.{greatest_weight};

use bohm_log::{LogPart, StmtParts, StmtView, TxnView};
use bohm_types::NoMemory;
use std::alloc::Global;

/// The number of terms in a statement.
fn terms_in(stmt: &StmtView<'_>) -> u32
    requires { AllShort stmt.now }
    ensures terms { result ≡ terms_in stmt.now }
    ensures few { result ≤ 3 * most_terms }
{
    match stmt.parts() {
        StmtParts::Bind { sum, .. } | StmtParts::Show(sum) => sum.len() as u32,
        StmtParts::Need(cond) => cond.left.len() as u32 + cond.right.len() as u32,
        StmtParts::Put { sum, guard, .. } => match guard {
            Some(cond) => sum.len() as u32 + cond.left.len() as u32 + cond.right.len() as u32,
            None => sum.len() as u32,
        },
        StmtParts::Has(_) | StmtParts::Lacks(_) | StmtParts::Remove(_) | StmtParts::Fail => 0,
    }
}

/// The number of terms of a transaction's body, or 1 if it has none.
pub fn weight(txn: &TxnView<'_>) -> u32
    requires { IsUsable txn.now }
    ensures weight { result ≡ weight txn.now }
    ensures light { result ≤ greatest_weight }
{
    let mut terms = 0;
    for index in 0..txn.body_len() {
        terms += terms_in(&txn.stmt(index));
    }
    terms.max(1)
}

/// The weight of each transaction.
pub fn weights(alloc: Global, txns: &LogPart<'_>) -> Result<Vec<u32>, NoMemory>
    requires formed { AreWellFormed txns.now }
    ensures weights { IfOk result (λ v. v.items ≡ weights txns.now) }
    ensures paired { IfOk result (λ v. length v.items ≡ length txns.now) }
    ensures light { IfOk result (λ v. All (λ w. w ≤ greatest_weight) v.items) }
{
    let mut weights = Vec::with_capacity(alloc, txns.len())?;
    for index in 0..txns.len() {
        weights.push(weight(&txns.txn(index)))?;
    }
    Ok(weights)
}

/// Weights of 1 for `count` transactions.
pub fn alike(alloc: Global, count: usize) -> Result<Vec<u32>, NoMemory>
    ensures weights { IfOk result (λ v. v.items ≡ replicate count 1) }
    ensures paired { IfOk result (λ v. length v.items ≡ count) }
    ensures light { IfOk result (λ v. All (λ w. w ≤ greatest_weight) v.items) }
{
    let mut weights = Vec::with_capacity(alloc, count)?;
    for index in 0..count {
        // Only the loop's invariant needs the index.
        let _ = index;
        weights.push(1)?;
    }
    Ok(weights)
}

/// The number of keys that a transaction declares.
pub fn declared_by(txn: &TxnView<'_>) -> u32
    requires { IsUsable txn.now }
    ensures keys { result ≡ declared_by txn.now }
    ensures few { result ≤ 2 * most_keys }
{
    (txn.reads().len() + txn.writes().len()) as u32
}

/// The number of keys that the transactions declare; a key that a transaction both reads and writes
/// counts twice.
pub fn declared(txns: &LogPart<'_>) -> u32
    requires formed { AreWellFormed txns.now }
    requires few { length txns.now ≤ largest_batch }
    ensures { result ≡ sum_by declared_by txns.now }
{
    let mut keys = 0;
    for index in 0..txns.len() {
        keys += declared_by(&txns.txn(index));
    }
    keys
}
