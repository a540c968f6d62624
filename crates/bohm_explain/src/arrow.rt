//! Arrows: which transaction wants which one's version.

ghost use Rattle.std.specs.Prelude.{◌≡◌, ◌+◌, ◌*◌, ◌++◌, ◌<◌, ◌≤◌, ◌^◌, All, length, IfOk};
ghost use Rattle.bohm_place.specs.Plans.{IsRightPlan};
ghost use Rattle.bohm_place.specs.Shares.{AreWellFormed};
ghost use Rattle.bohm_explain.specs.Heaviest.{IsInside};
ghost use Rattle.bohm_explain.specs.Wanted.{arrows, arrows_in};
ghost use Rattle.bohm_types.specs.Limits.{largest_batch, most_keys};

use bohm_log::LogPart;
use bohm_place::{DeclaredSet, Plan, Source};
use bohm_txn::sure;
use bohm_types::{Key, NoMemory};
use std::alloc::Global;

/// The transaction at `to` wants the version of the key that the transaction at `from` produces.
/// Both are positions in their part, counted from 0.
#[derive(Clone, Copy, Debug, PartialEq, Eq)]
pub struct Arrow {
    pub from: u32,
    pub to: u32,
    pub key: Key,
}

/// Adds the arrows for the keys of one declared set of the transaction at a position.
fn put_arrows(
    out: &mut Vec<Arrow>,
    plan: &Plan,
    txns: &LogPart<'_>,
    to: u32,
    set: DeclaredSet,
) -> Result<(), NoMemory>
    requires right { IsRightPlan txns.now plan.now }
    requires formed { AreWellFormed txns.now }
    requires room { plan.now.first + length txns.now ≤ 2 ^ 32 }
    requires inside { to < length txns.now }
    ensures arrows { IfOk result (λ _. out.new.items ≡ out.old.items ++ arrows_in set txns.now to) }
    ensures few { IfOk result (λ _. length out.new.items ≤ length out.old.items + most_keys) }
{
    let first = plan.first();
    let keys = set.keys(&txns.txn(to as usize));
    for index in 0..keys.len() {
        let key = *keys.key(index);
        let access = plan.access(set, first + to, index as u32);
        match access.source {
            Source::Before => {}
            Source::Within(u) => {
                let from = u - first;
                out.push(Arrow { from, to, key })?;
            }
        }
    }
    Ok(())
}

/// The versions of the part that its transactions want, in log order: those of their reads and,
/// unless they are sure, those that their writes replace. The time grows with the number of
/// declared keys.
pub fn wanted(alloc: Global, plan: &Plan, txns: &LogPart<'_>) -> Result<Vec<Arrow>, NoMemory>
    requires few { length txns.now ≤ largest_batch }
    requires right { IsRightPlan txns.now plan.now }
    requires formed { AreWellFormed txns.now }
    requires room { plan.now.first + length txns.now ≤ 2 ^ 32 }
    ensures arrows { IfOk result (λ v. v.items ≡ arrows txns.now) }
    ensures inside { IfOk result (λ v. All (IsInside (length txns.now)) v.items) }
    ensures few { IfOk result (λ v. length v.items ≤ 32 * length txns.now) }
{
    let mut out = Vec::new(alloc);
    for to in 0..txns.len() as u32 {
        put_arrows(&mut out, plan, txns, to, DeclaredSet::Reads)?;
        if !sure(&txns.txn(to as usize)) {
            put_arrows(&mut out, plan, txns, to, DeclaredSet::Writes)?;
        }
    }
    Ok(out)
}
