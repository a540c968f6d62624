//! Laws over the definitions alone. No call uses them.

ghost use Rattle.std.specs.Prelude.{ℕ, ◌≤◌, ◌++◌, List};
ghost use Rattle.bohm_types.specs.Txn.{Txn};
ghost use Rattle.bohm_txn.specs.declared.outcome.Reply.{Reply};
ghost use Rattle.bohm_store.specs.Versions.{Timeline};
ghost use Rattle.bohm_apply.specs.Runs.{IsApplied};

/// If some transactions are applied to a history and then others to the result, all of them are
/// applied to it, one after another, and the replies are those of both, in this order.
pub fn applied_twice()
    ensures { (was mid now : Timeline) (xs ys : List Txn) (keep : ℕ) (a b : List Reply)
        → was.floor ≤ was.top → IsApplied was mid xs keep a → IsApplied mid now ys keep b
        → IsApplied was now (xs ++ ys) keep (a ++ b) }
{}
