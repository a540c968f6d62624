//! A crash, and opening again.

ghost use Rattle.std.specs.Prelude.{◌≡◌, ◌⊎◌, ◌++◌, ◌≤◌, ℕ, List, [], ◌∷◌, IfSome, IsTrue};
ghost use Rattle.sqlite_trees.specs.View.{doubt, IsClean};
ghost use Rattle.bohm_types.specs.declared.edition.Edition.{Edition as TheEdition};
ghost use Rattle.bohm_ledger.specs.Ledgers.{IsReady, StandsFor};

use crate::ledger::Ledger;
use crate::machine::Machine;
use sqlite_trees::store::Reopen;
use std::alloc::Global;

/// Crashes, opens the files again, and the ledger in them. `None` if a store doesn't open again.
pub fn restart<S: Reopen + Drop, M: Machine + Drop>(
    alloc: Global,
    mut store: S,
    machine: M,
) -> Option<Ledger<S, M>>
    ensures clean { IfSome result (λ it. doubt (S.Store.view store).is_clean ≤ doubt (S.Store.view it.store).is_clean) }
    ensures found { IfSome result (λ it. IsClean (S.Store.view it.store) → S.Store.recovers store (S.Store.view it.store).trees) }
    ensures ready { IfSome result (λ it. IsClean (S.Store.view it.store) → (edition : TheEdition) (bs : List (List ℕ))
        → StandsFor M.rules edition bs (S.Store.view it.store).trees → (it.edition ≡ edition)
        × IsReady M.rules edition bs (S.Store.view it.store) it.place it.checkpoint (M.state it.machine) (M.saved it.machine)) }
{
    if store.crash_and_reopen().is_err() {
        return None;
    }
    match Ledger::open(alloc, store, machine) {
        Ok(ledger) => Some(ledger),
        Err(_) => None,
    }
}
