//! Laws of procedures. No code calls them.

ghost use Rattle.std.specs.Prelude.{◌≡◌, ℕ, ℤ, pos, List, length, map, true};
ghost use Rattle.bohm_types.specs.Keys.{rising};
ghost use Rattle.std.specs.List.{AllByRecursion};
ghost use Rattle.bohm_types.specs.Sound.{IsName, IsNumber, IsTxn};
ghost use Rattle.bohm_txn.specs.Faulty.{IsWellFormedTxn};
ghost use Rattle.bohm_types.specs.Procedure.{Procedure, instance};
ghost use Rattle.bohm_procedures.specs.Accepting.{IsAccepted, own};
ghost use Rattle.bohm_text.specs.ProcedureText.{IsProcedure};

/// Every instance of an accepted procedure is well formed, whatever keys are its arguments.
pub fn instance_is_well_formed()
    ensures { (p : Procedure) (ks : List (List ℕ)) (vs : List ℤ) → IsAccepted p
        → length vs ≡ length p.values → IsWellFormedTxn (instance p ks vs) }
{}

/// Every instance for names and values is a transaction, which has a text.
pub fn instance_is_sound()
    ensures { (p : Procedure) (ks : List (List ℕ)) (vs : List ℤ) → IsProcedure p
        → AllByRecursion IsName ks → AllByRecursion IsNumber vs
        → IsTxn p.edition (instance p ks vs) }
{}

/// If the sets are in ascending order, a procedure's own instance is the instance for its own names
/// and zeros.
pub fn own_is_instance()
    ensures { (p : Procedure) → rising p.reads ≡ true → rising p.writes ≡ true
        → instance p p.keys (map (λ x. pos 0) p.values) ≡ own p }
{}
