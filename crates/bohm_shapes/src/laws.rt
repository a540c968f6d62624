//! Laws of calls. No code calls them.

ghost use Rattle.std.specs.Prelude.{◌≡◌, ℕ, ℤ, List, length, map};
ghost use Rattle.bohm_types.specs.Procedure.{Procedure, instance, stands_for};
ghost use Rattle.bohm_txn.specs.Meaning.{Look, body};
ghost use Rattle.bohm_shapes.specs.declared.shape.Shape.{Shape};
ghost use Rattle.bohm_shapes.specs.Filled.{txn_filled};
ghost use Rattle.bohm_shapes.specs.Made.{IsLike};
ghost use Rattle.bohm_shapes.specs.Running.{IsUsable};

/// Over the keys that a procedure's names stand for, its shape does what the call's instance does,
/// whatever the order of the keys is.
pub fn call_is_its_instance()
    ensures { (p : Procedure) (s : Shape) (ks : List (List ℕ)) (vs : List ℤ) → IsLike p s
        → IsUsable s → length vs ≡ length p.values → (look : Look)
        → body look (txn_filled s (map (stands_for p.keys ks) s.names.items) vs)
        ≡ body look (instance p ks vs) }
{}
