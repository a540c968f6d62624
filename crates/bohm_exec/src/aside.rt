//! Deferred positions.

ghost use Rattle.std.specs.Prelude.{◌≡◌};

use std::marker::Model;

/// Pairs of a deferred position and the position that was busy, by their timestamps, in the order
/// in which they were deferred. Only `sweep` constructs one.
#[derive(Drop)]
pub struct Aside {
    pairs: Vec<(u32, u32)>,
}

impl Model for Aside {
    ghost use Rattle.bohm_exec.specs.Asides.{Pairs};

    ghost Value = { Pairs };

    ghost view = { λ a. a.pairs.items };
}

impl Aside {
    pub(crate) fn new(pairs: Vec<(u32, u32)>) -> Aside
        ensures { result ≡ pairs.items }
    {
        Aside { pairs }
    }

    pub fn pairs(&self) -> &[(u32, u32)]
        ensures { result.now ≡ self.now }
    {
        self.pairs.as_slice()
    }
}
