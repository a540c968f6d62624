//! How many workers of each kind a run has.

ghost use Rattle.std.specs.Prelude.{◌≡◌, ◌<◌};
ghost use Rattle.std.specs.Option.{SomeIff};

use std::marker::Model;

/// A number of planning workers, at least 1. Contracts see it as the number.
#[derive(Clone, Copy, Debug, PartialEq, Eq)]
pub struct Planners {
    count: u32,
}

impl Model for Planners {
    ghost use Rattle.std.specs.Prelude.{ℕ, ◌<◌};

    ghost Value = { ℕ };

    ghost view = { λ p. p.count };

    ghost invariant = { λ p. 0 < p.count };

    ghost inverse = { λ count. record { count = count } };
}

impl Planners {
    /// One planning worker.
    pub fn one() -> Planners
        ensures { result ≡ 1 }
    {
        Planners { count: 1 }
    }

    /// This many planning workers; `None` for 0.
    pub fn new(count: u32) -> Option<Planners>
        ensures { SomeIff result (0 < count) count }
    {
        if count == 0 {
            return None;
        }
        Some(Planners { count })
    }

    /// Their number.
    pub fn count(self) -> u32
        ensures count { result ≡ self }
        ensures some { 0 < result }
    {
        self.count
    }
}

/// A number of executing workers, at least 1. Contracts see it as the number.
#[derive(Clone, Copy, Debug, PartialEq, Eq)]
pub struct Executors {
    count: u32,
}

impl Model for Executors {
    ghost use Rattle.std.specs.Prelude.{ℕ, ◌<◌};

    ghost Value = { ℕ };

    ghost view = { λ e. e.count };

    ghost invariant = { λ e. 0 < e.count };

    ghost inverse = { λ count. record { count = count } };
}

impl Executors {
    /// One executing worker.
    pub fn one() -> Executors
        ensures { result ≡ 1 }
    {
        Executors { count: 1 }
    }

    /// This many executing workers; `None` for 0.
    pub fn new(count: u32) -> Option<Executors>
        ensures { SomeIff result (0 < count) count }
    {
        if count == 0 {
            return None;
        }
        Some(Executors { count })
    }

    /// Their number.
    pub fn count(self) -> u32
        ensures count { result ≡ self }
        ensures some { 0 < result }
    {
        self.count
    }
}
