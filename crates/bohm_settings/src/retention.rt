//! How much of the past stays readable.

ghost use Rattle.std.specs.Prelude.{◌≡◌};

use std::marker::Model;

/// How many timestamps below a batch's end stay readable. Contracts see it as the number.
#[derive(Clone, Copy, Debug, PartialEq, Eq)]
pub struct Kept {
    timestamps: u32,
}

impl Model for Kept {
    ghost use Rattle.std.specs.Prelude.{ℕ};

    ghost Value = { ℕ };

    ghost view = { λ k. k.timestamps };

    ghost inverse = { λ timestamps. record { timestamps = timestamps } };
}

impl Kept {
    /// This many timestamps.
    pub fn new(timestamps: u32) -> Kept
        ensures { result ≡ timestamps }
    {
        Kept { timestamps }
    }

    /// Their number.
    pub fn timestamps(self) -> u32
        ensures { result ≡ self }
    {
        self.timestamps
    }
}
