//! Values and cells.

ghost use Rattle.std.specs.Prelude.{◌≡◌, Some};

use std::marker::Model;

/// A signed 64-bit integer.
#[derive(Clone, Copy, Debug, PartialEq, Eq)]
pub struct Value {
    number: i64,
}

impl Model for Value {
    ghost use Rattle.std.specs.Prelude.{ℤ};

    ghost Value = { ℤ };

    ghost view = { λ v. v.number };

    ghost inverse = { λ z. record { number = z } };
}

impl Value {
    /// The value of this number. Always `Some`.
    pub fn new(number: i64) -> Option<Value>
        ensures { result ≡ Some number }
    {
        Some(Value::from(number))
    }

    pub fn get(self) -> i64
        ensures { result ≡ self }
    {
        self.number
    }
}

impl From<i64> for Value {
    ghost from_gives = { λ number value. value ≡ number };

    fn from(number: i64) -> Value {
        Value { number }
    }
}

/// What a key holds.
#[derive(Clone, Copy, Debug, PartialEq, Eq)]
pub enum Cell {
    Absent,
    Present(Value),
}
