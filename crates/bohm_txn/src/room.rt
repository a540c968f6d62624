//! A list with fixed capacity.

ghost use Rattle.std.specs.Prelude.{◌≡◌, ◌<◌, ◌≤◌, [], ◌∷◌, ◌++◌, length};
ghost use Rattle.std.specs.Prelude.{IfOk, slice_set};

use std::alloc::{AllocError, Global};
use std::marker::Model;

/// Values in a list with fixed capacity.
#[derive(Debug, Drop)]
pub struct Room<T> {
    values: Vec<T>,
    limit: usize,
}

impl<T> Model for Room<T> {
    ghost use Rattle.std.specs.Prelude.{ℕ, List, ◌≤◌, vec_capacity};

    ghost Value = { List T × ℕ };

    ghost view = { λ r. (r.values.items, r.limit) };

    ghost invariant = { λ r. r.limit ≤ vec_capacity r.values };
}

impl<T> Room<T> {
    /// An empty list for at most this many values.
    pub fn new(alloc: Global, limit: usize) -> Result<Room<T>, AllocError>
        ensures { IfOk result (λ room. room ≡ ([], limit)) }
    {
        let values = Vec::with_capacity(alloc, limit)?;
        Ok(Room { values, limit })
    }

    /// Appends a value.
    pub fn push(&mut self, value: T)
        requires { length self.old.0 < self.old.1 }
        ensures { self.new ≡ (self.old.0 ++ value ∷ [], self.old.1) }
    {
        self.values.push_reserved(value);
    }

    /// Replaces the value at an index.
    pub fn set(&mut self, index: usize, value: T)
    where
        T: Drop,
        requires { index < length self.old.0 }
        ensures { self.new ≡ (slice_set self.old.0 index value, self.old.1) }
    {
        self.values[index] = value;
    }

    /// Removes all values.
    pub fn clear(&mut self)
    where
        T: Drop,
        ensures { self.new ≡ ([], self.old.1) }
    {
        self.values.clear();
    }

    /// Replaces its values with these.
    pub fn copy_from(&mut self, values: &[T])
    where
        T: Copy + Drop,
        requires { length values.now ≤ self.old.1 }
        ensures { self.new ≡ (values.now, self.old.1) }
    {
        self.values.clear();
        for value in values {
            self.values.push_reserved(*value);
        }
    }

    /// Its values.
    pub fn as_slice(&self) -> &[T]
        ensures { result.now ≡ self.now.0 }
    {
        self.values.as_slice()
    }
}
