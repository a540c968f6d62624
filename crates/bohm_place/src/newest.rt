//! The newest placeholders of a log's keys, by number.

ghost use Rattle.std.specs.Prelude.{◌≡◌, ℕ, [], ◌<◌, ◌≤◌, length, All, IfOk, OnOk};
ghost use Rattle.bohm_place.specs.Numbered.{newest_at};

use crate::placeholder::Placeholder;
use bohm_types::NoMemory;
use std::alloc::Global;
use std::marker::Model;

/// The newest placeholder of each key of a log, by the key's number; `none` if planning has made
/// none. Placeholders of earlier batches stay, and are recognized by their begins: nothing is
/// cleared between two batches.
#[derive(Drop)]
pub struct Newest {
    placeholders: Vec<Placeholder>,
}

impl Model for Newest {
    ghost use Rattle.std.specs.Prelude.{List};
    ghost use Rattle.bohm_place.specs.declared.placeholder.Placeholder.{Placeholder};

    ghost Value = { List Placeholder };

    ghost view = { λ n. n.placeholders.items };
}

impl Newest {
    /// No placeholders. It allocates nothing.
    pub fn new(alloc: Global) -> Newest
        ensures { result ≡ [] }
    {
        Newest {
            placeholders: Vec::new(alloc),
        }
    }

    /// `count` empty arrays, one for each planning worker.
    pub fn several(alloc: Global, count: u32) -> Result<Vec<Newest>, NoMemory>
        ensures count { IfOk result (λ v. length v.items ≡ count) }
        ensures unplanned { IfOk result
            (λ v. (t : ℕ) → All (λ a. All (λ p. p.begin < t) a) v.items) }
    {
        let mut several = Vec::with_capacity(alloc, count as usize)?;
        for _ in 0..count {
            several.push(Newest::new(alloc))?;
        }
        Ok(several)
    }

    /// Lengthens the array to at least `count` keys; a new key has no placeholder. Its time grows
    /// with the number of new keys.
    pub(crate) fn cover(&mut self, count: usize) -> Result<(), NoMemory>
        ensures long { OnOk result (count ≤ length self.new) }
        ensures same { (n : ℕ) → newest_at self.new n ≡ newest_at self.old n }
        ensures below { (t : ℕ) → 0 < t
            → All (λ v. v.begin < t) self.old → All (λ v. v.begin < t) self.new }
    {
        if self.placeholders.len() < count {
            self.placeholders.resize(count, Placeholder::none())?;
        }
        Ok(())
    }

    /// The array of these placeholders.
    pub(crate) fn from_placeholders(placeholders: Vec<Placeholder>) -> Newest
        ensures { result ≡ placeholders.items }
    {
        Newest { placeholders }
    }

    /// The placeholders by number.
    pub(crate) fn into_placeholders(self) -> Vec<Placeholder>
        ensures { result.items ≡ self }
    {
        let Newest { placeholders } = self;
        placeholders
    }
}
