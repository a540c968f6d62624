//! Names that many logs share.

ghost use Rattle.std.specs.Prelude.{◌≡◌, ◌≤◌, ◌^◌, [], Some, IfOk, IfSome, IfNone, length};
ghost use Rattle.std.specs.Prelude.{slice_get};
ghost use Rattle.std.specs.Prelude.{position};
ghost use Rattle.std.specs.List.{IsDistinct};
ghost use Rattle.std.specs.Str.{bytes_eq};

use crate::key_handle::KeyHandle;
use crate::name_hints::{NO_NUMBER, at_number, slot_of};
use crate::names::Names;
use bohm_types::{Key, NoMemory};
use std::alloc::Global;
use std::hash::{BuildHasher, BuildHasherDefault, FoldHasher};
use std::marker::Model;
use std::sync::Arc;

/// At most this many names are shared.
pub(crate) const MOST_SHARED: usize = 1 << 30;

/// Names, and for each hash the numbers of up to two names that have it.
#[derive(Drop)]
struct HashedNames<S: BuildHasher> {
    names: Names<S>,
    /// A number is compared with the name before it is used.
    numbers: Vec<[u32; 2]>,
}

/// Names that never change, each at the number that it has in all logs that share them. Threads
/// look them up concurrently.
pub struct SharedNames<S: BuildHasher = BuildHasherDefault<FoldHasher>> {
    hashed: Option<Arc<HashedNames<S>>>,
}

// Written out: a derived drop is proved anew in each function that drops such a value.
impl<S: BuildHasher + Drop> Drop for SharedNames<S> {
    fn drop(self) {
        let Self { hashed } = self;
        drop(hashed);
    }
}

impl<S: BuildHasher> Model for SharedNames<S> {
    ghost use Rattle.std.specs.Prelude.{ℕ, List, [], ◌≤◌, ◌^◌, length};
    ghost use Rattle.std.specs.Option.{option_map_or};

    ghost Value = { List (List ℕ) };

    ghost view = { λ s. option_map_or (λ a. a.value.names) s.hashed [] };

    ghost invariant = { λ s. length (option_map_or (λ a. a.value.names) s.hashed []) ≤ 2 ^ 30 };
}

/// Notes the number of a name, unless its slot already has two others.
fn note(numbers: &mut Vec<[u32; 2]>, name: &Key, number: u32) {
    let slot = slot_of(name, numbers.len());
    let Some(noted) = numbers.get_mut(slot) else {
        return;
    };
    *noted = match *noted {
        [NO_NUMBER, second] => [number, second],
        [first, NO_NUMBER] => [first, number],
        full => full,
    };
}

/// For each hash, the numbers of up to two names that have it. There are twice as many hashes as
/// names.
fn hashed(alloc: Global, names: &[Key]) -> Result<Vec<[u32; 2]>, NoMemory>
    requires { length names.now ≤ 2 ^ 30 }
{
    let count = names.len().saturating_mul(2);
    let mut numbers = Vec::new(alloc);
    numbers.resize(count, [NO_NUMBER; 2])?;
    for (number, name) in names.iter().enumerate() {
        note(&mut numbers, name, number as u32);
    }
    Ok(numbers)
}

impl<S: BuildHasher> SharedNames<S> {
    /// No names. It allocates nothing.
    pub fn none() -> SharedNames<S>
        ensures { result ≡ [] }
    {
        SharedNames { hashed: None }
    }

    /// These names. The time and memory grow with their number.
    pub(crate) fn new(alloc: Global, names: Names<S>) -> Result<SharedNames<S>, NoMemory>
    where
        S: Drop,
        requires { length names ≤ 2 ^ 30 }
        ensures { IfOk result (λ s. s ≡ names) }
    {
        let numbers = hashed(alloc, names.as_slice())?;
        let hashed = Arc::new(alloc, HashedNames { names, numbers })?;
        Ok(SharedNames {
            hashed: Some(hashed),
        })
    }

    /// Another reference to the same names. No name is copied.
    pub fn try_clone(&self) -> Result<SharedNames<S>, NoMemory>
        ensures { IfOk result (λ s. s ≡ self.now) }
    {
        match &self.hashed {
            Some(hashed) => Ok(SharedNames {
                hashed: Some(Arc::try_clone(hashed)?),
            }),
            None => Ok(SharedNames { hashed: None }),
        }
    }

    /// All names, each at its number.
    #[inline(always)]
    pub(crate) fn as_slice(&self) -> &[Key]
        ensures names { result.now ≡ self.now }
        ensures apart { IsDistinct bytes_eq self.now }
        ensures few { length self.now ≤ 2 ^ 30 }
    {
        match &self.hashed {
            Some(hashed) => hashed.names.as_slice(),
            None => &[],
        }
    }

    /// How many names there are.
    pub fn len(&self) -> usize
        ensures { result ≡ length self.now }
    {
        self.as_slice().len()
    }

    /// The handle of the name that has a number, if one has it.
    pub fn handle(&self, number: u32) -> Option<KeyHandle>
        ensures some { IfSome result (λ h. slice_get self.now number ≡ Some h.key) }
        ensures none { IfNone result (length self.now ≤ number) }
    {
        let key = *self.as_slice().get(number as usize)?;
        Some(KeyHandle { key, number })
    }

    /// The number of a name, if it is one of these. The time doesn't grow with the number of names.
    pub fn find(&self, name: &Key) -> Option<u32>
        ensures { result ≡ position (bytes_eq name.now) self.now }
    {
        match &self.hashed {
            Some(hashed) => hashed.names.find(name),
            None => None,
        }
    }

    /// The number of a name, if it is noted for the name's hash. No search is made.
    #[inline(always)]
    pub(crate) fn noted(&self, name: &Key) -> Option<u32>
        ensures { IfSome result (λ i. slice_get self.now i ≡ Some name.now) }
    {
        let hashed = self.hashed.as_ref()?;
        let names = hashed.names.as_slice();
        let slot = slot_of(name, hashed.numbers.len());
        let [first, second] = *hashed.numbers.get(slot)?;
        match at_number(names, first, name) {
            Some(number) => Some(number),
            None => at_number(names, second, name),
        }
    }
}
