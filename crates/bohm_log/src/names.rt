//! Distinct names, numbered.

ghost use Rattle.std.specs.Prelude.{◌≡◌, ◌<◌, ◌≤◌, ◌+◌, ◌^◌, [], Some, None, IfOk, take};
ghost use Rattle.std.specs.Prelude.{IfErr, OnOk, OnErr, length, slice_get, position};
ghost use Rattle.bohm_log.specs.declared.fault.LogFault.TheVariants as faults;
ghost use Rattle.std.specs.Str.{bytes_eq};
ghost use Rattle.std.specs.List.{IsDistinct};
ghost use Rattle.bohm_log.specs.Interning.{with_name};
ghost use Rattle.bohm_log.specs.Parts.{Begins};

use crate::fault::LogFault;
use bohm_types::Key;
use indexmap::IndexSet;
use std::alloc::Global;
use std::hash::{BuildHasher, BuildHasherDefault, FoldHasher};
use std::marker::Model;

/// A cleared set keeps capacity for up to this many names.
const KEPT_ROOM: usize = 256;

/// Distinct names, numbered from 0 in the order in which they were added. The default hasher is
/// fast and has a fixed seed: if untrusted parties choose the names, pass a hasher with its own
/// seed.
#[derive(Drop)]
pub struct Names<S: BuildHasher = BuildHasherDefault<FoldHasher>> {
    set: IndexSet<Key, S>,
}

impl<S: BuildHasher> Model for Names<S> {
    ghost use Rattle.std.specs.Prelude.{ℕ, List};

    ghost Value = { List (List ℕ) };

    ghost use Rattle.bohm_log.specs.Interning.{IsInterned};

    ghost view = { λ n. n.set.keys };

    ghost invariant = { λ n. IsInterned n.set.keys };
}

impl<S: BuildHasher> Names<S> {
    /// No names, in a table with this hasher. It allocates nothing.
    pub fn new(alloc: Global, hasher: S) -> Names<S>
        ensures { result ≡ [] }
    {
        Names {
            set: IndexSet::with_hasher(alloc, hasher),
        }
    }

    /// How many names there are.
    pub fn len(&self) -> usize
        ensures { result ≡ length self.now }
    {
        self.set.len()
    }

    /// All names, each at its number.
    pub fn as_slice(&self) -> &[Key]
        ensures names { result.now ≡ self.now }
        ensures apart { IsDistinct bytes_eq self.now }
        ensures few { length self.now ≤ 2 ^ 32 }
    {
        self.set.as_slice()
    }

    /// The number of a name, which is added if it is new. It fails with `Full` if there are 2^32
    /// names and the name isn't among them. An `Err` leaves the names unchanged. The time doesn't
    /// grow with their number, except when the table grows.
    #[tactic(auto, using(crate::proofs::Seeking::at_its_number))]
    pub fn id(&mut self, name: Key) -> Result<u32, LogFault>
    where
        S: Drop,
        ensures names { OnOk result (self.new ≡ with_name self.old name) }
        ensures named { IfOk result (λ id. slice_get self.new id ≡ Some name) }
        ensures kept { Begins self.old self.new }
        ensures longer { length self.new ≤ length self.old + 1 }
        ensures err { OnErr result (self.new ≡ self.old) }
        ensures full { IfErr result (λ e. e ≡ faults.Full → length self.old ≡ 2 ^ 32) }
        ensures new { IfErr result
            (λ e. e ≡ faults.Full → position (bytes_eq name) self.old ≡ None) }
    {
        if self.set.len() > u32::MAX as usize {
            return match self.find(&name) {
                Some(id) => Ok(id),
                None => Err(LogFault::Full),
            };
        }
        let (index, _) = self.set.insert_full(name)?;
        Ok(index as u32)
    }

    /// The number of a name, if it has one.
    pub fn find(&self, name: &Key) -> Option<u32>
        ensures { result ≡ position (bytes_eq name.now) self.now }
    {
        let index = self.set.get_index_of(name)?;
        Some(index as u32)
    }

    /// The name with a number.
    pub fn name(&self, id: u32) -> &Key
        requires { id < length self.now }
        ensures { slice_get self.now id ≡ Some result.now }
    {
        &self.set.as_slice()[id as usize]
    }

    /// Keeps the first `count` names, and removes the others.
    pub(crate) fn truncate(&mut self, count: usize)
        ensures { self.new ≡ take count self.old }
    {
        self.set.truncate(count);
    }

    /// Removes all names. Capacity for a few is kept.
    pub fn clear(&mut self)
        ensures { self.new ≡ [] }
    {
        if self.set.is_empty() {
            return;
        }
        self.set.clear();
        if self.set.capacity() > KEPT_ROOM {
            self.set.shrink_to_fit();
        }
    }
}
