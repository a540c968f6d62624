//! The names of a log: those that it shares, and then its own.

ghost use Rattle.std.specs.Prelude.{◌≡◌, ◌≤◌, ◌^◌, ◌+◌, [], Some, None, IfOk, IfErr, IfSome, OnOk};
ghost use Rattle.std.specs.Prelude.{OnErr, length, position, slice_get, take};
ghost use Rattle.std.specs.List.{IsDistinct};
ghost use Rattle.std.specs.Str.{bytes_eq};
ghost use Rattle.bohm_log.specs.declared.fault.LogFault.TheVariants as faults;
ghost use Rattle.bohm_log.specs.Interning.{with_name};
ghost use Rattle.bohm_log.specs.Layers.{all_names};
ghost use Rattle.bohm_log.specs.Parts.{Begins};

use crate::fault::LogFault;
use crate::name_table::NameTable;
use crate::names::Names;
use crate::shared_names::{MOST_SHARED, SharedNames};
use bohm_types::{Key, NoMemory};
use std::alloc::Global;
use std::hash::BuildHasher;
use std::marker::Model;

/// Distinct names, numbered from 0: names that many logs share, and after them its own names, in
/// the order in which they were added.
pub struct LayeredNames<S: BuildHasher> {
    shared: SharedNames<S>,
    /// How many of the shared names it has: all, unless it was truncated to fewer.
    shown: usize,
    own: Names<S>,
}

// Written out: a derived drop is proved anew in each function that drops such a value.
impl<S: BuildHasher + Drop> Drop for LayeredNames<S> {
    fn drop(self) {
        let Self {
            shared,
            shown: _,
            own,
        } = self;
        drop(shared);
        drop(own);
    }
}

impl<S: BuildHasher> Model for LayeredNames<S> {
    ghost use Rattle.std.specs.Prelude.{ℕ, List, ◌++◌, ◌≤◌, length, take};

    ghost Value = { List (List ℕ) };

    ghost use Rattle.bohm_log.specs.Interning.{IsInterned};

    ghost view = { λ n. take n.shown n.shared ++ n.own };

    ghost invariant = { λ n. (n.shown ≤ length n.shared)
        × IsInterned (take n.shown n.shared ++ n.own) };
}

/// The number of a name, if it is among the first `shown` shared names.
fn find_among<S: BuildHasher>(shared: &SharedNames<S>, shown: usize, name: &Key) -> Option<u32>
    ensures { result ≡ position (bytes_eq name.now) (take shown shared.now) }
{
    let number = shared.find(name)?;
    if (number as usize) < shown {
        Some(number)
    } else {
        None
    }
}

impl<S: BuildHasher> From<Names<S>> for LayeredNames<S> {
    ghost from_gives = { λ names layered. layered ≡ names };

    /// These names, none of which is shared.
    fn from(names: Names<S>) -> LayeredNames<S> {
        LayeredNames {
            shared: SharedNames::none(),
            shown: 0,
            own: names,
        }
    }
}

impl<S: BuildHasher> LayeredNames<S> {
    /// No names. It allocates nothing.
    pub fn new(alloc: Global, hasher: S) -> LayeredNames<S>
        ensures { result ≡ [] }
    {
        LayeredNames::from(Names::new(alloc, hasher))
    }

    /// These names. All of them are shared if there are at most 2^30, and otherwise none is. The
    /// time and the memory grow with the number of names.
    pub fn shared_from(
        alloc: Global,
        hasher: S,
        names: Names<S>,
    ) -> Result<LayeredNames<S>, NoMemory>
    where
        S: Drop,
        ensures { IfOk result (λ l. l ≡ names) }
    {
        if names.len() > MOST_SHARED {
            return Ok(LayeredNames::from(names));
        }
        let shared = SharedNames::new(alloc, names)?;
        Ok(LayeredNames::sharing(alloc, hasher, shared))
    }

    /// The names that are shared.
    pub fn shared(&self) -> &SharedNames<S> {
        &self.shared
    }

    /// The shared names, and no others. It allocates nothing.
    pub fn sharing(alloc: Global, hasher: S, shared: SharedNames<S>) -> LayeredNames<S>
        ensures { result ≡ shared }
    {
        let shown = shared.as_slice().len();
        LayeredNames {
            shared,
            shown,
            own: Names::new(alloc, hasher),
        }
    }

    /// How many names there are.
    #[inline(always)]
    pub fn len(&self) -> usize
        ensures { result ≡ length self.now }
    {
        self.shown + self.own.len()
    }

    /// How many of the names it doesn't share.
    pub(crate) fn own_len(&self) -> usize
        ensures { result ≤ length self.now }
    {
        self.own.len()
    }

    /// All names, each at its number.
    #[inline(always)]
    pub fn table(&self) -> NameTable<'_>
        ensures names { all_names result ≡ self.now }
        ensures apart { IsDistinct bytes_eq self.now }
        ensures few { length self.now ≤ 2 ^ 32 }
    {
        NameTable {
            shared: &self.shared.as_slice()[..self.shown],
            own: self.own.as_slice(),
        }
    }

    /// The number of a shared name, if it is noted for the name's hash. No search is made.
    #[inline(always)]
    pub(crate) fn noted(&self, name: &Key) -> Option<u32>
        ensures { IfSome result (λ i. slice_get self.now i ≡ Some name.now) }
    {
        let number = self.shared.noted(name)?;
        if (number as usize) < self.shown {
            Some(number)
        } else {
            None
        }
    }

    /// The number of a name, if it has one.
    pub fn find(&self, name: &Key) -> Option<u32>
        ensures { result ≡ position (bytes_eq name.now) self.now }
    {
        match find_among(&self.shared, self.shown, name) {
            Some(number) => Some(number),
            None => {
                let number = self.own.find(name)?;
                Some(self.shown as u32 + number)
            }
        }
    }

    /// The number of a name, which is added if it is new. It fails with `Full` if there are 2^32
    /// names and the name isn't among them. An `Err` leaves the names unchanged. The time doesn't
    /// grow with their number, except when the table grows.
    pub fn id(&mut self, name: Key) -> Result<u32, LogFault>
    where
        S: Drop,
        ensures names { OnOk result (self.new ≡ with_name self.old name) }
        ensures named { IfOk result (λ id. slice_get self.new id ≡ Some name) }
        ensures kept { Begins self.old self.new }
        ensures longer { length self.new ≤ length self.old + 1 }
        ensures err { OnErr result (self.new ≡ self.old) }
        ensures full { IfErr result (λ e. e ≡ faults.Full → length self.old ≡ 2 ^ 32) }
    {
        if let Some(number) = find_among(&self.shared, self.shown, &name) {
            return Ok(number);
        }
        if self.len() > u32::MAX as usize {
            return match self.find(&name) {
                Some(number) => Ok(number),
                None => Err(LogFault::Full),
            };
        }
        let number = self.own.id(name)?;
        Ok(self.shown as u32 + number)
    }

    /// Keeps the first `count` names, and removes the others.
    pub(crate) fn truncate(&mut self, count: usize)
        ensures { self.new ≡ take count self.old }
    {
        if count < self.shown {
            self.shown = count;
            self.own.clear();
        } else {
            self.own.truncate(count - self.shown);
        }
    }

    /// Removes the names that it doesn't share. The shared names keep their numbers. Capacity for a
    /// few names is kept.
    pub(crate) fn clear(&mut self)
        ensures kept { Begins self.new self.old }
        ensures few { length self.new ≤ 2 ^ 30 }
    {
        // The call's contract says that at most 2^30 names are shared.
        let _ = self.shared.as_slice();
        self.own.clear();
    }
}
