//! The cells of keys at the top of a history.

ghost use Rattle.std.specs.Prelude.{◌≡◌, Some, slice_get, true};
ghost use Rattle.bohm_log.specs.Layers.{all_names};
ghost use Rattle.bohm_hints.specs.Top.{top_cell};

use crate::held::{Held, held_of};
use crate::index_hints::IndexHints;
use bohm_log::{HashSeed, LayeredNames, NameTable};
use bohm_types::{Cell, Key};

/// Whether this is the number of a key.
#[inline(always)]
pub fn is_numbered(names: NameTable<'_>, number: u32, key: &Key) -> bool
    ensures { result ≡ true → slice_get (all_names names.entry) number ≡ Some key.now }
{
    let number = number as usize;
    if number < names.len() {
        *names.name(number) == *key
    } else {
        false
    }
}

/// The newest version of each key of a history, by the keys' numbers there, and where the keys of a
/// log are likely to be.
#[derive(Clone, Copy)]
pub struct TopCells<'a> {
    pub names: &'a LayeredNames<HashSeed>,
    pub newest: &'a [Held],
    pub hints: &'a IndexHints,
}

impl TopCells<'_> {
    /// The cell of a key. The time is that of one look-up.
    pub fn find(&self, key: &Key) -> Cell
        ensures { result ≡ top_cell self.now key.now }
    {
        match self.names.find(key) {
            Some(number) => held_of(self.newest, number).cell(),
            None => Cell::Absent,
        }
    }

    /// The cell of a key that has this number in its log. The key is hashed only if the index that
    /// it had when it was last seen isn't its index.
    #[inline(always)]
    pub fn cell(&self, number: u32, key: &Key) -> Cell
        ensures { result ≡ top_cell self.now key.now }
    {
        let hint = self.hints.index(number);
        if is_numbered(self.names.table(), hint, key) {
            return held_of(self.newest, hint).cell();
        }
        self.find(key)
    }
}
