//! The keys of one declared set.

ghost use Rattle.std.specs.Prelude.{◌≡◌, ◌<◌, length, IfSome, Some, slice_get};
ghost use Rattle.bohm_types.specs.Keys.{place};
ghost use Rattle.bohm_log.specs.Parts.{names_at};
ghost use Rattle.bohm_log.specs.Columns.{AllNamed};
ghost use Rattle.bohm_log.specs.Layers.{all_names};

use crate::name_table::NameTable;
use bohm_types::Key;
use std::marker::Model;

/// Keys that a transaction declares to read, or to write, which contracts see as a list of them.
#[derive(Drop)]
pub struct Keys<'a> {
    pub(crate) names: NameTable<'a>,
    pub(crate) ids: &'a [u32],
}

impl<'a> Model for Keys<'a> {
    ghost use Rattle.std.specs.Prelude.{ℕ, List};
    ghost use Rattle.bohm_log.specs.Parts.{names_at};
    ghost use Rattle.bohm_log.specs.Columns.{AllNamed};
    ghost use Rattle.bohm_log.specs.Layers.{all_names};

    ghost Value = { List (List ℕ) };

    ghost view = { λ k. names_at (all_names k.names) k.ids.now };

    ghost invariant = { λ k. AllNamed (all_names k.names) k.ids.now };
}

/// The name whose number is at an index.
#[tactic(auto, using(crate::proofs::Viewing::read_at))]
pub(crate) fn name_by<'a>(names: NameTable<'a>, ids: &'a [u32], place: usize) -> &'a Key
    requires place { place < length ids.now }
    requires named { AllNamed (all_names names) ids.now }
    ensures { slice_get (names_at (all_names names.entry) ids.now) place ≡ Some result.now }
{
    names.name(ids[place] as usize)
}

fn number_at(ids: &[u32], place: usize) -> u32
    requires { place < length ids.now }
{
    ids[place]
}

impl<'a> Keys<'a> {
    /// How many keys there are.
    #[tactic(auto, using(crate::proofs::Viewing::mapped_length))]
    pub fn len(&self) -> usize
        ensures { result ≡ length self.now }
    {
        self.ids.len()
    }

    /// The key at an index, counted from 0.
    #[tactic(auto, using(crate::proofs::Viewing::mapped_length))]
    pub fn key(&self, place: usize) -> &'a Key
        requires { place < length self.now }
        ensures { slice_get self.now place ≡ Some result.now }
    {
        name_by(self.names, self.ids, place)
    }

    /// The number of the key at an index, counted from 0, among the names of the log's keys. It is
    /// a hint: no contract says which key has the number, so the caller compares the key that it
    /// finds.
    #[tactic(auto, using(crate::proofs::Viewing::mapped_length))]
    pub fn number(&self, place: usize) -> u32
        requires { place < length self.now }
    {
        number_at(self.ids, place)
    }

    /// The index of a key's first occurrence, if there is one. The time grows with the number of
    /// keys.
    pub fn place_of(&self, key: &Key) -> Option<usize>
        ensures place { result ≡ place self.now key.now }
        ensures inside { IfSome result (λ i. i < length self.now) }
    {
        for place in 0..self.len() {
            if *self.key(place) == *key {
                return Some(place);
            }
        }
        None
    }
}
