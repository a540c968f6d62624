//! A direct-mapped cache of where names were last found.

ghost use Rattle.std.specs.Prelude.{◌≡◌, IfSome, IsSome, Some, true, slice_get};
ghost use Rattle.bohm_types.specs.Name.{is_name};

use crate::key::Key;
use crate::packed_word::PackedWord;

/// The least first word of a name.
const LEAST_FIRST: u64 = (b'a' as u64) << 56;

/// For each short hash, of 8 bits, the index at which a name with that hash was last found. The
/// name at the index is compared before the index is used: a wrong index costs only the search that
/// would be needed without it, so entries are never cleared.
#[derive(Clone, Copy)]
pub struct NameCache {
    places: [u8; 256],
}

impl NameCache {
    pub fn new() -> NameCache {
        NameCache { places: [0; 256] }
    }

    /// The index of a name in `names`, if it is where a name with its short hash was last found.
    pub fn place(&self, names: &[Key], name: &Key) -> Option<u32>
        ensures { IfSome result (λ i. slice_get names.now i ≡ Some name.now) }
    {
        let place = self.places[name.short_hash()];
        let there = names.get(place as usize)?;
        if *there == *name {
            Some(place as u32)
        } else {
            None
        }
    }

    /// The index of the name that a word spells, if it is where a name with its short hash was last
    /// found. The word is compared in place: no `Key` is built from it. A word whose first byte is
    /// below `a` isn't a name.
    #[inline(always)]
    pub fn place_of_word(&self, names: &[Key], word: &PackedWord<'_>) -> Option<u32>
        ensures place { IfSome result (λ i. slice_get names.now i ≡ Some word.now) }
        ensures name { IsSome result → is_name word.now ≡ true }
    {
        if word.first() < LEAST_FIRST {
            return None;
        }
        let place = self.places[word.short_hash()];
        let there = names.get(place as usize)?;
        if there.is_word(word) {
            Some(place as u32)
        } else {
            None
        }
    }

    /// Notes where a name was found. Indices above 255 aren't noted.
    pub fn note(&mut self, name: &Key, place: u32) {
        if let Ok(place) = u8::try_from(place) {
            self.places[name.short_hash()] = place;
        }
    }
}
