//! Where names were last found among many names.

ghost use Rattle.std.specs.Prelude.{◌≡◌, IfSome, Some, slice_get};

use bohm_types::Key;
use std::alloc::Global;

/// The size of the table of numbers at first, and at most.
const FEWEST: usize = 256;

const MOST: usize = 65536;

/// The table has at least this many numbers for each name, up to `MOST`, so that few names share
/// one.
const FOR_A_NAME: usize = 4;

/// For each of up to 65,536 hashes, the number of the last name that had it. A number is compared
/// with the name before it is used: a wrong number costs the search that would be needed without
/// it, so no number is ever cleared.
#[derive(Drop)]
pub struct NameHints {
    numbers: Vec<u32>,
    /// How often a number was noted.
    notes: usize,
}

/// No name's number.
pub(crate) const NO_NUMBER: u32 = u32::MAX;

/// The index of a name's number in a table of `count` numbers, fewer than 2^32. It depends on the
/// upper bits of the hash, which vary the most.
#[inline(always)]
pub(crate) fn slot_of(name: &Key, count: usize) -> usize {
    ((name.mixed() >> 32).wrapping_mul(count as u64) >> 32) as usize
}

/// The number, if it is the index of this name in `names`.
#[inline(always)]
pub(crate) fn at_number(names: &[Key], number: u32, name: &Key) -> Option<u32>
    ensures { IfSome result (λ i. slice_get names.now i ≡ Some name.now) }
{
    let there = names.get(number as usize)?;
    if *there == *name { Some(number) } else { None }
}

impl NameHints {
    /// An empty table. It allocates nothing.
    pub fn new(alloc: Global) -> NameHints {
        NameHints {
            numbers: Vec::new(alloc),
            notes: 0,
        }
    }

    /// The number that was noted last for a name's hash, or 0 if none was.
    #[inline(always)]
    pub fn noted(&self, name: &Key) -> u32 {
        match self.numbers.get(slot_of(name, self.numbers.len())) {
            Some(number) => *number,
            None => 0,
        }
    }

    /// Notes the number of a name. The table grows to at least four numbers per name, up to 65,536.
    /// If the allocation fails, it keeps its size.
    pub fn note(&mut self, name: &Key, number: u32) {
        let count = self.numbers.len();
        self.notes = self.notes.saturating_add(1);
        if self.notes > count / FOR_A_NAME && count < MOST {
            let _ = self
                .numbers
                .resize(if count == 0 { FEWEST } else { 4 * count }, 0);
        }
        let slot = slot_of(name, self.numbers.len());
        if let Some(noted) = self.numbers.get_mut(slot) {
            *noted = number;
        }
    }
}
