//! The words of a closed board.

ghost use Rattle.std.specs.Prelude.{◌≡◌, ◌+◌, ◌<◌, ◌≤◌, ℕ, length, slice_index, vec_len};
ghost use Rattle.std.specs.Slots.{slots_items, slots_len, IsFull};
ghost use Rattle.bohm_board.specs.Batches.{rights_of};
ghost use Rattle.bohm_board.specs.Shown.{AreSound, IsSized, words_of};

mod finals;

use crate::batch::Batch;
use crate::columns::Columns;
use std::alloc::Global;

/// The words of a board on which no thread steps any more.
pub struct Closed<'a> {
    pub(crate) batch: Batch<'a>,
    pub(crate) columns: Columns,
    ghost sized: { IsSized (rights_of batch) (words_of columns) },
    ghost sound: { AreSound batch (words_of columns) },
}

// Written by hand: a derived drop is proved again in each function that drops such a value.
impl<'a> Drop for Closed<'a> {
    fn drop(self) {
        let Self { batch, columns } = self;
        drop(batch);
        drop(columns);
    }
}

/// Fills the vector `into` with the words from index `from` on.
pub(crate) fn copy_words(words: &atomic_table::Closed<(), Global>, from: usize, into: &mut Vec<u64>)
    requires full { IsFull words.now.words }
    requires inside { from + vec_len into.old ≤ slots_len words.now.words }
    ensures len { length into.new.items ≡ length into.old.items }
    ensures each { (j : ℕ) → j < length into.old.items
        → slice_index into.new.items j ≡ slice_index (slots_items words.now.words) (from + j) }
{
    for j in 0..into.len() {
        into[j] = words.word(from + j);
    }
}
