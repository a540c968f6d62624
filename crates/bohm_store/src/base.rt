//! The cells of keys at the top and before.

ghost use Rattle.std.specs.Prelude.{◌≡◌, ◌<◌, ◌≤◌, ◌++◌, ◌∷◌, [], length, map};
ghost use Rattle.bohm_types.specs.declared.cell.Cell.TheVariants.{Absent};
ghost use Rattle.bohm_types.specs.Limits.{most_keys};
ghost use Rattle.bohm_store.specs.Versions.{IsCellAt, cell_at, past, versions};
ghost use Rattle.bohm_store.specs.Numbered.{timeline, versions_at};

use crate::numbered::NumberedHistory;
use bohm_hints::{IndexHints, is_numbered};
use bohm_log::{HashSeed, Keys, LayeredNames};
use bohm_txn::Scratch;
use bohm_types::{Cell, Key};

/// The cell of a key after the transaction with a timestamp. The time is that of one look-up, and
/// grows with the number of the key's versions that ended above the timestamp.
pub fn cell_of(
    names: &LayeredNames<HashSeed>,
    numbered: &NumberedHistory,
    key: &Key,
    ts: u32,
) -> Cell
    ensures cell { result ≡ past (timeline names.now numbered.now) ts key.now }
    ensures newest { IsCellAt ts (versions (timeline names.now numbered.now) key.now) result }
{
    // The call's contract says that the names are distinct.
    let _ = names.table();
    match names.find(key) {
        Some(number) => numbered.cell_at(number, ts),
        None => Cell::Absent,
    }
}

/// The cell of a key at the top. The key is hashed only if the number that it had when it was last
/// seen isn't its number.
pub fn cell_by(
    names: &LayeredNames<HashSeed>,
    numbered: &NumberedHistory,
    hints: &mut IndexHints,
    place: u32,
    key: &Key,
) -> Cell
    ensures { result ≡ past (timeline names.now numbered.now) numbered.now.top key.now }
{
    let hint = hints.index(place);
    if is_numbered(names.table(), hint, key) {
        return numbered.cell(hint);
    }
    match names.find(key) {
        Some(number) => {
            hints.note(place, number);
            numbered.cell(number)
        }
        None => Cell::Absent,
    }
}

/// Pushes into a scratch the cells at the top of a transaction's declared reads.
pub fn push_reads(
    names: &LayeredNames<HashSeed>,
    numbered: &NumberedHistory,
    hints: &mut IndexHints,
    keys: &Keys<'_>,
    scratch: &mut Scratch,
)
    requires few { length keys.now ≤ most_keys }
    requires none { scratch.old.seen ≡ [] }
    ensures seen { scratch.new.seen
        ≡ map (past (timeline names.now numbered.now) numbered.now.top) keys.now }
    ensures cells { scratch.new.cells ≡ scratch.old.cells }
{
    for i in 0..keys.len() {
        scratch.push_read(cell_by(names, numbered, hints, keys.number(i), keys.key(i)));
    }
}

/// Pushes into a scratch the cells at the top of the keys with these numbers.
pub fn push_cells(numbered: &NumberedHistory, numbers: &[u32], scratch: &mut Scratch)
    requires few { length numbers.now ≤ most_keys }
    requires none { scratch.old.cells ≡ [] }
    ensures cells { scratch.new.cells
        ≡ map (λ n. cell_at numbered.now.top (versions_at numbered.now n) Absent) numbers.now }
    ensures seen { scratch.new.seen ≡ scratch.old.seen }
    ensures shows { scratch.new.shows ≡ scratch.old.shows }
{
    for number in numbers {
        scratch.push_cell(numbered.cell(*number));
    }
}

// Pushes a cell into a scratch, for the next declared read and for the next declared write.
fn push_read_and_cell(scratch: &mut Scratch, cell: &Cell)
    requires few_reads { length scratch.old.seen < most_keys }
    requires few_writes { length scratch.old.cells < most_keys }
    ensures seen { scratch.new.seen ≡ scratch.old.seen ++ cell.now ∷ [] }
    ensures cells { scratch.new.cells ≡ scratch.old.cells ++ cell.now ∷ [] }
{
    scratch.push_read(*cell);
    scratch.push_cell(*cell);
}

/// Pushes into a scratch the cells at the top of the keys with these numbers, as reads and as
/// cells.
pub fn push_reads_and_cells(numbered: &NumberedHistory, numbers: &[u32], scratch: &mut Scratch)
    requires few { length numbers.now ≤ most_keys }
    requires none { scratch.old.seen ≡ [] }
    requires neither { scratch.old.cells ≡ [] }
    ensures seen { scratch.new.seen
        ≡ map (λ n. cell_at numbered.now.top (versions_at numbered.now n) Absent) numbers.now }
    ensures cells { scratch.new.cells
        ≡ map (λ n. cell_at numbered.now.top (versions_at numbered.now n) Absent) numbers.now }
{
    for number in numbers {
        let cell = numbered.cell(*number);
        push_read_and_cell(scratch, &cell);
    }
}
