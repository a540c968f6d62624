//! The numbers and the cells of a call's keys.

ghost use Rattle.std.specs.Prelude.{◌≡◌, ◌+◌, ◌≤◌, ◌++◌, [], length, map, take, drop, OnOk};
ghost use Rattle.bohm_types.specs.declared.cell.Cell.TheVariants.{Absent};
ghost use Rattle.bohm_log.specs.Parts.{Begins};
ghost use Rattle.bohm_shapes.specs.Running.{most_slots};
ghost use Rattle.bohm_store.specs.Numbered.{timeline, versions_at};
ghost use Rattle.bohm_store.specs.Versions.{cell_at, past};
ghost use Rattle.bohm_store.specs.Writes.{AreNumbersOf};

use crate::base::cell_by;
use crate::numbered::NumberedHistory;
use crate::numbering::number_of;
use bohm_hints::IndexHints;
use bohm_log::{HashSeed, LayeredNames};
use bohm_shapes::{Registers, SlotKeys};
use bohm_types::NoMemory;

/// Replaces the contents of the list with the numbers of the first keys. A key without a number
/// gets one. On an error every key keeps its number.
pub fn number_first(
    names: &mut LayeredNames<HashSeed>,
    hints: &mut IndexHints,
    keys: &SlotKeys<'_>,
    count: usize,
    numbers: &mut Vec<u32>,
) -> Result<(), NoMemory>
    requires { count ≤ length keys.now }
    ensures longer { Begins names.old names.new }
    ensures numbers { OnOk result
        (AreNumbersOf names.new numbers.new.items (take count keys.now)) }
{
    numbers.clear();
    for i in 0..count {
        let number = number_of(names, hints, keys.number(i), keys.key(i))?;
        numbers.push(number)?;
    }
    Ok(())
}

/// Pushes into registers the cells at the top of the keys with these numbers.
pub fn push_first(numbered: &NumberedHistory, numbers: &[u32], registers: &mut Registers)
    requires few { length numbers.now ≤ most_slots }
    requires none { registers.old.cells ≡ [] }
    ensures { registers.new.cells
        ≡ map (λ n. cell_at numbered.now.top (versions_at numbered.now n) Absent) numbers.now }
{
    for number in numbers {
        registers.push(numbered.cell(*number));
    }
}

/// Pushes into registers the cells at the top of the keys from an index on.
pub fn push_others(
    names: &LayeredNames<HashSeed>,
    numbered: &NumberedHistory,
    hints: &mut IndexHints,
    keys: &SlotKeys<'_>,
    first: usize,
    registers: &mut Registers,
)
    requires few { length keys.now ≤ most_slots }
    requires first { first ≤ length keys.now }
    requires pushed { length registers.old.cells ≡ first }
    ensures { registers.new.cells ≡ registers.old.cells
        ++ map (past (timeline names.now numbered.now) numbered.now.top) (drop first keys.now) }
{
    for i in first..keys.len() {
        registers.push(cell_by(names, numbered, hints, keys.number(i), keys.key(i)));
    }
}
