//! The numbers of keys in a history.

ghost use Rattle.std.specs.Prelude.{◌≡◌, ◌≤◌, [], Some, slice_get, true, length, take, IfOk, OnOk};
ghost use Rattle.bohm_log.specs.Layers.{all_names};
ghost use Rattle.bohm_log.specs.Parts.{Begins};
ghost use Rattle.bohm_store.specs.Writes.{AreNumbersOf};

use bohm_hints::{IndexHints, is_numbered};
use bohm_log::{HashSeed, Keys, LayeredNames, NameTable};
use bohm_types::{Key, NoMemory};

/// The number of a key, which gets one if it has none. The key is hashed only if the number that it
/// had when it was last seen isn't its number. On an error every key keeps its number.
pub fn number_of(
    names: &mut LayeredNames<HashSeed>,
    hints: &mut IndexHints,
    place: u32,
    key: &Key,
) -> Result<u32, NoMemory>
    ensures longer { Begins names.old names.new }
    ensures named { IfOk result (λ n. slice_get names.new n ≡ Some key.now) }
{
    let hint = hints.index(place);
    if is_numbered(names.table(), hint, key) {
        return Ok(hint);
    }
    match names.id(*key) {
        Ok(number) => {
            hints.note(place, number);
            Ok(number)
        }
        Err(_) => Err(NoMemory),
    }
}

/// Appends the numbers that keys had when they were last seen, up to the first one that isn't the
/// number of its key. No key is hashed.
fn push_hinted(
    names: NameTable<'_>,
    hints: &IndexHints,
    keys: &Keys<'_>,
    numbers: &mut Vec<u32>,
) -> Result<(), NoMemory>
    requires { numbers.old.items ≡ [] }
    ensures inside { OnOk result (length numbers.new.items ≤ length keys.now) }
    ensures numbers { OnOk result (AreNumbersOf (all_names names.entry) numbers.new.items
        (take (length numbers.new.items) keys.now)) }
{
    for i in 0..keys.len() {
        let hint = hints.index(keys.number(i));
        if !is_numbered(names, hint, keys.key(i)) {
            return Ok(());
        }
        numbers.push(hint)?;
    }
    Ok(())
}

/// Replaces the contents of the list with the numbers of these keys. A key without a number gets
/// one. On an error every key keeps its number.
pub fn number_all(
    names: &mut LayeredNames<HashSeed>,
    hints: &mut IndexHints,
    keys: &Keys<'_>,
    numbers: &mut Vec<u32>,
) -> Result<(), NoMemory>
    ensures longer { Begins names.old names.new }
    ensures numbers { OnOk result (AreNumbersOf names.new numbers.new.items keys.now) }
{
    numbers.clear();
    push_hinted(names.table(), hints, keys, numbers)?;
    for i in numbers.len()..keys.len() {
        let number = number_of(names, hints, keys.number(i), keys.key(i))?;
        numbers.push(number)?;
    }
    Ok(())
}
