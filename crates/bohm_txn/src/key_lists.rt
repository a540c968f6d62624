//! Lists of keys, and the sets that they make.

ghost use Rattle.std.specs.Prelude.{◌≡◌, ◌++◌, IfOk};
ghost use Rattle.bohm_types.specs.KeySets.{key_set};

use bohm_log::Keys;
use bohm_types::{Key, NoMemory};

/// Appends the keys of a declared set, in its order. After an error the list may have some of them.
/// The time grows with the number of these keys.
pub fn add_keys(list: &mut Vec<Key>, keys: &Keys<'_>) -> Result<(), NoMemory>
    ensures { IfOk result (λ _. list.new.items ≡ list.old.items ++ keys.now) }
{
    for place in 0..keys.len() {
        list.push(*keys.key(place))?;
    }
    Ok(())
}

/// Sorts the keys in ascending order, and removes duplicates. It allocates nothing. The time grows
/// with n log n, where n is the number of keys.
pub fn sort_keys(keys: &mut Vec<Key>)
    ensures { keys.new.items ≡ key_set keys.old.items }
{
    keys.sort_unstable();
    keys.dedup();
}
