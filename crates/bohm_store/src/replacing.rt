//! Replaces the newest versions of keys with new ones.

ghost use Rattle.std.specs.Prelude.{◌≡◌, ◌==◌, ◌<◌, ◌++◌, ◌∷◌, [], ℕ, length, if◌then◌else◌};
ghost use Rattle.bohm_store.specs.Chains.{newest_only};
ghost use Rattle.bohm_store.specs.Held.{held_at};
ghost use Rattle.bohm_store.specs.Writes.{AreBelow, listed_in, versions_by};

use crate::held::held_from;
use crate::numbered_write::NumberedWrite;
use crate::writes::Writes;
use bohm_hints::Held;

// Replaces the newest version of a key.
fn replace(newest: &mut [Held], write: NumberedWrite)
    requires { write.number < length newest.old }
    ensures { (n : ℕ) → held_at newest.new n
        ≡ (if (write.number == n) then write.version ∷ [] else held_at newest.old n) }
{
    let begin = write.version.begin;
    let held = held_from(begin, write.version.cell);
    newest[write.number as usize] = held;
}

/// Replaces the newest versions of keys with these versions, one after another: each key keeps only
/// the last one. It allocates nothing.
pub fn replace_all(newest: &mut [Held], writes: Writes<'_, '_>)
    requires { AreBelow (length newest.old) (listed_in writes) }
    ensures { (n : ℕ) → held_at newest.new n
        ≡ newest_only (held_at newest.old n ++ versions_by (listed_in writes.entry) n) }
{
    for i in 0..writes.len() {
        replace(newest, writes.at(i));
    }
}
