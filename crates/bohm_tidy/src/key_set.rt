//! The line of a set: its keys in order, each once.

ghost use Rattle.std.specs.Prelude.{◌≡◌, ◌++◌, ◌∷◌, [], IfOk};
ghost use Rattle.bohm_text.specs.Print.{line_text};
ghost use Rattle.bohm_types.specs.KeySets.{key_set};

use bohm_txn::sort_keys;
use bohm_types::{Key, NoMemory};

/// Appends a line with the keys of a set after a word.
pub fn put_set(out: &mut Vec<u8>, word: &[u8], keys: &mut Vec<Key>) -> Result<(), NoMemory>
    ensures { IfOk result
        (λ _. out.new.items ≡ out.old.items ++ line_text (word.now ∷ key_set keys.old.items) ++ 10 ∷ []) }
{
    sort_keys(keys);
    put_keys(out, word, keys.as_slice())
}

/// Appends a line with keys after a word.
fn put_keys(out: &mut Vec<u8>, word: &[u8], keys: &[Key]) -> Result<(), NoMemory>
    ensures { IfOk result
        (λ _. out.new.items ≡ out.old.items ++ line_text (word.now ∷ keys.now) ++ 10 ∷ []) }
{
    out.extend_from_slice(word)?;
    for key in keys {
        out.push(b' ')?;
        out.extend_from_slice(key.text().as_slice())?;
    }
    out.push(b'\n')?;
    Ok(())
}
