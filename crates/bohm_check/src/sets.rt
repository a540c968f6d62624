//! Sets of keys, and their corrected lines.

use crate::shown::{put_number, put_text};
use bohm_log::Keys;
use bohm_types::{Key, MOST_KEYS, NoMemory};
use std::alloc::Global;

/// The first key that isn't above the key before it, preceded by the key before it.
pub fn first_fall(keys: &[Key]) -> Option<(Key, Key)> {
    let nexts = keys.get(1..).unwrap_or(&[]);
    for (key, next) in keys.iter().zip(nexts.iter()) {
        if *key >= *next {
            return Some((*key, *next));
        }
    }
    None
}

/// The keys of a set, in its order.
pub fn keys_of(alloc: Global, set: &Keys<'_>) -> Result<Vec<Key>, NoMemory> {
    let mut keys = Vec::new(alloc);
    for place in 0..set.len() {
        keys.push(*set.key(place))?;
    }
    Ok(keys)
}

/// The keys in ascending order, each once.
pub fn in_order(alloc: Global, mut keys: Vec<Key>) -> Result<Vec<Key>, NoMemory> {
    keys.sort()?;
    let mut sorted: Vec<Key> = Vec::new(alloc);
    for key in keys {
        if sorted.last() != Some(&key) {
            sorted.push(key)?;
        }
    }
    Ok(sorted)
}

/// The corrected line of a set, to replace the shown line or the line with this number. Nothing if
/// it would have too many keys.
pub fn put_set_help(
    out: &mut Vec<u8>,
    line: Option<u64>,
    word: &str,
    keys: &[Key],
) -> Result<(), NoMemory> {
    if keys.len() > MOST_KEYS {
        return Ok(());
    }
    put_text(out, "help")?;
    if let Some(line) = line {
        put_text(out, ", line ")?;
        put_number(out, line)?;
    }
    put_text(out, ": ")?;
    put_text(out, word)?;
    for key in keys {
        put_text(out, " ")?;
        out.extend_from_slice(key.text().as_slice())?;
    }
    put_text(out, "\n")
}
