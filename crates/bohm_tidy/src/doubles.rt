//! The first key that a store names twice.

use bohm_types::{Key, NoMemory, Value};
use std::alloc::Global;

/// The indices of two entries with one key.
#[derive(Clone, Copy)]
pub struct Places {
    pub first: usize,
    pub again: usize,
}

/// The index of the first entry whose key occurs before it, and the index of that key's first
/// entry.
pub fn first_double(alloc: Global, store: &[(Key, Value)]) -> Result<Places, NoMemory> {
    let mut keys = Vec::with_capacity(alloc, store.len())?;
    for (place, entry) in store.iter().enumerate() {
        keys.push((entry.0, place))?;
    }
    keys.sort_unstable();
    Ok(least_double(keys.as_slice()))
}

/// The pair whose repeated entry is earlier in the store.
fn earlier(one: Option<Places>, other: Places) -> Places {
    match one {
        Some(places) if places.again <= other.again => places,
        _ => other,
    }
}

/// Among sorted keys with their indices: the least index of an entry whose key occurs before it,
/// and that key's first index.
fn least_double(keys: &[(Key, usize)]) -> Places {
    let mut found = None;
    let mut start = 0;
    for index in 1..keys.len() {
        if keys[index].0 == keys[start].0 {
            let places = Places {
                first: keys[start].1,
                again: keys[index].1,
            };
            found = Some(earlier(found, places));
        } else {
            start = index;
        }
    }
    match found {
        Some(places) => places,
        None => Places { first: 0, again: 0 },
    }
}
