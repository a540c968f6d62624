//! Stores as rows: a key and a value each.

ghost use Rattle.std.specs.Prelude.{◌≡◌, None, Err, IfOk, IfSome, map};
ghost use Rattle.std.specs.List.{AllByRecursion, Any};
ghost use Rattle.bohm_types.specs.Keys.{names_of};
ghost use Rattle.bohm_types.specs.Name.{key_of};
ghost use Rattle.bohm_types.specs.Sound.{IsName};
ghost use Rattle.bohm_types.specs.Words.{before_zero, padded};
ghost use Rattle.bohm_c.specs.Entries.{entry_of, entry_row, name_in};
ghost use Rattle.bohm_c.specs.declared.key_fault.KeyFault.TheVariants as key_is;

use crate::key_fault::KeyFault;
use bohm_types::{Key, NoMemory, Value};
use std::alloc::Global;

/// An entry of a store: a key, which zeros fill up to 32 bytes, and its value.
#[repr(C)]
#[derive(Clone, Copy, Debug)]
pub struct BohmEntry {
    pub key: [u8; 32],
    pub value: i64,
}

/// The bytes before the first zero.
fn name_of(bytes: &[u8]) -> &[u8]
    ensures { result.now ≡ before_zero bytes.now }
{
    for end in 0..bytes.len() {
        if bytes[end] == 0 {
            return &bytes[..end];
        }
    }
    bytes
}

/// The entry of a row, if its key's bytes are a key.
fn entry_in(row: &BohmEntry) -> Option<(Key, Value)>
    ensures some { IfSome result (λ e. e ≡ entry_of row.now) }
    ensures named { IfSome result (λ e. IsName e.0) }
    ensures none { result ≡ None → key_of (name_in row.now) ≡ None }
{
    let key = Key::new(name_of(&row.key))?;
    key.has_name();
    Some((key, Value::from(row.value)))
}

/// The entries of these rows.
pub fn entries_of(alloc: Global, rows: &[BohmEntry]) -> Result<Vec<(Key, Value)>, KeyFault>
    ensures ok { IfOk result (λ v. v.items ≡ map entry_of rows.now) }
    ensures named { IfOk result (λ v. AllByRecursion IsName (names_of v.items)) }
    ensures no_key { result ≡ Err key_is.NoKey → Any (λ r. key_of (name_in r) ≡ None) rows.now }
{
    let mut entries = Vec::new(alloc);
    entries.reserve(rows.len()).map_err(|_| KeyFault::NoMemory)?;
    for row in rows {
        let Some(entry) = entry_in(row) else {
            return Err(KeyFault::NoKey);
        };
        if entries.push(entry).is_err() {
            return Err(KeyFault::NoMemory);
        }
    }
    Ok(entries)
}

/// The bytes of a key, which zeros fill up to 32 bytes.
fn bytes_of(key: &Key) -> [u8; 32]
    ensures { result ≡ padded 32 key.now }
{
    let text = key.text();
    let name = text.as_slice();
    let mut bytes = [0u8; 32];
    bytes[..name.len()].copy_from_slice(name);
    bytes
}

/// The row of an entry.
fn row_of(key: &Key, value: Value) -> BohmEntry
    ensures { result ≡ entry_row (key.now, value) }
{
    BohmEntry {
        key: bytes_of(key),
        value: value.get(),
    }
}

/// The rows of a store's entries.
pub fn entry_rows(alloc: Global, entries: &[(Key, Value)]) -> Result<Vec<BohmEntry>, NoMemory>
    ensures { IfOk result (λ v. v.items ≡ map entry_row entries.now) }
{
    let mut rows = Vec::new(alloc);
    rows.reserve(entries.len())?;
    for (key, value) in entries {
        rows.push(row_of(key, *value))?;
    }
    Ok(rows)
}
