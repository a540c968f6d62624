//! The arguments of a call.

ghost use Rattle.std.specs.Prelude.{◌≡◌, ◌∷◌, ◌≤◌, ◌<◌, ◌+◌, [], true, false, Err, Some, None, IfOk, OnOk, length, drop, take};
ghost use Rattle.bohm_text.specs.Reading.{keys_of};
ghost use Rattle.bohm_entries.specs.Batches.{values_of};
ghost use Rattle.bohm_entries.specs.declared.refusal.EntryFault.TheVariants as fault_is;
ghost use Rattle.bohm_entries.specs.declared.refusal.Refusal.{Refusal as TheRefusal};
ghost use Rattle.bohm_entries.specs.declared.refusal.Refusal.TheVariants as refusal_is;
ghost use Rattle.bohm_entries.specs.Refusals.{RefusesArguments};

use crate::refusal::{EntryFault, Refusal};
use bohm_text::{Words, read_number};
use bohm_types::{Key, Value};
use std::alloc::Global;

/// The arguments of a call.
#[derive(Drop)]
pub struct Arguments {
    /// The arguments for keys, in order.
    pub keys: Vec<Key>,
    /// The arguments for values, in order.
    pub values: Vec<Value>,
}

/// Takes this many words away, if there are as many.
fn skip(words: &mut Words<'_>, count: usize) -> bool
    ensures rest { result ≡ true → words.new ≡ drop count words.old }
    ensures enough { result ≡ true → count ≤ length words.old }
    ensures few { result ≡ false → length words.old < count }
{
    'words: for _ in 0..count {
        let Some(_) = words.next() else {
            return false;
        };
    }
    true
}

/// The values that the words spell.
fn read_values(alloc: Global, words: Words<'_>) -> Result<Vec<Value>, EntryFault>
    ensures found { IfOk result (λ values. values_of words.entry ≡ Some values.items) }
    ensures refused { (r : TheRefusal) → result ≡ Err (fault_is.Refused r)
        → (r ≡ refusal_is.Value) × (values_of words.entry ≡ None) }
{
    let mut rest = words;
    let mut values = Vec::new(alloc);
    'words: while let Some(word) = rest.next() {
        let Some(value) = read_number(word) else {
            return Err(EntryFault::Refused(Refusal::Value));
        };
        values.push(Value::from(value))?;
    }
    Ok(values)
}

/// The keys that this many words spell.
fn read_keys(alloc: Global, words: Words<'_>, count: usize) -> Result<Vec<Key>, EntryFault>
    ensures found { IfOk result (λ keys. keys_of (take count words.entry) ≡ Some keys.items) }
    ensures refused { (r : TheRefusal) → result ≡ Err (fault_is.Refused r)
        → (r ≡ refusal_is.Key) × (keys_of (take count words.entry) ≡ None) }
{
    let mut rest = words;
    let mut keys = Vec::new(alloc);
    'words: for _ in 0..count {
        let Some(word) = rest.next() else {
            return Ok(keys);
        };
        let Some(key) = Key::new(word) else {
            return Err(EntryFault::Refused(Refusal::Key));
        };
        keys.push(key)?;
    }
    Ok(keys)
}

/// Reads the arguments of a call of a procedure with this many parameters of each kind, keys before
/// values. The first of these refusals is answered: `Arguments` for another number of words,
/// `Value`, `Key`.
pub fn read_arguments(
    alloc: Global,
    words: Words<'_>,
    keys: usize,
    values: usize,
) -> Result<Arguments, EntryFault>
    ensures keys { IfOk result (λ a. keys_of (take keys words.entry) ≡ Some a.keys.items) }
    ensures values { IfOk result (λ a. values_of (drop keys words.entry) ≡ Some a.values.items) }
    ensures counts { IfOk result (λ a. (length a.keys.items ≡ keys) × (length a.values.items ≡ values)) }
    ensures words { OnOk result (length words.entry ≡ keys + values) }
    ensures refused { (r : TheRefusal) → result ≡ Err (fault_is.Refused r) → RefusesArguments words.entry keys values r }
{
    let mut behind = words.fork();
    if !skip(&mut behind, keys) {
        return Err(EntryFault::Refused(Refusal::Arguments));
    }
    let mut ahead = behind.fork();
    if !skip(&mut ahead, values) {
        return Err(EntryFault::Refused(Refusal::Arguments));
    }
    let None = ahead.next() else {
        return Err(EntryFault::Refused(Refusal::Arguments));
    };
    let values_read = read_values(alloc, behind)?;
    let keys_read = read_keys(alloc, words, keys)?;
    Ok(Arguments {
        keys: keys_read,
        values: values_read,
    })
}
