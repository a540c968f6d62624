//! Laws of slices of keys and values, for callers that keep them. Their loops have no effect.

ghost use Rattle.std.specs.List.{AllByRecursion};
ghost use Rattle.bohm_types.specs.Sound.{IsNumber, IsEntry};
ghost use Rattle.bohm_log.specs.Handles.{keys_named};
ghost use Rattle.bohm_log.specs.SoundLogs.{AreNames};

use crate::key_handle::KeyHandle;
use bohm_types::{Key, Value};

/// Keys are names.
pub fn are_names(keys: &[Key])
    ensures { AreNames keys.now }
{
    for key in keys {
        key.has_name();
    }
}

/// The keys of handles are names.
pub fn are_named(handles: &[KeyHandle])
    ensures { AreNames (keys_named handles.now) }
{
    for handle in handles {
        handle.key.has_name();
    }
}

/// Values are 64-bit numbers.
pub fn are_values(values: &[Value])
    ensures { AllByRecursion IsNumber values.now }
{
    for value in values {
        // The call's contract says that the result is a 64-bit number.
        let _ = value.get();
    }
}

fn is_entry(entry: &(Key, Value))
    ensures { IsEntry entry.now }
{
    entry.0.has_name();
    // The call's contract says that the result is a 64-bit number.
    let _ = entry.1.get();
}

/// The keys of entries are names, and their values are 64-bit numbers.
pub fn are_entries(entries: &[(Key, Value)])
    ensures { AllByRecursion IsEntry entries.now }
{
    for entry in entries {
        is_entry(entry);
    }
}
