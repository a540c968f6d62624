//! The keys that handles name by their numbers.

ghost use Rattle.std.specs.Prelude.{◌≡◌, ◌<◌, ◌++◌, [], ◌∷◌, IfOk, OnOk, OnErr, length};
ghost use Rattle.bohm_log.specs.Columns.{AllNamed};
ghost use Rattle.bohm_log.specs.Handles.{keys_named};
ghost use Rattle.bohm_log.specs.Parts.{Begins, name_at, names_at};

use bohm_log::{HashSeed, SharedNames};
use bohm_procedures::{Calls, KeyHandle};
use bohm_types::{Key, NoMemory};
use std::alloc::Global;
use std::marker::Model;

/// Keys, indexed by handle number. A key that a machine shares takes four bytes.
#[derive(Drop)]
pub struct KeyNames {
    shared: SharedNames<HashSeed>,
    /// The keys that aren't shared.
    own: Vec<KeyHandle>,
    /// For each handle, the number of its key: shared keys first, then those in `own`.
    numbers: Vec<u32>,
}

impl Model for KeyNames {
    ghost use Rattle.std.specs.Prelude.{ℕ, List, ◌++◌};
    ghost use Rattle.bohm_log.specs.Columns.{AllNamed};
    ghost use Rattle.bohm_log.specs.Handles.{keys_named};
    ghost use Rattle.bohm_log.specs.Parts.{names_at};

    ghost Value = { List (List ℕ) };

    ghost view = { λ n. names_at (n.shared ++ keys_named n.own.items) n.numbers.items };

    ghost invariant = { λ n. AllNamed (n.shared ++ keys_named n.own.items) n.numbers.items };
}

/// Adds a key after the shared ones, and returns its number.
fn add_own(
    shared: &SharedNames<HashSeed>,
    own: &mut Vec<KeyHandle>,
    key: KeyHandle,
) -> Result<u32, NoMemory>
    ensures number { IfOk result (λ n. n ≡ length (shared.now ++ keys_named own.old.items)) }
    ensures ok { OnOk result
        (keys_named own.new.items ≡ keys_named own.old.items ++ key.key ∷ []) }
    ensures err { OnErr result (own.new.items ≡ own.old.items) }
{
    let Ok(number) = u32::try_from(shared.len().saturating_add(own.len())) else {
        return Err(NoMemory);
    };
    own.push(key)?;
    Ok(number)
}

/// The number of a key, which is added if it isn't shared.
fn number_of(
    shared: &SharedNames<HashSeed>,
    own: &mut Vec<KeyHandle>,
    calls: &mut Calls,
    key: &Key,
) -> Result<u32, NoMemory>
    ensures calls { calls.new ≡ calls.old }
    ensures named { IfOk result
        (λ n. n < length (shared.now ++ keys_named own.new.items)) }
    ensures key { IfOk result
        (λ n. name_at (shared.now ++ keys_named own.new.items) n ≡ key.now) }
    ensures grows { Begins (shared.now ++ keys_named own.old.items)
        (shared.now ++ keys_named own.new.items) }
{
    if let Some(number) = shared.find(key) {
        return Ok(number);
    }
    let handle = calls.handle(key)?;
    let number = add_own(shared, own, handle)?;
    Ok(number)
}

/// Appends the handle of the key with a number, copied once, with the number that it is likely to
/// have in a list.
#[inline(always)]
fn push_key(
    keys: &mut Vec<KeyHandle>,
    shared: &SharedNames<HashSeed>,
    own: &[KeyHandle],
    number: u32,
) -> Result<(), NoMemory>
    requires { number < length (shared.now ++ keys_named own.now) }
    ensures { OnOk result (keys_named keys.new.items ≡ keys_named keys.old.items
        ++ name_at (shared.now ++ keys_named own.now) number ∷ []) }
{
    match shared.handle(number) {
        Some(key) => keys.push(key)?,
        None => keys.push(own[number as usize - shared.len()])?,
    }
    Ok(())
}

/// The key with a number.
fn key_at(shared: &SharedNames<HashSeed>, own: &[KeyHandle], number: u32) -> Key
    requires { number < length (shared.now ++ keys_named own.now) }
    ensures { result ≡ name_at (shared.now ++ keys_named own.now) number }
{
    match shared.handle(number) {
        Some(key) => key.key(),
        None => own[number as usize - shared.len()].key(),
    }
}

impl KeyNames {
    /// No handles, in a list that shares these names. It allocates nothing.
    pub fn sharing(alloc: Global, shared: SharedNames<HashSeed>) -> KeyNames
        ensures { result ≡ [] }
    {
        KeyNames {
            shared,
            own: Vec::new(alloc),
            numbers: Vec::new(alloc),
        }
    }

    /// The number of handles.
    pub fn len(&self) -> usize
        ensures { result ≡ length self.now }
    {
        self.numbers.len()
    }

    /// Adds a handle of a key, which is looked up in a list of calls if it isn't shared.
    pub fn push(&mut self, calls: &mut Calls, key: &Key) -> Result<(), NoMemory>
        ensures calls { calls.new ≡ calls.old }
        ensures ok { OnOk result (self.new ≡ self.old ++ key.now ∷ []) }
        ensures err { OnErr result (self.new ≡ self.old) }
    {
        let number = number_of(&self.shared, &mut self.own, calls, key)?;
        self.numbers.push(number)?;
        Ok(())
    }

    /// Appends the key of a handle.
    #[inline(always)]
    fn push_named(&self, keys: &mut Vec<KeyHandle>, handle: u32) -> Result<(), NoMemory>
        requires { handle < length self.now }
        ensures { OnOk result (keys_named keys.new.items
            ≡ keys_named keys.old.items ++ name_at self.now handle ∷ []) }
    {
        let number = self.numbers[handle as usize];
        push_key(keys, &self.shared, self.own.as_slice(), number)
    }

    /// The key of a handle.
    fn key(&self, handle: usize) -> Key
        requires { handle < length self.now }
        ensures { result ≡ name_at self.now handle }
    {
        let number = self.numbers[handle];
        key_at(&self.shared, self.own.as_slice(), number)
    }

    /// Adds a handle of each key that has one in another list, in the same order.
    pub fn push_all(&mut self, calls: &mut Calls, other: &KeyNames) -> Result<(), NoMemory>
        ensures calls { calls.new ≡ calls.old }
        ensures ok { OnOk result (self.new ≡ self.old ++ other.now) }
    {
        for handle in 0..other.len() {
            self.push(calls, &other.key(handle))?;
        }
        Ok(())
    }

    /// Fills a vector with the keys of these handles.
    pub fn fill(&self, keys: &mut Vec<KeyHandle>, handles: &[u32]) -> Result<(), NoMemory>
        requires { AllNamed self.now handles.now }
        ensures { OnOk result (keys_named keys.new.items ≡ names_at self.now handles.now) }
    {
        keys.clear();
        for handle in handles {
            self.push_named(keys, *handle)?;
        }
        Ok(())
    }
}
