//! Single calls on a machine, without a list of calls.

ghost use Rattle.std.specs.Prelude.{◌≡◌, ◌<◌, ◌⊎◌, ◌++◌, ◌∷◌, [], ℕ, List, length, map, slice_get};
ghost use Rattle.std.specs.Prelude.{Err, IfOk, OnOk, OnErr, Some};
ghost use Rattle.bohm_types.specs.Keys.{place};
ghost use Rattle.bohm_types.specs.Procedure.{argument_or, instance, stands_for};
ghost use Rattle.bohm_log.specs.Columns.{AllNamed};
ghost use Rattle.bohm_log.specs.Parts.{Begins, name_at, names_at};
ghost use Rattle.bohm_machine.specs.Machines.{GoesOn};
ghost use Rattle.bohm_machine.specs.Segments.{RunsOn};
ghost use Rattle.bohm_machine.specs.Singles.{HasTime, TakesCall, reply_now};
ghost use Rattle.bohm_machine.specs.declared.fault.SingleFault.TheVariants as single_is;

use crate::fault::SingleFault;
use crate::machine::Machine;
use bohm_hints::{IndexHints, is_numbered};
use bohm_log::{HashSeed, LayeredNames};
use bohm_procedures::{Compiled, Procedure};
use bohm_shapes::{Call, SlotKeys};
use bohm_txn::Replies;
use bohm_types::{Key, NoMemory, Value};
use std::alloc::Global;
use std::marker::Model;
use std::mem;

/// Keys that single calls name by their numbers, and keys that procedures name. Contracts see them
/// as a list, in which each key has its number.
pub struct CallKeys {
    names: LayeredNames<HashSeed>,
    /// The likely numbers of the keys in the machine.
    hints: IndexHints,
    /// The numbers of the keys of the current call, in the order of its procedure's names.
    numbers: Vec<u32>,
    /// Those of the call before.
    likely: Vec<u32>,
}

// Written out: a derived drop is proved anew in each function that drops such a value.
impl Drop for CallKeys {
    fn drop(self) {
        let Self {
            names,
            hints,
            numbers,
            likely,
        } = self;
        drop(names);
        drop(hints);
        drop(numbers);
        drop(likely);
    }
}

impl Model for CallKeys {
    ghost use Rattle.std.specs.Prelude.{ℕ, List};

    ghost Value = { List (List ℕ) };

    ghost view = { λ k. k.names };
}

/// The number of a key, which gets one if it has none. The key is hashed only if this number isn't
/// its number.
fn number_of(names: &mut LayeredNames<HashSeed>, key: &Key, likely: u32) -> Result<u32, NoMemory>
    ensures grows { Begins names.old names.new }
    ensures named { IfOk result (λ n. slice_get names.new n ≡ Some key.now) }
    ensures same { OnErr result (names.new ≡ names.old) }
{
    if is_numbered(names.table(), likely, key) {
        return Ok(likely);
    }
    match names.id(*key) {
        Ok(number) => Ok(number),
        Err(_) => Err(NoMemory),
    }
}

/// The number of the key that a name stands for: the argument if the name is a parameter, or else
/// the number of the name itself.
#[inline(always)]
fn number_for(
    names: &mut LayeredNames<HashSeed>,
    arguments: &[u32],
    parameter: Option<usize>,
    name: &Key,
    likely: u32,
) -> Result<u32, NoMemory>
    requires named { AllNamed names.old arguments.now }
    ensures grows { Begins names.old names.new }
    ensures within { IfOk result (λ n. n < length names.new) }
    ensures key { IfOk result (λ n. name_at names.new n
        ≡ argument_or name.now (names_at names.old arguments.now) parameter) }
{
    if let Some(place) = parameter {
        if let Some(number) = arguments.get(place) {
            return Ok(*number);
        }
    }
    number_of(names, name, likely)
}

/// Appends the numbers of the keys that the names of a compiled body stand for.
fn push_numbers(
    names: &mut LayeredNames<HashSeed>,
    arguments: &[u32],
    compiled: &Compiled,
    likely: &[u32],
    numbers: &mut Vec<u32>,
) -> Result<(), NoMemory>
    requires named { AllNamed names.old arguments.now }
    requires none { numbers.old.items ≡ [] }
    requires many { length compiled.now.parameters.items ≡ length compiled.now.shape.names.items }
    ensures grows { Begins names.old names.new }
    ensures named { OnOk result (AllNamed names.new numbers.new.items) }
    ensures keys { OnOk result ((ps : List (List ℕ))
        → compiled.now.parameters.items ≡ map (place ps) compiled.now.shape.names.items
        → names_at names.new numbers.new.items ≡ map (stands_for ps (names_at names.old arguments.now))
        compiled.now.shape.names.items) }
{
    let (declared, parameters) = (
        compiled.shape.names.as_slice(),
        compiled.parameters.as_slice(),
    );
    for i in 0..declared.len() {
        let last = match likely.get(i) {
            Some(number) => *number,
            None => u32::MAX,
        };
        let number = number_for(names, arguments, parameters[i], &declared[i], last)?;
        numbers.push(number)?;
    }
    Ok(())
}

impl CallKeys {
    /// The number of a key, by which calls name it. A key without a number gets one: it takes
    /// memory until the value is dropped, unless the machine shares it.
    pub fn number(&mut self, key: &Key) -> Result<u32, NoMemory>
        ensures grows { Begins self.old self.new }
        ensures named { IfOk result (λ n. slice_get self.new n ≡ Some key.now) }
        ensures same { OnErr result (self.new ≡ self.old) }
    {
        number_of(&mut self.names, key, u32::MAX)
    }

    /// The key with a number.
    pub fn key(&self, number: u32) -> &Key
        requires { number < length self.now }
        ensures { slice_get self.now number ≡ Some result.now }
    {
        self.names.table().name(number as usize)
    }
}

/// Replaces the numbers with those of the keys that the names of a compiled body stand for.
fn find_numbers(
    names: &mut LayeredNames<HashSeed>,
    hints: &mut IndexHints,
    numbers: &mut Vec<u32>,
    likely: &mut Vec<u32>,
    compiled: &Compiled,
    arguments: &[u32],
) -> Result<(), NoMemory>
    requires named { AllNamed names.old arguments.now }
    requires many { length compiled.now.parameters.items ≡ length compiled.now.shape.names.items }
    ensures grows { Begins names.old names.new }
    ensures named { OnOk result (AllNamed names.new numbers.new.items) }
    ensures keys { OnOk result ((ps : List (List ℕ))
        → compiled.now.parameters.items ≡ map (place ps) compiled.now.shape.names.items
        → names_at names.new numbers.new.items ≡ map (stands_for ps (names_at names.old arguments.now))
        compiled.now.shape.names.items) }
{
    mem::swap(numbers, likely);
    numbers.clear();
    push_numbers(names, arguments, compiled, likely.as_slice(), numbers)?;
    hints.cover(names.table())?;
    Ok(())
}

impl Machine {
    /// Keys for single calls on this machine. They share the names of the keys that the store had
    /// when the machine was made: such a key takes no memory in them.
    pub fn call_keys(&self, alloc: Global) -> Result<CallKeys, NoMemory> {
        let (seed, shared) = (HashSeed::from(self.seed()), self.shared_names()?);
        Ok(CallKeys {
            names: LayeredNames::sharing(alloc, seed, shared),
            hints: IndexHints::new(alloc),
            numbers: Vec::new(alloc),
            likely: Vec::new(alloc),
        })
    }

    /// Runs a call of a procedure after the top, and appends its reply. Its keys are given by their
    /// numbers. The replies and the past are those of the call's instance, as after `run_batch` of
    /// a list with this call alone, but no transaction is made. The floor is unchanged.
    ///
    /// `InList` if two of the procedure's names stand for one key, or if the procedure has no
    /// compiled body: a list runs such a call. After `NoMemory` the top and the past are as they
    /// were.
    ///
    /// The time grows with the procedure's terms, and with the square of the number of its keys.
    pub fn call(
        &mut self,
        procedure: &Procedure,
        keys: &mut CallKeys,
        arguments: &[u32],
        values: &[Value],
        answered: &mut Replies,
    ) -> Result<(), SingleFault>
        requires named { AllNamed keys.old arguments.now }
        requires takes { TakesCall procedure.now (length arguments.now) (length values.now) }
        ensures names { Begins keys.old keys.new }
        ensures time { OnOk result (HasTime self.old) }
        ensures goes_on { OnOk result (GoesOn self.old self.new
            (instance procedure.now (names_at keys.old arguments.now) values.now ∷ [])
            (reply_now self.old procedure.now (names_at keys.old arguments.now) values.now ∷ [])) }
        ensures runs_on { OnOk result (RunsOn self.old self.new
            (instance procedure.now (names_at keys.old arguments.now) values.now ∷ [])
            (reply_now self.old procedure.now (names_at keys.old arguments.now) values.now ∷ [])) }
        ensures answered { OnOk result (answered.new ≡ answered.old
            ++ reply_now self.old procedure.now (names_at keys.old arguments.now) values.now ∷ []) }
        ensures timestamps { result ≡ Err single_is.Timestamps → ¬ HasTime self.old }
        ensures unchanged { (result ≡ Err single_is.Timestamps) ⊎ (result ≡ Err single_is.InList)
            → self.new ≡ self.old }
        ensures no_memory { result ≡ Err single_is.NoMemory → GoesOn self.old self.new [] [] }
        ensures unanswered { OnErr result (answered.new ≡ answered.old) }
    {
        if self.top() == u32::MAX {
            return Err(SingleFault::Timestamps);
        }
        let Some(compiled) = procedure.compiled() else {
            return Err(SingleFault::InList);
        };
        find_numbers(
            &mut keys.names,
            &mut keys.hints,
            &mut keys.numbers,
            &mut keys.likely,
            compiled,
            arguments,
        )?;
        let slots = SlotKeys::new(keys.names.table(), keys.numbers.as_slice());
        let Some(call) = Call::new(&compiled.shape, &slots, values) else {
            return Err(SingleFault::InList);
        };
        let (history, hints) = (&mut self.history, &mut keys.hints);
        self.executor
            .run_call(history, answered, &call, hints, u32::MAX)?;
        Ok(())
    }
}
