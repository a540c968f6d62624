//! Single calls on a machine, without a list of the caller's.

ghost use Rattle.std.specs.Prelude.{◌≡◌, ◌≢◌, ◌++◌, ◌⊎◌, [], ◌∷◌, ◌↔◌, true, None, Some, Err, IfOk, OnOk, OnErr};
ghost use Rattle.std.specs.Prelude.{length, map};
ghost use Rattle.std.specs.List.{Any};
ghost use Rattle.bohm_types.specs.Name.{key_of};
ghost use Rattle.bohm_log.specs.Columns.{AllNamed};
ghost use Rattle.bohm_log.specs.Handles.{keys_named};
ghost use Rattle.bohm_log.specs.Parts.{names_at};
ghost use Rattle.bohm_machine.specs.Machines.{GoesOn};
ghost use Rattle.bohm_c.specs.Calling.{Fits, HasNoTime, Ran, reply_now};
ghost use Rattle.bohm_c.specs.declared.key_fault.KeyFault.TheVariants as key_is;
ghost use Rattle.bohm_c.specs.declared.single_calls.CallFault.TheVariants as call_is;

use crate::call_list::{fill_handles, fill_values};
use crate::key_fault::KeyFault;
use crate::key_names::KeyNames;
use bohm_machine::{BatchFault, Machine, SegmentFault};
use bohm_procedures::{Calls, KeyHandle, Procedure};
use bohm_txn::Replies;
use bohm_types::{Edition, Key, NoMemory, Value};
use std::alloc::Global;
use std::marker::Model;

/// Why a call isn't run.
#[derive(Clone, Copy, Debug, PartialEq, Eq)]
pub enum CallFault {
    /// An argument isn't taken.
    Key(KeyFault),
    /// The machine's timestamps are used up.
    Timestamps,
}

impl From<KeyFault> for CallFault {
    ghost from_gives = { λ fault e. e ≡ call_is.Key fault };

    fn from(fault: KeyFault) -> CallFault {
        CallFault::Key(fault)
    }
}

impl From<NoMemory> for CallFault {
    ghost from_gives = { λ _ e. e ≡ call_is.Key key_is.NoMemory };

    fn from(_e: NoMemory) -> CallFault {
        CallFault::Key(KeyFault::NoMemory)
    }
}

/// A list for each edition, which holds one call at a time. Contracts see nothing of them.
struct Lists {
    one: Calls,
    two: Calls,
}

impl Drop for Lists {
    fn drop(self) {
        let Self { one, two } = self;
        drop(one);
        drop(two);
    }
}

impl Model for Lists {
    ghost use Rattle.std.specs.Prelude.{◌≡◌};
    ghost use Rattle.bohm_types.specs.declared.edition.Edition.TheVariants as edition_is;

    ghost Value = { Unit {0} };

    ghost view = { λ _. tt };

    ghost invariant = { λ l. (l.one.edition ≡ edition_is.One) × (l.two.edition ≡ edition_is.Two) };
}

/// Runs the call in a list that is cleared before.
fn run_in(
    calls: &mut Calls,
    machine: &mut Machine,
    procedure: &Procedure,
    keys: &[KeyHandle],
    values: &[Value],
    answered: &mut Replies,
) -> Result<(), CallFault>
    requires fits { Fits procedure.now (length (keys_named keys.now)) (length values.now) }
    requires edition { procedure.now.edition ≡ calls.old.edition }
    ensures edition { calls.new.edition ≡ calls.old.edition }
    ensures ran { OnOk result
        (Ran machine.old machine.new procedure.now (keys_named keys.now) values.now) }
    ensures answered { OnOk result (answered.new ≡ answered.old
        ++ reply_now machine.old procedure.now (keys_named keys.now) values.now ∷ []) }
    ensures timestamps { result ≡ Err call_is.Timestamps → HasNoTime machine.old }
    ensures unchanged { result ≡ Err call_is.Timestamps → machine.new ≡ machine.old }
    ensures still { result ≡ Err (call_is.Key key_is.NoMemory) → GoesOn machine.old machine.new [] [] }
    ensures others { OnErr result
        ((result ≡ Err call_is.Timestamps) ⊎ (result ≡ Err (call_is.Key key_is.NoMemory))) }
    ensures unanswered { OnErr result (answered.new ≡ answered.old) }
{
    calls.clear();
    calls.push_named(procedure, keys, values)?;
    match machine.run_batch(calls, answered) {
        Ok(()) => Ok(()),
        Err(BatchFault::Segment(SegmentFault::Timestamps)) => Err(CallFault::Timestamps),
        Err(BatchFault::Segment(SegmentFault::Store)) => unreachable!(),
        Err(BatchFault::NoMemory) => Err(CallFault::Key(KeyFault::NoMemory)),
    }
}

impl Lists {
    /// Runs the call in the list of its procedure's edition.
    fn run(
        &mut self,
        machine: &mut Machine,
        procedure: &Procedure,
        keys: &[KeyHandle],
        values: &[Value],
        answered: &mut Replies,
    ) -> Result<(), CallFault>
        requires { Fits procedure.now (length (keys_named keys.now)) (length values.now) }
        ensures ran { OnOk result
            (Ran machine.old machine.new procedure.now (keys_named keys.now) values.now) }
        ensures answered { OnOk result (answered.new ≡ answered.old
            ++ reply_now machine.old procedure.now (keys_named keys.now) values.now ∷ []) }
        ensures timestamps { result ≡ Err call_is.Timestamps → HasNoTime machine.old }
        ensures unchanged { result ≡ Err call_is.Timestamps → machine.new ≡ machine.old }
        ensures still { result ≡ Err (call_is.Key key_is.NoMemory) → GoesOn machine.old machine.new [] [] }
        ensures others { OnErr result
            ((result ≡ Err call_is.Timestamps) ⊎ (result ≡ Err (call_is.Key key_is.NoMemory))) }
        ensures unanswered { OnErr result (answered.new ≡ answered.old) }
    {
        match procedure.edition() {
            Edition::One => run_in(&mut self.one, machine, procedure, keys, values, answered),
            Edition::Two => run_in(&mut self.two, machine, procedure, keys, values, answered),
        }
    }

    /// Fills a vector with handles of the keys with these names, for a call of this edition.
    fn fill(
        &self,
        edition: Edition,
        handles: &mut Vec<KeyHandle>,
        names: &[&[u8]],
    ) -> Result<(), KeyFault>
        ensures ok { OnOk result (keys_named handles.new.items ≡ map (λ n. n.now) names.now) }
        ensures no_key { result ≡ Err key_is.NoKey → Any (λ n. key_of n.now ≡ None) names.now }
    {
        match edition {
            Edition::One => fill_handles(handles, &self.one, names),
            Edition::Two => fill_handles(handles, &self.two, names),
        }
    }
}

/// A machine's own lists, the keys that its handles name, and buffers for a call's arguments.
pub struct SingleCalls {
    lists: Lists,
    names: KeyNames,
    named: Vec<KeyHandle>,
    values: Vec<Value>,
}

// Written out: a derived drop is proved anew in each function that drops such a value.
impl Drop for SingleCalls {
    fn drop(self) {
        let Self {
            lists,
            names,
            named,
            values,
        } = self;
        drop(lists);
        drop(names);
        drop(named);
        drop(values);
    }
}

impl Model for SingleCalls {
    ghost use Rattle.std.specs.Prelude.{ℕ, List};

    ghost Value = { List (List ℕ) };

    ghost view = { λ s. s.names };
}

impl SingleCalls {
    /// No handles yet. The lists share the names of the machine's keys.
    pub fn of(alloc: Global, machine: &Machine) -> Result<SingleCalls, NoMemory>
        ensures { IfOk result (λ single. single ≡ []) }
    {
        Ok(SingleCalls {
            lists: Lists {
                one: machine.calls(alloc, Edition::One)?,
                two: machine.calls(alloc, Edition::Two)?,
            },
            names: KeyNames::sharing(alloc, machine.shared_names()?),
            named: Vec::new(alloc),
            values: Vec::new(alloc),
        })
    }

    /// The same handles, for another machine.
    pub fn moved(&self, alloc: Global, machine: &Machine) -> Result<SingleCalls, NoMemory>
        ensures { IfOk result (λ single. single ≡ self.now) }
    {
        let mut moved = SingleCalls::of(alloc, machine)?;
        moved.names.push_all(&mut moved.lists.two, &self.names)?;
        Ok(moved)
    }

    /// A new handle of a key, valid as long as the machine. `NoMemory` if an allocation fails, or
    /// if there are 2^32 handles and shared keys.
    fn handle(&mut self, key: &Key) -> Result<u32, NoMemory>
        ensures place { IfOk result (λ h. h ≡ length self.old) }
        ensures ok { OnOk result (self.new ≡ self.old ++ key.now ∷ []) }
        ensures unchanged { OnErr result (self.new ≡ self.old) }
    {
        let Ok(handle) = u32::try_from(self.names.len()) else {
            return Err(NoMemory);
        };
        self.names.push(&mut self.lists.two, key)?;
        Ok(handle)
    }

    /// A new handle of the key with this name, valid as long as the machine.
    pub fn handle_of(&mut self, name: &[u8]) -> Result<u32, KeyFault>
        ensures key { OnOk result (key_of name.now ≡ Some name.now) }
        ensures place { IfOk result (λ h. h ≡ length self.old) }
        ensures ok { OnOk result (self.new ≡ self.old ++ name.now ∷ []) }
        ensures no_key { result ≡ Err key_is.NoKey → key_of name.now ≡ None }
        ensures unchanged { OnErr result (self.new ≡ self.old) }
    {
        let Some(key) = Key::new(name) else {
            return Err(KeyFault::NoKey);
        };
        Ok(self.handle(&key)?)
    }

    /// Whether all these are handles of the machine.
    pub fn knows(&self, handles: &[u32]) -> bool
        ensures { (result ≡ true) ↔ AllNamed self.now handles.now }
    {
        let count = self.names.len();
        handles.iter().all(|handle| (*handle as usize) < count)
    }

    /// Runs the call of a procedure on the machine, and appends its reply.
    pub fn run(
        &mut self,
        machine: &mut Machine,
        procedure: &Procedure,
        names: &[&[u8]],
        numbers: &[i64],
        answered: &mut Replies,
    ) -> Result<(), CallFault>
        requires { Fits procedure.now (length names.now) (length numbers.now) }
        ensures same { self.new ≡ self.old }
        ensures ran { OnOk result (Ran machine.old machine.new procedure.now
            (map (λ n. n.now) names.now) numbers.now) }
        ensures answered { OnOk result (answered.new ≡ answered.old ++ reply_now machine.old
            procedure.now (map (λ n. n.now) names.now) numbers.now ∷ []) }
        ensures no_key { result ≡ Err (call_is.Key key_is.NoKey) → Any (λ n. key_of n.now ≡ None) names.now }
        ensures timestamps { result ≡ Err call_is.Timestamps → HasNoTime machine.old }
        ensures unchanged { OnErr result
            ((machine.new ≡ machine.old) ⊎ (result ≡ Err (call_is.Key key_is.NoMemory))) }
        ensures still { result ≡ Err (call_is.Key key_is.NoMemory) → GoesOn machine.old machine.new [] [] }
        ensures unanswered { OnErr result (answered.new ≡ answered.old) }
    {
        self.lists
            .fill(procedure.edition(), &mut self.named, names)?;
        fill_values(&mut self.values, numbers)?;
        let lists = &mut self.lists;
        lists.run(machine, procedure, &self.named, &self.values, answered)
    }

    /// Runs the call as `run` does, with its keys given by handles.
    pub fn run_named(
        &mut self,
        machine: &mut Machine,
        procedure: &Procedure,
        handles: &[u32],
        numbers: &[i64],
        answered: &mut Replies,
    ) -> Result<(), CallFault>
        requires known { AllNamed self.old handles.now }
        requires fits { Fits procedure.now (length handles.now) (length numbers.now) }
        ensures same { self.new ≡ self.old }
        ensures ran { OnOk result (Ran machine.old machine.new procedure.now
            (names_at self.old handles.now) numbers.now) }
        ensures answered { OnOk result (answered.new ≡ answered.old ++ reply_now machine.old
            procedure.now (names_at self.old handles.now) numbers.now ∷ []) }
        ensures key { result ≢ Err (call_is.Key key_is.NoKey) }
        ensures timestamps { result ≡ Err call_is.Timestamps → HasNoTime machine.old }
        ensures unchanged { OnErr result
            ((machine.new ≡ machine.old) ⊎ (result ≡ Err (call_is.Key key_is.NoMemory))) }
        ensures still { result ≡ Err (call_is.Key key_is.NoMemory) → GoesOn machine.old machine.new [] [] }
        ensures unanswered { OnErr result (answered.new ≡ answered.old) }
    {
        self.names.fill(&mut self.named, handles)?;
        fill_values(&mut self.values, numbers)?;
        let lists = &mut self.lists;
        lists.run(machine, procedure, &self.named, &self.values, answered)
    }
}
