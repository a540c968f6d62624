//! Lists of calls, with buffers for C's arguments.

ghost use Rattle.std.specs.Prelude.{◌≡◌, ◌≢◌, ◌<◌, ◌↔◌, [], true, false, length, map, take};
ghost use Rattle.std.specs.Prelude.{None, Err, IfOk, IfErr, OnOk, OnErr};
ghost use Rattle.std.specs.List.{Any};
ghost use Rattle.bohm_types.specs.Appending.{with_txn};
ghost use Rattle.bohm_types.specs.Limits.{largest_batch};
ghost use Rattle.bohm_types.specs.Name.{key_of};
ghost use Rattle.bohm_types.specs.Procedure.{instance};
ghost use Rattle.bohm_log.specs.Handles.{keys_named};
ghost use Rattle.bohm_machine.specs.Machines.{GoesOn};
ghost use Rattle.bohm_machine.specs.Segments.{AreWholeBatches, IsRefused, IsTaken, RunsOn};
ghost use Rattle.bohm_machine.specs.Shares.{are_shared};
ghost use Rattle.bohm_machine.specs.declared.fault.SegmentFault.{SegmentFault};
ghost use Rattle.bohm_machine.specs.declared.fault.ShareFault.TheVariants as share_is;
ghost use Rattle.bohm_procedures.specs.Accepting.{Takes, TakesCounts};
ghost use Rattle.bohm_text.specs.Print.{print_doc};
ghost use Rattle.bohm_c.specs.Calling.{IsPushed};
ghost use Rattle.bohm_c.specs.Listed.{Knows, cleared, empty_list, named_by, with_name};
ghost use Rattle.bohm_c.specs.declared.call_list.PushFault.TheVariants as push_is;
ghost use Rattle.bohm_c.specs.declared.key_fault.KeyFault.TheVariants as key_is;

use crate::handing::Text;
use crate::key_fault::KeyFault;
use crate::key_names::KeyNames;
use bohm_apply::{Applied, Executors};
use bohm_log::{DrawnSeed, SharedNames};
use bohm_machine::{Machine, ShareFault, SharedCalls};
use bohm_procedures::{Calls, KeyHandle, Procedure};
use bohm_txn::Checked;
use bohm_types::{Edition, Key, NoMemory, Value};
use std::alloc::Global;
use std::marker::Model;

/// Calls, the keys that handles name by their numbers, and buffers for the next call's arguments.
pub struct CallList {
    calls: Calls,
    names: KeyNames,
    named: Vec<KeyHandle>,
    values: Vec<Value>,
}

// Written out: a derived drop is proved anew in each function that drops such a value.
impl Drop for CallList {
    fn drop(self) {
        let Self {
            calls,
            names,
            named,
            values,
        } = self;
        drop(calls);
        drop(names);
        drop(named);
        drop(values);
    }
}

impl Model for CallList {
    ghost use Rattle.std.specs.Prelude.{◌≡◌, []};
    ghost use Rattle.bohm_c.specs.Listed.{Listed};

    ghost Value = { Listed };

    ghost view = { λ c. record { calls = c.calls; names = c.names } };

    ghost invariant = { λ c. c.calls.store ≡ [] };
}

/// Why a call isn't added.
#[derive(Clone, Copy, Debug, PartialEq, Eq)]
pub enum PushFault {
    /// The numbers of the arguments, the edition or the number of the calls don't fit.
    Unfit,
    /// An argument isn't taken.
    Key(KeyFault),
}

impl From<KeyFault> for PushFault {
    ghost from_gives = { λ fault e. e ≡ push_is.Key fault };

    fn from(fault: KeyFault) -> PushFault {
        PushFault::Key(fault)
    }
}

impl From<NoMemory> for PushFault {
    ghost from_gives = { λ _ e. e ≡ push_is.Key key_is.NoMemory };

    fn from(_e: NoMemory) -> PushFault {
        PushFault::Key(KeyFault::NoMemory)
    }
}

/// Fills a vector with handles of the keys with these names.
pub fn fill_handles(
    handles: &mut Vec<KeyHandle>,
    calls: &Calls,
    names: &[&[u8]],
) -> Result<(), KeyFault>
    ensures ok { OnOk result (keys_named handles.new.items ≡ map (λ n. n.now) names.now) }
    ensures no_key { result ≡ Err key_is.NoKey → Any (λ n. key_of n.now ≡ None) names.now }
{
    handles.clear();
    for name in names {
        let Some(key) = Key::new(name) else {
            return Err(KeyFault::NoKey);
        };
        if handles.push(calls.noted_handle(&key)).is_err() {
            return Err(KeyFault::NoMemory);
        }
    }
    Ok(())
}

/// Fills a vector with these numbers as values.
pub fn fill_values(values: &mut Vec<Value>, numbers: &[i64]) -> Result<(), NoMemory>
    ensures { OnOk result (values.new.items ≡ numbers.now) }
{
    values.clear();
    for number in numbers {
        values.push(Value::from(*number))?;
    }
    Ok(())
}

impl CallList {
    /// No calls and no handles; keys are hashed with the seed. It allocates nothing.
    pub fn new(alloc: Global, seed: DrawnSeed, edition: Edition) -> CallList
        ensures { result ≡ empty_list edition }
    {
        CallList {
            calls: Calls::new(alloc, seed, edition),
            names: KeyNames::sharing(alloc, SharedNames::none()),
            named: Vec::new(alloc),
            values: Vec::new(alloc),
        }
    }

    /// No calls and no handles, in a list that shares the names of a machine's keys.
    pub fn of(alloc: Global, machine: &Machine, edition: Edition) -> Result<CallList, NoMemory>
        ensures { IfOk result (λ list. list ≡ empty_list edition) }
    {
        Ok(CallList {
            calls: machine.calls(alloc, edition)?,
            names: KeyNames::sharing(alloc, machine.shared_names()?),
            named: Vec::new(alloc),
            values: Vec::new(alloc),
        })
    }

    /// Removes all calls. Their memory is kept for later ones, and handles keep their keys.
    pub fn clear(&mut self)
        ensures { self.new ≡ cleared self.old }
    {
        self.calls.clear();
    }

    /// Whether a call with this many arguments of each kind can be added.
    pub fn takes(&self, procedure: &Procedure, keys: usize, values: usize) -> bool
        ensures { (result ≡ true) ↔ TakesCounts self.now.calls procedure.now keys values }
    {
        self.calls.takes_counts(procedure, keys, values)
    }

    /// Whether a call with these arguments can be added, if the names are keys'.
    fn takes_names(&self, procedure: &Procedure, names: &[&[u8]], numbers: &[i64]) -> bool
        ensures { (result ≡ true) ↔ Takes self.now.calls procedure.now (map (λ n. n.now) names.now)
            numbers.now }
    {
        self.takes(procedure, names.len(), numbers.len())
    }

    /// Adds a call with these arguments.
    pub fn push(
        &mut self,
        procedure: &Procedure,
        names: &[&[u8]],
        numbers: &[i64],
    ) -> Result<(), PushFault>
        ensures ok { OnOk result (IsPushed procedure.now (map (λ n. n.now) names.now) numbers.now
            self.old self.new) }
        ensures no_key { result ≡ Err (push_is.Key key_is.NoKey)
            → Any (λ n. key_of n.now ≡ None) names.now }
        ensures fits { result ≢ Err push_is.Unfit
            → Takes self.old.calls procedure.now (map (λ n. n.now) names.now) numbers.now }
        ensures unfit { result ≡ Err push_is.Unfit
            → ¬ Takes self.old.calls procedure.now (map (λ n. n.now) names.now) numbers.now }
        ensures unchanged { OnErr result (self.new ≡ self.old) }
    {
        if !self.takes_names(procedure, names, numbers) {
            return Err(PushFault::Unfit);
        }
        fill_handles(&mut self.named, &self.calls, names)?;
        fill_values(&mut self.values, numbers)?;
        self.calls.push_named(procedure, &self.named, &self.values)?;
        Ok(())
    }

    /// A new handle of a key, valid until the list is dropped. `NoMemory` if an allocation fails,
    /// or if there are 2^32 handles and shared keys.
    pub fn handle(&mut self, key: &Key) -> Result<u32, NoMemory>
        ensures place { IfOk result (λ h. h ≡ length self.old.names) }
        ensures ok { OnOk result (self.new ≡ with_name self.old key.now) }
        ensures unchanged { OnErr result (self.new ≡ self.old) }
    {
        let Ok(handle) = u32::try_from(self.names.len()) else {
            return Err(NoMemory);
        };
        self.names.push(&mut self.calls, key)?;
        Ok(handle)
    }

    /// Whether all these are handles of the list.
    pub fn knows(&self, handles: &[u32]) -> bool
        ensures { (result ≡ true) ↔ Knows self.now handles.now }
    {
        let count = self.names.len();
        handles.iter().all(|handle| (*handle as usize) < count)
    }

    /// Adds a call with these arguments, whose keys are given by their handles.
    pub fn push_named(
        &mut self,
        procedure: &Procedure,
        handles: &[u32],
        numbers: &[i64],
    ) -> Result<(), PushFault>
        requires known { Knows self.old handles.now }
        ensures ok { OnOk result (IsPushed procedure.now (named_by self.old handles.now)
            numbers.now self.old self.new) }
        ensures keys { result ≢ Err (push_is.Key key_is.NoKey) }
        ensures unfit { result ≡ Err push_is.Unfit → ¬ Takes self.old.calls procedure.now
            (named_by self.old handles.now) numbers.now }
        ensures unchanged { OnErr result (self.new ≡ self.old) }
    {
        if !self.takes(procedure, handles.len(), numbers.len()) {
            return Err(PushFault::Unfit);
        }
        self.names.fill(&mut self.named, handles)?;
        fill_values(&mut self.values, numbers)?;
        self.calls.push_named(procedure, &self.named, &self.values)?;
        Ok(())
    }

    /// Shares the calls among workers of a machine, which has them until `finish`; the list is
    /// empty until then.
    pub fn share(
        &mut self,
        alloc: Global,
        machine: &mut Machine,
        workers: Executors,
    ) -> Result<SharedCalls, ShareFault>
        ensures same { machine.new ≡ machine.old }
        ensures shared { IfOk result
            (λ s. s ≡ record { was = machine.old; calls = self.old.calls }) }
        ensures taken { OnOk result (IsTaken machine.old self.old.calls) }
        ensures left { OnOk result (self.new ≡ cleared self.old) }
        ensures long { OnOk result (are_shared workers self.old.calls.log ≡ true) }
        ensures store { self.old.calls.store ≡ [] }
        ensures refused { (fault : SegmentFault) → result ≡ Err (share_is.Segment fault)
            → IsRefused machine.old self.old.calls fault }
        ensures in_order { result ≡ Err share_is.InOrder
            → are_shared workers self.old.calls.log ≡ false }
        ensures unchanged { OnErr result (self.new ≡ self.old) }
    {
        machine.share(alloc, &mut self.calls, workers)
    }

    /// Ends the calls that `share` shared, on the machine as it was then, and puts them back into
    /// the list. If a worker is left, nothing happens.
    pub fn finish(
        &mut self,
        alloc: Global,
        machine: &mut Machine,
        shared: SharedCalls,
    ) -> Result<Applied, SharedCalls>
        requires machine { shared.was ≡ machine.old }
        requires store { shared.calls.store ≡ [] }
        ensures list { OnOk result
            (self.new ≡ record { calls = shared.calls; names = self.old.names }) }
        ensures goes_on { IfOk result (λ a. GoesOn machine.old machine.new
            (take (length a.replies) shared.calls.log) a.replies) }
        ensures runs_on { IfOk result (λ a. RunsOn machine.old machine.new
            (take (length a.replies) shared.calls.log) a.replies) }
        ensures batches { IfOk result (λ a. 0 < length a.replies
            → AreWholeBatches shared.calls.log largest_batch (length a.replies)) }
        ensures early { IfErr result (λ s. s ≡ shared) }
        ensures unchanged { OnErr result (machine.new ≡ machine.old) }
        ensures unlisted { OnErr result (self.new ≡ self.old) }
    {
        machine.finish(alloc, shared, &mut self.calls)
    }

    /// The text of the log of the calls.
    pub fn text(&self, alloc: Global) -> Result<Text, NoMemory>
        ensures { IfOk result (λ text. text ≡ print_doc self.now.calls) }
    {
        Text::new(self.calls.print(alloc)?)
    }

    /// The log of the calls, which a machine can run.
    pub fn segment(&self) -> &Checked
        ensures same { result.now ≡ self.now.calls }
        ensures store { result.now.store ≡ [] }
    {
        self.calls.segment()
    }
}
