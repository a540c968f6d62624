//! Single calls on a machine's session, and its compaction.

ghost use Rattle.std.specs.Prelude.{◌≡◌, ◌≢◌, ◌<◌, ◌≤◌, ◌⊎◌, ◌↔◌, [], ◌∷◌, ◌++◌, true, None};
ghost use Rattle.std.specs.Prelude.{IfOk, length, map, drop};
ghost use Rattle.std.specs.List.{Any};
ghost use Rattle.bohm_types.specs.Name.{key_of};
ghost use Rattle.bohm_log.specs.Columns.{AllNamed};
ghost use Rattle.bohm_log.specs.Parts.{names_at};
ghost use Rattle.bohm_txn.specs.declared.outcome.Reply.{Reply};
ghost use Rattle.bohm_machine.specs.Machines.{IsCompacted};
ghost use Rattle.bohm_c.specs.Calling.{Fits, HasNoTime};
ghost use Rattle.bohm_c.specs.Rows.{row_of, shows_of};
ghost use Rattle.bohm_c.specs.Singles.{IsCallDone, IsCallKept, IsCompact, IsNamed, IsStill};
ghost use Rattle.bohm_c.specs.declared.key_fault.KeyFault.TheVariants as key_is;
ghost use Rattle.bohm_c.specs.declared.single_calls.CallFault.TheVariants as call_is;

use crate::key_fault::KeyFault;
use crate::rows::{BohmReply, row_of, shown_by};
use crate::session::Session;
use crate::single_calls::{CallFault, SingleCalls};
use crate::status::{DONE, KEPT, NO_KEY, NO_MEMORY, TIMESTAMPS, UNFIT, WAITING};
use bohm_machine::Machine;
use bohm_procedures::Procedure;
use bohm_types::{NoMemory, Value};
use std::alloc::Global;

/// The status of a call that wasn't run.
fn status_of(fault: CallFault) -> u32
    ensures no_key { fault ≡ call_is.Key key_is.NoKey → result ≡ NO_KEY }
    ensures no_memory { fault ≡ call_is.Key key_is.NoMemory → result ≡ NO_MEMORY }
    ensures timestamps { fault ≡ call_is.Timestamps → result ≡ TIMESTAMPS }
{
    match fault {
        CallFault::Key(KeyFault::NoKey) => NO_KEY,
        CallFault::Key(KeyFault::NoMemory) => NO_MEMORY,
        CallFault::Timestamps => TIMESTAMPS,
    }
}

/// Whether the procedure has this many parameters of each kind.
pub fn fits(procedure: &Procedure, keys: usize, values: usize) -> bool
    ensures { (result ≡ true) ↔ Fits procedure.now keys values }
{
    keys == procedure.keys() && values == procedure.values()
}

/// Writes shown values to the front of an array.
fn copy_shows(shown: &mut [i64], shows: &[Value])
    requires { length shows.now ≤ length shown.old }
    ensures { shown.new ≡ shows.now ++ drop (length shows.now) shown.old }
{
    for index in 0..shows.len() {
        shown[index] = shows[index].get();
    }
}

impl Session {
    /// Hands out the one reply that is waiting. It stays if it shows more than there is room for.
    fn tell(&mut self, behind: u32, row: &mut BohmReply, shown: &mut [i64]) -> u32
        requires { length self.old.waiting ≡ 1 }
        ensures status { (result ≡ DONE) ⊎ (result ≡ KEPT) }
        ensures machine { self.new.machine ≡ self.old.machine }
        ensures names { self.new.single ≡ self.old.single }
        ensures row { result ≡ DONE → (r : Reply) → self.old.waiting ≡ r ∷ []
            → row.new ≡ row_of 0 r }
        ensures shows { result ≡ DONE → (r : Reply) → self.old.waiting ≡ r ∷ []
            → shown.new ≡ shows_of r ++ drop (length (shows_of r)) shown.old }
        ensures handed { result ≡ DONE → self.new.waiting ≡ [] }
        ensures long { result ≡ KEPT → (r : Reply) → self.old.waiting ≡ r ∷ []
            → length shown.old < length (shows_of r) }
        ensures waits { result ≡ KEPT → self.new.waiting ≡ self.old.waiting }
        ensures behind { result ≡ KEPT → self.new.behind ≡ behind }
        ensures untouched { 0 < result → row.new ≡ row.old }
        ensures same_shown { 0 < result → shown.new ≡ shown.old }
    {
        let reply = self.waiting.get(0);
        let shows = shown_by(reply);
        if shown.len() < shows.len() {
            self.behind = behind;
            return KEPT;
        }
        copy_shows(shown, shows);
        *row = row_of(0, reply);
        self.waiting.clear();
        DONE
    }

    /// Runs the call of a procedure as a segment of its own.
    pub fn call(
        &mut self,
        procedure: &Procedure,
        names: &[&[u8]],
        numbers: &[i64],
        row: &mut BohmReply,
        shown: &mut [i64],
    ) -> u32
        ensures status { (result ≡ DONE) ⊎ (result ≡ KEPT) ⊎ (result ≡ WAITING) ⊎ (result ≡ UNFIT)
            ⊎ (result ≡ NO_KEY) ⊎ (result ≡ TIMESTAMPS) ⊎ (result ≡ NO_MEMORY) }
        ensures done { result ≡ DONE → IsCallDone self.old self.new procedure.now
            (map (λ n. n.now) names.now) numbers.now row.new shown.old shown.new }
        ensures kept { result ≡ KEPT → IsCallKept self.old self.new procedure.now
            (map (λ n. n.now) names.now) numbers.now (length shown.old) }
        ensures waiting { result ≡ WAITING → 0 < length self.old.waiting }
        ensures told { result ≢ WAITING → self.old.waiting ≡ [] }
        ensures unfit { result ≡ UNFIT
            → ¬ Fits procedure.now (length names.now) (length numbers.now) }
        ensures fits { result ≢ WAITING → result ≢ UNFIT
            → Fits procedure.now (length names.now) (length numbers.now) }
        ensures no_key { result ≡ NO_KEY → Any (λ n. key_of n.now ≡ None) names.now }
        ensures timestamps { result ≡ TIMESTAMPS → HasNoTime self.old.machine }
        ensures still { result ≡ NO_MEMORY → IsStill self.old self.new }
        ensures unchanged { result ≢ DONE → result ≢ KEPT → result ≢ NO_MEMORY
            → self.new ≡ self.old }
        ensures untouched { 0 < result → row.new ≡ row.old }
        ensures same_shown { 0 < result → shown.new ≡ shown.old }
    {
        if !self.waiting.is_empty() {
            return WAITING;
        }
        if !fits(procedure, names.len(), numbers.len()) {
            return UNFIT;
        }
        let (behind, machine) = (self.machine.top(), &mut self.machine);
        let answered = &mut self.waiting;
        match self
            .single
            .run(machine, procedure, names, numbers, answered)
        {
            Ok(()) => self.tell(behind, row, shown),
            Err(fault) => status_of(fault),
        }
    }

    /// Runs the call as `call` does, with its keys given by handles of the machine.
    pub fn call_named(
        &mut self,
        procedure: &Procedure,
        handles: &[u32],
        numbers: &[i64],
        row: &mut BohmReply,
        shown: &mut [i64],
    ) -> u32
        requires known { AllNamed self.old.single handles.now }
        ensures status { (result ≡ DONE) ⊎ (result ≡ KEPT) ⊎ (result ≡ WAITING) ⊎ (result ≡ UNFIT)
            ⊎ (result ≡ TIMESTAMPS) ⊎ (result ≡ NO_MEMORY) }
        ensures done { result ≡ DONE → IsCallDone self.old self.new procedure.now
            (names_at self.old.single handles.now) numbers.now row.new shown.old shown.new }
        ensures kept { result ≡ KEPT → IsCallKept self.old self.new procedure.now
            (names_at self.old.single handles.now) numbers.now (length shown.old) }
        ensures waiting { result ≡ WAITING → 0 < length self.old.waiting }
        ensures told { result ≢ WAITING → self.old.waiting ≡ [] }
        ensures unfit { result ≡ UNFIT
            → ¬ Fits procedure.now (length handles.now) (length numbers.now) }
        ensures fits { result ≢ WAITING → result ≢ UNFIT
            → Fits procedure.now (length handles.now) (length numbers.now) }
        ensures timestamps { result ≡ TIMESTAMPS → HasNoTime self.old.machine }
        ensures still { result ≡ NO_MEMORY → IsStill self.old self.new }
        ensures unchanged { result ≢ DONE → result ≢ KEPT → result ≢ NO_MEMORY
            → self.new ≡ self.old }
        ensures untouched { 0 < result → row.new ≡ row.old }
        ensures same_shown { 0 < result → shown.new ≡ shown.old }
    {
        if !self.waiting.is_empty() {
            return WAITING;
        }
        if !fits(procedure, handles.len(), numbers.len()) {
            return UNFIT;
        }
        let (behind, machine) = (self.machine.top(), &mut self.machine);
        let answered = &mut self.waiting;
        match self
            .single
            .run_named(machine, procedure, handles, numbers, answered)
        {
            Ok(()) => self.tell(behind, row, shown),
            Err(fault) => status_of(fault),
        }
    }

    /// Makes a handle of the key with this name.
    pub fn name_key(&mut self, name: &[u8], handle: &mut u32) -> u32
        ensures status { (result ≡ DONE) ⊎ (result ≡ NO_MEMORY) ⊎ (result ≡ NO_KEY) }
        ensures done { result ≡ DONE → IsNamed self.old self.new name.now handle.new }
        ensures no_key { result ≡ NO_KEY → key_of name.now ≡ None }
        ensures unchanged { 0 < result → self.new ≡ self.old }
        ensures untouched { 0 < result → handle.new ≡ handle.old }
    {
        match self.single.handle_of(name) {
            Ok(number) => {
                *handle = number;
                DONE
            }
            Err(KeyFault::NoKey) => NO_KEY,
            Err(KeyFault::NoMemory) => NO_MEMORY,
        }
    }

    /// The compacted machine, and the same handles for it.
    fn compacted(&self, alloc: Global) -> Result<(Machine, SingleCalls), NoMemory>
        ensures machine { IfOk result (λ made. IsCompacted self.now.machine made.0) }
        ensures names { IfOk result (λ made. made.1 ≡ self.now.single) }
    {
        let machine = self.machine.compacted(alloc)?;
        let single = self.single.moved(alloc, &machine)?;
        Ok((machine, single))
    }

    /// Gives back the memory of the past, and of keys without a value.
    pub fn compact(&mut self, alloc: Global) -> u32
        ensures status { (result ≡ DONE) ⊎ (result ≡ NO_MEMORY) }
        ensures done { result ≡ DONE → IsCompact self.old self.new }
        ensures unchanged { 0 < result → self.new ≡ self.old }
    {
        match self.compacted(alloc) {
            Ok((machine, single)) => {
                self.machine = machine;
                self.single = single;
                DONE
            }
            Err(_) => NO_MEMORY,
        }
    }
}
