//! A machine that remembers its last checkpoint.

ghost use Rattle.std.specs.Prelude.{◌≡◌};
ghost use Rattle.bohm_durable.specs.Entering.{IsSince};

use crate::applying::{apply_call, apply_one, hold_call, is_rising, note_writes, sort_keys};
use bohm_ledger::MachineFault;
use bohm_log::DrawnSeed;
use bohm_machine::Machine;
use bohm_procedures::{Calls, Procedure};
use bohm_replay::Past;
use bohm_txn::{Checked, Replies};
use bohm_types::{Cell, Edition, Key, NoMemory, Value};
use std::alloc::Global;

/// The timestamp from which on a machine is made anew at a checkpoint.
const LATE: u32 = 1 << 31;

/// A machine that remembers what each key held at the last checkpoint, and which keys may have
/// changed since.
pub struct Checkpointed {
    alloc: Global,
    seed: DrawnSeed,
    /// Its floor is at the last checkpoint. Its timestamps begin at 0 again there, once they have
    /// passed 2^31.
    machine: Machine,
    /// The keys that transactions since the last checkpoint declared to write.
    changed: Vec<Key>,
    /// The call that is run; its memory is used again for the next one.
    calls: Calls,
    ghost since: { IsSince machine changed.items },
}

// Written out: a derived drop is proved anew in each function that drops such a value.
impl Drop for Checkpointed {
    fn drop(self) {
        let Self {
            alloc: _,
            seed: _,
            machine,
            changed,
            calls,
        } = self;
        drop(machine);
        drop(changed);
        drop(calls);
    }
}

impl Checkpointed {
    /// A machine whose keys hold nothing. Keys are hashed with the seed.
    pub fn new(alloc: Global, seed: DrawnSeed) -> Result<Checkpointed, NoMemory> {
        let machine = Machine::restore(alloc, seed, &[], 0)?;
        let calls = machine.calls(alloc, Edition::Two)?;
        Ok(Checkpointed {
            alloc,
            seed,
            machine,
            changed: Vec::new(alloc),
            calls,
        })
    }

    pub(crate) fn machine(&self) -> &Machine
        ensures { result.now ≡ self.now.machine }
    {
        &self.machine
    }
}

impl Past for Checkpointed {
    ghost use Rattle.std.specs.Prelude.{◌+◌, ◌-◌, ◌^◌};
    ghost use Rattle.bohm_machine.specs.Machines.{floor_of, now_of, past_of, top_of};

    ghost look = { λ p. now_of p.machine };

    ghost saved = { λ p. past_of p.machine (floor_of p.machine) };

    ghost since = { λ p. top_of p.machine - floor_of p.machine };

    ghost past = { λ p n. past_of p.machine (floor_of p.machine + n) };

    ghost room = { λ p. (2 ^ 32 - 1) - top_of p.machine };

    fn start(&mut self, store: &[(Key, Value)]) -> Result<(), MachineFault> {
        if !is_rising(store) {
            return Err(MachineFault::Unreadable);
        }
        let Ok(machine) = Machine::restore(self.alloc, self.seed, store, 0) else {
            return Err(MachineFault::OutOfMemory);
        };
        let Ok(calls) = machine.calls(self.alloc, self.calls.segment().edition()) else {
            return Err(MachineFault::OutOfMemory);
        };
        self.calls = calls;
        self.machine = machine;
        self.changed.clear();
        Ok(())
    }

    fn renew(&mut self) -> Result<(), MachineFault> {
        let last = self.machine.top();
        if last < LATE || self.machine.floor() != last {
            return Ok(());
        }
        let Ok(store) = self.machine.store_at(self.alloc, last) else {
            return Err(MachineFault::OutOfMemory);
        };
        let Ok(machine) = Machine::restore(self.alloc, self.seed, store.as_slice(), 0) else {
            return Err(MachineFault::OutOfMemory);
        };
        let Ok(calls) = machine.calls(self.alloc, self.calls.segment().edition()) else {
            return Err(MachineFault::OutOfMemory);
        };
        self.calls = calls;
        self.machine = machine;
        Ok(())
    }

    fn calls(&self, edition: Edition) -> Result<Calls, NoMemory> {
        self.machine.calls(self.alloc, edition)
    }

    fn run_one(&mut self, log: &Checked) -> Result<Replies, MachineFault> {
        if note_writes(&mut self.changed, log).is_err() {
            return Err(MachineFault::OutOfMemory);
        }
        apply_one(&mut self.machine, self.alloc, log)
    }

    fn run_call(
        &mut self,
        procedure: &Procedure,
        keys: &[Key],
        values: &[Value],
        answered: &mut Replies,
    ) -> Result<(), MachineFault> {
        let held = hold_call(
            &mut self.calls,
            &self.machine,
            self.alloc,
            procedure,
            keys,
            values,
        );
        if held.is_err() || note_writes(&mut self.changed, self.calls.segment()).is_err() {
            return Err(MachineFault::OutOfMemory);
        }
        apply_call(&mut self.machine, &self.calls, answered)
    }

    fn sort_changed(&mut self) {
        sort_keys(&mut self.changed);
    }

    fn changed(&self) -> &[Key] {
        self.changed.as_slice()
    }

    fn value(&self, key: &Key) -> Cell {
        match self.machine.value_at(key, self.machine.top()) {
            Ok(cell) => cell,
            Err(_) => unreachable!(),
        }
    }

    fn saved_value(&self, key: &Key) -> Cell {
        match self.machine.value_at(key, self.machine.floor()) {
            Ok(cell) => cell,
            Err(_) => unreachable!(),
        }
    }

    fn ran_since(&self) -> u64 {
        u64::from(self.machine.top() - self.machine.floor())
    }

    fn value_after(&self, count: u64, key: &Key) -> Option<Cell> {
        let floor = self.machine.floor();
        let since = self.machine.top() - floor;
        if count > u64::from(since) {
            return None;
        }
        match self.machine.value_at(key, floor + count as u32) {
            Ok(cell) => Some(cell),
            Err(_) => unreachable!(),
        }
    }

    fn note_checkpoint(&mut self) {
        let last = self.machine.top();
        self.machine.trim(last);
        self.changed.clear();
    }
}
