//! Gives back memory that no reader of the present store needs.

ghost use Rattle.std.specs.Prelude.{◌≡◌, IfOk, OnOk, OnErr};
ghost use Rattle.bohm_machine.specs.Machines.{IsCompacted};

use crate::machine::Machine;
use bohm_types::NoMemory;
use std::alloc::Global;

impl Machine {
    /// A machine with this one's seed, top and store at the top, and no more: its floor is the top,
    /// and keys without a value there take no memory, nor do names that only aborted transactions
    /// brought. It continues as this one would. The time and the memory grow with the store.
    pub fn compacted(&self, alloc: Global) -> Result<Machine, NoMemory>
        ensures { IfOk result (IsCompacted self.now) }
    {
        let top = self.top();
        match self.store_at(alloc, top) {
            Ok(store) => Machine::restore(alloc, self.seed(), &store, top),
            Err(_) => Err(NoMemory),
        }
    }

    /// Becomes the machine that `compacted` makes. Lists of calls that share the machine's names
    /// keep the old names' memory until they are dropped.
    pub fn compact(&mut self, alloc: Global) -> Result<(), NoMemory>
        ensures ok { OnOk result (IsCompacted self.old self.new) }
        ensures err { OnErr result (self.new ≡ self.old) }
    {
        *self = self.compacted(alloc)?;
        Ok(())
    }
}
