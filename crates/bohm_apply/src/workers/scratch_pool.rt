//! A pool of the scratch memory of a run's workers.

ghost use Rattle.std.specs.Prelude.{◌≡◌, ◌+◌, ◌<◌, ◌≤◌, IfOk, OnOk, vec_len};

use bohm_settings::Executors;
use bohm_txn::Scratch;
use bohm_types::NoMemory;
use std::alloc::Global;

/// The scratches of a run's workers, which are created once and reused for all batches of the run.
/// A batch with fewer transactions than workers uses only one scratch for each transaction.
pub struct ScratchPool {
    count: u32,
    // As many as the largest batch so far has needed.
    scratches: Vec<Scratch>,
    // For the positions that the workers leave.
    pub(crate) last: Scratch,
    ghost some: { 0 < count },
}

// Written out: a derived drop is proved anew in each function that drops such a value.
impl Drop for ScratchPool {
    fn drop(self) {
        let Self {
            count: _,
            scratches,
            last,
        } = self;
        drop(scratches);
        drop(last);
    }
}

impl ScratchPool {
    ghost use Rattle.bohm_apply.specs.Sweeps.{workers_of};

    /// A pool for this many workers.
    pub fn new(alloc: Global, executors: Executors) -> Result<ScratchPool, NoMemory>
        ensures { IfOk result (λ pool. workers_of pool ≡ executors) }
    {
        Ok(ScratchPool {
            count: executors.count(),
            scratches: Vec::new(alloc),
            last: Scratch::new(alloc)?,
        })
    }

    /// A pool for this many workers, with the scratches of some of them.
    pub(crate) fn filled(
        alloc: Global,
        executors: Executors,
        workers: u32,
    ) -> Result<ScratchPool, NoMemory>
        ensures count { IfOk result (λ pool. workers_of pool ≡ executors) }
        ensures full { IfOk result (λ pool. workers ≤ vec_len pool.scratches) }
    {
        let mut pool = ScratchPool::new(alloc, executors)?;
        pool.fill(alloc, workers)?;
        Ok(pool)
    }

    /// The number of workers.
    pub fn workers(&self) -> u32
        ensures count { result ≡ workers_of self.now }
        ensures some { 0 < result }
    {
        self.count
    }

    /// Creates the scratches that are missing for this many workers.
    pub(crate) fn fill(&mut self, alloc: Global, workers: u32) -> Result<(), NoMemory>
        ensures count { workers_of self.new ≡ workers_of self.old }
        ensures full { OnOk result (workers ≤ vec_len self.new.scratches) }
    {
        while self.scratches.len() < workers as usize {
            self.scratches.push(Scratch::new(alloc)?)?;
        }
        Ok(())
    }

    /// Takes the scratch of one worker out of the pool.
    pub(crate) fn take(&mut self) -> Scratch
        requires { 0 < vec_len self.old.scratches }
        ensures count { workers_of self.new ≡ workers_of self.old }
        ensures rest { vec_len self.new.scratches + 1 ≡ vec_len self.old.scratches }
    {
        match self.scratches.pop() {
            Some(scratch) => scratch,
            None => unreachable!(),
        }
    }

    /// Puts a scratch back into the pool.
    pub(crate) fn give_back(&mut self, scratch: Scratch) -> Result<(), NoMemory>
        ensures count { workers_of self.new ≡ workers_of self.old }
    {
        self.scratches.push(scratch)?;
        Ok(())
    }
}
