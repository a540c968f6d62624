//! A session whose machine shares the calls of a list among workers.

ghost use Rattle.std.specs.Prelude.{◌≡◌, ◌≢◌, ◌<◌, ◌⊎◌, [], true, false, length};
ghost use Rattle.std.specs.Prelude.{Err, IfOk, IfErr, OnOk, OnErr};
ghost use Rattle.bohm_machine.specs.Segments.{IsRefused, IsTaken};
ghost use Rattle.bohm_machine.specs.Shares.{are_shared};
ghost use Rattle.bohm_machine.specs.declared.fault.SegmentFault.TheVariants as segment_is;
ghost use Rattle.bohm_c.specs.Keeping.{IsRunUntold};
ghost use Rattle.bohm_c.specs.Listed.{cleared};

use crate::call_list::CallList;
use crate::session::Session;
use crate::status::{DONE, IN_ORDER, NO_MEMORY, STOPPED, TIMESTAMPS, UNFIT, WAITING};
use bohm_apply::{Applied, Executors};
use bohm_machine::{BatchWorker, SegmentFault, ShareFault, SharedCalls};
use bohm_types::NoMemory;
use std::alloc::Global;
use std::marker::Model;

/// A session whose machine shares the calls of a list, and that list, which is empty meanwhile.
/// Contracts see both as they were when the calls were shared.
pub struct SharedSession {
    session: Session,
    list: CallList,
    shared: SharedCalls,
}

// Written out: a derived drop is proved anew in each function that drops such a value.
impl Drop for SharedSession {
    fn drop(self) {
        let Self {
            session,
            list,
            shared,
        } = self;
        drop(session);
        drop(list);
        drop(shared);
    }
}

impl Model for SharedSession {
    ghost use Rattle.std.specs.Prelude.{◌≡◌, []};
    ghost use Rattle.bohm_machine.specs.Segments.{IsTaken};
    ghost use Rattle.bohm_c.specs.Sharing.{Sharing};

    ghost Value = { Sharing };

    ghost view = { λ s. record {
      session = s.session;
      list = record { calls = s.shared.calls; names = s.list.names };
    } };

    ghost invariant = { λ s. (s.shared.was ≡ s.session.machine) × ((s.session.waiting ≡ [])
        × IsTaken s.session.machine s.shared.calls) };
}

/// A worker of shared calls. Contracts see nothing of it.
pub struct Worker {
    worker: BatchWorker,
}

// Written out: a derived drop is proved anew in each function that drops such a value.
impl Drop for Worker {
    fn drop(self) {
        let Self { worker } = self;
        drop(worker);
    }
}

impl Model for Worker {
    ghost use Rattle.std.specs.Prelude.{◌≡◌};

    ghost Value = { Unit {0} };

    ghost view = { λ _. tt };
}

/// What may go to another thread: the compiler has it that it may.
fn sent<T: Send + Drop>(value: T) -> T
    ensures { result ≡ value }
{
    value
}

impl Worker {
    /// Sweeps its share of the calls.
    pub fn work(self, alloc: Global) {
        let Worker { worker } = self;
        worker.work(alloc);
    }
}

/// A session and a list whose shared calls have ended, and the status of their run.
#[derive(Drop)]
pub struct Finished {
    pub session: Session,
    pub list: CallList,
    pub status: u32,
}

impl Session {
    /// Shares the calls of a list among this many workers; or else the status that says why not.
    pub fn share(
        &mut self,
        alloc: Global,
        list: &mut CallList,
        workers: u32,
    ) -> Result<SharedCalls, u32>
        ensures same { self.new ≡ self.old }
        ensures shared { IfOk result
            (λ s. s ≡ record { was = self.old.machine; calls = list.old.calls }) }
        ensures handed { OnOk result (self.old.waiting ≡ []) }
        ensures taken { OnOk result (IsTaken self.old.machine list.old.calls) }
        ensures left { OnOk result (list.new ≡ cleared list.old) }
        ensures long { OnOk result (are_shared workers list.old.calls.log ≡ true) }
        ensures status { IfErr result (λ status. (status ≡ NO_MEMORY) ⊎ (status ≡ TIMESTAMPS)
            ⊎ (status ≡ WAITING) ⊎ (status ≡ UNFIT) ⊎ (status ≡ IN_ORDER)) }
        ensures waiting { result ≡ Err WAITING → 0 < length self.old.waiting }
        ensures told { result ≢ Err WAITING → self.old.waiting ≡ [] }
        ensures unfit { result ≡ Err UNFIT → workers ≡ 0 }
        ensures timestamps { result ≡ Err TIMESTAMPS
            → IsRefused self.old.machine list.old.calls segment_is.Timestamps }
        ensures in_order { result ≡ Err IN_ORDER
            → are_shared workers list.old.calls.log ≡ false }
        ensures unchanged { OnErr result (list.new ≡ list.old) }
    {
        if !self.waiting.is_empty() {
            return Err(WAITING);
        }
        let Some(workers) = Executors::new(workers) else {
            return Err(UNFIT);
        };
        match list.share(alloc, &mut self.machine, workers) {
            Ok(shared) => Ok(shared),
            Err(ShareFault::InOrder) => Err(IN_ORDER),
            Err(ShareFault::NoMemory) => Err(NO_MEMORY),
            Err(ShareFault::Segment(SegmentFault::Timestamps)) => Err(TIMESTAMPS),
            Err(ShareFault::Segment(SegmentFault::Store)) => unreachable!(),
        }
    }
}

impl SharedSession {
    /// A session that has no replies waiting, and the list whose calls its machine shares.
    pub fn new(session: Session, list: CallList, shared: SharedCalls) -> SharedSession
        requires machine { shared.was ≡ session.machine }
        requires handed { session.waiting ≡ [] }
        requires taken { IsTaken session.machine shared.calls }
        ensures session { result.session ≡ session }
        ensures list { result.list ≡ record { calls = shared.calls; names = list.names } }
    {
        SharedSession {
            session,
            list,
            shared,
        }
    }

    /// The next worker, if not all were made.
    pub fn next_worker(&mut self) -> Result<Option<Worker>, NoMemory>
        ensures { self.new ≡ self.old }
    {
        match self.shared.next_worker()? {
            Some(worker) => Ok(Some(Worker {
                worker: sent(worker),
            })),
            None => Ok(None),
        }
    }

    /// Ends the calls, and keeps their replies waiting. If a worker is left, nothing happens.
    pub fn finish(self, alloc: Global) -> Result<Finished, SharedSession>
        ensures list { IfOk result (λ f. f.list ≡ self.list) }
        ensures ran { IfOk result
            (λ f. IsRunUntold self.session f.session self.list.calls) }
        ensures status { IfOk result (λ f. (f.status ≡ DONE) ⊎ (f.status ≡ STOPPED)) }
        ensures whole { IfOk result (λ f. f.status ≡ DONE
            → length f.session.waiting ≡ length self.list.calls.log) }
        ensures part { IfOk result (λ f. f.status ≡ STOPPED
            → length f.session.waiting < length self.list.calls.log) }
        ensures early { IfErr result (λ s. s ≡ self) }
    {
        let SharedSession {
            mut session,
            mut list,
            shared,
        } = self;
        let behind = session.machine.top();
        match list.finish(alloc, &mut session.machine, shared) {
            Ok(applied) => {
                let Applied { replies, .. } = applied;
                let (ran, count) = (replies.len(), list.segment().log().len());
                session.waiting = replies;
                session.behind = behind;
                let status = if ran < count { STOPPED } else { DONE };
                Ok(Finished {
                    session,
                    list,
                    status,
                })
            }
            Err(shared) => Err(SharedSession {
                session,
                list,
                shared,
            }),
        }
    }
}
