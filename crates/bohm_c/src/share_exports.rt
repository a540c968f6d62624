//! The C functions by which workers on the caller's own threads run calls.

ghost use Rattle.std.specs.Prelude.{◌≡◌, ◌≢◌, ◌<◌, ◌⊎◌, ◌↔◌, [], true, false, length, None, Some};
ghost use Rattle.std.specs.Prelude.{Err, IfOk, IfErr, OnOk, OnErr};
ghost use Rattle.bohm_machine.specs.Segments.{IsRefused, IsTaken};
ghost use Rattle.bohm_machine.specs.Shares.{are_shared};
ghost use Rattle.bohm_machine.specs.declared.fault.SegmentFault.TheVariants as segment_is;
ghost use Rattle.bohm_c.specs.Handles.{AreShared, HasCalls, HasMachine, IsCallList, IsLent};
ghost use Rattle.bohm_c.specs.Handles.{IsShared, IsWorker, OnCalls, OnMachine, OnShared};
ghost use Rattle.bohm_c.specs.Keeping.{IsRunUntold};
ghost use Rattle.bohm_c.specs.Listed.{cleared};

use crate::handle::{BohmHandle, put_back, take_back};
use crate::kept::Kept;
use crate::shared_session::{Finished, SharedSession};
use crate::status::{
    DONE, IN_ORDER, MISUSE, NO_MEMORY, SHARED, STOPPED, TIMESTAMPS, UNFIT, WAITING,
};
use bohm_machine::SharedCalls;
use std::alloc::Global;
use std::mem::replace;

/// The calls of a list shared among the workers of a machine; or else the status that says why not.
fn shared_on(
    machine: &mut Kept,
    alloc: Global,
    calls: &mut Kept,
    workers: u32,
) -> Result<SharedCalls, u32>
    ensures same { machine.new ≡ machine.old }
    ensures shared { IfOk result (λ s. OnMachine (Some machine.old) (λ was.
        OnCalls (Some calls.old) (λ list. s ≡ record { was = was.machine; calls = list.calls }))) }
    ensures handed { OnOk result (OnMachine (Some machine.old) (λ was. was.waiting ≡ [])) }
    ensures taken { IfOk result (λ s.
        OnMachine (Some machine.old) (λ was. IsTaken was.machine s.calls)) }
    ensures left { OnOk result (OnCalls (Some calls.old) (λ was.
        OnCalls (Some calls.new) (λ now. now ≡ cleared was))) }
    ensures long { OnOk result (OnCalls (Some calls.old)
        (λ list. are_shared workers list.calls.log ≡ true)) }
    ensures status { IfErr result (λ status. (status ≡ NO_MEMORY) ⊎ (status ≡ TIMESTAMPS)
        ⊎ (status ≡ WAITING) ⊎ (status ≡ UNFIT) ⊎ (status ≡ IN_ORDER)
        ⊎ (status ≡ MISUSE) ⊎ (status ≡ SHARED)) }
    ensures misuse { IfErr result (λ status. (status ≡ MISUSE)
        ↔ ¬ (HasMachine (Some machine.old) × HasCalls (Some calls.old))) }
    ensures refused { IfErr result
        (λ status. (status ≡ SHARED) ↔ AreShared (Some machine.old) (Some calls.old)) }
    ensures waiting { result ≡ Err WAITING
        → OnMachine (Some machine.old) (λ was. 0 < length was.waiting) }
    ensures told { result ≢ Err WAITING → result ≢ Err MISUSE → result ≢ Err SHARED
        → OnMachine (Some machine.old) (λ was. was.waiting ≡ []) }
    ensures unfit { result ≡ Err UNFIT → workers ≡ 0 }
    ensures timestamps { result ≡ Err TIMESTAMPS → OnMachine (Some machine.old) (λ was.
        OnCalls (Some calls.old) (λ list. IsRefused was.machine list.calls segment_is.Timestamps)) }
    ensures in_order { result ≡ Err IN_ORDER → OnCalls (Some calls.old)
        (λ list. are_shared workers list.calls.log ≡ false) }
    ensures unchanged { OnErr result (calls.new ≡ calls.old) }
{
    match machine {
        Kept::Machine(session) => match calls {
            Kept::Calls(list) => session.share(alloc, list, workers),
            Kept::Lent => Err(SHARED),
            Kept::Machine(_) | Kept::Prepared(_) | Kept::Shared(_) | Kept::Worker(_) => Err(MISUSE),
        },
        Kept::Shared(_) => match calls {
            Kept::Calls(_) | Kept::Lent => Err(SHARED),
            Kept::Machine(_) | Kept::Prepared(_) | Kept::Shared(_) | Kept::Worker(_) => Err(MISUSE),
        },
        Kept::Prepared(_) | Kept::Calls(_) | Kept::Lent | Kept::Worker(_) => Err(MISUSE),
    }
}

/// Puts a list whose calls are shared into its machine's handle, beside the machine.
fn lend(machine: &mut Kept, calls: &mut Kept, shared: SharedCalls)
    requires machine { OnMachine (Some machine.old)
        (λ was. (shared.was ≡ was.machine) × (was.waiting ≡ [])) }
    requires taken { OnMachine (Some machine.old) (λ was. IsTaken was.machine shared.calls) }
    requires list { IsCallList (Some calls.old) }
    ensures session { OnMachine (Some machine.old) (λ was.
        OnShared (Some machine.new) (λ s. s.session ≡ was)) }
    ensures calls { OnCalls (Some calls.old) (λ list. OnShared (Some machine.new)
        (λ s. s.list ≡ record { calls = shared.calls; names = list.names })) }
    ensures lent { IsLent (Some calls.new) }
{
    match (replace(machine, Kept::Lent), replace(calls, Kept::Lent)) {
        (Kept::Machine(session), Kept::Calls(list)) => {
            *machine = Kept::Shared(SharedSession::new(session, list, shared));
        }
        _ => unreachable!(),
    }
}

/// Shares the calls of a list among the workers of a machine; `MISUSE` if either is something else.
fn share_on(machine: &mut Kept, alloc: Global, calls: &mut Kept, workers: u32) -> u32
    ensures status { (result ≡ DONE) ⊎ (result ≡ NO_MEMORY) ⊎ (result ≡ TIMESTAMPS)
        ⊎ (result ≡ WAITING) ⊎ (result ≡ UNFIT) ⊎ (result ≡ IN_ORDER)
        ⊎ (result ≡ MISUSE) ⊎ (result ≡ SHARED) }
    ensures misuse { (result ≡ MISUSE)
        ↔ ¬ (HasMachine (Some machine.old) × HasCalls (Some calls.old)) }
    ensures shared { (result ≡ SHARED) ↔ AreShared (Some machine.old) (Some calls.old) }
    ensures done { result ≡ DONE → OnMachine (Some machine.old) (λ was.
        OnCalls (Some calls.old) (λ list.
        OnShared (Some machine.new) (λ s. s ≡ record { session = was; list = list }))) }
    ensures lent { result ≡ DONE → IsLent (Some calls.new) }
    ensures long { result ≡ DONE → OnCalls (Some calls.old)
        (λ list. are_shared workers list.calls.log ≡ true) }
    ensures waiting { result ≡ WAITING
        → OnMachine (Some machine.old) (λ was. 0 < length was.waiting) }
    ensures told { result ≢ WAITING → result ≢ MISUSE → result ≢ SHARED
        → OnMachine (Some machine.old) (λ was. was.waiting ≡ []) }
    ensures unfit { result ≡ UNFIT → workers ≡ 0 }
    ensures timestamps { result ≡ TIMESTAMPS → OnMachine (Some machine.old) (λ was.
        OnCalls (Some calls.old) (λ list. IsRefused was.machine list.calls segment_is.Timestamps)) }
    ensures in_order { result ≡ IN_ORDER → OnCalls (Some calls.old)
        (λ list. are_shared workers list.calls.log ≡ false) }
    ensures unchanged { 0 < result → machine.new ≡ machine.old }
    ensures same_list { 0 < result → calls.new ≡ calls.old }
{
    match shared_on(machine, alloc, calls, workers) {
        Ok(shared) => {
            lend(machine, calls, shared);
            DONE
        }
        Err(status) => status,
    }
}

/// Shares the calls of an open list among this many workers of an open machine, which run them
/// after the top: plans them as one batch. Until `bohm_finish_calls` the machine has the list, and
/// neither can be used. It starts no thread.
#[unsafe(no_mangle)]
pub extern "C" fn bohm_share_calls(
    alloc: Global,
    machine: &mut BohmHandle,
    calls: &mut BohmHandle,
    workers: u32,
) -> u32
    ensures status { (result ≡ DONE) ⊎ (result ≡ NO_MEMORY) ⊎ (result ≡ TIMESTAMPS)
        ⊎ (result ≡ WAITING) ⊎ (result ≡ UNFIT) ⊎ (result ≡ IN_ORDER)
        ⊎ (result ≡ MISUSE) ⊎ (result ≡ SHARED) }
    ensures misuse { (result ≡ MISUSE)
        ↔ ¬ (HasMachine machine.old.value × HasCalls calls.old.value) }
    ensures shared { (result ≡ SHARED) ↔ AreShared machine.old.value calls.old.value }
    ensures done { result ≡ DONE → OnMachine machine.old.value (λ was.
        OnCalls calls.old.value (λ list.
        OnShared machine.new.value (λ s. s ≡ record { session = was; list = list }))) }
    ensures lent { result ≡ DONE → IsLent calls.new.value }
    ensures long { result ≡ DONE → OnCalls calls.old.value
        (λ list. are_shared workers list.calls.log ≡ true) }
    ensures waiting { result ≡ WAITING
        → OnMachine machine.old.value (λ was. 0 < length was.waiting) }
    ensures told { result ≢ WAITING → result ≢ MISUSE → result ≢ SHARED
        → OnMachine machine.old.value (λ was. was.waiting ≡ []) }
    ensures unfit { result ≡ UNFIT → workers ≡ 0 }
    ensures timestamps { result ≡ TIMESTAMPS → OnMachine machine.old.value (λ was.
        OnCalls calls.old.value (λ list. IsRefused was.machine list.calls segment_is.Timestamps)) }
    ensures in_order { result ≡ IN_ORDER → OnCalls calls.old.value
        (λ list. are_shared workers list.calls.log ≡ false) }
    ensures unchanged { 0 < result → machine.new.value ≡ machine.old.value }
    ensures same_list { 0 < result → calls.new.value ≡ calls.old.value }
{
    let Some(mut kept) = take_back(alloc, machine) else {
        return MISUSE;
    };
    let status = match take_back(alloc, calls) {
        Some(mut list) => {
            let status = share_on(&mut *kept, alloc, &mut *list, workers);
            put_back(calls, list);
            status
        }
        None => MISUSE,
    };
    put_back(machine, kept);
    status
}

/// Opens a closed handle of the next worker of a session.
fn open_next(shared: &mut SharedSession, alloc: Global, worker: &mut BohmHandle) -> u32
    requires { worker.old.value ≡ None }
    ensures same { shared.new ≡ shared.old }
    ensures status { (result ≡ DONE) ⊎ (result ≡ UNFIT) ⊎ (result ≡ NO_MEMORY) }
    ensures done { result ≡ DONE → IsWorker worker.new.value }
    ensures unchanged { 0 < result → worker.new.value ≡ worker.old.value }
{
    // The box comes first, so that no worker is lost if that fails.
    let Ok(mut kept) = Box::new(alloc, Kept::Lent) else {
        return NO_MEMORY;
    };
    match shared.next_worker() {
        Ok(Some(next)) => {
            *kept = Kept::Worker(next);
            put_back(worker, kept);
            DONE
        }
        Ok(None) => UNFIT,
        Err(_) => NO_MEMORY,
    }
}

/// Opens a closed handle of the next worker of a machine that is shared, if not all were opened.
#[unsafe(no_mangle)]
pub extern "C" fn bohm_open_worker(
    alloc: Global,
    machine: &mut BohmHandle,
    worker: &mut BohmHandle,
) -> u32
    ensures same { machine.new.value ≡ machine.old.value }
    ensures status { (result ≡ DONE) ⊎ (result ≡ UNFIT) ⊎ (result ≡ NO_MEMORY)
        ⊎ (result ≡ MISUSE) }
    ensures misuse { (result ≡ MISUSE)
        ↔ ¬ (IsShared machine.old.value × (worker.old.value ≡ None)) }
    ensures done { result ≡ DONE → IsWorker worker.new.value }
    ensures unchanged { 0 < result → worker.new.value ≡ worker.old.value }
{
    if let Some(kept) = take_back(alloc, worker) {
        put_back(worker, kept);
        return MISUSE;
    }
    let Some(mut kept) = take_back(alloc, machine) else {
        return MISUSE;
    };
    let status = match &mut *kept {
        Kept::Shared(shared) => open_next(shared, alloc, worker),
        Kept::Machine(_) | Kept::Prepared(_) | Kept::Calls(_) | Kept::Lent | Kept::Worker(_) => {
            MISUSE
        }
    };
    put_back(machine, kept);
    status
}

/// Has a worker sweep its share of the calls, on this thread, and closes its handle.
#[unsafe(no_mangle)]
pub extern "C" fn bohm_work(alloc: Global, worker: &mut BohmHandle) -> u32
    ensures status { (result ≡ DONE) ⊎ (result ≡ MISUSE) }
    ensures misuse { (result ≡ MISUSE) ↔ ¬ IsWorker worker.old.value }
    ensures done { result ≡ DONE → worker.new.value ≡ None }
    ensures unchanged { 0 < result → worker.new.value ≡ worker.old.value }
{
    let Some(mut kept) = take_back(alloc, worker) else {
        return MISUSE;
    };
    match replace(&mut *kept, Kept::Lent) {
        Kept::Worker(own) => {
            own.work(alloc);
            DONE
        }
        other => {
            *kept = other;
            put_back(worker, kept);
            MISUSE
        }
    }
}

/// Ends shared calls; `MISUSE` if there are none, or if the list is another thing.
fn finish_on(machine: &mut Kept, alloc: Global, calls: &mut Kept) -> u32
    ensures status { (result ≡ DONE) ⊎ (result ≡ STOPPED) ⊎ (result ≡ MISUSE)
        ⊎ (result ≡ SHARED) }
    ensures misuse { (result ≡ MISUSE)
        ↔ ¬ (IsShared (Some machine.old) × IsLent (Some calls.old)) }
    ensures ran { (result ≡ DONE) ⊎ (result ≡ STOPPED) → OnShared (Some machine.old) (λ s.
        OnMachine (Some machine.new) (λ now. IsRunUntold s.session now s.list.calls)) }
    ensures whole { result ≡ DONE → OnShared (Some machine.old) (λ s.
        OnMachine (Some machine.new) (λ now. length now.waiting ≡ length s.list.calls.log)) }
    ensures part { result ≡ STOPPED → OnShared (Some machine.old) (λ s.
        OnMachine (Some machine.new) (λ now. length now.waiting < length s.list.calls.log)) }
    ensures list { (result ≡ DONE) ⊎ (result ≡ STOPPED) → OnShared (Some machine.old) (λ s.
        OnCalls (Some calls.new) (λ list. list ≡ s.list)) }
    ensures unchanged { result ≢ DONE → result ≢ STOPPED → machine.new ≡ machine.old }
    ensures same_list { result ≢ DONE → result ≢ STOPPED → calls.new ≡ calls.old }
{
    let Kept::Lent = calls else {
        return MISUSE;
    };
    match replace(machine, Kept::Lent) {
        Kept::Shared(shared) => match shared.finish(alloc) {
            Ok(finished) => {
                let Finished {
                    session,
                    list,
                    status,
                } = finished;
                *machine = Kept::Machine(session);
                *calls = Kept::Calls(list);
                status
            }
            Err(shared) => {
                *machine = Kept::Shared(shared);
                SHARED
            }
        },
        other => {
            *machine = other;
            MISUSE
        }
    }
}

/// Ends the calls that a machine shares, once each worker that was opened has worked or was closed:
/// runs what the workers left, keeps the replies waiting, and puts the calls back into their list.
/// If a worker is left, nothing happens, and that is `SHARED`.
#[unsafe(no_mangle)]
pub extern "C" fn bohm_finish_calls(
    alloc: Global,
    machine: &mut BohmHandle,
    calls: &mut BohmHandle,
) -> u32
    ensures status { (result ≡ DONE) ⊎ (result ≡ STOPPED) ⊎ (result ≡ MISUSE)
        ⊎ (result ≡ SHARED) }
    ensures misuse { (result ≡ MISUSE)
        ↔ ¬ (IsShared machine.old.value × IsLent calls.old.value) }
    ensures ran { (result ≡ DONE) ⊎ (result ≡ STOPPED) → OnShared machine.old.value (λ s.
        OnMachine machine.new.value (λ now. IsRunUntold s.session now s.list.calls)) }
    ensures whole { result ≡ DONE → OnShared machine.old.value (λ s.
        OnMachine machine.new.value (λ now. length now.waiting ≡ length s.list.calls.log)) }
    ensures part { result ≡ STOPPED → OnShared machine.old.value (λ s.
        OnMachine machine.new.value (λ now. length now.waiting < length s.list.calls.log)) }
    ensures list { (result ≡ DONE) ⊎ (result ≡ STOPPED) → OnShared machine.old.value (λ s.
        OnCalls calls.new.value (λ list. list ≡ s.list)) }
    ensures unchanged { result ≢ DONE → result ≢ STOPPED
        → machine.new.value ≡ machine.old.value }
    ensures same_list { result ≢ DONE → result ≢ STOPPED
        → calls.new.value ≡ calls.old.value }
{
    let Some(mut kept) = take_back(alloc, machine) else {
        return MISUSE;
    };
    let status = match take_back(alloc, calls) {
        Some(mut list) => {
            let status = finish_on(&mut *kept, alloc, &mut *list);
            put_back(calls, list);
            status
        }
        None => MISUSE,
    };
    put_back(machine, kept);
    status
}
