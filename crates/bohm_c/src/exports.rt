//! The functions that C calls.

ghost use Rattle.std.specs.Prelude.{◌≡◌, ◌≢◌, ◌+◌, ◌<◌, ◌≤◌, ◌⊎◌, ◌↔◌, [], length, None, Some};
ghost use Rattle.bohm_types.specs.Name.{key_of};
ghost use Rattle.bohm_text.specs.Print.{print_numbered};
ghost use Rattle.bohm_machine.specs.Digests.{IsDigest};
ghost use Rattle.bohm_machine.specs.Machines.{floor_of, past_of, top_of};
ghost use Rattle.bohm_machine.specs.declared.fault.SegmentFault.TheVariants as segment_is;
ghost use Rattle.bohm_c.specs.Handles.{HasMachine, IsShared, OnMachine};
ghost use Rattle.bohm_c.specs.Keeping.{HasCounts, HasTransactions, IsAnswer, IsDone};
ghost use Rattle.bohm_c.specs.Keeping.{IsKept, IsOpening, IsReadable, IsSnapshot};
ghost use Rattle.bohm_c.specs.Keeping.{IsStopped, IsTrimmed, IsUntaken, told};
ghost use Rattle.bohm_c.specs.Reading.{IsRefusal};

use crate::answer::answer;
use crate::counts::BohmCounts;
use crate::handle::{BohmHandle, put_back, take_back};
use crate::kept::Kept;
use crate::reading::read;
use crate::seeds::draw;
use crate::session::{open, refuse, refuse_opening};
use crate::status::{
    DONE, FUTURE, HAS_LOG, HAS_STORE, KEPT, MISUSE, NO_KEY, NO_MEMORY, REFUSED, SHARED, STOPPED,
    TIMESTAMPS, TRIMMED, WAITING,
};
use bohm_types::Key;
use std::alloc::Global;

/// Runs the log of a text, and returns the text of its answer. Keys are hashed with the seed.
#[unsafe(no_mangle)]
pub extern "C" fn bohm_answer<'a>(
    alloc: Global,
    seed: &[u8; 16],
    text: &[u8],
    out: &mut &'a mut [u8],
) -> u32
    ensures status { result ≤ NO_MEMORY }
    ensures done { result ≡ DONE → IsAnswer text.now out.new.now }
    ensures refused { result ≡ REFUSED → IsRefusal text.now out.new.now }
    ensures untouched { result ≡ NO_MEMORY → out.new ≡ out.old }
{
    let seed = draw(seed);
    let checked = match read(alloc, seed, text) {
        Ok(checked) => checked,
        Err(fault) => return refuse(alloc, fault, out),
    };
    match answer(alloc, seed, &checked) {
        Ok(answer) => {
            *out = answer.hand_over(alloc);
            DONE
        }
        Err(_) => NO_MEMORY,
    }
}

/// Opens a machine on a snapshot, which is the store after the transaction with a timestamp. Keys
/// are hashed with the seed.
#[unsafe(no_mangle)]
pub extern "C" fn bohm_open<'a>(
    alloc: Global,
    machine: &mut BohmHandle,
    seed: &[u8; 16],
    text: &[u8],
    top: u32,
    out: &mut &'a mut [u8],
) -> u32
    ensures status { (result ≡ DONE) ⊎ (result ≡ REFUSED) ⊎ (result ≡ NO_MEMORY)
        ⊎ (result ≡ HAS_LOG)
        ⊎ (result ≡ MISUSE) }
    ensures misuse { (result ≡ MISUSE) ↔ (machine.old.value ≢ None) }
    ensures done { result ≡ DONE → OnMachine machine.new.value (IsOpening text.now top) }
    ensures refused { result ≡ REFUSED → IsRefusal text.now out.new.now }
    ensures has_log { result ≡ HAS_LOG → HasTransactions text.now }
    ensures unchanged { 0 < result → machine.new.value ≡ machine.old.value }
    ensures untouched { result ≢ REFUSED → out.new ≡ out.old }
{
    if let Some(kept) = take_back(alloc, machine) {
        put_back(machine, kept);
        return MISUSE;
    }
    match open(alloc, draw(seed), text, top) {
        Ok(session) => match Box::new(alloc, Kept::Machine(session)) {
            Ok(kept) => {
                put_back(machine, kept);
                DONE
            }
            Err(_) => NO_MEMORY,
        },
        Err(fault) => refuse_opening(alloc, fault, out),
    }
}

/// Runs a segment, and returns the text of its replies, numbered on from the top.
#[unsafe(no_mangle)]
pub extern "C" fn bohm_apply<'a>(
    alloc: Global,
    machine: &mut BohmHandle,
    text: &[u8],
    out: &mut &'a mut [u8],
) -> u32
    ensures status { (result ≡ DONE) ⊎ (result ≡ REFUSED) ⊎ (result ≡ NO_MEMORY)
        ⊎ (result ≡ HAS_STORE)
        ⊎ (result ≡ TIMESTAMPS) ⊎ (result ≡ WAITING) ⊎ (result ≡ STOPPED) ⊎ (result ≡ KEPT)
        ⊎ (result ≡ MISUSE) ⊎ (result ≡ SHARED) }
    ensures misuse { (result ≡ MISUSE) ↔ ¬ HasMachine machine.old.value }
    ensures shared { (result ≡ SHARED) ↔ IsShared machine.old.value }
    ensures done { result ≡ DONE → OnMachine machine.old.value (λ was.
        OnMachine machine.new.value (λ now. IsDone was now text.now out.new.now)) }
    ensures stopped { result ≡ STOPPED → OnMachine machine.old.value (λ was.
        OnMachine machine.new.value (λ now. IsStopped was now text.now out.new.now)) }
    ensures kept { result ≡ KEPT → OnMachine machine.old.value (λ was.
        OnMachine machine.new.value (λ now. IsKept was now text.now)) }
    ensures refused { result ≡ REFUSED → IsRefusal text.now out.new.now }
    ensures has_store { result ≡ HAS_STORE
        → OnMachine machine.old.value (λ was. IsUntaken was.machine text.now segment_is.Store) }
    ensures timestamps { result ≡ TIMESTAMPS → OnMachine machine.old.value
        (λ was. IsUntaken was.machine text.now segment_is.Timestamps) }
    ensures waiting { result ≡ WAITING
        → OnMachine machine.old.value (λ was. 0 < length was.waiting) }
    ensures told { (result ≡ REFUSED) ⊎ (result ≡ HAS_STORE) ⊎ (result ≡ TIMESTAMPS)
        → OnMachine machine.old.value (λ was. was.waiting ≡ []) }
    ensures unchanged { result ≢ DONE → result ≢ STOPPED → result ≢ KEPT
        → machine.new.value ≡ machine.old.value }
    ensures untouched { result ≢ DONE → result ≢ REFUSED → result ≢ STOPPED → out.new ≡ out.old }
{
    let Some(mut kept) = take_back(alloc, machine) else {
        return MISUSE;
    };
    let status = match &mut *kept {
        Kept::Machine(session) => session.apply(alloc, text, out),
        Kept::Shared(_) => SHARED,
        Kept::Prepared(_) | Kept::Calls(_) | Kept::Lent | Kept::Worker(_) => MISUSE,
    };
    put_back(machine, kept);
    status
}

/// Returns the text of the waiting replies.
#[unsafe(no_mangle)]
pub extern "C" fn bohm_replies<'a>(
    alloc: Global,
    machine: &mut BohmHandle,
    out: &mut &'a mut [u8],
) -> u32
    ensures status { (result ≡ DONE) ⊎ (result ≡ NO_MEMORY)
        ⊎ (result ≡ MISUSE) ⊎ (result ≡ SHARED) }
    ensures misuse { (result ≡ MISUSE) ↔ ¬ HasMachine machine.old.value }
    ensures shared { (result ≡ SHARED) ↔ IsShared machine.old.value }
    ensures done { result ≡ DONE → OnMachine machine.old.value (λ was.
        OnMachine machine.new.value (λ now. (now.machine ≡ was.machine) × (now.waiting ≡ [])
        × (now.single ≡ was.single))) }
    ensures says { result ≡ DONE → OnMachine machine.old.value
        (λ was. out.new.now ≡ print_numbered (was.behind + 1) was.waiting) }
    ensures unchanged { 0 < result → machine.new.value ≡ machine.old.value }
    ensures untouched { 0 < result → out.new ≡ out.old }
{
    let Some(mut kept) = take_back(alloc, machine) else {
        return MISUSE;
    };
    let status = match &mut *kept {
        Kept::Machine(session) => session.replies(alloc, out),
        Kept::Shared(_) => SHARED,
        Kept::Prepared(_) | Kept::Calls(_) | Kept::Lent | Kept::Worker(_) => MISUSE,
    };
    put_back(machine, kept);
    status
}

/// The cell of a key after the transaction with a timestamp: whether it has a value, and the value.
#[unsafe(no_mangle)]
pub extern "C" fn bohm_value_at(
    alloc: Global,
    machine: &mut BohmHandle,
    key: &[u8],
    ts: u32,
    present: &mut bool,
    value: &mut i64,
) -> u32
    ensures same { machine.new.value ≡ machine.old.value }
    ensures status { (result ≡ DONE) ⊎ (result ≡ TRIMMED) ⊎ (result ≡ FUTURE) ⊎ (result ≡ NO_KEY)
        ⊎ (result ≡ MISUSE) ⊎ (result ≡ SHARED) }
    ensures misuse { (result ≡ MISUSE) ↔ ¬ HasMachine machine.old.value }
    ensures shared { (result ≡ SHARED) ↔ IsShared machine.old.value }
    ensures done { result ≡ DONE → OnMachine machine.old.value
        (λ k. past_of k.machine ts key.now ≡ told present.new value.new) }
    ensures within { result ≡ DONE → OnMachine machine.old.value (λ k. IsReadable k.machine ts) }
    ensures trimmed { result ≡ TRIMMED
        → OnMachine machine.old.value (λ k. ts < floor_of k.machine) }
    ensures future { result ≡ FUTURE → OnMachine machine.old.value (λ k. top_of k.machine < ts) }
    ensures no_key { result ≡ NO_KEY → key_of key.now ≡ None }
    ensures key { (result ≡ TRIMMED) ⊎ (result ≡ FUTURE) → key_of key.now ≡ Some key.now }
    ensures untouched { 0 < result → present.new ≡ present.old }
    ensures same_value { 0 < result → value.new ≡ value.old }
{
    let Some(kept) = take_back(alloc, machine) else {
        return MISUSE;
    };
    let status = match &*kept {
        Kept::Machine(session) => match Key::new(key) {
            Some(key) => session.value_at(&key, ts, present, value),
            None => NO_KEY,
        },
        Kept::Shared(_) => SHARED,
        Kept::Prepared(_) | Kept::Calls(_) | Kept::Lent | Kept::Worker(_) => MISUSE,
    };
    put_back(machine, kept);
    status
}

/// Returns a snapshot: the text of the store after the transaction with a timestamp, which
/// `bohm_open` accepts.
#[unsafe(no_mangle)]
pub extern "C" fn bohm_store_at<'a>(
    alloc: Global,
    machine: &mut BohmHandle,
    ts: u32,
    out: &mut &'a mut [u8],
) -> u32
    ensures same { machine.new.value ≡ machine.old.value }
    ensures status { (result ≡ DONE) ⊎ (result ≡ NO_MEMORY) ⊎ (result ≡ TRIMMED)
        ⊎ (result ≡ FUTURE)
        ⊎ (result ≡ MISUSE) ⊎ (result ≡ SHARED) }
    ensures misuse { (result ≡ MISUSE) ↔ ¬ HasMachine machine.old.value }
    ensures shared { (result ≡ SHARED) ↔ IsShared machine.old.value }
    ensures done { result ≡ DONE
        → OnMachine machine.old.value (λ k. IsSnapshot k.machine ts out.new.now) }
    ensures trimmed { result ≡ TRIMMED
        → OnMachine machine.old.value (λ k. ts < floor_of k.machine) }
    ensures future { result ≡ FUTURE → OnMachine machine.old.value (λ k. top_of k.machine < ts) }
    ensures no_memory { result ≡ NO_MEMORY
        → OnMachine machine.old.value (λ k. IsReadable k.machine ts) }
    ensures untouched { 0 < result → out.new ≡ out.old }
{
    let Some(kept) = take_back(alloc, machine) else {
        return MISUSE;
    };
    let status = match &*kept {
        Kept::Machine(session) => session.store_at(alloc, ts, out),
        Kept::Shared(_) => SHARED,
        Kept::Prepared(_) | Kept::Calls(_) | Kept::Lent | Kept::Worker(_) => MISUSE,
    };
    put_back(machine, kept);
    status
}

/// Writes the SHA-256 digest of the text of the store after the transaction with a timestamp: a
/// line `--` and then the lines of the snapshot's keys.
#[unsafe(no_mangle)]
pub extern "C" fn bohm_digest(
    alloc: Global,
    machine: &mut BohmHandle,
    ts: u32,
    digest: &mut [u8; 32],
) -> u32
    ensures same { machine.new.value ≡ machine.old.value }
    ensures status { (result ≡ DONE) ⊎ (result ≡ NO_MEMORY) ⊎ (result ≡ TRIMMED)
        ⊎ (result ≡ FUTURE)
        ⊎ (result ≡ MISUSE) ⊎ (result ≡ SHARED) }
    ensures misuse { (result ≡ MISUSE) ↔ ¬ HasMachine machine.old.value }
    ensures shared { (result ≡ SHARED) ↔ IsShared machine.old.value }
    ensures done { result ≡ DONE
        → OnMachine machine.old.value (λ k. IsDigest (past_of k.machine ts) digest.new) }
    ensures within { result ≡ DONE → OnMachine machine.old.value (λ k. IsReadable k.machine ts) }
    ensures trimmed { result ≡ TRIMMED
        → OnMachine machine.old.value (λ k. ts < floor_of k.machine) }
    ensures future { result ≡ FUTURE → OnMachine machine.old.value (λ k. top_of k.machine < ts) }
    ensures no_memory { result ≡ NO_MEMORY
        → OnMachine machine.old.value (λ k. IsReadable k.machine ts) }
    ensures untouched { 0 < result → digest.new ≡ digest.old }
{
    let Some(kept) = take_back(alloc, machine) else {
        return MISUSE;
    };
    let status = match &*kept {
        Kept::Machine(session) => session.digest(alloc, ts, digest),
        Kept::Shared(_) => SHARED,
        Kept::Prepared(_) | Kept::Calls(_) | Kept::Lent | Kept::Worker(_) => MISUSE,
    };
    put_back(machine, kept);
    status
}

/// Drops the past below a timestamp, if it is above the floor.
#[unsafe(no_mangle)]
pub extern "C" fn bohm_trim(alloc: Global, machine: &mut BohmHandle, floor: u32) -> u32
    ensures status { (result ≡ DONE) ⊎ (result ≡ FUTURE) ⊎ (result ≡ MISUSE) ⊎ (result ≡ SHARED) }
    ensures misuse { (result ≡ MISUSE) ↔ ¬ HasMachine machine.old.value }
    ensures shared { (result ≡ SHARED) ↔ IsShared machine.old.value }
    ensures done { result ≡ DONE → OnMachine machine.old.value (λ was.
        OnMachine machine.new.value (λ now. IsTrimmed was now floor)) }
    ensures future { result ≡ FUTURE
        → OnMachine machine.old.value (λ was. top_of was.machine < floor) }
    ensures unchanged { 0 < result → machine.new.value ≡ machine.old.value }
{
    let Some(mut kept) = take_back(alloc, machine) else {
        return MISUSE;
    };
    let status = match &mut *kept {
        Kept::Machine(session) => session.trim(floor),
        Kept::Shared(_) => SHARED,
        Kept::Prepared(_) | Kept::Calls(_) | Kept::Lent | Kept::Worker(_) => MISUSE,
    };
    put_back(machine, kept);
    status
}

/// The least and the greatest timestamp that can be read.
#[unsafe(no_mangle)]
pub extern "C" fn bohm_timestamps(
    alloc: Global,
    machine: &mut BohmHandle,
    floor: &mut u32,
    top: &mut u32,
) -> u32
    ensures same { machine.new.value ≡ machine.old.value }
    ensures status { (result ≡ DONE) ⊎ (result ≡ MISUSE) ⊎ (result ≡ SHARED) }
    ensures misuse { (result ≡ MISUSE) ↔ ¬ HasMachine machine.old.value }
    ensures shared { (result ≡ SHARED) ↔ IsShared machine.old.value }
    ensures floor { result ≡ DONE
        → OnMachine machine.old.value (λ k. floor.new ≡ floor_of k.machine) }
    ensures top { result ≡ DONE → OnMachine machine.old.value (λ k. top.new ≡ top_of k.machine) }
    ensures same_floor { 0 < result → floor.new ≡ floor.old }
    ensures same_top { 0 < result → top.new ≡ top.old }
{
    let Some(kept) = take_back(alloc, machine) else {
        return MISUSE;
    };
    let status = match &*kept {
        Kept::Machine(session) => {
            *floor = session.machine.floor();
            *top = session.machine.top();
            DONE
        }
        Kept::Shared(_) => SHARED,
        Kept::Prepared(_) | Kept::Calls(_) | Kept::Lent | Kept::Worker(_) => MISUSE,
    };
    put_back(machine, kept);
    status
}

/// Writes the machine's counts.
#[unsafe(no_mangle)]
pub extern "C" fn bohm_counts(
    alloc: Global,
    machine: &mut BohmHandle,
    counts: &mut BohmCounts,
) -> u32
    ensures same { machine.new.value ≡ machine.old.value }
    ensures status { (result ≡ DONE) ⊎ (result ≡ MISUSE) ⊎ (result ≡ SHARED) }
    ensures misuse { (result ≡ MISUSE) ↔ ¬ HasMachine machine.old.value }
    ensures shared { (result ≡ SHARED) ↔ IsShared machine.old.value }
    ensures done { result ≡ DONE → OnMachine machine.old.value (λ k. HasCounts k counts.new) }
    ensures untouched { 0 < result → counts.new ≡ counts.old }
{
    let Some(kept) = take_back(alloc, machine) else {
        return MISUSE;
    };
    let status = match &*kept {
        Kept::Machine(session) => {
            *counts = session.counts();
            DONE
        }
        Kept::Shared(_) => SHARED,
        Kept::Prepared(_) | Kept::Calls(_) | Kept::Lent | Kept::Worker(_) => MISUSE,
    };
    put_back(machine, kept);
    status
}

/// Frees what the handle keeps, if anything. Calls of a closed procedure stay in their lists.
#[unsafe(no_mangle)]
pub extern "C" fn bohm_close(alloc: Global, handle: &mut BohmHandle)
    ensures { handle.new.value ≡ None }
{
    let _kept = take_back(alloc, handle);
}
