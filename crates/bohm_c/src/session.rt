//! The state behind a machine's handle: a machine, and the replies that haven't been returned yet.

ghost use Rattle.std.specs.Prelude.{◌≡◌, ◌≢◌, ◌+◌, ◌<◌, ◌≤◌, ◌^◌, ◌⊎◌, ◌↔◌, ℕ, List, []};
ghost use Rattle.std.specs.Prelude.{length, true, false, is_ok, None, IfSome, IfOk, IfErr};
ghost use Rattle.bohm_types.specs.declared.cell.Cell.TheVariants as cell_is;
ghost use Rattle.bohm_types.specs.Keys.{names_of, rising};
ghost use Rattle.bohm_text.specs.Print.{print_numbered};
ghost use Rattle.bohm_machine.specs.Digests.{IsDigest};
ghost use Rattle.bohm_machine.specs.Machines.{floor_of, past_of, top_of};
ghost use Rattle.bohm_machine.specs.Segments.{IsRefused as IsUntakenBy};
ghost use Rattle.bohm_answer.specs.FaultLine.{fault_line};
ghost use Rattle.bohm_answer.specs.declared.fault.RunFault.TheVariants as run_is;
ghost use Rattle.bohm_machine.specs.declared.fault.SegmentFault.TheVariants as segment_is;
ghost use Rattle.bohm_c.specs.Keeping.{HasTransactions, IsDone, IsKept};
ghost use Rattle.bohm_c.specs.Keeping.{IsOpened, IsOpening, IsReadable, IsRefusedOpening};
ghost use Rattle.bohm_c.specs.Keeping.{IsRunKept, IsRunPartly, IsRunWhole, IsSnapshot};
ghost use Rattle.bohm_c.specs.Keeping.{IsStopped, IsTrimmed, IsUnopened, IsUntaken, told};
ghost use Rattle.bohm_c.specs.Reading.{IsRefusal, IsRefused, snapshot_of};
ghost use Rattle.bohm_c.specs.declared.session.OpenFault.TheVariants as open_is;

use crate::call_list::CallList;
use crate::handing::Text;
use crate::reading::{print_snapshot, read};
use crate::single_calls::SingleCalls;
use crate::status::{
    DONE, FUTURE, HAS_LOG, HAS_STORE, KEPT, NO_MEMORY, REFUSED, STOPPED, TIMESTAMPS, TRIMMED,
    WAITING,
};
use bohm_answer::{RunFault, print_fault};
use bohm_apply::Applied;
use bohm_log::DrawnSeed;
use bohm_machine::{Machine, SegmentFault};
use bohm_store::{PastFault, StoreFault};
use bohm_text::print_numbered;
use bohm_txn::{Checked, Replies};
use bohm_types::{Cell, Key, NoMemory, Value};
use std::alloc::Global;
use std::mem;

/// A machine, the waiting replies of its last segment, and what single calls on it use.
pub struct Session {
    pub machine: Machine,
    pub waiting: Replies,
    /// The timestamp before the first waiting reply.
    pub behind: u32,
    pub single: SingleCalls,
}

// Written out: a derived drop is proved anew in each function that drops such a value.
impl Drop for Session {
    fn drop(self) {
        let Self {
            machine,
            waiting,
            behind: _,
            single,
        } = self;
        drop(machine);
        drop(waiting);
        drop(single);
    }
}

/// Why a snapshot isn't opened.
#[derive(Drop)]
pub enum OpenFault {
    Text(RunFault),
    /// The text has transactions.
    HasLog,
}

/// The number that a cell holds, if it holds one.
fn number_in(cell: Cell) -> Option<i64>
    ensures some { IfSome result (λ z. cell ≡ cell_is.Present z) }
    ensures none { result ≡ None → cell ≡ cell_is.Absent }
{
    match cell {
        Cell::Absent => None,
        Cell::Present(value) => Some(value.get()),
    }
}

/// The line that reports a fault.
fn line_of(alloc: Global, fault: &RunFault) -> Result<Text, NoMemory>
    ensures { IfOk result (λ line. line ≡ fault_line fault.now) }
{
    Text::new(print_fault(alloc, fault)?)
}

/// Returns the line that reports a fault of a text.
pub fn refuse<'a>(alloc: Global, fault: RunFault, out: &mut &'a mut [u8]) -> u32
    ensures status { (result ≡ REFUSED) ⊎ (result ≡ NO_MEMORY) }
    ensures some { 0 < result }
    ensures few { result ≤ NO_MEMORY }
    ensures refused { result ≡ REFUSED → (text : List ℕ) → IsRefused text fault
        → IsRefusal text out.new.now }
    ensures says { result ≡ REFUSED → out.new.now ≡ fault_line fault }
    ensures fault { result ≡ REFUSED → fault ≢ run_is.NoMemory }
    ensures untouched { result ≢ REFUSED → out.new ≡ out.old }
{
    if let RunFault::NoMemory = fault {
        return NO_MEMORY;
    }
    match line_of(alloc, &fault) {
        Ok(line) => {
            *out = line.hand_over(alloc);
            REFUSED
        }
        Err(_) => NO_MEMORY,
    }
}

/// Returns the line that reports a fault of a snapshot's text. `HasLog` has no line.
pub fn refuse_opening<'a>(alloc: Global, fault: OpenFault, out: &mut &'a mut [u8]) -> u32
    ensures status { (result ≡ REFUSED) ⊎ (result ≡ NO_MEMORY) ⊎ (result ≡ HAS_LOG) }
    ensures some { 0 < result }
    ensures log { fault ≡ open_is.HasLog → result ≡ HAS_LOG }
    ensures has_log { result ≡ HAS_LOG → (text : List ℕ) → IsRefusedOpening text fault
        → HasTransactions text }
    ensures refused { result ≡ REFUSED → (text : List ℕ) → IsRefusedOpening text fault
        → IsRefusal text out.new.now }
    ensures untouched { result ≢ REFUSED → out.new ≡ out.old }
{
    match fault {
        OpenFault::Text(fault) => refuse(alloc, fault, out),
        OpenFault::HasLog => HAS_LOG,
    }
}

/// The text of replies after a timestamp.
fn numbered(alloc: Global, behind: u32, replies: &Replies) -> Result<Text, NoMemory>
    requires { behind + 1 + length replies.now ≤ 2 ^ 64 }
    ensures { IfOk result (λ text. text ≡ print_numbered (behind + 1) replies.now) }
{
    Text::new(print_numbered(alloc, u64::from(behind) + 1, replies)?)
}

/// The text of the replies of a segment after a timestamp. It allocates nothing for no replies.
fn text_of(alloc: Global, behind: u32, replies: &Replies) -> Result<Text, NoMemory>
    requires { behind + length replies.now < 2 ^ 32 }
    ensures ok { IfOk result (λ text. text ≡ print_numbered (behind + 1) replies.now) }
    ensures err { IfErr result (λ _. 0 < length replies.now) }
{
    if replies.is_empty() {
        return Ok(Text::empty(alloc));
    }
    numbered(alloc, behind, replies)
}

impl Session {
    /// Returns the text of the replies of a segment of `count` transactions after the timestamp
    /// `behind`. If allocating the text failed, the replies are kept waiting.
    fn hand_out<'a>(
        &mut self,
        alloc: Global,
        applied: Applied,
        count: usize,
        behind: u32,
        text: Result<Text, NoMemory>,
        out: &mut &'a mut [u8],
    ) -> u32
        requires handed { self.old.waiting ≡ [] }
        requires few { length applied.replies ≤ count }
        requires text { IfOk text (λ t. t ≡ print_numbered (behind + 1) applied.replies) }
        requires untold { IfErr text (λ _. 0 < length applied.replies) }
        ensures machine { self.new.machine ≡ self.old.machine }
        ensures names { self.new.single ≡ self.old.single }
        ensures status { (result ≡ DONE) ⊎ (result ≡ STOPPED) ⊎ (result ≡ KEPT) }
        ensures done { result ≡ DONE → length applied.replies ≡ count }
        ensures stopped { result ≡ STOPPED → length applied.replies < count }
        ensures kept { (result ≡ KEPT) ↔ (is_ok text ≡ false) }
        ensures says { result ≤ STOPPED
            → out.new.now ≡ print_numbered (behind + 1) applied.replies }
        ensures handed { result ≤ STOPPED → self.new.waiting ≡ [] }
        ensures some { result ≡ KEPT → 0 < length applied.replies }
        ensures waits { result ≡ KEPT → self.new.waiting ≡ applied.replies }
        ensures behind { result ≡ KEPT → self.new.behind ≡ behind }
        ensures untouched { result ≡ KEPT → out.new ≡ out.old }
    {
        let Applied { replies, .. } = applied;
        match text {
            Ok(text) => {
                *out = text.hand_over(alloc);
                if replies.len() < count { STOPPED } else { DONE }
            }
            Err(_) => {
                self.waiting = replies;
                self.behind = behind;
                KEPT
            }
        }
    }

    /// Runs a segment, and returns the text of its replies.
    fn run<'a>(&mut self, alloc: Global, segment: &Checked, out: &mut &'a mut [u8]) -> u32
        requires { self.old.waiting ≡ [] }
        ensures status { (result ≡ DONE) ⊎ (result ≡ HAS_STORE) ⊎ (result ≡ TIMESTAMPS)
            ⊎ (result ≡ STOPPED) ⊎ (result ≡ KEPT) }
        ensures done { result ≡ DONE → IsRunWhole self.old self.new segment.now out.new.now }
        ensures stopped { result ≡ STOPPED
            → IsRunPartly self.old self.new segment.now out.new.now }
        ensures kept { result ≡ KEPT → IsRunKept self.old self.new segment.now }
        ensures has_store { result ≡ HAS_STORE
            → IsUntakenBy self.old.machine segment.now segment_is.Store }
        ensures timestamps { result ≡ TIMESTAMPS
            → IsUntakenBy self.old.machine segment.now segment_is.Timestamps }
        ensures unchanged { 0 < result → result < STOPPED → self.new ≡ self.old }
        ensures untouched { result ≢ DONE → result ≢ STOPPED → out.new ≡ out.old }
    {
        let behind = self.machine.top();
        match self.machine.apply(alloc, segment) {
            Ok(applied) => {
                let text = text_of(alloc, behind, &applied.replies);
                self.hand_out(alloc, applied, segment.log().len(), behind, text, out)
            }
            Err(SegmentFault::Store) => HAS_STORE,
            Err(SegmentFault::Timestamps) => TIMESTAMPS,
        }
    }

    /// Runs the segment of a text.
    pub fn apply<'a>(&mut self, alloc: Global, text: &[u8], out: &mut &'a mut [u8]) -> u32
        ensures status { (result ≡ DONE) ⊎ (result ≡ REFUSED) ⊎ (result ≡ NO_MEMORY)
            ⊎ (result ≡ HAS_STORE)
            ⊎ (result ≡ TIMESTAMPS) ⊎ (result ≡ WAITING) ⊎ (result ≡ STOPPED) ⊎ (result ≡ KEPT) }
        ensures done { result ≡ DONE → IsDone self.old self.new text.now out.new.now }
        ensures stopped { result ≡ STOPPED → IsStopped self.old self.new text.now out.new.now }
        ensures kept { result ≡ KEPT → IsKept self.old self.new text.now }
        ensures refused { result ≡ REFUSED → IsRefusal text.now out.new.now }
        ensures has_store { result ≡ HAS_STORE
            → IsUntaken self.old.machine text.now segment_is.Store }
        ensures timestamps { result ≡ TIMESTAMPS
            → IsUntaken self.old.machine text.now segment_is.Timestamps }
        ensures waiting { result ≡ WAITING → 0 < length self.old.waiting }
        ensures told { result ≢ WAITING → self.old.waiting ≡ [] }
        ensures unchanged { 0 < result → result < STOPPED → self.new ≡ self.old }
        ensures untouched { result ≢ DONE → result ≢ REFUSED → result ≢ STOPPED
            → out.new ≡ out.old }
    {
        if !self.waiting.is_empty() {
            return WAITING;
        }
        match read(alloc, self.machine.seed(), text) {
            Ok(segment) => self.run(alloc, &segment, out),
            Err(fault) => refuse(alloc, fault, out),
        }
    }

    /// Runs calls, as the segment of their instances.
    pub fn run_calls<'a>(&mut self, alloc: Global, calls: &CallList, out: &mut &'a mut [u8]) -> u32
        ensures status { (result ≡ DONE) ⊎ (result ≡ TIMESTAMPS) ⊎ (result ≡ WAITING)
            ⊎ (result ≡ STOPPED) ⊎ (result ≡ KEPT) }
        ensures done { result ≡ DONE → IsRunWhole self.old self.new calls.now.calls out.new.now }
        ensures stopped { result ≡ STOPPED
            → IsRunPartly self.old self.new calls.now.calls out.new.now }
        ensures kept { result ≡ KEPT → IsRunKept self.old self.new calls.now.calls }
        ensures timestamps { result ≡ TIMESTAMPS
            → IsUntakenBy self.old.machine calls.now.calls segment_is.Timestamps }
        ensures waiting { result ≡ WAITING → 0 < length self.old.waiting }
        ensures told { result ≢ WAITING → self.old.waiting ≡ [] }
        ensures unchanged { 0 < result → result < STOPPED → self.new ≡ self.old }
        ensures untouched { result ≢ DONE → result ≢ STOPPED → out.new ≡ out.old }
    {
        if self.waiting.is_empty() {
            self.run(alloc, calls.segment(), out)
        } else {
            WAITING
        }
    }

    /// Returns the text of the waiting replies; there may be none.
    pub fn replies<'a>(&mut self, alloc: Global, out: &mut &'a mut [u8]) -> u32
        ensures status { (result ≡ DONE) ⊎ (result ≡ NO_MEMORY) }
        ensures machine { self.new.machine ≡ self.old.machine }
        ensures names { self.new.single ≡ self.old.single }
        ensures says { result ≡ DONE
            → out.new.now ≡ print_numbered (self.old.behind + 1) self.old.waiting }
        ensures handed { result ≡ DONE → self.new.waiting ≡ [] }
        ensures unchanged { result ≡ NO_MEMORY → self.new ≡ self.old }
        ensures untouched { result ≡ NO_MEMORY → out.new ≡ out.old }
    {
        let replies = mem::replace(&mut self.waiting, Replies::new(alloc));
        match numbered(alloc, self.behind, &replies) {
            Ok(text) => {
                *out = text.hand_over(alloc);
                DONE
            }
            Err(_) => {
                self.waiting = replies;
                NO_MEMORY
            }
        }
    }
}

impl Session {
    /// Writes the cell of a key after the transaction with a timestamp.
    pub fn value_at(&self, key: &Key, ts: u32, present: &mut bool, value: &mut i64) -> u32
        ensures status { (result ≡ DONE) ⊎ (result ≡ TRIMMED) ⊎ (result ≡ FUTURE) }
        ensures done { result ≡ DONE
            → past_of self.now.machine ts key.now ≡ told present.new value.new }
        ensures within { result ≡ DONE → IsReadable self.now.machine ts }
        ensures trimmed { result ≡ TRIMMED → ts < floor_of self.now.machine }
        ensures future { result ≡ FUTURE → top_of self.now.machine < ts }
        ensures untouched { 0 < result → present.new ≡ present.old }
        ensures same_value { 0 < result → value.new ≡ value.old }
    {
        let cell = match self.machine.value_at(key, ts) {
            Ok(cell) => cell,
            Err(PastFault::Trimmed) => return TRIMMED,
            Err(PastFault::Future) => return FUTURE,
        };
        match number_in(cell) {
            Some(number) => {
                *present = true;
                *value = number;
            }
            None => *present = false,
        }
        DONE
    }

    /// Returns the snapshot of a timestamp.
    pub fn store_at<'a>(&self, alloc: Global, ts: u32, out: &mut &'a mut [u8]) -> u32
        ensures status { (result ≡ DONE) ⊎ (result ≡ NO_MEMORY) ⊎ (result ≡ TRIMMED)
            ⊎ (result ≡ FUTURE) }
        ensures done { result ≡ DONE → IsSnapshot self.now.machine ts out.new.now }
        ensures trimmed { result ≡ TRIMMED → ts < floor_of self.now.machine }
        ensures future { result ≡ FUTURE → top_of self.now.machine < ts }
        ensures no_memory { result ≡ NO_MEMORY → IsReadable self.now.machine ts }
        ensures untouched { 0 < result → out.new ≡ out.old }
    {
        let store = match self.machine.store_at(alloc, ts) {
            Ok(store) => store,
            Err(StoreFault::Trimmed) => return TRIMMED,
            Err(StoreFault::Future) => return FUTURE,
            Err(StoreFault::NoMemory) => return NO_MEMORY,
        };
        match print_snapshot(alloc, store) {
            Ok(text) => {
                *out = text.hand_over(alloc);
                DONE
            }
            Err(_) => NO_MEMORY,
        }
    }

    /// Writes the digest of what each key holds after the transaction with a timestamp.
    pub fn digest(&self, alloc: Global, ts: u32, digest: &mut [u8; 32]) -> u32
        ensures status { (result ≡ DONE) ⊎ (result ≡ NO_MEMORY) ⊎ (result ≡ TRIMMED)
            ⊎ (result ≡ FUTURE) }
        ensures done { result ≡ DONE → IsDigest (past_of self.now.machine ts) digest.new }
        ensures within { result ≡ DONE → IsReadable self.now.machine ts }
        ensures trimmed { result ≡ TRIMMED → ts < floor_of self.now.machine }
        ensures future { result ≡ FUTURE → top_of self.now.machine < ts }
        ensures no_memory { result ≡ NO_MEMORY → IsReadable self.now.machine ts }
        ensures untouched { 0 < result → digest.new ≡ digest.old }
    {
        match self.machine.digest(alloc, ts) {
            Ok(made) => {
                *digest = made;
                DONE
            }
            Err(StoreFault::Trimmed) => TRIMMED,
            Err(StoreFault::Future) => FUTURE,
            Err(StoreFault::NoMemory) => NO_MEMORY,
        }
    }

    /// Drops the past below a timestamp.
    pub fn trim(&mut self, floor: u32) -> u32
        ensures status { (result ≡ DONE) ⊎ (result ≡ FUTURE) }
        ensures done { result ≡ DONE → IsTrimmed self.old self.new floor }
        ensures future { result ≡ FUTURE → top_of self.old.machine < floor }
        ensures unchanged { result ≡ FUTURE → self.new ≡ self.old }
    {
        if self.machine.top() < floor {
            return FUTURE;
        }
        self.machine.trim(floor);
        DONE
    }
}

impl Session {
    /// A machine on a store, as it was after the transaction with a timestamp.
    pub fn on_store(
        alloc: Global,
        seed: DrawnSeed,
        store: &[(Key, Value)],
        top: u32,
    ) -> Result<Session, NoMemory>
        requires { rising (names_of store.now) ≡ true }
        ensures { IfOk result (IsOpened (snapshot_of store.now) top) }
    {
        let machine = Machine::restore(alloc, seed, store, top)?;
        let single = SingleCalls::of(alloc, &machine)?;
        Ok(Session {
            machine,
            waiting: Replies::new(alloc),
            behind: top,
            single,
        })
    }
}

/// A machine on a snapshot's store, as it was after the transaction with a timestamp.
fn restore(
    alloc: Global,
    seed: DrawnSeed,
    snapshot: &Checked,
    top: u32,
) -> Result<Session, OpenFault>
    ensures ok { IfOk result (IsOpened snapshot.now top) }
    ensures err { IfErr result (IsUnopened snapshot.now) }
{
    if snapshot.log().len() > 0 {
        return Err(OpenFault::HasLog);
    }
    match Session::on_store(alloc, seed, snapshot.store(), top) {
        Ok(session) => Ok(session),
        Err(_) => Err(OpenFault::Text(RunFault::NoMemory)),
    }
}

/// Opens a machine on a snapshot, which is the store after the transaction with a timestamp.
pub fn open(alloc: Global, seed: DrawnSeed, text: &[u8], top: u32) -> Result<Session, OpenFault>
    ensures ok { IfOk result (IsOpening text.now top) }
    ensures err { IfErr result (IsRefusedOpening text.now) }
{
    match read(alloc, seed, text) {
        Ok(snapshot) => restore(alloc, seed, &snapshot, top),
        Err(fault) => Err(OpenFault::Text(fault)),
    }
}
