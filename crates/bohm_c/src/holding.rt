//! Segments whose replies wait until they are fetched, as rows or as text.

ghost use Rattle.std.specs.Prelude.{◌≡◌, ◌≢◌, ◌<◌, ◌⊎◌, [], length};
ghost use Rattle.std.specs.List.{flat_map};
ghost use Rattle.bohm_machine.specs.Segments.{IsRefused as IsUntakenBy};
ghost use Rattle.bohm_machine.specs.declared.fault.SegmentFault.TheVariants as segment_is;
ghost use Rattle.bohm_c.specs.Keeping.{IsHeld, IsHeldPartly, IsRunUntold, IsUntaken};
ghost use Rattle.bohm_c.specs.Reading.{IsRefusal};
ghost use Rattle.bohm_c.specs.Rows.{rows_from, shows_of};

use crate::call_list::CallList;
use crate::handing::hand_over;
use crate::reading::read;
use crate::rows::{BohmReply, Rows, rows_of};
use crate::session::{Session, refuse};
use crate::status::{DONE, HAS_STORE, NO_MEMORY, REFUSED, STOPPED, TIMESTAMPS, WAITING};
use bohm_apply::Applied;
use bohm_machine::SegmentFault;
use bohm_txn::{Checked, Replies};
use std::alloc::Global;

impl Session {
    /// Runs a segment, and keeps its replies waiting.
    fn hold(&mut self, alloc: Global, segment: &Checked) -> u32
        requires { self.old.waiting ≡ [] }
        ensures status { (result ≡ DONE) ⊎ (result ≡ HAS_STORE) ⊎ (result ≡ TIMESTAMPS)
            ⊎ (result ≡ STOPPED) }
        ensures done { result ≡ DONE → IsRunUntold self.old self.new segment.now }
        ensures whole { result ≡ DONE → length self.new.waiting ≡ length segment.now.log }
        ensures stopped { result ≡ STOPPED → IsRunUntold self.old self.new segment.now }
        ensures part { result ≡ STOPPED → length self.new.waiting < length segment.now.log }
        ensures has_store { result ≡ HAS_STORE
            → IsUntakenBy self.old.machine segment.now segment_is.Store }
        ensures timestamps { result ≡ TIMESTAMPS
            → IsUntakenBy self.old.machine segment.now segment_is.Timestamps }
        ensures unchanged { 0 < result → result < STOPPED → self.new ≡ self.old }
    {
        let behind = self.machine.top();
        match self.machine.apply(alloc, segment) {
            Ok(applied) => {
                let Applied { replies, .. } = applied;
                let (ran, count) = (replies.len(), segment.log().len());
                self.waiting = replies;
                self.behind = behind;
                if ran < count { STOPPED } else { DONE }
            }
            Err(SegmentFault::Store) => HAS_STORE,
            Err(SegmentFault::Timestamps) => TIMESTAMPS,
        }
    }

    /// Runs the segment of a text, and keeps its replies waiting.
    pub fn apply_held<'a>(&mut self, alloc: Global, text: &[u8], out: &mut &'a mut [u8]) -> u32
        ensures status { (result ≡ DONE) ⊎ (result ≡ REFUSED) ⊎ (result ≡ NO_MEMORY)
            ⊎ (result ≡ HAS_STORE)
            ⊎ (result ≡ TIMESTAMPS) ⊎ (result ≡ WAITING) ⊎ (result ≡ STOPPED) }
        ensures done { result ≡ DONE → IsHeld self.old self.new text.now }
        ensures stopped { result ≡ STOPPED → IsHeldPartly self.old self.new text.now }
        ensures refused { result ≡ REFUSED → IsRefusal text.now out.new.now }
        ensures has_store { result ≡ HAS_STORE
            → IsUntaken self.old.machine text.now segment_is.Store }
        ensures timestamps { result ≡ TIMESTAMPS
            → IsUntaken self.old.machine text.now segment_is.Timestamps }
        ensures waiting { result ≡ WAITING → 0 < length self.old.waiting }
        ensures told { result ≢ WAITING → self.old.waiting ≡ [] }
        ensures unchanged { 0 < result → result < STOPPED → self.new ≡ self.old }
        ensures untouched { result ≢ REFUSED → out.new ≡ out.old }
    {
        if self.waiting.is_empty() {
            match read(alloc, self.machine.seed(), text) {
                Ok(segment) => self.hold(alloc, &segment),
                Err(fault) => refuse(alloc, fault, out),
            }
        } else {
            WAITING
        }
    }

    /// Runs calls, as the segment of their instances, and keeps the replies waiting.
    pub fn run_calls_held(&mut self, alloc: Global, calls: &CallList) -> u32
        ensures status { (result ≡ DONE) ⊎ (result ≡ TIMESTAMPS) ⊎ (result ≡ WAITING)
            ⊎ (result ≡ STOPPED) }
        ensures done { result ≡ DONE → IsRunUntold self.old self.new calls.now.calls }
        ensures whole { result ≡ DONE → length self.new.waiting ≡ length calls.now.calls.log }
        ensures stopped { result ≡ STOPPED → IsRunUntold self.old self.new calls.now.calls }
        ensures part { result ≡ STOPPED → length self.new.waiting < length calls.now.calls.log }
        ensures timestamps { result ≡ TIMESTAMPS
            → IsUntakenBy self.old.machine calls.now.calls segment_is.Timestamps }
        ensures waiting { result ≡ WAITING → 0 < length self.old.waiting }
        ensures told { result ≢ WAITING → self.old.waiting ≡ [] }
        ensures unchanged { 0 < result → result < STOPPED → self.new ≡ self.old }
    {
        if self.waiting.is_empty() {
            self.hold(alloc, calls.segment())
        } else {
            WAITING
        }
    }

    /// Returns the waiting replies as rows, and the values that they show.
    pub fn rows<'a>(
        &mut self,
        alloc: Global,
        replies: &mut &'a mut [BohmReply],
        values: &mut &'a mut [i64],
    ) -> u32
        ensures status { (result ≡ DONE) ⊎ (result ≡ NO_MEMORY) }
        ensures machine { self.new.machine ≡ self.old.machine }
        ensures names { self.new.single ≡ self.old.single }
        ensures replies { result ≡ DONE → replies.new.now ≡ rows_from 0 self.old.waiting }
        ensures values { result ≡ DONE → values.new.now ≡ flat_map shows_of self.old.waiting }
        ensures handed { result ≡ DONE → self.new.waiting ≡ [] }
        ensures unchanged { result ≡ NO_MEMORY → self.new ≡ self.old }
        ensures untouched { result ≡ NO_MEMORY → replies.new ≡ replies.old }
        ensures same_values { result ≡ NO_MEMORY → values.new ≡ values.old }
    {
        let Ok(rows) = rows_of(alloc, &self.waiting) else {
            return NO_MEMORY;
        };
        let Rows {
            replies: told,
            values: shown,
        } = rows;
        *replies = hand_over(alloc, told);
        *values = hand_over(alloc, shown);
        self.waiting = Replies::new(alloc);
        DONE
    }
}
