//! The two ends of the plan queue.

ghost use Rattle.std.specs.Prelude.{◌≡◌, ◌+◌, ◌<◌, ◌≤◌, ◌++◌, [], ◌∷◌};
ghost use Rattle.std.specs.Prelude.{length, true, false, All, IsSome, IfOk};
ghost use Rattle.std.specs.Option.{ForSome};
ghost use Rattle.crossbeam_channel.specs.Claims.{view as pass_view, IsSeatAt};
ghost use Rattle.crossbeam_channel.specs.Ends.{sends_on, receives_on};
ghost use Rattle.bohm_place.specs.Cuttings.{IsPlanAt};
ghost use Rattle.bohm_apply.specs.Lines.{end_of, IsLine, IsNoteAt, LineEnd};

use crate::plan_queue::note::{Line, PlanNote};
use crate::plan_queue::rule::{End, InOrder, Roles, Sends, Takes};
use bohm_types::NoMemory;
use crossbeam_channel::{Pass, RuledReceiver, RuledSender, bounded_with};
use std::alloc::Global;
use std::marker::Model;
use std::sync::Wait;

/// The maximum number of notes in the queue.
const CAPACITY: usize = 2;

/// The end of the channel to which a sending end pushes.
type Pushes<L> = RuledSender<PlanNote, End, InOrder<L>>;

/// The end of the channel from which a taking end pops.
type Pops<L> = RuledReceiver<PlanNote, End, InOrder<L>>;

/// The sending end. Contracts see it as its queue and the notes that were sent.
#[derive(Drop)]
pub struct PlanSender<L: Line> {
    to: Pushes<L>,
    pass: Pass<PlanNote, End>,
    sent: u32,
}

impl<L: Line> Model for PlanSender<L> {
    ghost Value = { LineEnd };

    ghost view = { λ s. record {
      queue = (sends_on s.to).stamps.shared.table_id;
      notes = (pass_view s.pass).sent;
    } };

    ghost invariant = { λ s. IsSeatAt (sends_on s.to) s.pass
        × (pass_view s.pass ≡ end_of true false (pass_view s.pass).sent [])
        × (s.sent ≡ length (pass_view s.pass).sent)
        × IsLine L.cutting 0 (pass_view s.pass).sent };
}

/// The taking end. Contracts see it as its queue and the notes that were taken.
#[derive(Drop)]
pub struct PlanReceiver<L: Line> {
    from: Pops<L>,
    pass: Pass<PlanNote, End>,
    taken: u32,
}

impl<L: Line> Model for PlanReceiver<L> {
    ghost Value = { LineEnd };

    ghost view = { λ r. record {
      queue = (receives_on r.from).stamps.shared.table_id;
      notes = (pass_view r.pass).taken;
    } };

    ghost invariant = { λ r. IsSeatAt (receives_on r.from) r.pass
        × (pass_view r.pass ≡ end_of false true [] (pass_view r.pass).taken)
        × (r.taken ≡ length (pass_view r.pass).taken) };
}

/// The two ends of a plan queue with room for two notes.
pub fn plan_line<L: Line>(alloc: Global) -> Result<(PlanSender<L>, PlanReceiver<L>), NoMemory>
    ensures queue { IfOk result (λ r. r.1.queue ≡ r.0.queue) }
    ensures sent { IfOk result (λ r. r.0.notes ≡ []) }
    ensures taken { IfOk result (λ r. r.1.notes ≡ []) }
{
    let (to, from, mut pass) = bounded_with::<PlanNote, End, InOrder<L>, Global>(alloc, CAPACITY)?;
    let other = to.another::<Roles>(&mut pass);
    let sender = PlanSender { to, pass, sent: 0 };
    let receiver = PlanReceiver {
        from,
        pass: other,
        taken: 0,
    };
    Ok((sender, receiver))
}

impl<L: Line> PlanSender<L> {
    /// The number of notes that were sent.
    pub fn sent(&self) -> u32
        ensures { result ≡ length self.now.notes }
    {
        self.sent
    }

    /// Sends the next note. A plan is the right one for the batch with that number. It blocks while
    /// the queue is full, forever if no note is taken.
    pub fn send<R: Wait>(&mut self, rt: &R, note: PlanNote)
        requires number { note.number ≡ length self.old.notes + 1 }
        requires batch { note.number ≤ length L.cutting.sizes }
        requires open { All (λ sent. IsSome sent.plan) self.old.notes }
        requires plan { ForSome note.plan (IsPlanAt L.cutting (length self.old.notes)) }
        ensures queue { self.new.queue ≡ self.old.queue }
        ensures sent { self.new.notes ≡ self.old.notes ++ note ∷ [] }
    {
        self.sent = note.number;
        send_note(rt, &self.to, &mut self.pass, note);
    }
}

impl<L: Line> PlanReceiver<L> {
    /// The number of notes that were taken.
    pub fn taken(&self) -> u32
        ensures { result ≡ length self.now.notes }
    {
        self.taken
    }

    /// Takes the next note. It blocks until one arrives, forever if none does.
    pub fn take<R: Wait>(&mut self, rt: &R) -> PlanNote
        requires batch { length self.old.notes < length L.cutting.sizes }
        requires open { All (λ taken. IsSome taken.plan) self.old.notes }
        ensures queue { self.new.queue ≡ self.old.queue }
        ensures taken { self.new.notes ≡ self.old.notes ++ result ∷ [] }
        ensures line { IsLine L.cutting 0 self.new.notes }
        ensures note { IsNoteAt L.cutting (length self.old.notes) result }
    {
        let note = take_note(rt, &self.from, &mut self.pass);
        self.taken = note.number;
        note
    }
}

// Retries until the queue accepts the note.
fn send_note<L: Line, R: Wait>(
    rt: &R,
    to: &Pushes<L>,
    pass: &mut Pass<PlanNote, End>,
    mut note: PlanNote,
)
    requires seat { IsSeatAt (sends_on to.now) pass.old }
    requires role { (pass_view pass.old).sends ≡ true }
    requires line { IsLine L.cutting 0 ((pass_view pass.old).sent ++ note ∷ []) }
    ensures seat { IsSeatAt (sends_on to.now) pass.new }
    ensures sent { let was = pass_view pass.old in
        pass_view pass.new ≡ record was { sent = was.sent ++ note ∷ [] } }
{
    for _ in rt.forever() {
        match to.send_as::<Sends, R>(rt, pass, note) {
            Ok(()) => return,
            Err(e) => note = e.into_inner(),
        }
    }
    unreachable!()
}

// Retries until a note arrives.
fn take_note<L: Line, R: Wait>(rt: &R, from: &Pops<L>, pass: &mut Pass<PlanNote, End>) -> PlanNote
    requires seat { IsSeatAt (receives_on from.now) pass.old }
    requires role { (pass_view pass.old).takes ≡ true }
    ensures seat { IsSeatAt (receives_on from.now) pass.new }
    ensures taken { let was = pass_view pass.old in
        pass_view pass.new ≡ record was { taken = was.taken ++ result ∷ [] } }
    ensures line { IsLine L.cutting 0 (pass_view pass.new).taken }
{
    for _ in rt.forever() {
        if let Ok(note) = from.recv_as::<Takes<L>, R>(rt, pass) {
            return note;
        }
    }
    unreachable!()
}
