//! The rule of the queue: the notes taken, followed by those that it holds, are the notes sent, in
//! the order of the batches. At most one end sends, and one takes.

use crate::plan_queue::note::{Line, PlanNote};
use atomic_table::Split;
use crossbeam_channel::protocol::{Lesson, Outcome, Protocol};
use std::collections::LinkedList;
use std::marker::PhantomData;

/// What an end may do, and the notes that it has sent and taken. No value of this type is created.
pub struct End {
    pub sends: bool,
    pub takes: bool,
    pub sent: LinkedList<PlanNote>,
    pub taken: LinkedList<PlanNote>,
}

pub struct InOrder<L> {
    of: PhantomData<L>,
}

impl<L: Line> Protocol<PlanNote, End> for InOrder<L> {
    ghost use Rattle.std.specs.Prelude.{true, []};
    ghost use Rattle.bohm_apply.specs.Lines.{end_of, IsInOrder};

    ghost holds = { IsInOrder L.cutting };

    ghost first = { end_of true true [] [] };
}

/// The two roles: one end sends, the other takes.
pub struct Roles;

impl Split<End> for Roles {
    ghost use Rattle.std.specs.Prelude.{true, false, []};
    ghost use Rattle.bohm_apply.specs.Lines.{end_of};

    ghost left = { λ v. end_of true false v.sent [] };

    ghost right = { λ v. end_of false true [] v.taken };
}

pub struct Sends;

impl Outcome<PlanNote, End> for Sends {
    ghost use Rattle.std.specs.Prelude.{◌≡◌, ◌++◌, ◌∷◌, []};
    ghost use Rattle.bohm_apply.specs.Lines.{end_of};

    ghost then = { λ v x w. w ≡ end_of v.sends v.takes (v.sent ++ x ∷ []) v.taken };
}

impl Lesson<PlanNote, End> for Sends {
    ghost fact = { λ v items. Unit {0} };
}

pub struct Takes<L> {
    of: PhantomData<L>,
}

impl<L: Line> Outcome<PlanNote, End> for Takes<L> {
    ghost use Rattle.std.specs.Prelude.{◌≡◌, ◌++◌, ◌∷◌, []};
    ghost use Rattle.bohm_apply.specs.Lines.{end_of, IsLine};

    ghost then = { λ v x w. (w ≡ end_of v.sends v.takes v.sent (v.taken ++ x ∷ []))
        × IsLine L.cutting 0 (v.taken ++ x ∷ []) };
}

impl<L: Line> Lesson<PlanNote, End> for Takes<L> {
    ghost fact = { λ v items. Unit {0} };
}
