//! The messages of the plan queue.

ghost use Rattle.bohm_place.specs.Cuttings.{Cutting};

use bohm_place::Plan;
use std::marker::Brand;

/// The plan of the batch with a number, counted from 1. `None` says that planning failed to
/// allocate.
#[derive(Drop)]
pub struct PlanNote {
    pub number: u32,
    pub plan: Option<Plan>,
}

/// The log that a plan queue is for, and its batches. No value of it is created.
pub trait Line {
    ghost cutting: { Cutting };
}

/// The proof of a call at `Brand` picks the cutting that its queue is for, instead of the empty one
/// here.
impl Line for Brand {
    ghost use Rattle.std.specs.Prelude.{[]};

    ghost cutting = { record { first = 0; log = []; sizes = [] } };
}
