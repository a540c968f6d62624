//! The plan queue: it carries each batch's plan to execution, once and in order.

mod ends;
mod note;
mod rule;

pub use ends::{PlanReceiver, PlanSender, plan_line};
pub use note::{Line, PlanNote};
