//! A replicated state machine: a store with its past, to which log segments are applied as they are
//! agreed on.
#![tactic(auto)]

mod calls;
mod compacting;
mod digest;
mod fault;
pub mod laws;
mod machine;
mod sharing;
mod single_calls;

pub use bohm_apply::{Applied, BatchWorker};
pub use fault::{BatchFault, SegmentFault, ShareFault, SingleFault};
pub use machine::Machine;
pub use sharing::SharedCalls;
pub use single_calls::CallKeys;
