//! Evaluation on demand. A pass sweeps a share of a batch's positions, and defers a position if it
//! finds another one busy; once no thread steps on the board any more, the remaining positions are
//! evaluated in log order. The design is that of BOHM: Faleiro and Abadi, "Rethinking
//! Serializable Multiversion Concurrency Control", VLDB 2015.
#![tactic(auto)]

mod aside;
mod completion;
mod evaluation;
mod filling;
mod finished;
mod gate;
pub mod laws;
mod lookup;
mod on_demand;
mod shares;
mod step;
mod stepper;
mod sweeper;
mod sweeping;
mod wanted;

pub use aside::Aside;
pub use completion::complete;
pub use finished::Finished;
pub use gate::{Gate, OpenGate, Point};
pub use shares::share_of;
pub use sweeping::sweep;
