//! Why a log scales or doesn't: explains the parts that a run makes of it. Whether several workers
//! share a part, which of its transactions wants which version, the chains that this makes, and the
//! keys that cause them. Why transactions abort, and what the calls of a procedure cost.
#![tactic(auto)]

mod aborts;
mod arrow;
mod chains;
mod costs;
mod explanation;
mod figures;
mod gathering;
mod heat;
mod json;
pub mod laws;
mod layout;
mod longest;
mod parts;
mod pieces;
mod ranking;
mod request;
mod svg;
mod table;
mod tallies;
mod waits;
mod walking;
mod weights;
mod windows;

pub use aborts::print_aborts;
pub use costs::print_costs;
pub use explanation::answer;
pub use layout::Layout;
pub use request::{LAST_PART, LISTED, MOST_LISTED, Request};
pub use windows::window_counts;
