//! The newest version of each key of a history, and the indexes that the keys of a log last had
//! there, so that a run looks each key up once.
#![tactic(auto)]

mod held;
mod index_hints;
mod top_cells;

pub use held::{Held, held_of};
pub use index_hints::IndexHints;
pub use top_cells::{TopCells, is_numbered};
