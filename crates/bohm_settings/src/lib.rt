//! The settings of a run: numbers of workers, batch sizes and retention, each in its range.
#![tactic(auto)]

mod retention;
mod settings;
mod worker_counts;

pub use retention::Kept;
pub use settings::{LARGEST_BATCH, MOST_KEPT, MOST_PARTS, MOST_WORKERS, Settings};
pub use worker_counts::{Executors, Planners};
