//! Whole runs from bytes to bytes: `run_text` reads a log in windows, which `bohm_read_ahead`
//! parses ahead, and runs each as `bohm_apply` does.
#![tactic(auto)]

mod answering;
mod chunks;
pub mod laws;
mod streaming;

pub use answering::{read_log, run_text, run_text_in_windows, window_size};
pub use bohm_answer::{
    LONGEST_TEXT, RunFault, print_fault, read_all, write_all, write_bytes, write_fault,
};
pub use bohm_apply::{
    Answer, Applied, Executors, Kept, LARGEST_BATCH, Line, MOST_KEPT, MOST_PARTS, MOST_WORKERS,
    PlanNote, PlanReceiver, PlanSender, Planners, SerialExecutor, Settings, apply, plan_line, run,
    run_in_order,
};
pub use bohm_place::{ByteSum, Cuts};
