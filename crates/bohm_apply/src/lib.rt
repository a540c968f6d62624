//! Checked transactions applied to a history, batch after batch, with planning ahead of execution
//! in its own thread, or in log order on one thread. The design is that of BOHM: Faleiro and Abadi,
//! "Rethinking Serializable Multiversion Concurrency Control", VLDB 2015.
#![tactic(auto)]

mod applying;
mod executing;
pub mod laws;
mod plan_queue;
mod planning_side;
mod replies;
mod running;
mod serial_executor;
mod settling;
mod shared_batch;
mod single_call;
mod workers;

pub use applying::{Applied, apply};
pub use bohm_place::{ByteSum, Cuts};
pub use bohm_settings::{
    Executors, Kept, LARGEST_BATCH, MOST_KEPT, MOST_PARTS, MOST_WORKERS, Planners, Settings,
};
pub use executing::Executor;
pub use plan_queue::{Line, PlanNote, PlanReceiver, PlanSender, plan_line};
pub use running::{Answer, run, run_in_order};
pub use serial_executor::SerialExecutor;
pub use settling::settle_alone;
pub use shared_batch::{BatchWorker, SharedBatch};
pub use workers::ScratchPool;
