//! Procedures: transactions with parameters, read and checked once, and lists of their calls.
#![tactic(auto)]

mod calls;
mod compiled;
mod fault;
pub mod laws;
mod procedure;
mod statements;

pub use bohm_log::KeyHandle;
pub use calls::Calls;
pub use compiled::Compiled;
pub use fault::ProcedureFault;
pub use procedure::Procedure;
pub use statements::StatementLine;
