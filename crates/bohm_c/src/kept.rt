//! What a handle can keep.

use crate::call_list::CallList;
use crate::session::Session;
use crate::shared_session::{SharedSession, Worker};
use bohm_procedures::Procedure;

/// A machine, a procedure, a list of calls, or what a list of calls is while workers run it.
#[derive(Drop)]
pub enum Kept {
    Machine(Session),
    Prepared(Procedure),
    Calls(CallList),
    /// A machine whose workers run the calls of a list, with that list.
    Shared(SharedSession),
    /// A list that is with such a machine.
    Lent,
    /// One of its workers.
    Worker(Worker),
}
