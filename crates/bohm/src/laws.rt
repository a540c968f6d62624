//! What follows from the contracts: each law is the contract of a call that does nothing.

pub use bohm_machine::laws::{
    answers_joined, one_digest, one_refusal, rest_completes, restored_goes_on, same_digest,
};
pub use bohm_run::laws::one_answer;
pub use bohm_text::laws::{one_text, one_verdict};
pub use bohm_txn::laws::one_first_fault;
