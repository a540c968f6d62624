//! Compiled bodies of procedures, and their evaluation over the keys and the values of a call.
#![tactic(auto)]

mod call;
mod evaluation;
pub mod laws;
mod making;
mod registers;
mod running;
mod shape;
mod sight;
mod slot_keys;
mod usable;

pub use call::Call;
pub use evaluation::evaluate;
pub use making::{ShapeFault, make_shape};
pub use registers::Registers;
pub use shape::{Shape, Step, Term};
pub use slot_keys::SlotKeys;
