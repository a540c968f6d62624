//! Memory that is reused from one transaction to the next.

use std::alloc::Global;

/// A list about one transaction, whose memory is reused for the next one.
#[derive(Drop)]
pub struct Workspace {
    /// The numbers of the keys that the transaction declares to write.
    pub(crate) numbers: Vec<u32>,
}

impl Workspace {
    /// An empty workspace. It allocates nothing.
    pub fn new(alloc: Global) -> Workspace {
        Workspace {
            numbers: Vec::new(alloc),
        }
    }
}
