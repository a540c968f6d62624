//! Sources of accesses.

/// Where an access finds its version.
#[derive(Clone, Copy, Debug, PartialEq, Eq)]
pub enum Source {
    /// The version before the batch.
    Before,
    /// The version of the transaction with this timestamp, which is in the batch.
    Within(u32),
}

/// The source of an access of a declared key.
#[derive(Clone, Copy, Debug, PartialEq, Eq)]
pub struct Access {
    pub source: Source,
    /// The index, counted from 0, of the source's declared write of the key. For `Before` it is the
    /// index of the key in a listed base, and 0 in a plan as it was made.
    pub index: u32,
}
