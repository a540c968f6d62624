//! How often a key is accessed.

use bohm_types::Key;

/// A key of a log, and how often it is accessed.
#[derive(Clone, Copy, Debug, PartialEq, Eq)]
pub struct Heat {
    pub key: Key,
    /// The transactions of the log that declare to write the key.
    pub writers: u32,
    /// The transactions of the log that declare to read the key.
    pub readers: u32,
    /// The transactions on the longest chain in a part through an arrow for the key, or 0 if no
    /// transaction wants it.
    pub chain: u32,
}
