//! A version of the key with a number.

use crate::version::Version;

/// A version of the key with a number.
#[derive(Clone, Copy, Debug)]
pub struct NumberedWrite {
    pub number: u32,
    pub version: Version,
}
