//! Keys with the numbers that they last had.

ghost use Rattle.std.specs.Prelude.{◌≡◌};

use bohm_types::Key;

/// A key, and the number that it last had among the names of a log. The number is a hint: it is
/// compared with the key before it is used, so a wrong number costs only the search that would be
/// needed without it.
#[derive(Clone, Copy, Debug)]
pub struct KeyHandle {
    pub(crate) key: Key,
    pub(crate) number: u32,
}

impl KeyHandle {
    /// The key itself.
    pub fn key(&self) -> Key
        ensures { result ≡ self.now.key }
    {
        self.key
    }
}
