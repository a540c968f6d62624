//! Why the bytes of keys aren't taken.

ghost use Rattle.std.specs.Prelude.{◌≡◌};
ghost use Rattle.bohm_c.specs.declared.key_fault.KeyFault.TheVariants as key_is;

use bohm_types::NoMemory;

/// Why the bytes of keys aren't taken.
#[derive(Clone, Copy, Debug, PartialEq, Eq)]
pub enum KeyFault {
    /// Some are no key.
    NoKey,
    /// An allocation failed, or 32 bits of a column are full.
    NoMemory,
}

impl From<NoMemory> for KeyFault {
    ghost from_gives = { λ _ e. e ≡ key_is.NoMemory };

    fn from(_e: NoMemory) -> KeyFault {
        KeyFault::NoMemory
    }
}
