//! The newest version of a key.

ghost use Rattle.std.specs.Prelude.{◌≡◌, slice_index_or};
ghost use Rattle.bohm_hints.specs.Top.{held_cell};
ghost use Rattle.bohm_hints.specs.declared.held.Held.TheVariants.{Never};

use bohm_types::{Cell, Value};

/// The newest version of a key, if it has one: its cell, and the timestamp at which it begins. It
/// takes 16 bytes.
#[derive(Clone, Copy, Debug)]
pub enum Held {
    /// The key has no version.
    Never,
    Absent { begin: u32 },
    Present { begin: u32, value: Value },
}

impl Held {
    /// The cell at timestamps at or above the begin of its version.
    #[inline(always)]
    pub fn cell(self) -> Cell
        ensures { result ≡ held_cell self }
    {
        match self {
            Held::Present { value, .. } => Cell::Present(value),
            _ => Cell::Absent,
        }
    }
}

const _: () = prove!(std::mem::size_of::<Held>() == 16);

/// The newest version of the key with this number, or `Never` if the number is out of bounds.
#[inline(always)]
pub fn held_of(newest: &[Held], number: u32) -> Held
    ensures { result ≡ slice_index_or newest.now number Never }
{
    match newest.get(number as usize) {
        Some(held) => *held,
        None => Held::Never,
    }
}
