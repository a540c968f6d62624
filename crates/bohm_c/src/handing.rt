//! Arrays and texts passed to C.

ghost use Rattle.std.specs.Prelude.{◌≡◌, [], IfOk};

use bohm_types::NoMemory;
use std::alloc::Global;
use std::marker::Model;

/// The elements of a vector, which the caller frees. An empty vector's memory is freed here, since
/// callers don't free a pointer to no elements.
pub fn hand_over<'a, T: Drop>(alloc: Global, items: Vec<T>) -> &'a mut [T]
    ensures { result.now ≡ items.items }
{
    if items.is_empty() {
        return Vec::new(alloc).leak();
    }
    items.leak()
}

/// A text with a zero after it, as C programs expect. Contracts see it without the zero.
#[derive(Drop)]
pub struct Text {
    bytes: Vec<u8>,
}

impl Model for Text {
    ghost use Rattle.std.specs.Prelude.{◌-◌, ℕ, List, length, take};

    ghost Value = { List ℕ };

    ghost view = { λ t. take (length t.bytes.items - 1) t.bytes.items };
}

impl Text {
    /// The text of no bytes. It allocates nothing.
    pub fn empty(alloc: Global) -> Text
        ensures { result ≡ [] }
    {
        Text {
            bytes: Vec::new(alloc),
        }
    }

    /// The text of these bytes.
    pub fn new(bytes: Vec<u8>) -> Result<Text, NoMemory>
        ensures { IfOk result (λ text. text ≡ bytes.items) }
    {
        let mut bytes = bytes;
        bytes.push(0)?;
        Ok(Text { bytes })
    }

    /// The bytes of the text, which the caller frees; the zero isn't counted.
    pub fn hand_over<'a>(self, alloc: Global) -> &'a mut [u8]
        ensures { result.now ≡ self }
    {
        let Text { bytes } = self;
        if bytes.len() < 2 {
            return Vec::new(alloc).leak();
        }
        let end = bytes.len() - 1;
        let (text, _zero) = bytes.leak().split_at_mut(end);
        text
    }
}
