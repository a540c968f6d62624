//! Replies that are printed as they are made.

ghost use Rattle.std.specs.Prelude.{◌≡◌, []};

use crate::answers::put_reply;
use bohm_txn::{Outcome, ReplySink};
use bohm_types::{NoMemory, Value};
use std::alloc::Global;
use std::marker::Model;

/// The capacity that is reserved for a reply: a line of a commit without shows, with a number of
/// seven digits.
const RESERVED_BYTES: usize = 15;

/// The text of replies, a line for each. Contracts see its bytes.
#[derive(Debug)]
pub struct ReplyText {
    bytes: Vec<u8>,
}

// Written out: a derived drop is proved anew in each function that drops such a value.
impl Drop for ReplyText {
    fn drop(self) {
        let Self { bytes } = self;
        drop(bytes);
    }
}

impl Model for ReplyText {
    ghost use Rattle.std.specs.Prelude.{List, ℕ};

    ghost Value = { List ℕ };

    ghost view = { λ t. t.bytes.items };
}

impl ReplyText {
    /// No text. It allocates nothing.
    pub fn new(alloc: Global) -> ReplyText
        ensures { result ≡ [] }
    {
        ReplyText {
            bytes: Vec::new(alloc),
        }
    }

    pub fn into_bytes(self) -> Vec<u8>
        ensures { result.items ≡ self }
    {
        let Self { bytes } = self;
        bytes
    }
}

impl ReplySink for ReplyText {
    ghost use Rattle.std.specs.Prelude.{◌≡◌, [], ◌++◌, length};
    ghost use Rattle.bohm_text.specs.Print.{print_numbered};
    ghost use Rattle.std.proofs.Common.{append-nil, sym};
    ghost use Rattle.bohm_text.specs.Numbered.{printed_on};

    ghost appended = { λ first a xs b. b ≡ a ++ print_numbered first xs };

    ghost is_bare = { λ a. a ≡ [] };

    ghost extent = { length };

    fn empty(alloc: Global) -> ReplyText {
        ReplyText::new(alloc)
    }

    fn reserve(&mut self, more: usize) -> Result<(), NoMemory> {
        self.bytes.reserve(more.saturating_mul(RESERVED_BYTES))?;
        Ok(())
    }

    #[inline]
    fn push(&mut self, number: u64, outcome: Outcome, shows: &[Value]) -> Result<(), NoMemory> {
        let len = self.bytes.len();
        if let Err(refusal) = put_reply(&mut self.bytes, number, outcome, shows) {
            self.bytes.truncate(len);
            return Err(refusal);
        }
        Ok(())
    }

    fn append(&mut self, more: ReplyText) -> Result<(), NoMemory> {
        self.bytes.extend_from_slice(more.bytes.as_slice())?;
        Ok(())
    }

    fn len(&self) -> usize {
        self.bytes.len()
    }

    fn truncate(&mut self, len: usize) {
        self.bytes.truncate(len);
    }

    ghost nothing = { λ _ a. sym (append-nil a) };

    ghost joined = { printed_on };
}
