//! The answer to an entry.

ghost use Rattle.std.specs.Prelude.{◌≡◌};

use std::marker::Model;

/// The answer to an entry, without a newline.
#[derive(Debug, Drop)]
pub struct AnswerText {
    bytes: Vec<u8>,
}

impl Model for AnswerText {
    ghost use Rattle.std.specs.Prelude.{List, ℕ};

    ghost Value = { List ℕ };

    ghost view = { λ a. a.bytes.items };
}

impl AnswerText {
    /// The answer with these bytes.
    pub fn new(bytes: Vec<u8>) -> AnswerText
        ensures { result ≡ bytes.items }
    {
        AnswerText { bytes }
    }

    /// Its bytes.
    pub fn as_slice(&self) -> &[u8]
        ensures { result.now ≡ self.now }
    {
        self.bytes.as_slice()
    }
}
