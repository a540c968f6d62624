//! How far a log has been read.

ghost use Rattle.std.specs.Prelude.{◌≡◌, [], true, false};
ghost use Rattle.bohm_read_ahead.specs.Reading.{HasMore};

use crate::parsing::Parsing;
use bohm_reading::Source;
use bohm_types::Edition;
use std::alloc::Global;
use std::collections::VecDeque;

/// The state of reading a log.
#[derive(Drop)]
pub struct ReadingState {
    pub edition: Edition,
    pub source: Source,
    /// The windows that are being parsed, in the order of the text.
    pub ahead: VecDeque<Parsing>,
    /// The number of transactions in the chunks that were taken, exact up to the most that a log
    /// may have.
    pub count: usize,
}

impl ReadingState {
    /// The state after the first window of a text of this edition, which continues from the source:
    /// no window is ahead, and no chunk was taken. It allocates nothing.
    pub fn new(alloc: Global, edition: Edition, source: Source) -> ReadingState
        ensures edition { result.edition ≡ edition }
        ensures source { result.source ≡ source }
        ensures none { result.ahead.items ≡ [] }
        ensures count { result.count ≡ 0 }
    {
        ReadingState {
            edition,
            source,
            ahead: VecDeque::new(alloc),
            count: 0,
        }
    }

    /// Whether there are windows after those whose chunks were taken. The time is constant.
    pub fn is_going(&self) -> bool
        ensures more { result ≡ true → HasMore self.now }
        ensures none { result ≡ false
            → (self.now.source.ended ≡ true) × (self.now.ahead.items ≡ []) }
    {
        !self.source.ended || !self.ahead.is_empty()
    }
}
