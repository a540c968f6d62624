//! A window of a text, and the result of parsing it.

use bohm_text::{Chunk, WindowFault};

/// A window of a text.
#[derive(Drop)]
pub struct Window {
    pub text: Vec<u8>,
    /// Whether it is the last one.
    pub last: bool,
}

/// A window, and the result of parsing it.
#[derive(Drop)]
pub struct Parsed {
    pub window: Window,
    pub result: Result<Chunk, WindowFault>,
}
