//! Editions of the language.

/// Whether a body sees its own writes: in edition two it does.
#[derive(Clone, Copy, Debug, PartialEq, Eq)]
pub enum Edition {
    One,
    Two,
}
