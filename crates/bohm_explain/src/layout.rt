//! How figures are laid out.

/// How the figures of a log are printed.
#[derive(Clone, Copy, Debug, PartialEq, Eq)]
pub struct Layout {
    /// Only the figures of the whole log, without those of each part.
    pub summary: bool,
    /// In JSON instead of as a table.
    pub json: bool,
}
