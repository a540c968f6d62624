//! The version that the programs print.

/// The version of this repository, as in the file VERSION at its root.
pub const VERSION: &str = "0.4.0";
