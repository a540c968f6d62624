//! The limits of a log. Each is named here, and nowhere else.

/// The most bytes of a name.
pub const LONGEST_NAME: usize = 32;

/// The most bytes of a text.
pub const LONGEST_TEXT: usize = 67_108_864;

/// The greatest literal.
pub const GREATEST_LITERAL: u64 = 9_223_372_036_854_775_807;

/// The most terms of a sum.
pub const MOST_TERMS: u32 = 16;

/// The most statements of a transaction.
pub const MOST_STMTS: usize = 64;

/// The most keys that a transaction reads, and that it writes.
pub const MOST_KEYS: usize = 16;

/// The most values that a transaction shows.
pub const MOST_SHOWS: usize = 16;

/// The most transactions of a log.
pub const MOST_TXNS: usize = 1_000_000;

/// The most transactions of a batch.
pub const LARGEST_BATCH: u32 = 4096;
