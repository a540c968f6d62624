//! Status codes, as in the header's enum.

/// The call succeeded.
pub const DONE: u32 = 0;

/// The text was refused; the line that says why is returned.
pub const REFUSED: u32 = 1;

/// An allocation failed, and nothing has changed.
pub const NO_MEMORY: u32 = 2;

/// The timestamp is below the floor.
pub const TRIMMED: u32 = 3;

/// The timestamp is above the top.
pub const FUTURE: u32 = 4;

/// The segment has a store.
pub const HAS_STORE: u32 = 5;

/// The segment's timestamps would pass 4294967295.
pub const TIMESTAMPS: u32 = 6;

/// The snapshot has transactions.
pub const HAS_LOG: u32 = 7;

/// The bytes are no valid key.
pub const NO_KEY: u32 = 8;

/// The replies of an earlier segment are still waiting to be fetched, and nothing has changed.
pub const WAITING: u32 = 9;

/// The segment ran up to a failed allocation, and the replies up to there are returned.
pub const STOPPED: u32 = 10;

/// The segment ran, whole or up to a failed allocation, and its replies, for which there was no
/// room, are kept waiting.
pub const KEPT: u32 = 11;

/// The edition, the argument counts, the number of calls or a statement's number don't fit, and
/// nothing has changed.
pub const UNFIT: u32 = 12;

/// A handle isn't open or closed as the call requires, and nothing has changed. C's callers get it
/// for a null pointer too.
pub const MISUSE: u32 = 13;

/// The keys of a store's rows don't rise, each above the one before it, and nothing has changed.
pub const UNSORTED: u32 = 14;

/// One worker runs the calls in less time, and nothing has changed.
pub const IN_ORDER: u32 = 15;

/// The machine or the list is shared, or a worker is left, and nothing has changed.
pub const SHARED: u32 = 16;
