//! How requests are answered.

use bohm_entries::Refusal;
use bohm_types::Key;

/// How a request is answered, once the commit is stored.
#[derive(Debug, Drop)]
pub enum Turn {
    /// As the next entry of the commit, which it is; it carries this id.
    Stored {
        id: Option<Vec<u8>>,
    },
    /// As this entry of the commit, counted from 0: it is the same request, sent again.
    Again {
        id: Vec<u8>,
        index: usize,
    },
    /// As an earlier commit answered the entry with this id.
    Known {
        id: Vec<u8>,
        answer: Vec<u8>,
    },
    /// It is refused.
    Refused {
        id: Option<Vec<u8>>,
        refusal: Refusal,
    },
    /// By the number of the last transaction.
    Top {
        last: u64,
    },
    /// By what a key holds after a transaction.
    Cell {
        key: Key,
        after: u64,
    },
    /// By the digest of the store after a transaction.
    Digest {
        after: u64,
    },
    /// There is no such transaction yet.
    Future,
    /// What keys held then isn't known any more.
    Trimmed,
}
