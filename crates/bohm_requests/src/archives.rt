//! Where batches are that left the store.

use crate::fault::DeskFault;

/// Where batches are that left the store of a ledger.
pub trait Archives {
    /// The text of the batch that has this place, if there is an archive that has it.
    fn batch_at(&mut self, place: u64) -> Result<Option<Vec<u8>>, DeskFault>;
}

/// No archive.
#[derive(Clone, Copy, Debug)]
pub struct NoArchives;

impl Archives for NoArchives {
    fn batch_at(&mut self, _place: u64) -> Result<Option<Vec<u8>>, DeskFault> {
        Ok(None)
    }
}
