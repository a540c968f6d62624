//! The store sorted by key.

ghost use Rattle.std.specs.Prelude.{◌≡◌, Err, IfOk, OnOk};
ghost use Rattle.std.specs.FinMap.{entries};
ghost use Rattle.std.specs.List.{IsDistinct};
ghost use Rattle.std.specs.Str.{bytes_eq};
ghost use Rattle.bohm_types.specs.Keys.{names_of};
ghost use Rattle.bohm_txn.specs.Stores.{store_of};
ghost use Rattle.bohm_tidy.specs.declared.store.Unsettled.TheVariants.{NoMemory, Twice};

use bohm_txn::is_store_rising;
use bohm_types::{Key, Value};
use std::alloc::{AllocError, AllocFailed, Global};

/// Why a document has no exact text.
#[derive(Clone, Copy)]
pub enum Unsettled {
    /// Its store names a key twice.
    Twice,
    NoMemory,
}

impl From<AllocError> for Unsettled {
    ghost from_gives = { λ _ e. e ≡ NoMemory };

    fn from(_e: AllocError) -> Unsettled {
        Unsettled::NoMemory
    }
}

impl<T: Drop> From<AllocFailed<T>> for Unsettled {
    ghost from_gives = { λ _ e. e ≡ NoMemory };

    fn from(_e: AllocFailed<T>) -> Unsettled {
        Unsettled::NoMemory
    }
}

impl From<bohm_types::NoMemory> for Unsettled {
    ghost from_gives = { λ _ e. e ≡ NoMemory };

    fn from(_e: bohm_types::NoMemory) -> Unsettled {
        Unsettled::NoMemory
    }
}

/// The entries sorted by key. The time grows with their number n as n log n.
pub fn settled_store(alloc: Global, store: &[(Key, Value)]) -> Result<Vec<(Key, Value)>, Unsettled>
    ensures listed { IfOk result (λ list. list.items ≡ entries (store_of store.now)) }
    ensures distinct { OnOk result (IsDistinct bytes_eq (names_of store.now)) }
    ensures twice { result ≡ Err Twice → ¬ IsDistinct bytes_eq (names_of store.now) }
{
    let mut list = Vec::with_capacity(alloc, store.len())?;
    list.extend_from_slice(store)?;
    list.sort_unstable_by(|entry, other| entry.0.cmp(&other.0));
    if !is_store_rising(list.as_slice()) {
        return Err(Unsettled::Twice);
    }
    Ok(list)
}
