//! The two ends of a handoff.

ghost use Rattle.std.specs.Prelude.{◌≡◌, ◌∷◌, [], false, None};
ghost use Rattle.bohm_handoff.specs.Handoffs.{side};

use crate::rule::{Promised, Side};
use atomic_table::{Seat, Table};
use std::alloc::Global;
use std::sync::Arc;
use std::thread::Promise;

pub(crate) type Place<T, P> = Table<Option<T>, Side<P>, P, Promised<T, P>, Global>;

/// The end that gives the value.
#[derive(Drop)]
pub struct Giver<T: Drop, P: Promise<T>> {
    pub(crate) place: Arc<Place<T, P>>,
    pub(crate) seat: Seat<Option<T>, Side<P>>,
    ghost same: { seat.table_id ≡ place.value.shared.table_id },
    ghost sized: { (place.value.shared.table_id.words ≡ 1) × (place.value.shared.table_id.slots ≡ 1) },
    ghost first: { seat.id ≡ 0 },
    ghost holds: { seat.me ≡ (side place.value.shared.key false, (0, None) ∷ []) },
}

/// The end that takes the value.
#[derive(Drop)]
pub struct Taker<T: Drop, P: Promise<T>> {
    pub(crate) place: Arc<Place<T, P>>,
    ghost sized: { (place.value.shared.table_id.words ≡ 1) × (place.value.shared.table_id.slots ≡ 1) },
}
