//! The rule of a handoff: while its word is 0, its slot has a value that keeps the promise.

use atomic_table::{Play, TableRule};
use std::marker::PhantomData;
use std::thread::Promise;

/// What a thread knows about a handoff. No value of this type is created.
pub struct Side<P> {
    pub promise: P,
    /// Whether it may still take the empty slot, to fill it.
    pub fresh: bool,
}

pub struct Promised<T, P> {
    of: PhantomData<(T, P)>,
}

impl<T, P: Promise<T>> TableRule<Option<T>, Side<P>, P> for Promised<T, P> {
    ghost use Rattle.std.specs.Prelude.{true};
    ghost use Rattle.bohm_handoff.specs.Handoffs.{IsHandoff, side};

    ghost holds = { λ promise. IsHandoff (P.kept_by promise) };

    ghost first = { λ promise. side promise true };
}

/// The first side takes the empty slot.
pub struct Begins;

impl<T, P> Play<Option<T>, Side<P>> for Begins {
    ghost use Rattle.bohm_handoff.specs.Handoffs.{HasEmpty};

    ghost then = { λ st m n after. HasEmpty m.0.promise after };
}

/// The first side gives the slot back.
pub struct Gives;

impl<T, P> Play<Option<T>, Side<P>> for Gives {
    ghost then = { λ st m n after. Unit {0} };
}

/// Another side takes the slot, if there is a value in it.
pub struct Takes<T, P> {
    of: PhantomData<(T, P)>,
}

impl<T, P: Promise<T>> Play<Option<T>, Side<P>> for Takes<T, P> {
    ghost use Rattle.std.specs.Prelude.{◌≡◌};
    ghost use Rattle.bohm_handoff.specs.Handoffs.{HasValue};

    ghost then = { λ st m n after. n ≡ 0 → HasValue (P.kept_by m.0.promise) after };
}
