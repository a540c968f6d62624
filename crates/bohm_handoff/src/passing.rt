//! A value that is passed from one end to the other.

ghost use Rattle.std.specs.Prelude.{◌≡◌, IfOk};
ghost use Rattle.bohm_handoff.specs.Ends.{AreEnds, awaited, promised};

use crate::ends::{Giver, Taker};
use crate::rule::{Begins, Gives, Takes};
use atomic_table::Table;
use std::alloc::{AllocError, Global};
use std::sync::{Arc, Wait};
use std::thread::Promise;

/// The two ends of a handoff of a value that keeps this promise. An `Err` means that an allocation
/// failed. The time is constant.
pub fn handoff<T: Drop, P: Promise<T>>(
    alloc: Global,
    promise: &P,
) -> Result<(Giver<T, P>, Taker<T, P>), AllocError>
    ensures promised { IfOk result (λ r. promised r.0 ≡ promise.now) }
    ensures awaited { IfOk result (λ r. awaited r.1 ≡ promise.now) }
    ensures place { IfOk result (λ r. AreEnds r.0 r.1) }
{
    let (table, mut seat) = Table::vacant(alloc, &[1], 1, promise)?;
    table.shared.store::<Begins>(&mut seat, 0, 1);
    let place = Arc::new(alloc, table)?;
    let other = Arc::try_clone(&place)?;
    Ok((Giver { place, seat }, Taker { place: other }))
}

impl<T: Drop, P: Promise<T>> Giver<T, P> {
    /// Gives the value, and wakes the thread that waits for it. The time is constant.
    pub fn give(self, value: T)
        requires { P.kept_by (promised self) value }
    {
        let Giver { place, mut seat } = self;
        let shared = &place.shared;
        drop(shared.exchange(&mut seat, 0, Some(value)));
        shared.store::<Gives>(&mut seat, 0, 0);
        shared.wake_one(0);
    }
}

impl<T: Drop, P: Promise<T>> Taker<T, P> {
    /// Whether the value has been given. The time is constant.
    pub fn is_given(&self) -> bool {
        self.place.shared.peek(0) == 0
    }

    /// Takes the value. It blocks until the value is given, forever if none is given.
    pub fn take<R: Wait>(self, rt: &R) -> T
        ensures { P.kept_by (awaited self) result }
    {
        let shared = &self.place.shared;
        for _ in rt.forever() {
            let (found, mut seat) = shared.swap_new_seat::<Takes<T, P>>(0, 1);
            if found == 0 {
                return shared.exchange(&mut seat, 0, None).unwrap();
            }
            shared.park(rt, 0, 1);
        }
        unreachable!()
    }
}
