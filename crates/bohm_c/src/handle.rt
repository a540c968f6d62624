//! What a handle's pointer points to.

ghost use Rattle.std.specs.Prelude.{◌≡◌, Option, None, Some, MatchOption};
ghost use Rattle.bohm_c.specs.Kept.{kept_code};
ghost use Rattle.bohm_c.specs.declared.kept.Kept.{Kept};

use crate::kept::Kept;
use crate::raw_box::RawBox;
use std::alloc::Global;
use std::marker::Model;
use std::mem::replace;
use std::ptr::null_mut;

/// A machine, a procedure or a list of calls that C holds, and passes with each call; or nothing,
/// if the handle is closed. It isn't `Drop`: only `take_back` ends an open one.
#[repr(C)]
pub struct BohmHandle {
    at: *mut u8,
    pub ghost value: { Option Kept } by { kept_code },
}

impl Model for BohmHandle {
    ghost use Rattle.std.specs.Box.Ownership.{box_owns};
    ghost use Rattle.std.specs.contracts.impls.GlobalAllocator.TheImpl.{ghosts};
    ghost use Rattle.bohm_c.specs.Kept.{owned};
    ghost use Rattle.bohm_c.specs.contracts.kept.Kept.{the_row};

    ghost also_owns = { λ h. owned
        (box_owns (ghosts.dealloc_token (record { memory = record { seal = tt } })) the_row) h.at
        h.value };
}

/// A handle with the box's pointer, whose type C doesn't know.
fn erased(raw_box: RawBox<Kept, Global>) -> BohmHandle
    ensures { result.value ≡ Some raw_box.value }
{
    let RawBox { at, alloc: _ } = raw_box;
    BohmHandle { at: at as *mut u8 }
}

/// The box that the handle points to, if the pointer isn't null.
fn named(alloc: Global, held: BohmHandle) -> Option<RawBox<Kept, Global>>
    ensures { MatchOption result (held.value ≡ None) (λ l. held.value ≡ Some l.value) }
{
    let BohmHandle { at } = held;
    if at.is_null() {
        None
    } else {
        Some(RawBox {
            at: at as *mut Kept,
            alloc,
        })
    }
}

/// A closed handle.
pub fn closed() -> BohmHandle
    ensures { result.value ≡ None }
{
    BohmHandle { at: null_mut() }
}

/// Ends a closed handle.
pub fn end_closed(held: BohmHandle)
    requires { held.value ≡ None }
{
    let BohmHandle { at: _ } = held;
}

/// Stores a box in a closed handle, which opens it.
pub fn put_back(held: &mut BohmHandle, kept: Box<Kept>)
    requires { held.old.value ≡ None }
    ensures { held.new.value ≡ Some kept.value }
{
    end_closed(replace(held, erased(RawBox::of(kept))));
}

/// Takes the box out of the handle, and leaves the handle closed.
pub fn take_back(alloc: Global, held: &mut BohmHandle) -> Option<Box<Kept>>
    ensures value { MatchOption result (held.old.value ≡ None)
        (λ b. held.old.value ≡ Some b.value) }
    ensures closed { held.new.value ≡ None }
{
    match named(alloc, replace(held, closed())) {
        Some(raw_box) => Some(raw_box.into_box()),
        None => None,
    }
}
