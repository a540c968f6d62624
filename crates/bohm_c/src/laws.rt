//! Laws over the definitions alone. No call uses them.

ghost use Rattle.std.specs.Prelude.{◌≡◌, ℕ, List};
ghost use Rattle.bohm_store.specs.Versions.{Timeline};
ghost use Rattle.bohm_machine.specs.Machines.{now_of, top_of};
ghost use Rattle.bohm_c.specs.Keeping.{IsOpening, IsSnapshot};
ghost use Rattle.bohm_c.specs.declared.session.Session.{Session};

use crate::status::{
    DONE, FUTURE, HAS_LOG, HAS_STORE, IN_ORDER, KEPT, MISUSE, NO_KEY, NO_MEMORY, REFUSED, SHARED,
    STOPPED, TIMESTAMPS, TRIMMED, UNFIT, UNSORTED, WAITING,
};
use bohm_text::laws::one_text;

/// The number of each status, which is its number in `include/bohm.h`: `tests/embed` compares the
/// two lists.
pub fn status_numbers()
    ensures done { DONE ≡ 0 }
    ensures refused { REFUSED ≡ 1 }
    ensures no_memory { NO_MEMORY ≡ 2 }
    ensures trimmed { TRIMMED ≡ 3 }
    ensures future { FUTURE ≡ 4 }
    ensures has_store { HAS_STORE ≡ 5 }
    ensures timestamps { TIMESTAMPS ≡ 6 }
    ensures has_log { HAS_LOG ≡ 7 }
    ensures no_key { NO_KEY ≡ 8 }
    ensures waiting { WAITING ≡ 9 }
    ensures stopped { STOPPED ≡ 10 }
    ensures kept { KEPT ≡ 11 }
    ensures unfit { UNFIT ≡ 12 }
    ensures misuse { MISUSE ≡ 13 }
    ensures unsorted { UNSORTED ≡ 14 }
    ensures in_order { IN_ORDER ≡ 15 }
    ensures shared { SHARED ≡ 16 }
{}

/// A machine opened at another machine's top, on a snapshot of that top, holds what the other holds
/// there: so both continue alike.
pub fn snapshot_goes_on()
    ensures { (m : Timeline) (text : List ℕ) (session : Session)
        → IsSnapshot m (top_of m) text → IsOpening text (top_of m) session
        → now_of session.machine ≡ now_of m }
{
    one_text();
}
