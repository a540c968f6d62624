//! Dividing a batch's positions among workers.

ghost use Rattle.std.specs.Prelude.{◌≡◌, ◌+◌, ◌-◌, ◌%◌, ◌<◌, ◌≤◌, ◌^◌, ◌==◌, IfOk};
ghost use Rattle.std.specs.List.{filter, range_with_len};

use bohm_types::NoMemory;
use std::alloc::Global;

/// The positions, in ascending order, that one of the workers sweeps in a batch with this first
/// position and this length: those whose distance from the first position is `worker` modulo
/// `workers`. The time grows with the length.
pub fn share_of(
    alloc: Global,
    first: u32,
    len: u32,
    worker: u32,
    workers: u32,
) -> Result<Vec<u32>, NoMemory>
    requires timestamps { first + len ≤ 2 ^ 32 }
    requires worker { worker < workers }
    ensures { IfOk result (λ share.
        share.items ≡ filter (λ t. (t - first) % workers == worker) (range_with_len first len)) }
{
    let mut share = Vec::with_capacity(alloc, (len / workers) as usize + 1)?;
    for distance in 0..len {
        if distance % workers == worker {
            share.push(first + distance)?;
        }
    }
    Ok(share)
}
