//! The sizes of a log's batches.

ghost use Rattle.std.specs.Prelude.{◌≡◌, ◌<◌, ◌≤◌, ◌+◌, length, slice_index, Some, None, nat_le};
ghost use Rattle.std.specs.Prelude.{IfOk, if◌then◌else◌};
ghost use Rattle.std.specs.List.{sum, list_all};
ghost use Rattle.bohm_place.specs.Cuttings.{is_size, cuts_of, IsEven, ahead};
ghost use Rattle.bohm_types.specs.Limits.{largest_batch, last_timestamp};

use bohm_types::{LARGEST_BATCH, NoMemory};
use std::alloc::Global;
use std::marker::Model;

/// The sizes of the batches of a log, in order. In contracts it is the list of these sizes.
#[derive(Debug, Drop)]
pub struct Cuts {
    sizes: Vec<u32>,
    total: u32,
}

impl Model for Cuts {
    ghost use Rattle.std.specs.Prelude.{◌≡◌, List, ℕ, true};
    ghost use Rattle.std.specs.List.{sum};
    ghost use Rattle.bohm_place.specs.Cuttings.{are_sizes};

    ghost Value = { List ℕ };

    ghost view = { λ c. c.sizes.items };

    ghost invariant = { λ c. (are_sizes c.sizes.items ≡ true) × (c.total ≡ sum c.sizes.items) };
}

fn are_sizes(sizes: &[u32]) -> bool
    ensures { result ≡ list_all is_size sizes.now }
{
    sizes
        .iter()
        .all(|size| 1 <= *size && *size <= LARGEST_BATCH)
}

// The sum of these numbers, if it has at most 32 bits.
fn total_of(sizes: &[u32]) -> Option<u32>
    ensures { result ≡ (if nat_le (sum sizes.now) last_timestamp then Some (sum sizes.now)
        else None) }
{
    let mut total = 0u32;
    for size in sizes {
        total = total.checked_add(*size)?;
    }
    Some(total)
}

impl Cuts {
    /// Batches of these sizes, if each is from 1 to 4096 and their total is at most 4294967295.
    pub fn new(sizes: Vec<u32>) -> Option<Cuts>
        ensures { result ≡ cuts_of sizes.items }
    {
        if !are_sizes(sizes.as_slice()) {
            return None;
        }
        let total = total_of(sizes.as_slice())?;
        Some(Cuts { sizes, total })
    }

    /// Batches of size `batch` for a log of `len` transactions; the last batch has the remaining
    /// transactions.
    pub fn even(alloc: Global, len: u32, batch: u32) -> Result<Cuts, NoMemory>
        requires some { 1 ≤ batch }
        requires few { batch ≤ largest_batch }
        ensures total { IfOk result (λ cuts. sum cuts ≡ len) }
        ensures even { IfOk result (IsEven batch) }
    {
        let mut sizes = Vec::with_capacity(alloc, (len / batch) as usize + 1)?;
        for _ in 0..len / batch {
            sizes.push(batch)?;
        }
        if len % batch > 0 {
            sizes.push(len % batch)?;
        }
        Ok(Cuts { sizes, total: len })
    }

    /// The number of transactions in all batches.
    pub fn total(&self) -> u32
        ensures { result ≡ sum self.now }
    {
        self.total
    }

    /// The number of batches.
    pub fn count(&self) -> u32
        ensures { result ≡ length self.now }
    {
        self.sizes.len() as u32
    }

    /// The number of transactions in the batch at this index, counted from 0.
    pub fn size(&self, place: u32) -> u32
        requires { place < length self.now }
        ensures size { result ≡ slice_index self.now place }
        ensures in_range { (1 ≤ result) × (result ≤ largest_batch) }
        ensures inside { ahead self.now place + result ≤ sum self.now }
    {
        self.sizes[place as usize]
    }
}
