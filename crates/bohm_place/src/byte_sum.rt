//! A partition of the keys by the sum of their bytes.

ghost use Rattle.std.specs.Prelude.{◌≡◌, ◌<◌, ◌≤◌, ◌%◌, length, IfSome, is_some, nat_lt};
ghost use Rattle.std.specs.List.{sum};
ghost use Rattle.std.proofs.Math.Nat.{mod-lt};
ghost use Rattle.bohm_types.specs.Limits.{longest_name};

use crate::partition::Partition;
use bohm_types::Key;

/// The part of a key is the sum of its bytes modulo the number of parts, which is at least 1.
#[derive(Clone, Copy, Debug)]
pub struct ByteSum {
    parts: u32,
    ghost some: { 0 < parts },
}

impl ByteSum {
    /// The partition with this many parts; `None` for 0.
    pub fn new(parts: u32) -> Option<ByteSum>
        ensures some { is_some result ≡ nat_lt 0 parts }
        ensures parts { IfSome result (λ s. s.parts ≡ parts) }
    {
        if parts == 0 {
            return None;
        }
        Some(ByteSum { parts })
    }
}

// The sum of a key's bytes.
fn sum_of(bytes: &[u8]) -> u32
    requires { length bytes.now ≤ longest_name }
    ensures { result ≡ sum bytes.now }
{
    bytes.iter().map(|byte| u32::from(*byte)).sum()
}

impl Partition for ByteSum {
    ghost count = { λ s. s.parts };

    ghost part_of = { λ s k. sum k % s.parts };

    fn parts(&self) -> u32 {
        self.parts
    }

    fn part(&self, key: &Key) -> u32 {
        if self.parts == 1 {
            return 0;
        }
        sum_of(key.text().as_slice()) % self.parts
    }

    ghost in_range = { λ s k. mod-lt (sum k) s.some };
}
