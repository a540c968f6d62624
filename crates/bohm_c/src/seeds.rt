//! Seeds of key hashes, from bytes that C passes.

use bohm_log::DrawnSeed;
use std::io;
use std::random::RandomSource;

/// The caller's bytes, as a source of randomness.
#[derive(Clone, Copy)]
struct CallersBytes<'a> {
    bytes: &'a [u8; 16],
}

impl RandomSource for CallersBytes<'_> {
    fn fill_bytes(&self, buf: &mut [u8]) -> io::Result<()> {
        for (byte, given) in buf.iter_mut().zip(self.bytes) {
            *byte = *given;
        }
        Ok(())
    }
}

/// The seed of these bytes. The caller must make sure that they are random.
pub fn draw(bytes: &[u8; 16]) -> DrawnSeed {
    DrawnSeed::draw(&CallersBytes { bytes })
}
