//! Finds a byte.

ghost use Rattle.std.specs.Prelude.{◌≡◌, ◌<◌, ◌==◌, IfSome, length};
ghost use Rattle.std.specs.List.{position_from};

/// The index of the first occurrence of a byte.
pub fn place_of(byte: u8, bytes: &[u8]) -> Option<usize>
    ensures first { result ≡ position_from (λ b. b == byte) 0 bytes.now }
    ensures inside { IfSome result (λ at. at < length bytes.now) }
{
    bytes.iter().position(|b| *b == byte)
}
