//! The ids that entries may carry.

ghost use Rattle.std.specs.Prelude.{◌≡◌};
ghost use Rattle.std.specs.List.{list_all};
ghost use Rattle.bohm_entries.specs.Ids.{is_id, is_id_byte};
ghost use Rattle.bohm_entries.specs.Refusals.{is_word};

/// The length of the longest id, in bytes.
const LONGEST_ID: usize = 64;

fn is_id_byte(byte: u8) -> bool
    ensures { result ≡ is_id_byte byte }
{
    b'!' <= byte && byte <= b'~'
}

fn are_id_bytes(bytes: &[u8]) -> bool
    ensures { result ≡ list_all is_id_byte bytes.now }
{
    bytes.iter().all(|byte| is_id_byte(*byte))
}

/// Whether the bytes are a word: 1 or more of `!` to `~`.
pub fn is_word(bytes: &[u8]) -> bool
    ensures { result ≡ is_word bytes.now }
{
    1 <= bytes.len() && are_id_bytes(bytes)
}

/// Whether the bytes are an id: 1 to 64 bytes of `!` to `~`.
pub fn is_id(bytes: &[u8]) -> bool
    ensures { result ≡ is_id bytes.now }
{
    1 <= bytes.len() && bytes.len() <= LONGEST_ID && are_id_bytes(bytes)
}
