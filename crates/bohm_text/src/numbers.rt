//! Numbers in decimal.

ghost use Rattle.std.specs.Prelude.{ℕ, ◌≡◌, ◌≤◌, ◌<◌, ◌^◌, IfSome, length};
ghost use Rattle.bohm_text.specs.Reading.{digits_of, whole_of, lit_of, number_of, negative};

use bohm_types::GREATEST_LITERAL;

/// Reads at most 18 digits. Their number is below every limit, so no limit is tested.
#[inline(always)]
fn read_few(digits: &[u8]) -> Option<u64>
    requires { length digits.now ≤ 18 }
    ensures value { (limit : ℕ) → 10 ^ 18 ≤ limit → result ≡ digits_of limit 0 digits.now }
    ensures inside { IfSome result (λ number. number < 10 ^ 18) }
{
    let mut number: u64 = 0;
    for byte in digits {
        if !byte.is_ascii_digit() {
            return None;
        }
        number = number * 10 + u64::from(*byte - b'0');
    }
    Some(number)
}

/// Reads any count of digits. It isn't inlined, since few numbers have more than 18.
#[inline(never)]
fn read_digits(limit: u64, digits: &[u8]) -> Option<u64>
    requires { limit ≤ 2 ^ 63 }
    ensures value { result ≡ digits_of limit 0 digits.now }
    ensures inside { IfSome result (λ number. number ≤ limit) }
{
    let mut number: u64 = 0;
    for byte in digits {
        if !byte.is_ascii_digit() {
            return None;
        }
        // A greater number exceeds the limit with any digit appended. Any other is so far below
        // 2^64 that appending a digit doesn't overflow.
        if number > limit / 10 {
            return None;
        }
        number = number * 10 + u64::from(*byte - b'0');
        if number > limit {
            return None;
        }
    }
    Some(number)
}

#[inline(always)]
fn read_whole(limit: u64, word: &[u8]) -> Option<u64>
    requires low { 10 ^ 18 ≤ limit }
    requires high { limit ≤ 2 ^ 63 }
    ensures value { result ≡ whole_of limit word.now }
    ensures inside { IfSome result (λ number. number ≤ limit) }
{
    match word {
        [] => None,
        [b'0', _, ..] => None,
        _ if word.len() <= 18 => read_few(word),
        _ => read_digits(limit, word),
    }
}

#[inline(always)]
pub fn read_lit(word: &[u8]) -> Option<u64>
    ensures value { result ≡ lit_of word.now }
    ensures inside { IfSome result (λ number. number < 2 ^ 63) }
{
    read_whole(GREATEST_LITERAL, word)
}

fn negated(magnitude: u64) -> Option<i64>
    requires { magnitude ≤ 2 ^ 63 }
    ensures { result ≡ negative magnitude }
{
    if magnitude == 0 {
        None
    } else {
        Some(-1 - (magnitude - 1) as i64)
    }
}

/// The value that a word spells, as a store's line has it.
#[tactic(auto, unfolding(crate::specs::Reading::number_of))]
pub fn read_number(word: &[u8]) -> Option<i64>
    ensures { result ≡ number_of word.now }
{
    match word {
        [] => None,
        [b'-', digits @ ..] => negated(read_whole(GREATEST_LITERAL + 1, digits)?),
        _ => Some(read_lit(word)? as i64),
    }
}
