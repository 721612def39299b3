ghost use Rattle.std.specs.Prelude.{◌≡◌, ◌≤◌, Some, IfSome, is_some};
ghost use Rattle.std.specs.Char.{digit_value};
ghost use Rattle.std.specs.Str.Parse.{digits_value};
ghost use Rattle.xs_text.specs.Numbers.{at_most, number_of, source_number_of};

use crate::token_reader::{is_binary, is_decimal, is_hex};

/// Whether the bytes as a whole are a number, however great: decimal digits, or `0x` and hex digits.
pub fn is_plain_number(bytes: &[u8]) -> bool
    ensures { result ≡ is_some (number_of bytes.now) }
{
    is_decimal(bytes) || is_hex(bytes)
}

/// The number that the bytes are as a whole, in decimal digits or as `0x` and hex digits, with any count of
/// leading zeros. None where they are no number, or one past the limit.
pub fn number(bytes: &[u8], limit: u32) -> Option<u32>
    ensures value { result ≡ at_most limit (number_of bytes.now) }
    ensures limit { IfSome result (λ n. n ≤ limit) }
{
    if is_decimal(bytes) {
        value_at_most(bytes, 10, limit)
    } else if is_hex(bytes) {
        value_at_most(&bytes[2..], 16, limit)
    } else {
        None
    }
}

/// The same where `0b` and binary digits are a number too, as in sources.
pub fn source_number(bytes: &[u8], limit: u32) -> Option<u32>
    ensures value { result ≡ at_most limit (source_number_of bytes.now) }
    ensures limit { IfSome result (λ n. n ≤ limit) }
{
    if is_decimal(bytes) {
        value_at_most(bytes, 10, limit)
    } else if is_hex(bytes) {
        value_at_most(&bytes[2..], 16, limit)
    } else if is_binary(bytes) {
        value_at_most(&bytes[2..], 2, limit)
    } else {
        None
    }
}

// The value of the digits, if it is at most the limit. The value so far stops one past the limit, since the
// digits may be many.
#[tactic(auto, using(crate::proofs::Digits::digits_steps))]
fn value_at_most(digits: &[u8], base: u64, limit: u32) -> Option<u32>
    requires some { 1 ≤ base }
    requires low { base ≤ 16 }
    ensures value { result ≡ at_most limit (Some (digits_value base digits.now)) }
    ensures limit { IfSome result (λ n. n ≤ limit) }
{
    let past = u64::from(limit) + 1;
    let mut value = 0;
    for digit in digits {
        value = (value * base + digit_value(*digit)).min(past);
    }
    if value < past {
        Some(value as u32)
    } else {
        None
    }
}

// The value of a digit or a letter, and 36 for any other byte.
fn digit_value(b: u8) -> u64
    ensures value { result ≡ digit_value b }
    ensures low { result ≤ 36 }
{
    let value = match b {
        b'0'..=b'9' => b - b'0',
        b'A'..=b'Z' => b - b'A' + 10,
        b'a'..=b'z' => b - b'a' + 10,
        _ => 36,
    };
    u64::from(value)
}
