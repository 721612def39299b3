//! What the lines of slots and changes say.
ghost use Rattle.std.specs.Prelude.{◌≡◌, ◌<◌, ◌≤◌, ◌^◌, true, length};
ghost use Rattle.std.specs.List.{list_all};
ghost use Rattle.std.specs.Str.Parse.{digits_value};
ghost use Rattle.xs_text.specs.Tokens.{is_binary_digit, is_run};
ghost use Rattle.wave_model.specs.Reads.{slot_in, pin_of_code, binary_in, vector_in, value_in_text};

use crate::named_lines::is_same;
use word_numbers::{has_leading_zero, plain_decimal_up_to};

/// The greatest slot of a wave.
pub(crate) const MOST_WAVE_SLOTS: u32 = 1_000_000;

// The most binary digits of a value.
const MOST_BINARY_DIGITS: usize = 32;

/// `#SLOT`.
pub(crate) fn slot_in(line: &[u8]) -> Option<u32>
    ensures { result ≡ slot_in line.now }
{
    if line.is_empty() || line[0] != b'#' {
        return None;
    }
    plain_decimal_up_to(MOST_WAVE_SLOTS, &line[1..])
}

/// The pin that has this code, however many there are.
pub(crate) fn pin_of_code(code: &[u8]) -> Option<u32>
    ensures { result ≡ pin_of_code code.now }
{
    if code.len() != 2 || code[0] < 33 || code[1] < 33 || code[1] >= 123 {
        return None;
    }
    Some(90 * u32::from(code[0] - 33) + u32::from(code[1] - 33))
}

/// The value that stands before the code of a pin of so many bits.
pub(crate) fn value_in_text(width: u32, text: &[u8]) -> Option<u32>
    requires { width ≤ 32 }
    ensures { result ≡ value_in_text width text.now }
{
    if width == 1 {
        binary_in(1, text)
    } else {
        vector_in(width, text)
    }
}

// `b`, the value and a blank.
fn vector_in(width: u32, text: &[u8]) -> Option<u32>
    requires { width ≤ 32 }
    ensures { result ≡ vector_in width text.now }
{
    if text.is_empty() || text[0] != b'b' {
        return None;
    }
    let rest = &text[1..];
    let (digits, blank) = rest.split_at(rest.len().saturating_sub(1));
    if is_same(b" ", blank) {
        binary_in(width, digits)
    } else {
        None
    }
}

// A value of so many bits in binary, without leading zeros.
fn binary_in(width: u32, digits: &[u8]) -> Option<u32>
    requires { width ≤ 32 }
    ensures { result ≡ binary_in width digits.now }
{
    if has_leading_zero(digits) || digits.len() > MOST_BINARY_DIGITS || !is_binary(digits) {
        return None;
    }
    let value = binary_value(digits);
    if value < 1 << width {
        Some(value as u32)
    } else {
        None
    }
}

// Whether bytes are one or more binary digits.
fn is_binary(bytes: &[u8]) -> bool
    ensures { result ≡ is_run is_binary_digit bytes.now }
{
    !bytes.is_empty() && all_binary_digits(bytes)
}

fn all_binary_digits(bytes: &[u8]) -> bool
    ensures { result ≡ list_all is_binary_digit bytes.now }
{
    bytes.iter().all(|b| *b == b'0' || *b == b'1')
}

// The value of at most 32 binary digits.
fn binary_value(digits: &[u8]) -> u64
    requires few { length digits.now ≤ 32 }
    requires binary { list_all is_binary_digit digits.now ≡ true }
    ensures value { result ≡ digits_value 2 digits.now }
    ensures within { result < 2 ^ 32 }
{
    let mut value = 0;
    for digit in digits {
        value = 2 * value + u64::from(*digit - b'0');
    }
    value
}
