//! Numbers in the words of a command. See docs/OUTPUT.md.
#![tactic(auto)]

ghost use Rattle.std.specs.Prelude.{◌≡◌, ◌≤◌, IfSome};
ghost use Rattle.word_numbers.specs.Decimal.{decimal_up_to, has_leading_zero, plain_decimal_up_to};

use xs_text::{is_decimal, number};

// The most digits of a number.
const MOST_DIGITS: usize = 10;

/// The value of one to ten decimal digits, leading zeros included, if it is at most the limit. None comes exactly where the word is
/// something else or its value is greater. See docs/OUTPUT.md.
pub fn decimal_up_to(limit: u32, word: &[u8]) -> Option<u32>
    ensures value { result ≡ decimal_up_to limit word.now }
    ensures limit { IfSome result (λ n. n ≤ limit) }
{
    if word.len() > MOST_DIGITS || !is_decimal(word) {
        return None;
    }
    number(word, limit)
}

/// The same without leading zeros: `0`, or digits of which the first is another. None comes exactly where the word is something else or
/// its value is greater. See docs/WAVES.md.
pub fn plain_decimal_up_to(limit: u32, word: &[u8]) -> Option<u32>
    ensures value { result ≡ plain_decimal_up_to limit word.now }
    ensures limit { IfSome result (λ n. n ≤ limit) }
{
    if has_leading_zero(word) {
        return None;
    }
    decimal_up_to(limit, word)
}

/// Whether digits begin with a zero that says nothing, as those of `07`, and not those of `0`. See docs/WAVES.md.
pub fn has_leading_zero(digits: &[u8]) -> bool
    ensures value { result ≡ has_leading_zero digits.now }
{
    digits.len() > 1 && digits[0] == b'0'
}
