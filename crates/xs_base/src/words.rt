//! Arithmetic on words, modulo 2^32. See docs/INSTRUCTIONS.md.
ghost use Rattle.std.specs.Prelude.{◌≡◌, ◌+◌, ◌*◌, ◌%◌, ◌<◌, ◌≤◌, ◌↔◌, None, IfSome};
ghost use Rattle.xs_base.specs.Words.{shl, shr, ashr, mkmsk, zext, sext, bitrev, byterev, clz, long, halves, add_carry, sub_borrow, mul_long, div_long};

/// `a` shifted left by `n` bits, which may be any word: 0 from 32 on. See docs/INSTRUCTIONS.md, as for all calls here.
pub fn shl(a: u32, n: u32) -> u32
    ensures value { result ≡ shl a n }
{
    a.checked_shl(n).unwrap_or(0)
}

/// `a` shifted right by `n` bits, zeros coming in. `n` may be any word: 0 from 32 on.
pub fn shr(a: u32, n: u32) -> u32
    ensures value { result ≡ shr a n }
{
    a.checked_shr(n).unwrap_or(0)
}

/// `a` shifted right by `n` bits, its sign coming in. `n` may be any word: all sign, 0 or 0xffffffff, from 32 on.
pub fn ashr(a: u32, n: u32) -> u32
    ensures value { result ≡ ashr a n }
{
    (a.cast_signed() >> n.min(31)).cast_unsigned()
}

/// The lowest `n` bits set and no others: 0 at 0, and 0xffffffff from 32 on.
pub fn mkmsk(n: u32) -> u32
    ensures value { result ≡ mkmsk n }
{
    1_u32.checked_shl(n).map_or(u32::MAX, |above| above - 1)
}

/// The lowest `n` bits of `a`, extended by zeros. `n` may be any word: at 0 and from 32 on it is `a` itself.
pub fn zext(a: u32, n: u32) -> u32
    ensures value { result ≡ zext a n }
{
    if 0 < n && n < 32 { a % (1 << n) } else { a }
}

/// The lowest `n` bits of `a`, extended by the highest of them. `n` may be any word: at 0 and from 32 on it is `a` itself.
pub fn sext(a: u32, n: u32) -> u32
    ensures value { result ≡ sext a n }
{
    if 0 < n && n < 32 {
        ashr(a << (32 - n), 32 - n)
    } else {
        a
    }
}

/// How many zeros lead the 32 bits of `a`, 0 to 32: 32 where `a` is 0.
pub fn clz(a: u32) -> u32
    ensures value { result ≡ clz a }
    ensures bound { result ≤ 32 }
{
    a.leading_zeros()
}

/// The 32 bits of `a` in reverse order.
pub fn bitrev(a: u32) -> u32
    ensures value { result ≡ bitrev a }
{
    a.reverse_bits()
}

/// The four bytes of `a` in reverse order.
pub fn byterev(a: u32) -> u32
    ensures value { result ≡ byterev a }
{
    a.swap_bytes()
}

/// `a` plus `b` plus the lowest bit of `c`: first the carry, 0 or 1, then the word.
pub fn add_carry(a: u32, b: u32, c: u32) -> (u32, u32)
    ensures value { result ≡ add_carry a b c }
    ensures carry { result.0 ≤ 1 }
    ensures whole { long result.0 result.1 ≡ a + b + c % 2 }
{
    halves(u64::from(a) + u64::from(b) + u64::from(c % 2))
}

/// `a` minus `b` minus the lowest bit of `c`: first the borrow, 0 or 1, then the word.
pub fn sub_borrow(a: u32, b: u32, c: u32) -> (u32, u32)
    ensures value { result ≡ sub_borrow a b c }
    ensures borrow { result.0 ≤ 1 }
    ensures whole { result.1 + (b + c % 2) ≡ long result.0 a }
{
    let (without, first) = a.overflowing_sub(b);
    let (word, second) = without.overflowing_sub(c % 2);
    (u32::from(first || second), word)
}

/// `a` times `b` plus `c` plus `d`, which two words always hold: first the high word, then the low one.
pub fn mul_long(a: u32, b: u32, c: u32, d: u32) -> (u32, u32)
    ensures value { result ≡ mul_long a b c d }
    ensures whole { long result.0 result.1 ≡ a * b + c + d }
{
    halves(u64::from(a) * u64::from(b) + u64::from(c) + u64::from(d))
}

/// The number with the words `high` and `low`, `high * 2^32 + low`, divided by `by`: first the quotient, then the remainder.
/// None exactly where the quotient is no word or `by` is 0, which is where `high` is at least `by`.
pub fn div_long(high: u32, low: u32, by: u32) -> Option<(u32, u32)>
    ensures value { result ≡ div_long high low by }
    ensures none { (result ≡ None) ↔ (by ≤ high) }
    ensures divided { IfSome result (λ (quotient, rest). quotient * by + rest ≡ long high low) }
    ensures rest { IfSome result (λ (quotient, rest). rest < by) }
{
    if by <= high {
        return None;
    }
    let long = (u64::from(high) << 32) + u64::from(low);
    let by = u64::from(by);
    Some(((long / by) as u32, (long % by) as u32))
}

/// The high and the low word of `n`.
fn halves(n: u64) -> (u32, u32)
    ensures value { result ≡ halves n }
{
    ((n >> 32) as u32, (n % (1 << 32)) as u32)
}
