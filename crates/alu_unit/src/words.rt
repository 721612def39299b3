//! Comparison, quotients, remainders and sums of products, each of words.
ghost use Rattle.std.specs.Prelude.{◌≡◌, ◌+◌, ◌*◌, ◌/◌, ◌%◌, ◌^◌, ◌==◌, pos, ◌*ℤ◌, int_lt, int_div, int_rem, Some, None, if◌then◌else◌};
ghost use Rattle.xs_base.specs.Words.{truth, signed, word_of, long, halves};
ghost use Rattle.step_model.specs.WordRows.{no_quotient, accumulated};

/// Whether `a` is less than `b`, both signed: 1 or 0.
#[inline]
pub(crate) fn lss(a: u32, b: u32) -> u32
    ensures value { result ≡ truth (int_lt (signed a) (signed b)) }
{
    u32::from(a.cast_signed() < b.cast_signed())
}

/// `a` divided by `b`, rounded down.
#[inline]
pub(crate) fn divu(a: u32, b: u32) -> Option<u32>
    ensures value { result ≡ (if b == 0 then None else Some (a / b)) }
{
    a.checked_div(b)
}

/// What is left of `a` divided by `b`.
#[inline]
pub(crate) fn remu(a: u32, b: u32) -> Option<u32>
    ensures value { result ≡ (if b == 0 then None else Some (a % b)) }
{
    a.checked_rem(b)
}

/// `a` divided by `b`, both signed, rounded toward 0.
#[inline]
pub(crate) fn divs(a: u32, b: u32) -> Option<u32>
    ensures value { result ≡ (if no_quotient a b then None else Some (word_of (int_div (signed a) (signed b)))) }
{
    let quotient = a.cast_signed().checked_div(b.cast_signed())?;
    Some(quotient.cast_unsigned())
}

/// What is left of `a` divided by `b`, both signed: it has the sign of `a`.
#[inline]
pub(crate) fn rems(a: u32, b: u32) -> Option<u32>
    ensures value { result ≡ (if no_quotient a b then None else Some (word_of (int_rem (signed a) (signed b)))) }
{
    let rest = a.cast_signed().checked_rem(b.cast_signed())?;
    Some(rest.cast_unsigned())
}

/// The number with the words `high` and `low` plus the product of `a` and `b`: its two words, modulo 2^64.
#[inline]
pub(crate) fn maccu(high: u32, low: u32, a: u32, b: u32) -> (u32, u32)
    ensures value { result ≡ accumulated high low (pos (a * b)) }
{
    accumulate(high, low, u64::from(a) * u64::from(b))
}

/// The same with `a` and `b` signed.
#[inline]
pub(crate) fn maccs(high: u32, low: u32, a: u32, b: u32) -> (u32, u32)
    ensures value { result ≡ accumulated high low (signed a *ℤ signed b) }
{
    let product = i64::from(a.cast_signed()) * i64::from(b.cast_signed());
    accumulate(high, low, product.cast_unsigned())
}

// The number with the words `high` and `low` plus `more`.
#[inline]
fn accumulate(high: u32, low: u32, more: u64) -> (u32, u32)
    ensures value { result ≡ halves ((long high low + more) % 2 ^ 64) }
{
    let sum = ((u64::from(high) << 32) + u64::from(low)).wrapping_add(more);
    ((sum >> 32) as u32, (sum % (1 << 32)) as u32)
}
