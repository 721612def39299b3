//! The same of a mask of 64 bits.
ghost use Rattle.std.specs.Prelude.{ℕ, ◌≡◌, ◌<◌, ◌==◌, true, false, if◌then◌else◌};
ghost use Rattle.xs_model.specs.Masks.{in_mask};

/// The mask with bit `n`, 0 to 63, set where this holds, and else cleared.
#[inline]
pub fn with_bit(mask: u64, n: u8, holds: bool) -> u64
    requires { n < 64 }
    ensures { (k : ℕ) → k < 64 → in_mask result k ≡ (if k == n then holds else in_mask mask k) }
{
    let bit = 1 << n;
    if holds { mask | bit } else { mask & !bit }
}

/// The lowest bit that is set in a mask, 0 to 63.
#[inline]
pub fn lowest(mask: u64) -> u8
    requires { 0 < mask }
    ensures within { result < 64 }
    ensures is { in_mask mask result ≡ true }
    ensures least { (k : ℕ) → k < result → in_mask mask k ≡ false }
{
    mask.trailing_zeros() as u8
}

/// The mask without bit `n`, 0 to 63, which is set: a lesser number, so that a walk from bit to bit ends.
#[inline]
pub fn without(mask: u64, n: u8) -> u64
    requires place { n < 64 }
    requires is { in_mask mask n ≡ true }
    ensures bits { (k : ℕ) → k < 64 → in_mask result k ≡ (if k == n then false else in_mask mask k) }
    ensures less { result < mask }
{
    mask & !(1 << n)
}
