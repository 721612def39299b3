//! The bits of a mask, numbered from 0: here of one of 32 bits, in `wide` of one of 64.
#![tactic(auto)]

ghost use Rattle.std.specs.Prelude.{ℕ, ◌≡◌, ◌<◌, ◌==◌, true, false, if◌then◌else◌};
ghost use Rattle.xs_model.specs.Masks.{in_mask};

pub mod wide;

/// Whether bit `n`, 0 to 31, of a mask is set.
#[inline]
pub fn has_bit(mask: u32, n: u8) -> bool
    requires { n < 32 }
    ensures { result ≡ in_mask mask n }
{
    (mask >> n) & 1 == 1
}

/// The mask with bit `n`, 0 to 31, set where this holds, and else cleared.
#[inline]
pub fn with_bit(mask: u32, n: u8, holds: bool) -> u32
    requires { n < 32 }
    ensures { (k : ℕ) → k < 32 → in_mask result k ≡ (if k == n then holds else in_mask mask k) }
{
    let bit = 1 << n;
    if holds { mask | bit } else { mask & !bit }
}

/// The lowest bit that is set in a mask, 0 to 31.
#[inline]
pub fn lowest(mask: u32) -> u8
    requires { 0 < mask }
    ensures within { result < 32 }
    ensures is { in_mask mask result ≡ true }
    ensures least { (k : ℕ) → k < result → in_mask mask k ≡ false }
{
    mask.trailing_zeros() as u8
}

/// The mask without bit `n`, 0 to 31, which is set: a lesser number, so that a walk from bit to bit ends.
#[inline]
pub fn without(mask: u32, n: u8) -> u32
    requires place { n < 32 }
    requires is { in_mask mask n ≡ true }
    ensures bits { (k : ℕ) → k < 32 → in_mask result k ≡ (if k == n then false else in_mask mask k) }
    ensures less { result < mask }
{
    mask & !(1 << n)
}
