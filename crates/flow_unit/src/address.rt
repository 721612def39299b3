//! Addresses, modulo 2^32.
ghost use Rattle.std.specs.Prelude.{◌≡◌, ◌+◌};
ghost use Rattle.xs_instructions.specs.Code.{place_address};
ghost use Rattle.step_model.specs.MemoryRows.{up, down};

use xs_base::numbers::CODE_START;

/// The address that lies `n` accesses of a size above a base.
#[inline]
#[tactic(auto, using(crate::proofs::Addresses::up_by))]
pub(crate) fn up(base: u32, size: u32, n: u32) -> u32
    ensures value { result ≡ up base size n }
{
    base.wrapping_add(size.wrapping_mul(n))
}

/// The address that lies `n` accesses of a size below a base.
#[inline]
pub(crate) fn down(base: u32, size: u32, n: u32) -> u32
    ensures value { result ≡ down base size n }
{
    base.wrapping_sub(size.wrapping_mul(n))
}

/// The address that lies `n` instructions above the one after `pc`.
#[inline]
#[tactic(auto, using(crate::proofs::Addresses::next_up))]
pub(crate) fn after_next(pc: u32, n: u32) -> u32
    ensures value { result ≡ up pc 4 (1 + n) }
{
    up(pc.wrapping_add(4), 4, n)
}

/// The address of a place of the code.
#[inline]
pub(crate) fn place_address(place: u16) -> u32
    ensures value { result ≡ place_address place }
{
    CODE_START + 4 * u32::from(place)
}
