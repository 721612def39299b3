//! Masks of ports: bit n is that of port n.
ghost use Rattle.std.specs.Prelude.{ℕ, ◌≡◌, ◌≢◌, ◌<◌, true, false, List, length};
ghost use Rattle.xs_base.specs.declared.numbers.TheConstants.{PORTS};
ghost use Rattle.xs_model.specs.Record.{PortRec};
ghost use Rattle.xs_model.specs.Masks.{in_mask};
ghost use Rattle.quiet_model.specs.Still.{ports_are_still};
ghost use Rattle.buffered_ports.specs.Keeps.{AreMoving};

use bit_masks::with_bit;

/// The mask with bit `n`, 0 to 31, as this, where it may differ.
#[inline]
pub(crate) fn noted(mask: u32, n: u8, differs: bool, holds: bool) -> u32
    requires { n < 32 }
    ensures others { (k : ℕ) → k < 32 → k ≢ n → in_mask result k ≡ in_mask mask k }
    ensures its { differs ≡ true → in_mask result n ≡ holds }
    ensures same { differs ≡ false → result ≡ mask }
{
    if differs {
        with_bit(mask, n, holds)
    } else {
        mask
    }
}

/// Whether all ports are still, by the mask of those that are not.
#[inline]
pub(crate) fn are_still(moving: u32) -> bool
    ensures { (ports : List PortRec) → length ports ≡ PORTS → AreMoving moving ports → result ≡ ports_are_still ports }
{
    moving == 0
}
