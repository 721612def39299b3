//! Which pins of one bit are high, where the levels of all pins are known.
ghost use Rattle.std.specs.Prelude.{List};
ghost use Rattle.xs_model.specs.Record.{PortRec};
ghost use Rattle.buffered_ports.specs.Keeps.{HighAre};

use bit_masks::with_bit;
use xs_base::numbers::PORTS;
use xs_model::PinView;

/// The strobes that are high where all pins show these levels, whatever drives them: bit p for port p.
pub fn high_of(pins: &PinView) -> u32
    ensures high { (ports : List PortRec) → HighAre result ports pins.now.level }
{
    let mut mask = 0;
    for p in 0..PORTS {
        mask = with_bit(mask, p, pins.level[p as usize] == 1);
    }
    mask
}
