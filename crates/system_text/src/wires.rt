//! The wires of a frame: which of them are at a node or lead to a pin.
ghost use Rattle.std.specs.Prelude.{◌≡◌};
ghost use Rattle.xs_base.specs.Ids.{port_width};
ghost use Rattle.system_model.specs.Frame.{count_coming, count_leaving, is_wire_end, is_wired};

use system_model::{PinName, WireLine};
use xs_base::port_width;

// How many wires leave the node with a number.
pub fn count_leaving(wires: &[WireLine], node: u8) -> usize
    ensures { result ≡ count_leaving wires.now node }
{
    wires.iter().filter(|wire| wire.a.node == node).count()
}

// How many come to it.
pub fn count_coming(wires: &[WireLine], node: u8) -> usize
    ensures { result ≡ count_coming wires.now node }
{
    wires.iter().filter(|wire| wire.b.node == node).count()
}

// Whether an end is one of so many wires of a node, which are its ends from 8 on.
pub fn is_wire_end(count: usize, end: u8) -> bool
    ensures { result ≡ is_wire_end count end }
{
    end >= 8 && usize::from(end - 8) < count
}

// Whether a wire leads to a pin.
pub fn is_wired(wires: &[WireLine], pin: PinName) -> bool
    ensures { result ≡ is_wired wires.now pin }
{
    wires
        .iter()
        .any(|wire| wire.b.node == pin.node && wire.b.port == pin.port)
}

// How many pins a port has. No line names a port above 28, and the definition has each of them as wide as that one.
#[tactic(auto, using(crate::proofs::Widths::width_capped))]
pub fn width_of(port: u8) -> u32
    ensures { result ≡ port_width port }
{
    port_width(port.min(28))
}
