//! `Levels`, what came last by the wires that end at a node.
ghost use Rattle.std.specs.Prelude.{◌≡◌, ◌<◌, ◌^◌, length, replicate, slice_set};
ghost use Rattle.xs_base.specs.Ids.{port_width};
ghost use Rattle.xs_base.specs.declared.numbers.TheConstants.{PORTS};
ghost use Rattle.xs_model.specs.Masks.{in_mask};
ghost use Rattle.xs_model.specs.Outside.{LevelsFit};
ghost use Rattle.pin_wires.specs.Wires.{levels_over};

use std::marker::Model;
use xs_base::numbers::PORTS;
use xs_model::PinView;

/// What came last by a wire to each of a node's 29 ports, 0 where nothing came. Contracts see the list of these levels, by port
/// number. See docs/PINS.md.
#[derive(Drop)]
pub struct Levels {
    last: [u32; 29],
}

impl Model for Levels {
    ghost use Rattle.std.specs.Prelude.{List};
    ghost use Rattle.xs_base.specs.Numbers.{Word};
    ghost use Rattle.xs_model.specs.Outside.{LevelsFit};

    ghost Value = { List Word };

    ghost view = { λ levels. levels.last };

    ghost invariant = { λ levels. LevelsFit levels.last };
}

impl Levels {
    /// Nothing came yet: the levels are 0. It takes no memory.
    pub fn new() -> Levels
        ensures { result ≡ replicate 29 0 }
    {
        Levels { last: [0; 29] }
    }

    /// Notes the level that comes to a port, 0 to 28: a value of the port's width. It takes no memory.
    #[inline]
    pub fn come(&mut self, port: u8, value: u32)
        requires port { port < PORTS }
        requires width { value < 2 ^ port_width port }
        ensures came { self.new ≡ slice_set self.old port value }
        ensures ports { length self.new ≡ PORTS }
        ensures fit { LevelsFit self.new }
    {
        self.last[port as usize] = value;
    }

    /// Puts what came last to each port at which a wire ends in place of what the view has of it, the level of the script, which then
    /// does not show. Bit p of `wired` tells whether one ends at port p; bits from 29 on mean nothing. Levels that fit their ports'
    /// widths still do. It takes no memory. See docs/PINS.md.
    #[inline]
    pub fn over(&self, wired: u32, view: &mut PinView)
        ensures levels { view.new.level ≡ levels_over wired self.now view.old.level }
        ensures fit { LevelsFit view.old.level → LevelsFit view.new.level }
    {
        for port in 0..PORTS {
            if is_wired(wired, port) {
                view.level[port as usize] = self.last[port as usize];
            }
        }
    }
}

// Whether bit `port`, 0 to 28, of a mask of ports is set.
#[inline]
fn is_wired(wired: u32, port: u8) -> bool
    requires { port < PORTS }
    ensures { result ≡ in_mask wired port }
{
    (wired >> port) & 1 == 1
}
