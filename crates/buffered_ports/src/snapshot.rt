//! What a snapshot keeps of the ports of a core, and the ports made again of it.
ghost use Rattle.std.specs.Prelude.{◌≡◌, ◌<◌, map, slice_set};
ghost use Rattle.xs_base.specs.declared.numbers.TheConstants.{PORTS};
ghost use Rattle.buffered_ports.specs.States.{port_state, port_of, IsPortState, ArePortStates};

use crate::ports::Ports;
use bit_masks::with_bit;
use single_port::PortState;
use xs_base::numbers::PORTS;

impl Ports {
    /// What a snapshot keeps of the ports: ports of these states are these again. It takes no memory. See
    /// docs/SNAPSHOTS.md.
    pub fn state(&self) -> [PortState; 29]
        ensures value { result ≡ map port_state self.now }
        ensures again { map port_of result ≡ self.now }
    {
        let mut states = [PortState::off(); 29];
        for p in 0..PORTS {
            states[p as usize] = self.ports[p as usize].state();
        }
        states
    }

    /// The ports as a snapshot says they are. It takes no memory. See docs/SNAPSHOTS.md.
    pub fn of_state(ports: &[PortState; 29]) -> Ports
        requires facts { ArePortStates ports.now }
        ensures ports { result ≡ map port_of ports.now }
    {
        let mut made = Ports::new();
        for p in 0..PORTS {
            made.put(p, &ports[p as usize]);
        }
        made
    }

    // Port `p` is as a snapshot says from now on, and the masks tell of it.
    fn put(&mut self, p: u8, state: &PortState)
        requires port { p < PORTS }
        requires facts { IsPortState p state.now }
        ensures ports { self.new ≡ slice_set self.old p (port_of state.now) }
    {
        let place = &mut self.ports[p as usize];
        place.set_state(p, state);
        self.on = with_bit(self.on, p, place.is_on());
        self.ready = with_bit(self.ready, p, place.is_ready());
        self.strobed = with_bit(self.strobed, p, place.strobe().is_some());
        self.moving = with_bit(self.moving, p, !place.is_still());
        self.plain = with_bit(self.plain, p, place.is_plain());
    }
}
