//! `PinLevels`, what a core keeps of the levels of its pins.
ghost use Rattle.std.specs.Prelude.{◌≡◌, true, false, List, map};
ghost use Rattle.xs_model.specs.Record.{PortRec};
ghost use Rattle.xs_model.specs.Ports.{level_of, levels_of};
ghost use Rattle.buffered_ports.specs.Keeps.{HighAre};
ghost use Rattle.buffered_ports.specs.States.{port_state};
ghost use Rattle.quiet_laws.specs.Undisturbed.{ShowsAll};
ghost use Rattle.core_step.specs.PinLevels.{levels_kept, from_outside};

use buffered_ports::{PortState, high_of};
use processor::Processor;
use xs_base::numbers::PORTS;
use xs_model::PinView;

/// What a core keeps of the levels of its pins at the end of the slot before. See docs/PORTS.md.
#[derive(Clone, Copy)]
pub struct PinLevels {
    /// The levels themselves, or what the pins showed from outside.
    pub(crate) pins: PinView,
    /// Whether they are what the pins showed from outside: where a port drives them, they showed what it drives. A core
    /// begins with the levels themselves, whatever its ports drive.
    pub(crate) is_outside: bool,
}

impl PinLevels {
    /// From now on they are what the pins show from outside. They are that already where the pins did not change, so it copies only
    /// where they did, in place.
    #[inline]
    pub(crate) fn note(&mut self, changed: bool, pins: &PinView)
        requires same { changed ≡ false → self.old ≡ from_outside pins.now }
        ensures levels { self.new ≡ from_outside pins.now }
        ensures all { ShowsAll pins.now }
    {
        if changed {
            self.is_outside = true;
            self.pins.level.copy_from_slice(&pins.level);
        }
    }

    /// The levels themselves, where a snapshot keeps these of the ports.
    pub(crate) fn shown(&self, ports: &[PortState; 29]) -> [u32; 29]
        ensures { (all : List PortRec) → ports.now ≡ map port_state all → result ≡ levels_kept all self.now }
    {
        if self.is_outside {
            shown_with(ports, &self.pins.level)
        } else {
            self.pins.level
        }
    }

    /// The levels themselves, of pins whose ports are these.
    pub(crate) fn of(&self, units: &Processor) -> [u32; 29]
        ensures { result ≡ levels_kept units.now.ports self.now }
    {
        if self.is_outside {
            driven_over(units, &self.pins.level)
        } else {
            self.pins.level
        }
    }

    /// These levels themselves.
    pub(crate) fn of_state(level: [u32; 29]) -> PinLevels
        ensures { (ports : List PortRec) → levels_kept ports result ≡ level }
    {
        PinLevels {
            pins: PinView { level },
            is_outside: false,
        }
    }
}

// What all pins show, which show this from outside, where a snapshot keeps these of the ports.
fn shown_with(ports: &[PortState; 29], outside: &[u32; 29]) -> [u32; 29]
    ensures { (all : List PortRec) → ports.now ≡ map port_state all → result ≡ levels_of all outside.now }
{
    let mut levels = *outside;
    for p in 0..PORTS {
        levels[p as usize] = shown_at(ports[p as usize].driven, levels[p as usize]);
    }
    levels
}

// What all pins show, which show this from outside.
fn driven_over(units: &Processor, outside: &[u32; 29]) -> [u32; 29]
    ensures { result ≡ levels_of units.now.ports outside.now }
{
    units.keeps();
    let mut levels = *outside;
    for p in 0..PORTS {
        levels[p as usize] = shown_at(units.driven(p), levels[p as usize]);
    }
    levels
}

// What a pin shows, whose port drives this, or which shows that from outside.
fn shown_at(driven: Option<u32>, outside: u32) -> u32
    ensures { result ≡ level_of driven outside }
{
    match driven {
        Some(value) => value,
        None => outside,
    }
}

/// Which strobes were high at the end of the slot before.
#[inline]
pub(crate) fn high_before(units: &Processor, levels: &PinLevels) -> u32
    ensures { HighAre result units.now.ports (levels_kept units.now.ports levels.now) }
{
    if !units.has_strobe() {
        0
    } else if levels.is_outside {
        units.high(&levels.pins)
    } else {
        high_of(&levels.pins)
    }
}
