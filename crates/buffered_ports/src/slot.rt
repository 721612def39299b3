//! The edges of all ports in a slot.
ghost use Rattle.std.specs.Prelude.{ℕ, ◌≡◌, ◌≢◌, ◌+◌, ◌<◌, ◌≤◌, ◌++◌, ◌^◌, ◌==◌, if◌then◌else◌, Bool, false, true, List, length, map, slice_index_or, slice_set};
ghost use Rattle.xs_base.specs.Numbers.{Slot, Word, PortNumber};
ghost use Rattle.xs_base.specs.Ids.{port_width};
ghost use Rattle.xs_base.specs.declared.numbers.TheConstants.{PORTS, EVENT_ROOM};
ghost use Rattle.xs_model.specs.declared.clock.Clock.TheVariants.{Reference};
ghost use Rattle.xs_model.specs.Masks.{in_mask};
ghost use Rattle.xs_model.specs.Record.{ClockRec, PortRec};
ghost use Rattle.xs_model.specs.Outside.{in_slot, LevelsFit};
ghost use Rattle.xs_model.specs.Time.{edge_at};
ghost use Rattle.xs_model.specs.Ports.{level_of, levels_of, is_high, rises, falls, unchanged, edge_in_slot, edges_from, pin_happens};
ghost use Rattle.buffered_ports.specs.Asks.{port_at};
ghost use Rattle.single_port.specs.Keeps.{IsPlain, ServesAs};
ghost use Rattle.buffered_ports.specs.Edge.{edge_at_port};
ghost use Rattle.buffered_ports.specs.Keeps.{HighIs, HighAre, IsEdged, TellsOne};

use crate::marks::noted;
use crate::ports::Ports;
use bit_masks::{has_bit, lowest, with_bit, without};
use timers_clocks::Clocks;
use trace_lines::{Emissions, Event, Happen};
use xs_base::numbers::PORTS;
use xs_model::{Clock, Edge, PinChange, PinView};

impl Ports {
    /// The strobes that are high, bit n for port n, where pins show this from outside: for each port that has a strobe
    /// whether that pin is 1. Of other pins it says nothing. It costs next to nothing where no port has a strobe.
    #[inline]
    pub fn high(&self, pins: &PinView) -> u32
        ensures high { HighAre result self.now (levels_of self.now pins.now.level) }
    {
        if self.strobed == 0 {
            0
        } else {
            self.all_high(&pins.level)
        }
    }

    /// Whether a port has a strobe. Where none has, `high` says nothing, and any mask does for it.
    #[inline]
    pub fn has_strobe(&self) -> bool
        ensures none { result ≡ false → (mask : ℕ) (levels : List Word) → HighAre mask self.now levels }
    {
        self.strobed != 0
    }

    // It stands apart, so that slots with no strobe are quick.
    #[inline(never)]
    fn all_high(&self, levels: &[u32; 29]) -> u32
        ensures { HighAre result self.now (levels_of self.now levels.now) }
    {
        let mut mask = 0;
        for p in 0..PORTS {
            let level = self.ports[p as usize].level(levels[p as usize]);
            mask = with_bit(mask, p, level == 1);
        }
        mask
    }

    /// The edges of all ports in a slot, in the order of their numbers: what happened is put after the events of the slot.
    /// Pins show `pins` from outside, and `high` has the strobes that were high at the end of the slot before, as `high`
    /// gives them. The answer tells whether a wait on a port may hold now that did not, or a port be ready: where it is
    /// false, no port serves threads otherwise than before. It costs next to nothing where no port is on, and in odd slots,
    /// in which no clock has an edge. See docs/PORTS.md.
    #[inline]
    pub fn edges(
        &mut self,
        clocks: &Clocks,
        slot: u32,
        pins: &PinView,
        high: u32,
        out: &mut Emissions,
    ) -> bool
        requires pins { LevelsFit pins.now.level }
        requires room { length out.old.events + PORTS ≤ EVENT_ROOM }
        ensures ports { (before : List Word) → HighAre high self.old before → self.new ≡ (edges_from slot clocks.now before 0 self.old pins.now.level).ports }
        ensures events { (before : List Word) → HighAre high self.old before →
            out.new ≡ record out.old { events = out.old.events ++ map (in_slot slot) (edges_from slot clocks.now before 0 self.old pins.now.level).happened } }
        ensures serve { result ≡ false → (p : PortNumber) → ServesAs (port_at self.old p) (port_at self.new p) }
        ensures room { length out.new.events ≤ length out.old.events + PORTS }
    {
        if self.are_off() {
            return false;
        }
        self.all_edges(clocks, slot, &pins.level, high, out)
    }

    // Whether no port is on, so that none has an edge in any slot.
    #[inline]
    fn are_off(&self) -> bool
        ensures none { result ≡ true → (slot : Slot) (clocks : List ClockRec) (before : List Word) (p : PortNumber) (outside : Word) → p < PORTS →
            edge_in_slot slot clocks before p (port_at self.now p) outside ≡ unchanged (port_at self.now p) }
        ensures count { length self.now ≡ PORTS }
    {
        self.on == 0
    }

    // It stands apart, so that slots of a node with no port on are quick.
    #[inline(never)]
    fn all_edges(
        &mut self,
        clocks: &Clocks,
        slot: u32,
        levels: &[u32; 29],
        high: u32,
        out: &mut Emissions,
    ) -> bool
        requires pins { LevelsFit levels.now }
        requires room { length out.old.events + PORTS ≤ EVENT_ROOM }
        ensures ports { (before : List Word) → HighAre high self.old before → self.new ≡ (edges_from slot clocks.now before 0 self.old levels.now).ports }
        ensures events { (before : List Word) → HighAre high self.old before →
            out.new ≡ record out.old { events = out.old.events ++ map (in_slot slot) (edges_from slot clocks.now before 0 self.old levels.now).happened } }
        ensures serve { result ≡ false → (p : PortNumber) → ServesAs (port_at self.old p) (port_at self.new p) }
        ensures room { length out.new.events ≤ length out.old.events + PORTS }
    {
        // The ports that are on and had no edge yet.
        let mut rest = self.ports_on();
        if has_no_edge(slot) {
            return false;
        }
        let reference = clocks.edge(Clock::Reference, slot);
        let mut differs = false;
        while rest != 0 {
            let p = lowest(rest);
            let changed = self.edge_in_slot(p, clocks, reference, slot, levels, high, out);
            differs = either(differs, changed);
            rest = without(rest, p);
        }
        differs
    }

    // The ports that are on, bit n for port n.
    #[inline]
    pub(crate) fn ports_on(&self) -> u32
        ensures on { (k : PortNumber) → k < 32 → in_mask result k ≡ (port_at self.now k).on }
        ensures count { length self.now ≡ PORTS }
    {
        self.on
    }

    // The edge of port `p`, which is on, in a slot in which the reference clock has this one: whether it may serve threads
    // otherwise than before.
    #[tactic(auto, using(crate::proofs::InTurn::tells_nothing))]
    #[inline]
    fn edge_in_slot(
        &mut self,
        p: u8,
        clocks: &Clocks,
        reference: Edge,
        slot: u32,
        levels: &[u32; 29],
        high: u32,
        out: &mut Emissions,
    ) -> bool
        requires port { p < PORTS }
        requires on { (port_at self.old p).on ≡ true }
        requires reference { reference ≡ edge_at clocks.now Reference slot }
        requires pin { slice_index_or levels.now p 0 < 2 ^ port_width p }
        requires room { length out.old.events < EVENT_ROOM }
        ensures ports { (before : List Word) → HighIs high (port_at self.old p).strobe before →
            self.new ≡ slice_set self.old p
            (edge_at_port p (edge_at clocks.now (port_at self.old p).clock slot) (slice_index_or levels.now p 0) (is_high before (port_at self.old p).strobe) self.old).port }
        ensures events { (before : List Word) → HighIs high (port_at self.old p).strobe before →
            out.new.events ≡ out.old.events ++ map (in_slot slot)
            (pin_happens p (edge_at_port p (edge_at clocks.now (port_at self.old p).clock slot) (slice_index_or levels.now p 0) (is_high before (port_at self.old p).strobe) self.old).change) }
        ensures told { TellsOne out.old out.new }
        ensures edged { IsEdged p result self.old self.new }
    {
        if self.is_plain(p) {
            return self.plain_edge(p, reference, levels);
        }
        let edge = self.edge_of(p, clocks, reference, slot);
        self.edge_at(p, edge, slot, levels[p as usize], high, out)
    }

    // Whether port `p` is known to be plain.
    #[inline]
    fn is_plain(&self, p: u8) -> bool
        requires { p < PORTS }
        ensures { result ≡ true → IsPlain (port_at self.now p) }
    {
        has_bit(self.plain, p)
    }

    // The edge of port `p`, which is plain: whether it may serve threads otherwise than before.
    #[tactic(auto, using(crate::proofs::InTurn::not_edged))]
    #[inline]
    fn plain_edge(&mut self, p: u8, reference: Edge, levels: &[u32; 29]) -> bool
        requires port { p < PORTS }
        requires plain { IsPlain (port_at self.old p) }
        requires pin { slice_index_or levels.now p 0 < 2 ^ port_width p }
        ensures port { (high : Bool) → edge_at_port p reference (slice_index_or levels.now p 0) high self.old ≡ unchanged (port_at self.new p) }
        ensures ports { self.new ≡ slice_set self.old p (port_at self.new p) }
        ensures edged { IsEdged p result self.old self.new }
    {
        match reference {
            Edge::None => false,
            Edge::Rise => self.plain_rise(p, levels[p as usize]),
            Edge::Fall => {
                self.plain_fall(p);
                false
            }
        }
    }

    #[inline]
    fn plain_rise(&mut self, p: u8, outside: u32) -> bool
        requires port { p < PORTS }
        requires plain { IsPlain (port_at self.old p) }
        requires pin { outside < 2 ^ port_width p }
        ensures port { (high : Bool) → rises (port_width p) (level_of (port_at self.old p).driven outside) high (port_at self.old p) ≡ port_at self.new p }
        ensures ports { self.new ≡ slice_set self.old p (port_at self.new p) }
        ensures edged { IsEdged p result self.old self.new }
    {
        let differs = !has_bit(self.ready, p);
        let port = &mut self.ports[p as usize];
        port.rises_plainly(outside);
        self.ready = noted(self.ready, p, differs, true);
        differs
    }

    #[inline]
    fn plain_fall(&mut self, p: u8)
        requires port { p < PORTS }
        requires plain { IsPlain (port_at self.old p) }
        ensures port { falls (port_width p) (port_at self.old p) ≡ unchanged (port_at self.new p) }
        ensures ports { self.new ≡ slice_set self.old p (port_at self.new p) }
        ensures edged { IsEdged p false self.old self.new }
    {
        let port = &mut self.ports[p as usize];
        port.falls_plainly();
    }

    // The edge of the clock of port `p` in a slot, in which the reference clock has this one.
    #[inline]
    fn edge_of(&self, p: u8, clocks: &Clocks, reference: Edge, slot: u32) -> Edge
        requires port { p < PORTS }
        requires reference { reference ≡ edge_at clocks.now Reference slot }
        ensures { result ≡ edge_at clocks.now (port_at self.now p).clock slot }
    {
        match self.clock(p) {
            Clock::Reference => reference,
            clock => clocks.edge(clock, slot),
        }
    }

    // This edge of port `p`, which is on: whether it may serve threads otherwise than before.
    #[tactic(auto, using(crate::proofs::InTurn::not_edged, crate::proofs::InTurn::tells_nothing))]
    #[inline]
    fn edge_at(
        &mut self,
        p: u8,
        edge: Edge,
        slot: u32,
        outside: u32,
        high: u32,
        out: &mut Emissions,
    ) -> bool
        requires port { p < PORTS }
        requires on { (port_at self.old p).on ≡ true }
        requires pin { outside < 2 ^ port_width p }
        requires room { length out.old.events < EVENT_ROOM }
        ensures ports { (before : List Word) → HighIs high (port_at self.old p).strobe before →
            self.new ≡ slice_set self.old p (edge_at_port p edge outside (is_high before (port_at self.old p).strobe) self.old).port }
        ensures events { (before : List Word) → HighIs high (port_at self.old p).strobe before →
            out.new.events ≡ out.old.events ++ map (in_slot slot)
            (pin_happens p (edge_at_port p edge outside (is_high before (port_at self.old p).strobe) self.old).change) }
        ensures told { TellsOne out.old out.new }
        ensures edged { IsEdged p result self.old self.new }
    {
        match edge {
            Edge::None => false,
            Edge::Rise => {
                let strobe = self.is_high(p, high);
                self.rise(p, outside, strobe)
            }
            Edge::Fall => {
                let fallen = self.fall(p);
                tell(p, fallen.change, slot, out);
                fallen.differs
            }
        }
    }

    // Whether the strobe of port `p`, if it has one, is high, by the mask of those that are.
    #[inline]
    fn is_high(&self, p: u8, high: u32) -> bool
        requires { p < PORTS }
        ensures { (before : List Word) → HighIs high (port_at self.now p).strobe before → result ≡ is_high before (port_at self.now p).strobe }
    {
        match self.strobe(p) {
            None => false,
            Some(strobe) => has_bit(high, strobe),
        }
    }
}

// Whether a slot is odd, so that no clock has an edge in it.
#[inline]
fn has_no_edge(slot: u32) -> bool
    ensures { result ≡ true → (clocks : List ClockRec) (before : List Word) (p : PortNumber) (port : PortRec) (outside : Word) →
        edge_in_slot slot clocks before p port outside ≡ unchanged port }
{
    slot % 2 == 1
}

// Whether one or the other.
#[inline]
fn either(one: bool, other: bool) -> bool
    ensures one { result ≡ false → one ≡ false }
    ensures other { result ≡ false → other ≡ false }
{
    one || other
}

// Puts the change of a port's pins, if they changed, after the events of a slot.
#[tactic(auto, using(crate::proofs::InTurn::tells_nothing, crate::proofs::InTurn::tells_one))]
#[inline]
fn tell(port: u8, change: Option<PinChange>, slot: u32, out: &mut Emissions)
    requires port { port < PORTS }
    requires room { length out.old.events < EVENT_ROOM }
    ensures events { out.new.events ≡ out.old.events ++ map (in_slot slot) (pin_happens port change) }
    ensures told { TellsOne out.old out.new }
{
    if let Some(change) = change {
        let what = match change {
            PinChange::Drive(value) => Happen::Drive { port, value },
            PinChange::Float => Happen::Float { port },
        };
        out.add_event(Event { slot, what });
    }
}
