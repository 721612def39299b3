//! `Pins`, what the pins of a node show from outside. See docs/PINS.md.
ghost use Rattle.std.specs.Prelude.{◌≡◌, ◌+◌, ◌-◌, ◌^◌, ◌<◌, ◌||◌, false, nat_le, IfOk, length, replicate, slice_set};
ghost use Rattle.xs_base.specs.Ids.{port_width};
ghost use Rattle.xs_base.specs.Numbers.{PortNumber};
ghost use Rattle.xs_base.specs.declared.numbers.TheConstants.{PORTS};
ghost use Rattle.xs_model.specs.Masks.{in_mask};
ghost use Rattle.xs_model.specs.Outside.{LevelsFit};
ghost use Rattle.pin_wires.specs.Wires.{levels_over};
ghost use Rattle.node_seats.specs.Shown.{IsSteady, IsShown, ArePins, AreWired, joins_pin, shown_by, slot_or_never};

use bit_masks::with_bit;
use pin_scripts::Script;
use pin_wires::Levels;
use std::alloc::AllocError;
use sys_plan::{Plan, WirePlan};
use xs_model::PinView;

// The slot of a change that never comes: no slot has this number.
const NEVER: u32 = u32::MAX;

/// What the pins of the node with this number show from outside, and the slot from which on that may be something else. Who steps a
/// node keeps its pins, tells them what comes by wires, and hands what they show to its slot.
#[derive(Drop)]
pub struct Pins {
    pub script: Script,
    pub number: u8,
    /// Bit p is set exactly where a wire comes to the pin of port p, 0 to 28.
    pub wired: u32,
    /// What came last by wires.
    pub levels: Levels,
    pub view: PinView,
    // `NEVER` where no change comes any more.
    pub next: u32,
}

impl Pins {
    /// The pins of the node of a plan at a position, before slot 0, in which they are looked at for the first time; nothing came by a
    /// wire. The error is want of memory.
    pub fn of(plan: &Plan, n: u8) -> Result<Pins, AllocError>
        requires node { n < length plan.now.nodes }
        ensures pins { IfOk result (λ pins. ArePins plan.now n 0 pins) }
        ensures levels { IfOk result (λ pins. pins.levels ≡ replicate PORTS 0) }
        ensures due { IfOk result (λ pins. pins.next ≡ 0) }
    {
        Pins::before(plan, n, 0)
    }

    /// The same before any slot.
    pub fn before(plan: &Plan, n: u8, slot: u32) -> Result<Pins, AllocError>
        requires node { n < length plan.now.nodes }
        ensures pins { IfOk result (λ pins. ArePins plan.now n slot pins) }
        ensures levels { IfOk result (λ pins. pins.levels ≡ replicate PORTS 0) }
        ensures due { IfOk result (λ pins. pins.next ≡ slot) }
    {
        let script = plan.script().clone()?;
        let nodes = plan.nodes();
        let node = &nodes[n as usize];
        Ok(Pins::by_script(script, node.number, wired_at(plan, n), slot))
    }

    // The pins of the node with a number, before a slot.
    fn by_script(script: Script, number: u8, wired: u32, slot: u32) -> Pins
        ensures script { result.script ≡ script }
        ensures number { result.number ≡ number }
        ensures wired { result.wired ≡ wired }
        ensures levels { result.levels ≡ replicate PORTS 0 }
        ensures shown { IsShown slot result }
        ensures due { result.next ≡ slot }
    {
        Pins {
            script,
            number,
            wired,
            levels: Levels::new(),
            view: PinView { level: [0; 29] },
            next: slot,
        }
    }

    /// Notes the level that comes by a wire to the pin of a port, 0 to 28, in a slot that was not looked at yet: a value of the port's
    /// width. The next look then looks anew. It takes no memory.
    pub fn come(&mut self, port: u8, level: u32, slot: u32)
        requires port { port < PORTS }
        requires width { level < 2 ^ port_width port }
        requires steady { IsSteady slot self.old }
        ensures script { self.new.script ≡ self.old.script }
        ensures number { self.new.number ≡ self.old.number }
        ensures wired { self.new.wired ≡ self.old.wired }
        ensures levels { self.new.levels ≡ slice_set self.old.levels port level }
        ensures ports { length self.new.levels ≡ PORTS }
        ensures shown { IsShown slot self.new }
        ensures due { self.new.next ≡ slot }
    {
        self.levels.come(port, level);
        self.next = slot;
    }

    /// Looks at what the pins show in a slot, which may be any slot after the one at which it last looked. The answer tells whether it
    /// looked anew at the script and at what came by wires: where it did not, they show what they showed before.
    #[inline]
    pub fn look(&mut self, slot: u32) -> bool
        requires slot { slot < 2 ^ 32 - 1 }
        requires shown { IsSteady slot self.old }
        ensures script { self.new.script ≡ self.old.script }
        ensures number { self.new.number ≡ self.old.number }
        ensures wired { self.new.wired ≡ self.old.wired }
        ensures wires { self.new.levels ≡ self.old.levels }
        ensures view { self.new.view ≡ shown_by self.old slot }
        ensures levels { LevelsFit self.new.view.level }
        ensures shown { IsShown (slot + 1) self.new }
        ensures same { result ≡ false → (slot < self.old.next) × (self.new.view ≡ self.old.view) }
    {
        if !self.is_due(slot) {
            return false;
        }
        self.look_anew(slot);
        true
    }

    // Looks anew at the script and at what came by wires. Not inlined: a slot in which nothing changes then saves no registers for it.
    #[cold]
    #[inline(never)]
    fn look_anew(&mut self, slot: u32)
        requires slot { slot < 2 ^ 32 - 1 }
        ensures script { self.new.script ≡ self.old.script }
        ensures number { self.new.number ≡ self.old.number }
        ensures wired { self.new.wired ≡ self.old.wired }
        ensures wires { self.new.levels ≡ self.old.levels }
        ensures view { self.new.view ≡ shown_by self.old slot }
        ensures levels { LevelsFit self.new.view.level }
        ensures shown { IsShown (slot + 1) self.new }
    {
        self.script.view(self.number, slot, &mut self.view);
        put_over(self.wired, &self.levels, &mut self.view);
        self.next = slot_or_never(self.script.next_change(self.number, slot));
    }

    // Whether the next change comes in a slot, or came before it.
    fn is_due(&self, slot: u32) -> bool
        ensures { result ≡ nat_le self.now.next slot }
    {
        self.next <= slot
    }

    /// The slot up to which they show what they showed when it last looked, unless more comes by a wire.
    #[inline]
    pub fn next_change(&self) -> u32
        ensures { result ≡ self.now.next }
    {
        self.next
    }

    /// What they showed when it last looked.
    pub fn view(&self) -> &PinView
        ensures { result.now ≡ self.now.view }
    {
        &self.view
    }
}

// The slot of a change, `NEVER` where none comes.
fn slot_or_never(change: Option<u32>) -> u32
    ensures { result ≡ slot_or_never change }
{
    change.unwrap_or(NEVER)
}

// Puts what came by wires over what the script says.
fn put_over(wired: u32, levels: &Levels, view: &mut PinView)
    requires all { length view.old.level ≡ PORTS }
    ensures view { view.new ≡ record { level = levels_over wired levels.now view.old.level } }
    ensures levels { LevelsFit view.old.level → LevelsFit view.new.level }
{
    if wired != 0 {
        levels.over(wired, view);
    }
}

// The ports of the node of a plan, at a position, to whose pins wires come.
fn wired_at(plan: &Plan, n: u8) -> u32
    ensures { AreWired plan.now n result }
{
    let mut wired = 0;
    for wire in plan.wires() {
        wired = with_wire(wired, n, wire);
    }
    wired
}

// A mask of ports, with the one at which a wire ends, if it comes to the node at this position.
fn with_wire(wired: u32, n: u8, wire: &WirePlan) -> u32
    requires port { wire.now.b_port < PORTS }
    ensures { (port : PortNumber) → port < PORTS → in_mask result port ≡ (in_mask wired port || joins_pin n port wire.now) }
{
    if wire.b == n {
        with_bit(wired, wire.b_port, true)
    } else {
        wired
    }
}
