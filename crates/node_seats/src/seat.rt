//! `Seat`, one node of a system: its core and its events.
ghost use Rattle.std.specs.Prelude.{ℕ, ◌≡◌, ◌+◌, ◌-◌, ◌*◌, ◌^◌, ◌<◌, ◌≤◌, List, [], ◌++◌, length, slice_get, Some, false, IfOk, IfSome, OnOk, OnErr, All};
ghost use Rattle.xs_base.specs.Numbers.{Slot};
ghost use Rattle.xs_base.specs.Ids.{port_width};
ghost use Rattle.xs_base.specs.declared.numbers.TheConstants.{EVENT_ROOM, PORTS};
ghost use Rattle.xs_model.specs.declared.event.Event.{Event};
ghost use Rattle.xs_model.specs.declared.outside.PinView.{PinView};
ghost use Rattle.xs_model.specs.Record.{NodeRec, port_of};
ghost use Rattle.xs_model.specs.Events.{IsWithinCounts};
ghost use Rattle.xs_model.specs.Outside.{LevelsFit};
ghost use Rattle.sys_plan.specs.declared.NodePlan.{NodePlan};
ghost use Rattle.sys_plan.specs.Plan.{WaysLead, gaps_of};
ghost use Rattle.step_model.specs.Start.{node_of};
ghost use Rattle.trace_lines.specs.Kept.{Keeps, HasRoom};
ghost use Rattle.quiet_model.specs.Stirs.{some_eligible};
ghost use Rattle.quiet_laws.specs.Undisturbed.{ShowsAll};
ghost use Rattle.quiet_laws.specs.Quiet.{StirsFirst};
ghost use Rattle.core_step.specs.Core.{NothingArrives, StandsAt};
ghost use Rattle.core_step.specs.Quiet.{IsQuietTo};
ghost use Rattle.core_step.specs.PinLevels.{from_outside};
ghost use Rattle.core_step.specs.States.{node_rec, IsNodeState, IsStateBefore};
ghost use Rattle.node_seats.specs.Told.{IsToldOf};
ghost use Rattle.node_seats.specs.Seats.{IsSeat, HasEventRoom, SameSeat, StepsOn, SkipsOn, Plays};

use core_step::{Core, NodeState, Told};
use std::alloc::{AllocError, Global};
use sys_plan::{NodePlan, Plan};
use trace_lines::{Emissions, NodeEvents};
use xs_base::numbers::EVENT_ROOM;
use xs_model::{Arrivals, Event, PinView};

/// A node at work. Who steps it says what comes to it, and reads what its slot gave. `Plays` and `IsSeat` of
/// `Rattle.node_seats.specs.Seats` say what it stands for. See docs/MACHINE.md.
#[derive(Drop)]
pub struct Seat {
    pub core: Core,
    pub events: NodeEvents,
    /// What the node's last slot gave.
    pub given: Emissions,
}

impl Seat {
    /// The node of a plan at a position, as it starts. The error is want of memory.
    pub fn of(alloc: Global, plan: &Plan, n: u8) -> Result<Seat, AllocError>
        requires node { n < length plan.now.nodes }
        ensures plays { IfOk result (λ seat. (node : NodePlan) → slice_get plan.now.nodes n ≡ Some node → Plays plan.now 0 n node seat (node_of node (gaps_of plan.now n)) []) }
        ensures ready { IfOk result (λ seat. IsSeat 0 seat) }
    {
        let nodes = plan.nodes();
        seat_of(alloc, plan, n, &nodes[n as usize])
    }

    /// The node of a plan at a position that a snapshot says, without events. It stands before each slot that is after all slots in the
    /// state. The error is want of memory. See docs/SNAPSHOTS.md.
    pub fn of_state(
        alloc: Global,
        plan: &Plan,
        n: u8,
        state: &NodeState,
    ) -> Result<Seat, AllocError>
        requires node { n < length plan.now.nodes }
        requires facts { IsNodeState (gaps_of plan.now n) state.now }
        ensures plays { IfOk result (λ seat. (node : NodePlan) (slot : Slot) → slice_get plan.now.nodes n ≡ Some node → IsStateBefore slot state.now →
            Plays plan.now slot n node seat (node_rec state.now) []) }
        ensures ready { IfOk result (λ seat. (slot : Slot) → IsStateBefore slot state.now → IsSeat slot seat) }
    {
        let nodes = plan.nodes();
        seat_of_state(alloc, plan, n, &nodes[n as usize], state)
    }

    /// Makes room for the events of one slot. The error is want of memory, and changes nothing.
    pub fn reserve(&mut self) -> Result<(), AllocError>
        ensures same { SameSeat self.old self.new }
        ensures room { OnOk result (HasEventRoom self.new) }
        ensures err { OnErr result (self.new ≡ self.old) }
    {
        self.events.reserve(EVENT_ROOM)
    }

    /// One slot of the node, with what arrives by its link ends, whether anything does, what its pins show from outside, and whether
    /// that may be something else than in the slot before. Its events are kept, in room that was made for them.
    // Not inlined: the registers of a loop over nodes are then not shared with all that a slot may do.
    #[inline(never)]
    pub fn step(
        &mut self,
        slot: u32,
        arrives: bool,
        arrivals: &Arrivals,
        changed: bool,
        pins: &PinView,
    )
        requires slot { slot < 2 ^ 32 - 1 }
        requires seat { IsSeat slot self.old }
        requires room { HasEventRoom self.old }
        requires arrives { arrives ≡ false → NothingArrives arrivals.now }
        requires levels { LevelsFit pins.now.level }
        requires same { changed ≡ false → self.old.core.levels ≡ from_outside pins.now }
        ensures steps { StepsOn slot arrivals.now pins.now self.old self.new }
    {
        self.core
            .slot_where(arrives, changed, slot, arrivals, pins, &mut self.given);
        keep(&mut self.events, self.given.events());
    }

    /// The same as `step`, and which threads were able right before the issue, who issued, what it took, and whether it trapped. See docs/MACHINE.md.
    pub fn step_told(
        &mut self,
        slot: u32,
        arrives: bool,
        arrivals: &Arrivals,
        changed: bool,
        pins: &PinView,
    ) -> Told
        requires slot { slot < 2 ^ 32 - 1 }
        requires seat { IsSeat slot self.old }
        requires room { HasEventRoom self.old }
        requires arrives { arrives ≡ false → NothingArrives arrivals.now }
        requires levels { LevelsFit pins.now.level }
        requires same { changed ≡ false → self.old.core.levels ≡ from_outside pins.now }
        ensures steps { StepsOn slot arrivals.now pins.now self.old self.new }
        ensures told { IsToldOf slot arrivals.now pins.now self.old result }
    {
        let told = self
            .core
            .slot_told(arrives, changed, slot, arrivals, pins, &mut self.given);
        let given = self.given.events();
        keep(&mut self.events, given);
        told
    }

    /// Whether some thread of the node may issue in a slot, where nothing changes until then. See docs/QUIET_SLOTS.md.
    #[inline]
    pub fn may_issue(&mut self, slot: u32) -> bool
        ensures value { result ≡ some_eligible self.old.core.core slot }
        ensures unchanged { self.new ≡ self.old }
    {
        self.core.may_issue(slot)
    }

    /// Looks how long the node is quiet from a slot on, before which it stands, so that its slots are short there, and `rests_to` tells.
    /// See docs/QUIET_SLOTS.md.
    #[inline]
    pub fn find_rest(&mut self, from: u32)
        ensures unchanged { self.new ≡ self.old }
    {
        self.core.find_rest(from);
    }

    /// The slot up to which the node is known to be quiet from a slot on, where nothing arrives until then: that slot itself, where
    /// nothing is known. See docs/QUIET_SLOTS.md.
    #[inline]
    pub fn rests_to(&self, from: u32) -> u32
        ensures on { from ≤ result }
        ensures quiet { from < result → IsQuietTo self.now.core from result }
    {
        self.core.rests_to(from)
    }

    /// The first slot from `from` on and before `bound` in which the node stirs where nothing arrives until then, and `bound` where it
    /// does in none of them. `from` is the slot before which it stands. See docs/QUIET_SLOTS.md.
    pub fn quiet_to(&self, from: u32, bound: u32) -> u32
        ensures first { (rec : NodeRec) (pins : Slot → PinView) → StandsAt self.now.core rec from → ((slot : Slot) → ShowsAll (pins slot)) →
            StirsFirst self.now.core.fixed rec from pins bound result }
        ensures quiet { from < result → IsQuietTo self.now.core from result }
        ensures within { result ≤ bound }
    {
        self.core.quiet_to(from, bound)
    }

    /// What a port, 0 to 28, of the node drives, None exactly where it drives nothing: a value below 2^width of the port. It takes no
    /// memory. See docs/PORTS.md.
    #[inline]
    pub fn driven(&self, port: u8) -> Option<u32>
        requires port { port < PORTS }
        ensures value { result ≡ (port_of self.now.core.core port).driven }
        ensures stands { (rec : NodeRec) (slot : Slot) → StandsAt self.now.core rec slot → result ≡ (port_of rec.core port).driven }
        ensures fits { IfSome result (λ value. value < 2 ^ port_width port) }
    {
        self.core.driven(port)
    }

    /// Goes over the slots from `from` on and before `to` at once: nothing arrives in them, and none of them is one in which the node
    /// stirs, as `quiet_to` tells. `last` is what its pins show from outside in the last of them, slot `to - 1`. Nothing happens in
    /// them. It takes no memory.
    pub fn skip(&mut self, from: u32, to: u32, last: &PinView)
        requires some { from < to }
        requires quiet { IsQuietTo self.old.core from to }
        requires seat { IsSeat from self.old }
        ensures skips { SkipsOn from to last.now self.old self.new }
    {
        self.core.skip(from, to, last);
    }
}

// The node at a position as it starts.
fn seat_of(alloc: Global, plan: &Plan, n: u8, node: &NodePlan) -> Result<Seat, AllocError>
    requires node { WaysLead plan.now n node.now.ways }
    ensures plays { IfOk result (λ seat. Plays plan.now 0 n node.now seat (node_of node.now (gaps_of plan.now n)) []) }
    ensures ready { IfOk result (λ seat. IsSeat 0 seat) }
{
    let core = Core::boot(alloc, node, &plan.gaps(n))?;
    Ok(Seat {
        core,
        events: NodeEvents::new(alloc),
        given: Emissions::new(),
    })
}

// The node at a position that a snapshot says.
fn seat_of_state(
    alloc: Global,
    plan: &Plan,
    n: u8,
    node: &NodePlan,
    state: &NodeState,
) -> Result<Seat, AllocError>
    requires node { WaysLead plan.now n node.now.ways }
    requires facts { IsNodeState (gaps_of plan.now n) state.now }
    ensures plays { IfOk result (λ seat. (slot : Slot) → IsStateBefore slot state.now → Plays plan.now slot n node.now seat (node_rec state.now) []) }
    ensures ready { IfOk result (λ seat. (slot : Slot) → IsStateBefore slot state.now → IsSeat slot seat) }
{
    let core = Core::of_state(alloc, node, &plan.gaps(n), state)?;
    Ok(Seat {
        core,
        events: NodeEvents::new(alloc),
        given: Emissions::new(),
    })
}

// Adds the events of a slot to those that are kept.
fn keep(events: &mut NodeEvents, given: &[Event])
    requires room { HasRoom (length given.now) events.old }
    requires within { All IsWithinCounts given.now }
    requires count { events.old.more + length given.now < 2 ^ 64 }
    ensures keeps { (all : List Event) → Keeps events.old all → Keeps events.new (all ++ given.now) }
    ensures more { events.new.more ≤ events.old.more + length given.now }
{
    for e in given {
        events.add(*e);
    }
}
