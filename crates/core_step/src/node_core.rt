//! `Core`, one node's core.
ghost use Rattle.std.specs.Prelude.{◌≡◌, ◌<◌, ◌≤◌, ◌+◌, ◌-◌, ◌^◌, ◌↔◌, true, false, List, [], Option, length, map, IfOk, IfSome, IsErr};
ghost use Rattle.std.specs.Result.{result_ok};
ghost use Rattle.xs_base.specs.Numbers.{Slot, ThreadNumber};
ghost use Rattle.xs_base.specs.declared.numbers.TheConstants.{EVENT_ROOM, ISSUE_EVENTS, MEMORY_BYTES, PORTS, THREADS};
ghost use Rattle.xs_base.specs.Ids.{port_width};
ghost use Rattle.xs_model.specs.Record.{NodeRec, LinkRec, port_of, thread_of};
ghost use Rattle.xs_model.specs.Memory.{load_word, is_word_address};
ghost use Rattle.xs_model.specs.Outside.{LevelsFit, emitted_events};
ghost use Rattle.step_model.specs.Start.{fixed_of, node_of, WaysHaveGaps};
ghost use Rattle.xs_model.specs.Masks.{in_mask};
ghost use Rattle.xs_model.specs.Picks.{is_able};
ghost use Rattle.processor.specs.NextIssue.{next_issue};
ghost use Rattle.chan_ends.specs.States.{chan_state};
ghost use Rattle.switch_routes.specs.Rows.{AllCountsOf, SentBy};
ghost use Rattle.quiet_model.specs.Still.{network_is_still, ports_are_still, still};
ghost use Rattle.quiet_model.specs.Stirs.{some_eligible};
ghost use Rattle.quiet_laws.specs.Undisturbed.{undisturbed_until, no_arrivals, ShowsAll};
ghost use Rattle.quiet_laws.specs.Quiet.{StirsFirst};
ghost use Rattle.core_step.specs.PinLevels.{from_outside};
ghost use Rattle.core_step.specs.Core.{StandsFor, StandsAt, SlotsBefore, NothingArrives, Passes};
ghost use Rattle.core_step.specs.Quiet.{IsQuietTo};
ghost use Rattle.core_step.specs.ToIssue.{ReachesIssue, EndsSlot};
ghost use Rattle.core_step.specs.Told.{IsTold};
ghost use Rattle.core_step.specs.States.{link_state, node_state, node_rec, IsNodeState, IsStateBefore};

use crate::network::{Network, nothing_arrives};
use crate::node_state::NodeState;
use crate::pin_levels::{PinLevels, high_before};
use crate::rest::Rest;
use crate::told::{Told, has_trap};
use chan_ends::ChanState;
use link_ends::EndState;
use processor::{BadAddress, NextIssue, Processor, Program, Ram};
use quiet_laws::{first_stirring_slot, quiet_slots_only_count};
use quiet_model::first_slots;
use std::alloc::{AllocError, Global};
use std::marker::Model;
use sys_plan::NodePlan;
use trace_lines::Emissions;
use xs_model::{Arrivals, PinView, Run, Thread};

/// A node's core: its program, its units, and its network. Contracts see it as a `CoreValue` of
/// `Rattle.core_step.specs.Core`. See docs/MACHINE.md.
#[derive(Drop)]
pub struct Core {
    program: Program,
    units: Processor,
    network: Network,
    // What is kept of the pins' levels at the end of the slot before.
    levels: PinLevels,
    // The slots in which it is known to be quiet, where nothing arrives.
    rest: Rest,
}

impl Model for Core {
    ghost use Rattle.core_step.specs.Core.{CoreValue};

    ghost Value = { CoreValue };

    ghost use Rattle.core_step.specs.Inside.{value_of, IsCore};

    ghost view = { value_of };

    ghost invariant = { IsCore };
}

impl Core {
    /// The core of a node as it starts. `gaps` has the gap of each link end in slots, 0 where there is none; each
    /// link end in the plan's `ways` has one. The error is want of memory.
    pub fn boot(alloc: Global, plan: &NodePlan, gaps: &[u32; 8]) -> Result<Core, AllocError>
        requires gaps { WaysHaveGaps plan.now.ways gaps.now }
        ensures fixed { IfOk result (λ core. core.fixed ≡ fixed_of plan.now gaps.now) }
        ensures start { IfOk result (λ core. StandsAt core (node_of plan.now gaps.now) 0) }
        ensures before { IfOk result (λ core. SlotsBefore core 0) }
    {
        let code = Vec::from_slice(alloc, plan.image.code())?;
        let ram = Ram::new(alloc, plan.image.bytes())?;
        Ok(Core {
            program: Program::new(plan.id, plan.edition, code),
            units: Processor::first(plan.id, plan.image.entry(), plan.image.cp_at(), ram),
            network: Network::new(plan.id, plan.ways, plan.nets, gaps),
            levels: PinLevels {
                pins: PinView { level: [0; 29] },
                is_outside: false,
            },
            rest: Rest::none(),
        })
    }

    /// Puts what a snapshot keeps of the core into `out`, in place of what was there. It takes no memory. See docs/SNAPSHOTS.md.
    pub fn state(&self, out: &mut NodeState)
        ensures state { (rec : NodeRec) → StandsFor self.now rec → out.new ≡ node_state rec }
    {
        out.keep(self.units.units());
        out.inputs = self.network.inputs();
        out.ends = self.network.ends();
        out.levels = self.levels.shown(&out.ports);
    }

    /// The core of a node that a snapshot says, with the gaps of its link ends as `boot` has them. Link ends are there where they
    /// have a gap. It stands before each slot that is after all slots in the state. The error is want of memory. See
    /// docs/SNAPSHOTS.md.
    pub fn of_state(
        alloc: Global,
        plan: &NodePlan,
        gaps: &[u32; 8],
        state: &NodeState,
    ) -> Result<Core, AllocError>
        requires gaps { WaysHaveGaps plan.now.ways gaps.now }
        requires facts { IsNodeState gaps.now state.now }
        ensures fixed { IfOk result (λ core. core.fixed ≡ fixed_of plan.now gaps.now) }
        ensures stands { IfOk result (λ core. (slot : Slot) → IsStateBefore slot state.now → StandsAt core (node_rec state.now) slot) }
        ensures before { IfOk result (λ core. (slot : Slot) → IsStateBefore slot state.now → SlotsBefore core slot) }
    {
        let code = Vec::from_slice(alloc, plan.image.code())?;
        let ram = state.memory.copy(alloc)?;
        Ok(Core {
            program: Program::new(plan.id, plan.edition, code),
            units: Processor::of_units(state.units(plan.id, ram)),
            network: Network::of_state(
                plan.id,
                plan.ways,
                plan.nets,
                gaps,
                &state.inputs,
                &state.ends,
            ),
            levels: PinLevels::of_state(state.levels),
            rest: Rest::none(),
        })
    }

    /// What a thread, 0 to 7, does.
    pub fn run_of(&self, th: u8) -> Run
        requires { th < THREADS }
        ensures value { result ≡ (thread_of self.now.core th).run }
        ensures threads { length self.now.core.threads ≡ THREADS }
    {
        self.units.run_of(th)
    }

    /// The threads, by number. It takes no memory. See docs/MACHINE.md.
    pub fn threads(&self) -> &[Thread; 8]
        ensures { result.now ≡ self.now.core.threads }
    {
        self.units.threads()
    }

    /// The slot in which each thread, by number, issued last: None exactly where it never did. It takes no memory. See docs/MACHINE.md.
    pub fn last_issues(&self) -> [Option<u32>; 8]
        ensures { result ≡ self.now.core.slots.last }
    {
        self.units.last_issues()
    }

    /// What there is of the channel ends, by number, as a snapshot keeps them. It takes no memory. See docs/SNAPSHOTS.md.
    pub fn chan_ends(&self) -> [ChanState; 32]
        ensures { result ≡ map chan_state self.now.core.chans }
    {
        self.units.chans().state()
    }

    /// What there is of the link ends, by number, as a snapshot keeps them: all 0 where there is none. It takes no memory. See
    /// docs/SNAPSHOTS.md.
    pub fn link_ends(&self) -> [EndState; 8]
        ensures { (rec : NodeRec) → StandsFor self.now rec → result ≡ map link_state rec.links }
    {
        self.network.ends()
    }

    /// The word of the memory at an address. `BadAddress` comes exactly where the address is outside the memory,
    /// 0x0001_0000 to 0x0001_ffff, or no multiple of 4.
    pub fn word(&self, at: u32) -> Result<u32, BadAddress>
        ensures value { result_ok result ≡ load_word self.now.core.memory at }
        ensures size { length self.now.core.memory ≡ MEMORY_BYTES }
        ensures err { IsErr result ↔ is_word_address at ≡ false }
    {
        self.units.word(at)
    }

    /// What port `port`, 0 to 28, drives, None exactly where it drives nothing: a value below 2^width of the port. It takes no memory. See
    /// docs/PORTS.md.
    #[inline]
    pub fn driven(&self, port: u8) -> Option<u32>
        requires port { port < PORTS }
        ensures value { result ≡ (port_of self.now.core port).driven }
        ensures fits { IfSome result (λ value. value < 2 ^ port_width port) }
    {
        self.units.driven(port)
    }

    /// What all pins showed at the end of the slot before, by port number: what their ports drive, and else what they showed from outside,
    /// and all 0 before the first slot. It takes no memory. See docs/PORTS.md.
    pub fn levels(&self) -> [u32; 29]
        ensures value { (rec : NodeRec) → StandsFor self.now rec → result ≡ rec.levels }
    {
        self.levels.of(&self.units)
    }

    /// One slot of the node: what arrives by the link ends, the edges of the ports' clocks, the switch, and at most
    /// one issue. The pins show `pins` where no port drives them, each level below 2^width of its port. `out` is emptied
    /// first, and then holds what the slot gives. See docs/MACHINE.md.
    pub fn slot(&mut self, slot: u32, arrivals: &Arrivals, pins: &PinView, out: &mut Emissions)
        requires before { SlotsBefore self.old slot }
        requires levels { LevelsFit pins.now.level }

        ensures passes { Passes slot arrivals.now pins.now self.old self.new out.new }
    {
        let arrives = !nothing_arrives(arrivals);
        self.slot_where(arrives, true, slot, arrivals, pins, out);
    }

    /// The same, where it is known whether anything arrives, and whether the pins changed: nothing arrives by any link end if `arrives`
    /// is false, and they show from outside what they showed in the slot before if `changed` is. It takes less than to look.
    #[inline]
    pub fn slot_where(
        &mut self,
        arrives: bool,
        changed: bool,
        slot: u32,
        arrivals: &Arrivals,
        pins: &PinView,
        out: &mut Emissions,
    )
        requires before { SlotsBefore self.old slot }
        requires levels { LevelsFit pins.now.level }
        requires arrives { arrives ≡ false → NothingArrives arrivals.now }
        requires same { changed ≡ false → self.old.levels ≡ from_outside pins.now }

        ensures passes { Passes slot arrivals.now pins.now self.old self.new out.new }
    {
        if !arrives && self.rests(changed, slot, pins) {
            Emissions::clear(out);
            return;
        }
        self.acts(arrives, changed, slot, arrivals, pins, out);
    }

    // Goes over a slot in which nothing arrives, where it is known to be quiet in it: the answer tells whether it was.
    #[inline]
    fn rests(&mut self, changed: bool, slot: u32, pins: &PinView) -> bool
        requires before { SlotsBefore self.old slot }
        requires same { changed ≡ false → self.old.levels ≡ from_outside pins.now }
        ensures passes { result ≡ true → Passes slot no_arrivals pins.now self.old self.new (emitted_events []) }
        ensures same { result ≡ false → self.new ≡ self.old }
    {
        quiet_slots_only_count();
        first_stirring_slot();
        if !self.rest.begins(slot) {
            return false;
        }
        self.units.keeps();
        self.units.pass(slot, slot + 1);
        self.levels.note(changed, pins);
        self.rest.from = slot + 1;
        true
    }

    // A slot, phase by phase.
    fn acts(
        &mut self,
        arrives: bool,
        changed: bool,
        slot: u32,
        arrivals: &Arrivals,
        pins: &PinView,
        out: &mut Emissions,
    )
        requires before { SlotsBefore self.old slot }
        requires levels { LevelsFit pins.now.level }
        requires arrives { arrives ≡ false → NothingArrives arrivals.now }
        requires same { changed ≡ false → self.old.levels ≡ from_outside pins.now }

        ensures passes { Passes slot arrivals.now pins.now self.old self.new out.new }
    {
        self.to_issue(arrives, slot, arrivals, pins, out);
        self.finish(changed, slot, pins, out);
    }

    /// The same as `slot_where`, and which threads were able right before the issue, who issued, what it took, and whether it trapped. It
    /// goes through all phases, also where the core is known to be quiet. See docs/MACHINE.md.
    pub fn slot_told(
        &mut self,
        arrives: bool,
        changed: bool,
        slot: u32,
        arrivals: &Arrivals,
        pins: &PinView,
        out: &mut Emissions,
    ) -> Told
        requires before { SlotsBefore self.old slot }
        requires levels { LevelsFit pins.now.level }
        requires arrives { arrives ≡ false → NothingArrives arrivals.now }
        requires same { changed ≡ false → self.old.levels ≡ from_outside pins.now }

        ensures passes { Passes slot arrivals.now pins.now self.old self.new out.new }
        ensures told { (rec : NodeRec) → StandsAt self.old rec slot → IsTold self.old.fixed rec slot arrivals.now pins.now result }
    {
        self.to_issue(arrives, slot, arrivals, pins, out);
        let able = self.able_threads(slot);
        let issue = self.next_issue(slot);
        self.finish(changed, slot, pins, out);
        Told {
            able,
            issue,
            traps: has_trap(out.events()),
        }
    }

    // The phases of a slot before its issue.
    #[inline]
    fn to_issue(
        &mut self,
        arrives: bool,
        slot: u32,
        arrivals: &Arrivals,
        pins: &PinView,
        out: &mut Emissions,
    )
        requires before { SlotsBefore self.old slot }
        requires levels { LevelsFit pins.now.level }
        requires arrives { arrives ≡ false → NothingArrives arrivals.now }
        ensures reaches { ReachesIssue slot arrivals.now pins.now self.old self.new out.new }
        ensures room { length out.new.events + ISSUE_EVENTS ≤ EVENT_ROOM }
    {
        out.clear();
        self.rest = Rest::none();
        let high = high_before(&self.units, &self.levels);
        // What arrives changes no port, so it may come after the edges.
        self.units.edges(slot, pins, high, out);
        self.network
            .bring(&mut self.units, arrives, slot, arrivals, out);
    }

    // The issue of a slot, and what is noted at its end.
    #[inline]
    fn finish(&mut self, changed: bool, slot: u32, pins: &PinView, out: &mut Emissions)
        requires sent { SentBy slot self.old.links }
        requires levels { LevelsFit pins.now.level }
        requires same { changed ≡ false → self.old.levels ≡ from_outside pins.now }
        requires room { length out.old.events + ISSUE_EVENTS ≤ EVENT_ROOM }
        ensures ends { EndsSlot slot pins.now self.old out.old self.new out.new }
    {
        self.rest = Rest::none();
        self.units
            .issue(&self.program, slot, pins, &self.network, out);
        self.levels.note(changed, pins);
    }

    // The threads that may issue in a slot but for the four slots of rest: bit k for thread k.
    fn able_threads(&mut self, slot: u32) -> u8
        ensures value { (k : ThreadNumber) → k < THREADS → in_mask result k ≡ is_able self.old.core k slot }
        ensures unchanged { self.new ≡ self.old }
    {
        self.units.able_threads(slot)
    }

    // Who issues in a slot, if the issue comes next, and what it takes.
    fn next_issue(&mut self, slot: u32) -> Option<NextIssue>
        ensures value { result ≡ next_issue self.old.core slot }
        ensures within { IfSome result (λ next. next.thread < THREADS) }
        ensures unchanged { self.new ≡ self.old }
    {
        self.units.next_issue(slot)
    }

    /// Looks how long the core is quiet from a slot on, before which it stands: `slot_where` is short in these slots then, and `rests_to`
    /// tells the last. That costs little where it is known, and where some thread may issue in that slot. It takes no memory. See
    /// docs/QUIET_SLOTS.md.
    #[inline]
    pub fn find_rest(&mut self, from: u32)
        ensures unchanged { self.new ≡ self.old }
    {
        if !self.rest.begins(from) && !self.may_issue(from) {
            let until = self.quiet_to(from, u32::MAX);
            self.rest = Rest { from, until };
        }
    }

    /// The slot up to which the core is known to be quiet from a slot on, where nothing arrives until then: that slot itself, where
    /// `find_rest` found nothing, or the core does not stand before it. It takes no memory. See docs/QUIET_SLOTS.md.
    #[inline]
    pub fn rests_to(&self, from: u32) -> u32
        ensures on { from ≤ result }
        ensures quiet { from < result → IsQuietTo self.now from result }
    {
        if self.rest.begins(from) {
            self.rest.until
        } else {
            from
        }
    }

    /// Whether some thread may issue in a slot, where nothing changes until then. It takes no memory. See docs/QUIET_SLOTS.md.
    #[inline]
    pub fn may_issue(&mut self, slot: u32) -> bool
        ensures value { result ≡ some_eligible self.old.core slot }
        ensures unchanged { self.new ≡ self.old }
    {
        self.units.may_issue(slot)
    }

    /// The first slot from `from` on and before `bound` in which the node stirs where nothing arrives until then: something is on
    /// its way in it, a thread may issue, or a port's next transfer begins. It is `bound` where it stirs in none of them, or there is
    /// none. `from` is the slot before which the core stands. See docs/QUIET_SLOTS.md.
    pub fn quiet_to(&self, from: u32, bound: u32) -> u32
        ensures first { (rec : NodeRec) (pins : Slot → PinView) → StandsAt self.now rec from → ((slot : Slot) → ShowsAll (pins slot)) →
            StirsFirst self.now.fixed rec from pins bound result }
        ensures quiet { from < result → IsQuietTo self.now from result }
        ensures within { result ≤ bound }
    {
        first_stirring_slot();
        first_slots();
        self.units.keeps();
        if !self.is_still() {
            return from.min(bound);
        }
        let fall = self.units.next_fall(from, bound);
        self.units.eligible_from(from, fall)
    }

    // Whether nothing is on its way in it, and no port that is on samples or shifts.
    fn is_still(&self) -> bool
        ensures value { (rec : NodeRec) → StandsFor self.now rec → result ≡ still rec }
        ensures network { result ≡ true → (links : List (Option LinkRec)) → AllCountsOf self.now.links links →
            network_is_still self.now.core.chans links self.now.inputs ≡ true }
        ensures ports { result ≡ true → ports_are_still self.now.core.ports ≡ true }
    {
        self.network.still(&self.units) && self.units.ports_are_still()
    }

    /// Goes over the slots from `from` on and before `to` at once: nothing arrives in them, and none of them is one in which the node
    /// stirs, as `quiet_to` tells. `last` is what the pins show from outside in the last of them, slot `to - 1`. The core then stands
    /// for what stepping each of these slots gives; what was known of later quiet slots is known still. See docs/QUIET_SLOTS.md.
    pub fn skip(&mut self, from: u32, to: u32, last: &PinView)
        requires some { from < to }
        requires quiet { IsQuietTo self.old from to }
        requires before { SlotsBefore self.old from }

        ensures fixed { self.new.fixed ≡ self.old.fixed }
        ensures step { (rec : NodeRec) (pins : Slot → PinView) → StandsAt self.old rec from → ((slot : Slot) → ShowsAll (pins slot)) → pins (to - 1) ≡ last.now →
            StandsAt self.new (undisturbed_until self.old.fixed rec from pins to) to }
        ensures after { SlotsBefore self.new to }
        ensures levels { self.new.levels ≡ from_outside last.now }
    {
        first_stirring_slot();
        quiet_slots_only_count();
        self.units.keeps();
        self.units.pass(from, to);
        self.levels.note(true, last);
        self.rest = self.rest.after(from, to);
    }
}
