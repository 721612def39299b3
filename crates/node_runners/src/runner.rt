//! `NodeRunner`, one node that runs ahead of the others.
ghost use Rattle.std.specs.Prelude.{ℕ, ◌≡◌, ◌+◌, ◌<◌, ◌≤◌, Some, None, IsSome, true, false, [], length, slice_index, slice_index_or, slice_set, IfOk, IfErr, OnOk, OnErr};
ghost use Rattle.xs_base.specs.Numbers.{LinkNumber};
ghost use Rattle.sys_plan.specs.Plan.{IsPlan, outgoing, incoming};
ghost use Rattle.sys_plan.specs.declared.system_plan.TheConstants.{ENDS};
ghost use Rattle.serial_model.specs.Serial.{serial, history};
ghost use Rattle.locality_laws.specs.Locality.{node_in, events_in};
ghost use Rattle.quiet_model.specs.Slots.{NoneBefore};
ghost use Rattle.busy_slots.specs.Busy.{is_busy};
ghost use Rattle.trace_lines.specs.Kept.{Keeps};
ghost use Rattle.core_step.specs.Core.{StandsAt};
ghost use Rattle.ahead_limits.specs.declared.horizon.Seen.{Seen};
ghost use Rattle.ahead_limits.specs.Horizon.{seen_at, seen_to, Sees, horizon_at, may_run};
ghost use Rattle.node_runners.specs.Runner.{new_runner, Runs, Stops};

use crate::inlets::Inlets;
use crate::link_inlets::LinkInlets;
use crate::outlets::Outlets;
use crate::starts::{batches_of, inlets_of, wires_in_of, wires_out_of};
use crate::wire_inlets::WireInlets;
use ahead_limits::Horizon;
use busy_slots::{arrivals_by_link_ends, first_busy_by_both, idle_where_not_busy};
use core_step::Core;
use known_value::Known;
use node_seats::{Pins, Seat};
use std::alloc::{AllocError, Global};
use std::marker::Model;
use sys_plan::{ENDS, Plan};
use trace_lines::NodeEvents;
use xs_base::Batch;
use xs_base::numbers::LINK_ENDS;

/// What came of a call to run a slot.
#[derive(Clone, Copy, PartialEq, Eq, Debug)]
pub enum Ran {
    /// The node has run the slot of its clock.
    Slot,
    /// The arc that comes to an end, 0 to 39, stops it: this much of it was seen, in slots. The node is as it was.
    Blocked { end: u8, seen: u32 },
    /// It has run all slots of the run.
    AtLimit,
}

/// One node of a plan that is stepped alone, as far ahead of the others as what it has seen of its links and wires lets it: it is then what
/// it is in the serial machine. Its ends are counted from 0, below `ENDS`: 0 to 7 are of links, and from 8 on of wires. Its clock is the number
/// of slots that it has run, of which it went over quiet ones at once and has stepped the others. Contracts see it as a `RunnerRec` of
/// `Rattle.node_runners.specs.Runner`. See docs/LOOKAHEAD.md.
#[derive(Drop)]
pub struct NodeRunner {
    plan: Known<Plan>,
    node: u8,
    clock: u32,
    // At most the clock.
    stepped: u32,
    alloc: Global,
    horizon: Horizon,
    seat: Seat,
    pins: Pins,
    inlets: Inlets,
    outlets: Outlets,
    published: [u32; ENDS],
}

impl Model for NodeRunner {
    ghost use Rattle.node_runners.specs.Runner.{RunnerRec};

    ghost Value = { RunnerRec };

    ghost use Rattle.std.specs.Prelude.{◌≤◌};
    ghost use Rattle.node_runners.specs.Inside.{IsRunner};

    ghost view = { λ r. record { plan = r.plan.value; node = r.node; clock = r.clock; stepped = r.stepped; horizon = r.horizon; published = r.published } };

    ghost invariant = { λ r. (r.stepped ≤ r.clock) × IsRunner r.plan.value r.node r.clock r.horizon r.seat r.pins r.inlets r.outlets r.published };
}

impl NodeRunner {
    /// The node of a plan at a position before its first slot, in a run of so many slots. Nothing of its links and wires was seen. The error
    /// is want of memory.
    pub fn new(alloc: Global, plan: &Plan, node: u8, limit: u32) -> Result<NodeRunner, AllocError>
        requires node { node < length plan.now.nodes }
        ensures new { IfOk result (λ r. r ≡ new_runner plan.now limit node) }
    {
        let horizon = Horizon::of(plan, node, limit);
        let seat = Seat::of(alloc, plan, node)?;
        let pins = Pins::of(plan, node)?;
        let ends = inlets_of(alloc, plan, node)?;
        let wires = wires_in_of(alloc, plan, node)?;
        let batches = batches_of(alloc, plan, node)?;
        let wires_out = wires_out_of(alloc, plan, node)?;
        Ok(NodeRunner {
            plan: Known::of(plan),
            node,
            clock: 0,
            stepped: 0,
            alloc,
            horizon,
            seat,
            pins,
            inlets: Inlets {
                links: LinkInlets::of(ends),
                wires: WireInlets::of(wires),
            },
            outlets: Outlets::of(batches, wires_out),
            published: [0; ENDS],
        })
    }

    /// The arc that comes to an end was seen up to a slot, `to`, which is not before the one up to which it was seen: `batch` has
    /// its entries from there on. Its buffer is kept, for `spare` to give away. The error is want of memory: it changes nothing, and has
    /// the batch.
    pub fn take(&mut self, end: u8, batch: Batch, to: u32) -> Result<(), Batch>
        requires there { IsSome (incoming self.old.plan self.old.node end) }
        requires on { seen_at self.old.horizon end ≤ to }
        requires own { (link : LinkNumber) → incoming self.old.plan self.old.node end ≡ Some link → batch.entries ≡ history self.old.plan link (seen_at self.old.horizon end) to }
        ensures taken { OnOk result (self.new ≡
            record self.old { horizon = record self.old.horizon { ends = slice_set self.old.horizon.ends end (seen_to to (slice_index_or self.old.horizon.ends end None)) } }) }
        ensures err { OnErr result (self.new ≡ self.old) }
        ensures batch { IfErr result (λ b. b.entries ≡ batch.entries) }
    {
        self.inlets.append(end, batch)?;
        self.horizon.see(end, to);
        Ok(())
    }

    /// A batch with no entries, and the buffer of the one that was taken last at an end, unless that was given away. It takes no memory.
    pub fn spare(&mut self, end: u8) -> Batch
        ensures empty { result.entries ≡ [] }
        ensures same { self.new ≡ self.old }
    {
        self.inlets.taken(self.alloc, end)
    }

    /// Runs the slot of its clock, where its horizon lets it: exactly then the answer is `Slot`. It is `AtLimit` exactly at the limit, and else
    /// `Blocked`, with the least end that stops the node. The error is want of memory, and leaves the node before the slot.
    pub fn run_slot(&mut self) -> Result<Ran, AllocError>
        ensures ran { IfOk result (λ ran. Runs self.old ran self.new) }
        ensures err { OnErr result (self.new ≡ self.old) }
    {
        if !self.horizon.may_run(self.clock) {
            return Ok(stopped(&self.horizon, self.clock));
        }
        self.seat.reserve()?;
        self.outlets.make_room()?;
        let arrives = self.inlets.links.arrive(self.clock);
        self.inlets.wires.come(self.clock, &mut self.pins);
        let changed = self.pins.look(self.clock);
        self.seat.step(
            self.clock,
            arrives,
            self.inlets.links.arrived(),
            changed,
            self.pins.view(),
        );
        self.outlets.put_all(self.clock, &self.seat);
        self.clock += 1;
        self.stepped += 1;
        Ok(Ran::Slot)
    }

    /// Goes over the quiet slots from its clock on at once: up to the first busy slot, and no further than its horizon lets it. The answer is
    /// how many they are, which may be none; the clock rises by it. It takes no memory. See docs/QUIET_SLOTS.md.
    pub fn skip(&mut self) -> u32
        ensures rest { self.new ≡ record self.old { clock = self.old.clock + result } }
        ensures quiet { NoneBefore (is_busy self.old.plan self.old.node) self.old.clock (self.old.clock + result) }
        ensures greatest { may_run self.new.horizon self.new.clock ≡ true → is_busy self.new.plan self.new.node self.new.clock ≡ true }
    {
        arrivals_by_link_ends();
        first_busy_by_both();
        idle_where_not_busy();
        let from = self.clock;
        // In most busy slots a thread may issue, which takes less to see than what arrives and what else goes on.
        if self.seat.may_issue(from) {
            return 0;
        }
        let stop = self.horizon.clock_after(from, u32::MAX);
        let arrival = self.inlets.links.first_arrival(stop);
        let to = self.seat.quiet_to(from, arrival);
        if to <= from {
            return 0;
        }
        // A level that comes makes no slot busy: those of these slots show in the last one.
        self.inlets.wires.come(to - 1, &mut self.pins);
        self.pins.look(to - 1);
        self.seat.skip(from, to, self.pins.view());
        self.clock = to;
        to - from
    }

    /// Publishes the arc that leaves by an end up to the clock: what it has carried from the published slot on and before the
    /// clock, which may be nothing. It takes no memory.
    pub fn send(&mut self, end: u8) -> Batch
        requires there { IsSome (outgoing self.old.plan self.old.node end) }
        ensures own { (link : LinkNumber) → outgoing self.old.plan self.old.node end ≡ Some link → result.entries ≡ history self.old.plan link (slice_index self.old.published end) self.old.clock }
        ensures rest { self.new ≡ record self.old { published = slice_set self.old.published end self.old.clock } }
    {
        let clock = self.clock;
        if self.outlets.sent(end).is_empty() {
            // A buffer goes only with entries.
            self.published[end as usize] = clock;
            return Batch::new(self.alloc);
        }
        let none = self.buffer(end);
        self.exchange(end, none, clock)
    }

    /// Takes back what `send` gave last for an end, and that nobody else has: it is published up to the slot `from` again. It takes no
    /// memory.
    pub fn unsend(&mut self, end: u8, batch: Batch, from: u32)
        requires there { IsSome (outgoing self.old.plan self.old.node end) }
        requires before { from ≤ self.old.clock }
        requires last { slice_index self.old.published end ≡ self.old.clock }
        requires own { (link : LinkNumber) → outgoing self.old.plan self.old.node end ≡ Some link → batch.entries ≡ history self.old.plan link from self.old.clock }
        ensures rest { self.new ≡ record self.old { published = slice_set self.old.published end from } }
    {
        if batch.entries().is_empty() {
            // What `send` gave had no buffer, and what is kept here stays.
            self.published[end as usize] = from;
        } else {
            let spare = self.exchange(end, batch, from);
            self.keep(end, spare);
        }
    }

    /// Keeps the buffer of a batch that `send` gave for an end and that has no entries any more, for what is sent by it later. It takes no
    /// memory.
    pub fn keep(&mut self, end: u8, batch: Batch)
        requires empty { batch.entries ≡ [] }
        ensures same { self.new ≡ self.old }
    {
        if end < LINK_ENDS {
            self.inlets.links.keep(end, batch);
        } else {
            self.outlets.keep(end - LINK_ENDS, batch);
        }
    }

    // A batch with no entries, and the buffer that was kept for an end, if one was. It takes no memory.
    fn buffer(&mut self, end: u8) -> Batch
        ensures empty { result.entries ≡ [] }
        ensures same { self.new ≡ self.old }
    {
        if end < LINK_ENDS {
            self.inlets.links.spare(self.alloc, end)
        } else {
            self.outlets.spare(self.alloc, end - LINK_ENDS)
        }
    }

    // What is sent by an end and not published is this batch, and begins at this slot. The answer is what it was.
    fn exchange(&mut self, end: u8, batch: Batch, from: u32) -> Batch
        requires there { IsSome (outgoing self.old.plan self.old.node end) }
        requires before { from ≤ self.old.clock }
        requires own { (link : LinkNumber) → outgoing self.old.plan self.old.node end ≡ Some link → batch.entries ≡ history self.old.plan link from self.old.clock }
        ensures own { (link : LinkNumber) → outgoing self.old.plan self.old.node end ≡ Some link → result.entries ≡ history self.old.plan link (slice_index self.old.published end) self.old.clock }
        ensures rest { self.new ≡ record self.old { published = slice_set self.old.published end from } }
    {
        let before = self.outlets.exchange(end, batch);
        self.published[end as usize] = from;
        before
    }

    /// The position of the node.
    pub fn node(&self) -> u8
        ensures value { result ≡ self.now.node }
        ensures plan { IsPlan self.now.plan }
    {
        self.node
    }

    /// The number of slots that it has run.
    pub fn clock(&self) -> u32
        ensures value { result ≡ self.now.clock }
        ensures within { result ≤ self.now.horizon.limit }
        ensures ahead { (end : ℕ) (s : Seen) → Sees self.now.horizon end s → result ≤ horizon_at s }
        ensures behind { (end : ℕ) → slice_index self.now.published end ≤ result }
    {
        self.clock
    }

    /// How many slots it has stepped, which is to run them one by one.
    pub fn stepped(&self) -> u32
        ensures value { result ≡ self.now.stepped }
        ensures most { result ≤ self.now.clock }
    {
        self.stepped
    }

    /// The core, which stands for the node's record of the serial machine.
    pub fn core(&self) -> &Core
        ensures stands { StandsAt result.now (node_in (serial self.now.plan self.now.clock) self.now.node) self.now.clock }
    {
        &self.seat.core
    }

    /// What is kept of its events, which are those of the serial machine.
    pub fn events(&self) -> &NodeEvents
        ensures keeps { Keeps result.now (events_in (serial self.now.plan self.now.clock) self.now.node) }
    {
        &self.seat.events
    }

    /// What is kept of its events, which are those of the serial machine. Nothing else is left of the node. It takes no memory.
    pub fn into_events(self) -> NodeEvents
        ensures keeps { Keeps result (events_in (serial self.plan self.clock) self.node) }
    {
        let seat = self.seat;
        seat.events
    }
}

// Why a node does not run the slot of its clock.
fn stopped(horizon: &Horizon, clock: u32) -> Ran
    requires stopped { may_run horizon.now clock ≡ false }
    requires within { clock ≤ horizon.now.limit }
    requires ends { length horizon.now.ends ≡ ENDS }
    requires ahead { (end : ℕ) (s : Seen) → Sees horizon.now end s → clock ≤ horizon_at s }
    ensures stops { Stops horizon.now clock result }
{
    if clock == horizon.limit() {
        return Ran::AtLimit;
    }
    match horizon.first_block(clock) {
        Some((end, seen)) => Ran::Blocked { end, seen },
        None => Ran::AtLimit,
    }
}
