//! `SerialMachine`, all nodes of a system stepped together.
ghost use Rattle.std.specs.Prelude.{◌≡◌, ◌+◌, ◌-◌, ◌*◌, ◌^◌, ◌<◌, ◌≤◌, max, [], length, slice_index_or, IfOk, OnOk, OnErr};
ghost use Rattle.std.specs.List.{AllZip};
ghost use Rattle.xs_base.specs.declared.numbers.TheConstants.{EVENT_ROOM};
ghost use Rattle.sys_plan.specs.Plan.{arc_count};
ghost use Rattle.serial_model.specs.Serial.{begun_at_start};
ghost use Rattle.snap_parts.specs.Parts.{body_of};
ghost use Rattle.snap_parts.specs.Snaps.{IsSnapSystem, begun_of};
ghost use Rattle.run_plan.specs.Machine.{system_of, LevelsStay};
ghost use Rattle.run_plan.specs.Told.{AreToldNext, EachIsToldNext};
ghost use Rattle.trace_lines.specs.Kept.{Keeps};
ghost use Rattle.core_step.specs.Core.{StandsAt};
ghost use Rattle.xs_model.specs.Record.{first_node};

use crate::begun::{show_all, stations_by, tracks_by, wires_by};
use crate::passes::pass_slot;
use crate::quiet::{first_rests, pass_quiet, steady_to};
use crate::slot_told::pass_slot_told;
use crate::station::Station;
use crate::track::Track;
use crate::wire::Wire;
use crate::wiring::{stations_of, tracks_of, wires_of};
use core_step::{Core, Told};
use known_value::Known;
use snap_parts::SnapSystem;
use std::alloc::{AllocError, Global};
use std::marker::Model;
use step_laws::slot_has_few_events;
use sys_plan::Plan;
use trace_lines::NodeEvents;
use xs_base::Entry;

/// All nodes of a system, stepped together from a slot on. Contracts see the plan, what the machine began with, and how many slots have
/// passed; what it has become is `system_of` of `Rattle.run_plan.specs.Machine`. See docs/MACHINE.md.
#[derive(Drop)]
pub struct SerialMachine {
    plan: Known<Plan>,
    // The snapshot that it began with, where it is not the plan's start. Proofs alone read it.
    from: Option<Known<SnapSystem>>,
    clock: u32,
    stations: Vec<Station>,
    tracks: Vec<Track>,
    wires: Vec<Wire>,
}

impl Model for SerialMachine {
    ghost use Rattle.run_plan.specs.Machine.{MachineRec};

    ghost Value = { MachineRec };

    ghost use Rattle.run_plan.specs.Inside.{seen_of, IsMachine};

    ghost view = { seen_of };

    ghost invariant = { IsMachine };
}

impl SerialMachine {
    /// The nodes of a plan as they start. The error is want of memory.
    pub fn new(alloc: Global, plan: &Plan) -> Result<SerialMachine, AllocError>
        ensures plan { IfOk result (λ m. m.plan ≡ plan.now) }
        ensures begun { IfOk result (λ m. m.begun ≡ begun_at_start plan.now) }
        ensures now { IfOk result (λ m. m.now ≡ 0) }
    {
        slot_has_few_events();
        let stations = stations_of(alloc, plan)?;
        let tracks = tracks_of(alloc, plan)?;
        let wires = wires_of(alloc, plan)?;
        Ok(SerialMachine {
            plan: Known::of(plan),
            from: None,
            clock: 0,
            stations,
            tracks,
            wires,
        })
    }

    /// The nodes of a plan as a snapshot says them, before its slot. No event of the slots before is kept. The error is want of memory. See
    /// docs/SNAPSHOTS.md.
    pub fn resumed(
        alloc: Global,
        plan: &Plan,
        snap: &SnapSystem,
    ) -> Result<SerialMachine, AllocError>
        requires snap { IsSnapSystem plan.now (body_of snap.now) }
        ensures plan { IfOk result (λ m. m.plan ≡ plan.now) }
        ensures begun { IfOk result (λ m. m.begun ≡ begun_of (body_of snap.now)) }
        ensures now { IfOk result (λ m. m.now ≡ snap.now.slot) }
    {
        let mut stations = stations_by(alloc, plan, snap)?;
        let tracks = tracks_by(alloc, plan, snap)?;
        let wires = wires_by(alloc, plan, snap, &stations)?;
        show_all(&wires, &mut stations, snap.slot);
        Ok(SerialMachine {
            plan: Known::of(plan),
            from: Some(Known::of(snap)),
            clock: snap.slot,
            stations,
            tracks,
            wires,
        })
    }

    /// One slot of the whole system. The error is want of memory, and leaves the machine as it was.
    pub fn slot(&mut self) -> Result<(), AllocError>
        requires now { self.old.now < 2 ^ 32 - 1 }
        ensures plan { self.new.plan ≡ self.old.plan }
        ensures begun { self.new.begun ≡ self.old.begun }
        ensures passed { OnOk result (self.new.now ≡ self.old.now + 1) }
        ensures err { OnErr result (self.new ≡ self.old) }
    {
        pass_slot(
            &mut self.stations,
            &mut self.tracks,
            &mut self.wires,
            self.clock,
        )?;
        self.clock += 1;
        Ok(())
    }

    /// The same as `slot`, and what is told of each node's threads in this slot is put into `told`, by position, one place for each node. The
    /// error is want of memory, and leaves the machine and `told` as they were. See docs/MACHINE.md.
    pub fn slot_told(&mut self, told: &mut [Told]) -> Result<(), AllocError>
        requires now { self.old.now < 2 ^ 32 - 1 }
        requires nodes { length told.old ≡ length self.old.plan.nodes }
        ensures plan { self.new.plan ≡ self.old.plan }
        ensures begun { self.new.begun ≡ self.old.begun }
        ensures passed { OnOk result (self.new.now ≡ self.old.now + 1) }
        ensures told { OnOk result (AreToldNext self.old told.new) }
        ensures each { OnOk result (EachIsToldNext self.old told.new) }
        ensures err { OnErr result (self.new ≡ self.old) }
        ensures kept { OnErr result (told.new ≡ told.old) }
    {
        pass_slot_told(
            &mut self.stations,
            &mut self.tracks,
            &mut self.wires,
            self.clock,
            told,
        )?;
        self.clock += 1;
        Ok(())
    }

    /// Steps on until so many slots have passed since the start; does nothing where they have. The error is want of
    /// memory, and leaves the machine at a whole slot before the limit.
    // Not inlined, so that its caller's variables take no registers from the loop.
    #[inline(never)]
    pub fn run(&mut self, limit: u32) -> Result<(), AllocError>
        ensures plan { self.new.plan ≡ self.old.plan }
        ensures begun { self.new.begun ≡ self.old.begun }
        ensures ran { OnOk result (self.new.now ≡ max self.old.now limit) }
        ensures on { self.old.now ≤ self.new.now }
        ensures err { OnErr result (self.new.now < limit) }
    {
        if limit <= self.clock {
            return Ok(());
        }
        // By the clock alone, which is looked at once a round: with a range beside it, another number would be counted up in every slot.
        loop {
            self.pass_quiet_slots(limit);
            if limit <= self.clock {
                return Ok(());
            }
            self.slot()?;
        }
    }

    // Goes over the slots before a limit in which nothing happens anywhere, as far as that is known: there may be none. In most busy slots
    // the first node has something to do, and then that is all that is asked.
    #[inline]
    fn pass_quiet_slots(&mut self, limit: u32)
        requires before { self.old.now ≤ limit }
        ensures plan { self.new.plan ≡ self.old.plan }
        ensures begun { self.new.begun ≡ self.old.begun }
        ensures on { self.old.now ≤ self.new.now }
        ensures within { self.new.now ≤ limit }
    {
        if first_rests(&self.stations, self.clock) {
            self.pass_where_all_rest(limit);
        }
    }

    // The same, where the first node has nothing to do.
    #[inline]
    fn pass_where_all_rest(&mut self, limit: u32)
        requires before { self.old.now ≤ limit }
        ensures plan { self.new.plan ≡ self.old.plan }
        ensures begun { self.new.begun ≡ self.old.begun }
        ensures on { self.old.now ≤ self.new.now }
        ensures within { self.new.now ≤ limit }
    {
        self.clock = pass_quiet(
            &mut self.stations,
            &self.tracks,
            &self.wires,
            self.clock,
            limit,
        );
    }

    /// Goes over slots before a limit in which nothing happens anywhere and no pin changes its level, as far as that is known: there may be none.
    /// It takes no memory. See docs/QUIET_SLOTS.md.
    pub fn pass_steady(&mut self, limit: u32)
        requires before { self.old.now ≤ limit }
        ensures plan { self.new.plan ≡ self.old.plan }
        ensures begun { self.new.begun ≡ self.old.begun }
        ensures on { self.old.now ≤ self.new.now }
        ensures within { self.new.now ≤ limit }
        ensures steady { LevelsStay self.old self.new }
    {
        let to = steady_to(&self.stations, limit);
        self.clock = pass_quiet(
            &mut self.stations,
            &self.tracks,
            &self.wires,
            self.clock,
            to,
        );
    }

    /// How many slots have passed.
    pub fn now(&self) -> u32
        ensures value { result ≡ self.now.now }
    {
        self.clock
    }

    /// The core of the node at a position.
    pub fn core(&self, node: u8) -> &Core
        requires node { node < length self.now.plan.nodes }
        ensures stands { StandsAt result.now (slice_index_or (system_of self.now).nodes node (first_node 0 0 [])) self.now.now }
    {
        let station = &self.stations[node as usize];
        &station.seat.core
    }

    /// The history of the arc with a number: what was sent on it so far, in order.
    pub fn history(&self, link: u32) -> &[Entry]
        requires link { link < arc_count self.now.plan }
        ensures value { result.now ≡ slice_index_or (system_of self.now).histories link [] }
    {
        let directed = self.tracks.len();
        if (link as usize) < directed {
            let track = &self.tracks[link as usize];
            track.history.entries()
        } else {
            let wire = &self.wires[link as usize - directed];
            wire.history.entries()
        }
    }

    /// What is kept of the events of the node at a position.
    pub fn events(&self, node: u8) -> &NodeEvents
        requires node { node < length self.now.plan.nodes }
        ensures keeps { Keeps result.now (slice_index_or (system_of self.now).events node []) }
        ensures few { result.now.more ≤ EVENT_ROOM * self.now.now }
    {
        let station = &self.stations[node as usize];
        &station.seat.events
    }

    /// What is kept of the events of each node, by position. Nothing else is left of the machine. The error is want of
    /// memory.
    pub fn into_events(self, alloc: Global) -> Result<Vec<NodeEvents>, AllocError>
        ensures keeps { IfOk result (λ v. AllZip Keeps v.items (system_of self).events) }
        ensures nodes { IfOk result (λ v. length v.items ≡ length self.plan.nodes) }
    {
        let mut all = Vec::new(alloc);
        for station in self.stations {
            let seat = station.seat;
            all.push(seat.events)?;
        }
        Ok(all)
    }
}
