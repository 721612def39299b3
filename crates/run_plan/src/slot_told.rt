//! A slot of which each node's threads are told. See docs/MACHINE.md.
ghost use Rattle.std.specs.Prelude.{◌≡◌, ◌+◌, ◌-◌, ◌^◌, ◌<◌, false, List, length, OnOk, OnErr};
ghost use Rattle.std.specs.List.{AllByRecursion, AllZip};
ghost use Rattle.xs_base.specs.Numbers.{Word};
ghost use Rattle.sys_plan.specs.Plan.{PlanRec};
ghost use Rattle.serial_model.specs.Serial.{SystemRec, step_on};
ghost use Rattle.core_step.specs.Core.{NothingArrives};
ghost use Rattle.node_seats.specs.Seats.{HasEventRoom};
ghost use Rattle.run_plan.specs.Inbound.{IsBelow};
ghost use Rattle.run_plan.specs.Stations.{IsStation, StationSteps, taken_by};
ghost use Rattle.run_plan.specs.Passes.{HasRoomForEvents, IsReadyTrack, levels_of};
ghost use Rattle.run_plan.specs.Wires.{AreReadyWires};
ghost use Rattle.run_plan.specs.Run.{AreReady};
ghost use Rattle.run_plan.specs.Told.{IsStationTold, AreTold};

use crate::passes::{carry, make_room};
use crate::station::Station;
use crate::track::Track;
use crate::wire::Wire;
use core_step::Told;
use std::alloc::AllocError;
use xs_model::Arrivals;

/// The same as `pass_slot`, with what is told of each node's threads, by position. The error is want of memory, and changes nothing but
/// the room.
pub(crate) fn pass_slot_told(
    stations: &mut [Station],
    tracks: &mut [Track],
    wires: &mut [Wire],
    slot: u32,
    told: &mut [Told],
) -> Result<(), AllocError>
    requires slot { slot < 2 ^ 32 - 1 }
    requires stations { AllByRecursion (IsStation slot (length tracks.old)) stations.old }
    requires tracks { AllByRecursion (IsReadyTrack slot (length stations.old)) tracks.old }
    requires wires { AreReadyWires slot (levels_of stations.old) wires.old }
    requires told { length told.old ≡ length stations.old }
    ensures ok { OnOk result ((plan : PlanRec) (shown : List Word) (whole : SystemRec) → AreReady plan shown slot whole stations.old tracks.old wires.old →
        AreReady plan shown (slot + 1) (step_on shown plan slot whole) stations.new tracks.new wires.new) }
    ensures told { OnOk result ((plan : PlanRec) (shown : List Word) (whole : SystemRec) → AreReady plan shown slot whole stations.old tracks.old wires.old →
        AreTold shown plan slot whole told.new) }
    ensures err { OnErr result ((plan : PlanRec) (shown : List Word) (whole : SystemRec) → AreReady plan shown slot whole stations.old tracks.old wires.old →
        AreReady plan shown slot whole stations.new tracks.new wires.new) }
    ensures kept { OnErr result (told.new ≡ told.old) }
    ensures stations { length stations.new ≡ length stations.old }
    ensures tracks { length tracks.new ≡ length tracks.old }
    ensures wires { length wires.new ≡ length wires.old }
{
    make_room(stations, tracks, wires)?;
    step_all_told(stations, tracks, slot, told);
    carry(stations, tracks, wires, slot);
    Ok(())
}

// One slot of each node, and what is told of it.
fn step_all_told(stations: &mut [Station], tracks: &[Track], slot: u32, told: &mut [Told])
    requires slot { slot < 2 ^ 32 - 1 }
    requires stations { AllByRecursion (IsStation slot (length tracks.now)) stations.old }
    requires room { AllByRecursion HasRoomForEvents stations.old }
    requires told { length told.old ≡ length stations.old }
    ensures steps { AllZip (StationSteps slot tracks.now) stations.old stations.new }
    ensures told { AllZip (IsStationTold slot tracks.now) stations.old told.new }
{
    for (n, station) in stations.iter_mut().enumerate() {
        told[n] = station.step_told(tracks, slot);
    }
}

impl Station {
    /// The same as `step`, and what is told of the node's threads.
    pub(crate) fn step_told(&mut self, tracks: &[Track], slot: u32) -> Told
        requires slot { slot < 2 ^ 32 - 1 }
        requires station { IsStation slot (length tracks.now) self.old }
        requires room { HasEventRoom self.old.seat }
        ensures steps { StationSteps slot tracks.now self.old self.new }
        ensures told { IsStationTold slot tracks.now self.old result }
    {
        let arrives = self.due;
        let arrivals = self.taken(tracks);
        let changed = self.pins.look(slot);
        let told = self
            .seat
            .step_told(slot, arrives, &arrivals, changed, self.pins.view());
        self.seat.find_rest(slot + 1);
        self.due = false;
        told
    }

    // What arrives at the node in this slot.
    fn taken(&self, tracks: &[Track]) -> Arrivals
        requires below { AllByRecursion (IsBelow (length tracks.now)) self.now.incoming.links }
        ensures value { result ≡ taken_by tracks.now self.now }
        ensures none { self.now.due ≡ false → NothingArrives result }
    {
        if self.due {
            self.incoming.arrivals(tracks)
        } else {
            *self.incoming.nothing()
        }
    }
}
