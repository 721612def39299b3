//! The passes of a slot over all nodes, all directed links and all wires.
ghost use Rattle.std.specs.Prelude.{◌≡◌, ◌+◌, ◌-◌, ◌^◌, ◌<◌, List, length, OnOk, OnErr};
ghost use Rattle.std.specs.List.{AllByRecursion, AllZip};
ghost use Rattle.xs_base.specs.Numbers.{Word};
ghost use Rattle.sys_plan.specs.Plan.{PlanRec};
ghost use Rattle.serial_model.specs.Serial.{SystemRec, step_on};
ghost use Rattle.run_plan.specs.Stations.{IsStation, StationSteps};
ghost use Rattle.run_plan.specs.Passes.{HasRoomForEvents, HasEntryRoom, HasLevelRoom, SameStation, SameTrack, SameWire, IsReadyTrack, Advances, SameButDue};
ghost use Rattle.run_plan.specs.Passes.{IsShownAt, SameButCome, WireAdvances, cores_of, driven_by, levels_of};
ghost use Rattle.run_plan.specs.Wires.{IsReadyWire, AreReadyWires, HasCome, WireGoesOn, target};
ghost use Rattle.run_plan.specs.Run.{AreReady};

use crate::station::Station;
use crate::track::Track;
use crate::wire::Wire;
use std::alloc::AllocError;
use step_laws::slot_has_few_events;

// How many entries a slot can add at most to the history of a directed link: a token and a credit.
const MOST_ENTRIES: usize = 2;

// And to that of a wire: a level.
const MOST_LEVELS: usize = 1;

/// One slot of all nodes, all directed links and all wires. The error is want of memory, and changes nothing but the room.
pub(crate) fn pass_slot(
    stations: &mut [Station],
    tracks: &mut [Track],
    wires: &mut [Wire],
    slot: u32,
) -> Result<(), AllocError>
    requires slot { slot < 2 ^ 32 - 1 }
    requires stations { AllByRecursion (IsStation slot (length tracks.old)) stations.old }
    requires tracks { AllByRecursion (IsReadyTrack slot (length stations.old)) tracks.old }
    requires wires { AreReadyWires slot (levels_of stations.old) wires.old }
    ensures ok { OnOk result ((plan : PlanRec) (shown : List Word) (whole : SystemRec) → AreReady plan shown slot whole stations.old tracks.old wires.old →
        AreReady plan shown (slot + 1) (step_on shown plan slot whole) stations.new tracks.new wires.new) }
    ensures err { OnErr result ((plan : PlanRec) (shown : List Word) (whole : SystemRec) → AreReady plan shown slot whole stations.old tracks.old wires.old →
        AreReady plan shown slot whole stations.new tracks.new wires.new) }
    ensures stations { length stations.new ≡ length stations.old }
    ensures tracks { length tracks.new ≡ length tracks.old }
    ensures wires { length wires.new ≡ length wires.old }
{
    make_room(stations, tracks, wires)?;
    step_all(stations, tracks, slot);
    carry(stations, tracks, wires, slot);
    Ok(())
}

/// Makes room for all that a slot may add. The error is want of memory, and changes nothing but the room.
#[inline]
pub(crate) fn make_room(
    stations: &mut [Station],
    tracks: &mut [Track],
    wires: &mut [Wire],
) -> Result<(), AllocError>
    ensures stations { AllZip SameStation stations.old stations.new }
    ensures tracks { AllZip SameTrack tracks.old tracks.new }
    ensures wires { AllZip SameWire wires.old wires.new }
    ensures events { OnOk result (AllByRecursion HasRoomForEvents stations.new) }
    ensures entries { OnOk result (AllByRecursion HasEntryRoom tracks.new) }
    ensures levels { OnOk result (AllByRecursion HasLevelRoom wires.new) }
{
    make_event_room(stations)?;
    make_entry_room(tracks)?;
    make_level_room(wires)?;
    Ok(())
}

/// What the steps of all nodes in a slot gave goes on by links and wires.
#[inline]
pub(crate) fn carry(stations: &mut [Station], tracks: &mut [Track], wires: &mut [Wire], slot: u32)
    requires slot { slot < 2 ^ 32 - 1 }
    requires tracks { AllByRecursion (IsReadyTrack slot (length stations.old)) tracks.old }
    requires entries { AllByRecursion HasEntryRoom tracks.old }
    requires wires { AreReadyWires slot (levels_of stations.old) wires.old }
    requires levels { AllByRecursion HasLevelRoom wires.old }
    requires shown { AllByRecursion (IsShownAt (slot + 1)) stations.old }
    ensures next { (plan : PlanRec) (shown : List Word) (whole : SystemRec) (before : List Station) → AreReady plan shown slot whole before tracks.old wires.old →
        AllZip (StationSteps slot tracks.old) before stations.old → AreReady plan shown (slot + 1) (step_on shown plan slot whole) stations.new tracks.new wires.new }
    ensures stations { length stations.new ≡ length stations.old }
    ensures tracks { length tracks.new ≡ length tracks.old }
    ensures wires { length wires.new ≡ length wires.old }
{
    slot_has_few_events();
    advance_all(tracks, stations, slot);
    tell_all(wires, stations, slot);
}

// Makes room for the events of a slot. The error is want of memory, and changes nothing but the room.
fn make_event_room(stations: &mut [Station]) -> Result<(), AllocError>
    ensures same { AllZip SameStation stations.old stations.new }
    ensures room { OnOk result (AllByRecursion HasRoomForEvents stations.new) }
{
    for station in stations.iter_mut() {
        station.seat.reserve()?;
    }
    Ok(())
}

// Makes room for the entries of a slot. The error is want of memory, and changes nothing but the room.
fn make_entry_room(tracks: &mut [Track]) -> Result<(), AllocError>
    ensures same { AllZip SameTrack tracks.old tracks.new }
    ensures room { OnOk result (AllByRecursion HasEntryRoom tracks.new) }
{
    for track in tracks.iter_mut() {
        track.history.reserve(MOST_ENTRIES)?;
    }
    Ok(())
}

// Makes room for the level that each wire may be told of a slot. The error is want of memory, and changes nothing but the room.
fn make_level_room(wires: &mut [Wire]) -> Result<(), AllocError>
    ensures same { AllZip SameWire wires.old wires.new }
    ensures room { OnOk result (AllByRecursion HasLevelRoom wires.new) }
{
    for wire in wires.iter_mut() {
        wire.history.reserve(MOST_LEVELS)?;
    }
    Ok(())
}

// One slot of each node.
fn step_all(stations: &mut [Station], tracks: &[Track], slot: u32)
    requires slot { slot < 2 ^ 32 - 1 }
    requires stations { AllByRecursion (IsStation slot (length tracks.now)) stations.old }
    requires room { AllByRecursion HasRoomForEvents stations.old }
    ensures steps { AllZip (StationSteps slot tracks.now) stations.old stations.new }
{
    for station in stations.iter_mut() {
        station.step(tracks, slot);
    }
}

// Each directed link goes on with what its sender's slot gave. Where something then arrives by it, the node that it leads
// to becomes due.
fn advance_all(tracks: &mut [Track], stations: &mut [Station], slot: u32)
    requires slot { slot < 2 ^ 32 - 1 }
    requires tracks { AllByRecursion (IsReadyTrack slot (length stations.old)) tracks.old }
    requires room { AllByRecursion HasEntryRoom tracks.old }
    ensures advances { AllZip (Advances slot stations.old stations.new) tracks.old tracks.new }
    ensures same { AllZip SameButDue stations.old stations.new }
{
    for track in tracks.iter_mut() {
        let sender = &stations[track.from as usize];
        if track.go_on(slot, &sender.seat.given) {
            stations[track.to as usize].due = true;
        }
    }
}

// Each wire is told of a slot what its first port drives after it, and its second pin of what then comes.
fn tell_all(wires: &mut [Wire], stations: &mut [Station], slot: u32)
    requires slot { slot < 2 ^ 32 - 1 }
    requires wires { AreReadyWires slot (levels_of stations.old) wires.old }
    requires room { AllByRecursion HasLevelRoom wires.old }
    requires shown { AllByRecursion (IsShownAt (slot + 1)) stations.old }
    ensures advances { AllZip (WireAdvances slot (cores_of stations.old) (levels_of stations.new)) wires.old wires.new }
    ensures same { AllZip (SameButCome (slot + 1)) stations.old stations.new }
{
    for wire in wires.iter_mut() {
        tell(wire, stations, slot);
    }
}

// A wire is told of a slot what its first port drives after it, and its second pin of what then comes.
fn tell(wire: &mut Wire, stations: &mut [Station], slot: u32)
    requires slot { slot < 2 ^ 32 - 1 }
    requires wire { IsReadyWire slot (length (levels_of stations.old)) wire.old }
    requires room { HasLevelRoom wire.old }
    requires shown { AllByRecursion (IsShownAt (slot + 1)) stations.old }
    requires come { HasCome (levels_of stations.old) wire.old }
    ensures on { WireGoesOn slot (driven_by (cores_of stations.old) wire.old.from wire.old.from_port) wire.old wire.new }
    ensures come { HasCome (levels_of stations.new) wire.new }
    ensures others { (other : Wire) → (target other ≡ target wire.old → ⊥) → HasCome (levels_of stations.old) other → HasCome (levels_of stations.new) other }
    ensures same { AllZip (SameButCome (slot + 1)) stations.old stations.new }
{
    let sender = &stations[wire.from as usize];
    let driven = sender.seat.driven(wire.from_port);
    if wire.go_on(slot, driven) {
        stations[wire.to as usize]
            .pins
            .come(wire.to_port, wire.level, slot + 1);
    }
}
