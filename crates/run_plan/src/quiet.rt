//! The slots in which nothing happens anywhere, gone over at once. See docs/QUIET_SLOTS.md.
ghost use Rattle.std.specs.Prelude.{◌≡◌, ◌+◌, ◌-◌, ◌^◌, ◌<◌, ◌≤◌, List, length};
ghost use Rattle.std.specs.List.{AllByRecursion, AllZip};
ghost use Rattle.xs_base.specs.Numbers.{Slot, Word};
ghost use Rattle.sys_plan.specs.Plan.{PlanRec};
ghost use Rattle.serial_model.specs.Serial.{SystemRec, since};
ghost use Rattle.run_plan.specs.Stations.{IsStation};
ghost use Rattle.run_plan.specs.Tracks.{IsTrack};
ghost use Rattle.run_plan.specs.Passes.{IsReadyTrack, IsShownAt, levels_of};
ghost use Rattle.run_plan.specs.Wires.{IsWire, AreReadyWires};
ghost use Rattle.run_plan.specs.Quiet.{RestsTo, ArrivesAfter, ComesAfter, IsQuietSystem, MaySkip, StationSkips};
ghost use Rattle.run_plan.specs.Run.{AreReady};
ghost use Rattle.run_plan.specs.Steady.{IsSteadyTo, LevelsStayTo};

use crate::station::Station;
use crate::track::Track;
use crate::wire::Wire;
use quiet_laws::{first_stirring_slot, quiet_slots_only_count};
use step_laws::{slot_has_few_events, slot_tells_pins};

/// Whether it may be worth while to go over slots from one on: not where the first node may do something in it. No clause says more, since
/// each slot may also be stepped.
#[inline]
pub(crate) fn first_rests(stations: &[Station], from: u32) -> bool {
    match stations.first() {
        None => true,
        Some(first) => from < first.seat.rests_to(from),
    }
}

/// The slot up to which the pins of all nodes show the same from outside, unless more comes by a wire, and up to a limit.
pub(crate) fn steady_to(stations: &[Station], limit: u32) -> u32
    ensures within { result ≤ limit }
    ensures steady { AllByRecursion (IsSteadyTo result) stations.now }
    ensures on { (slot : Slot) → slot ≤ limit → AllByRecursion (IsShownAt slot) stations.now → slot ≤ result }
{
    let mut to = limit;
    for station in stations {
        to = to.min(station.pins.next_change());
    }
    to
}

/// Goes over the slots from one on and before a limit in which nothing happens anywhere, as far as that is known. The answer is the
/// slot before which all then stand, which may be the first. It takes no more than to come to a node that may do something in that slot,
/// which in most busy slots is the first node.
#[inline]
pub(crate) fn pass_quiet(
    stations: &mut [Station],
    tracks: &[Track],
    wires: &[Wire],
    from: u32,
    limit: u32,
) -> u32
    requires before { from ≤ limit }
    requires stations { AllByRecursion (IsStation from (length tracks.now)) stations.old }
    requires tracks { AllByRecursion (IsReadyTrack from (length stations.old)) tracks.now }
    requires wires { AreReadyWires from (levels_of stations.old) wires.now }
    ensures on { from ≤ result }
    ensures within { result ≤ limit }
    ensures ready { (plan : PlanRec) (shown : List Word) (whole : SystemRec) → AreReady plan shown from whole stations.old tracks.now wires.now →
        AreReady plan shown result (since plan (record { slot = from; system = whole; shown = shown }) (result - from)) stations.new tracks.now wires.now }
    ensures steady { AllByRecursion (IsSteadyTo result) stations.old → (plan : PlanRec) (shown : List Word) (whole : SystemRec) →
        AreReady plan shown from whole stations.old tracks.now wires.now → LevelsStayTo result plan (record { slot = from; system = whole; shown = shown }) }
{
    let to = quiet_to(stations, tracks, wires, from, limit);
    if to <= from {
        return from;
    }
    first_stirring_slot();
    quiet_slots_only_count();
    slot_tells_pins();
    slot_has_few_events();
    skip_all(stations, from, to);
    to
}

// The slot up to which nothing happens anywhere from a slot on, as far as that is known. It is not after that slot where nothing is.
#[inline]
fn quiet_to(stations: &[Station], tracks: &[Track], wires: &[Wire], from: u32, limit: u32) -> u32
    requires tracks { AllByRecursion (IsTrack from) tracks.now }
    requires wires { AllByRecursion (IsWire from) wires.now }
    ensures within { result ≤ limit }
    ensures quiet { from < result → IsQuietSystem from result stations.now tracks.now wires.now }
{
    let to = nodes_rest_to(stations, from, limit);
    if to <= from {
        return to;
    }
    let to = nothing_arrives_to(tracks, from, to);
    nothing_comes_to(wires, from, to)
}

// The slot up to which every node is quiet from a slot on, as far as that is known, and up to a limit. It is not after that slot where
// some node may do something in it.
#[inline]
fn nodes_rest_to(stations: &[Station], from: u32, limit: u32) -> u32
    ensures within { result ≤ limit }
    ensures quiet { from < result → AllByRecursion (RestsTo from result) stations.now }
{
    let mut to = limit;
    for station in stations {
        to = to.min(station.seat.rests_to(from));
        if to <= from {
            return to;
        }
    }
    to
}

// The last slot up to a limit in which, and before which from a slot on, nothing arrives by any directed link. It is not after that slot where
// something arrives in it or in the next.
fn nothing_arrives_to(tracks: &[Track], from: u32, limit: u32) -> u32
    requires tracks { AllByRecursion (IsTrack from) tracks.now }
    ensures within { result ≤ limit }
    ensures quiet { from < result → AllByRecursion (ArrivesAfter result) tracks.now }
{
    let mut to = limit;
    for track in tracks {
        to = track.nothing_arrives_to(from, to);
        if to <= from {
            return to;
        }
    }
    to
}

// The last slot up to a limit in which, and before which from a slot on, no level comes by any wire. It is not after that slot where one
// comes in the next.
fn nothing_comes_to(wires: &[Wire], from: u32, limit: u32) -> u32
    requires wires { AllByRecursion (IsWire from) wires.now }
    ensures within { result ≤ limit }
    ensures quiet { from < result → AllByRecursion (ComesAfter result) wires.now }
{
    let mut to = limit;
    for wire in wires {
        to = wire.nothing_comes_to(from, to);
        if to <= from {
            return to;
        }
    }
    to
}

// Each node goes over the slots from one on and before another, in which it is quiet.
fn skip_all(stations: &mut [Station], from: u32, to: u32)
    requires some { from < to }
    requires stations { AllByRecursion (MaySkip from to) stations.old }
    ensures skips { AllZip (StationSkips from to) stations.old stations.new }
{
    for station in stations.iter_mut() {
        station.skip(from, to);
    }
}
