//! The nodes, the directed links and the wires of a plan as a snapshot says them. See docs/SNAPSHOTS.md.
ghost use Rattle.std.specs.Prelude.{◌≡◌, ◌+◌, ◌<◌, ◌≤◌, length, drop, take, IfOk};
ghost use Rattle.std.specs.List.{AllByRecursion, AllZip};
ghost use Rattle.xs_base.specs.declared.numbers.TheConstants.{LINK_ENDS, PORTS, THREADS};
ghost use Rattle.xs_base.specs.Ids.{port_width};
ghost use Rattle.pin_wires.specs.Wires.{driven_or_low};
ghost use Rattle.sys_plan.specs.Plan.{AreDistinct, link_arcs};
ghost use Rattle.snap_parts.specs.InFlight.{AreLinkEntries};
ghost use Rattle.snap_parts.specs.Parts.{seen, body_of};
ghost use Rattle.snap_parts.specs.Snaps.{IsSnapSystem, IsSnapNode, IsOnWire};
ghost use Rattle.run_plan.specs.Begins.{AllBegin, StationBegins, StationBeginsAs, TrackBegins, LinkBegins, WireBegins, WireBeginsBy};
ghost use Rattle.run_plan.specs.Passes.{IsReadyTrack, IsShownAt, SameButCome, cores_of, levels_of};
ghost use Rattle.run_plan.specs.Wires.{IsReadyWire, HasCome, target, targets};

use crate::inbound::Inbound;
use crate::station::Station;
use crate::track::Track;
use crate::wire::{Wire, driven_or_low};
use buffered_ports::PortState;
use crossings::Crossing;
use known_value::Known;
use node_seats::{Pins, Seat};
use snap_parts::{SnapLog, SnapNode, SnapSystem};
use std::alloc::{AllocError, Global};
use sys_plan::{Plan, WirePlan};
use xs_base::{Batch, Entry};

/// The nodes of a plan, each of which looks at what arrives in the next slot. The error is want of memory.
pub(crate) fn stations_by(
    alloc: Global,
    plan: &Plan,
    snap: &SnapSystem,
) -> Result<Vec<Station>, AllocError>
    requires snap { IsSnapSystem plan.now (body_of snap.now) }
    ensures begin { IfOk result (λ v. AllBegin (StationBegins plan.now snap.now.slot) 0 plan.now.nodes snap.now.nodes.items v.items) }
{
    let mut stations = Vec::new(alloc);
    for n in 0..plan.nodes().len() {
        let node = &snap.nodes[n];
        let station = station_by(alloc, plan, n as u8, snap.slot, node)?;
        stations.push(station)?;
    }
    Ok(stations)
}

// The node at a position.
fn station_by(
    alloc: Global,
    plan: &Plan,
    n: u8,
    slot: u32,
    node: &SnapNode,
) -> Result<Station, AllocError>
    requires node { n < length plan.now.nodes }
    requires snap { IsSnapNode plan.now slot n node.now }
    ensures begins { IfOk result (λ station. StationBeginsAs plan.now slot n node.now station) }
{
    sizes(&node.state.ports, &node.state.last);
    let seat = Seat::of_state(alloc, plan, n, &node.state)?;
    let pins = Pins::before(plan, n, slot)?;
    Ok(Station {
        seat,
        pins,
        incoming: Inbound::of(plan, n),
        due: true,
    })
}

// There is a state of each port, and a last issue of each thread. It does nothing.
fn sizes(ports: &[PortState; 29], last: &[Option<u32>; 8])
    ensures ports { length ports.now ≡ PORTS }
    ensures last { length last.now ≡ THREADS }
{
    let _ports = ports.len();
    let _last = last.len();
}

/// The directed links of a plan. The error is want of memory.
pub(crate) fn tracks_by(
    alloc: Global,
    plan: &Plan,
    snap: &SnapSystem,
) -> Result<Vec<Track>, AllocError>
    requires snap { IsSnapSystem plan.now (body_of snap.now) }
    ensures begin { IfOk result (λ v. AllBegin (LinkBegins snap.now.slot) 0 (link_arcs plan.now.links) (take (length (link_arcs plan.now.links)) (body_of snap.now).logs) v.items) }
    ensures ready { IfOk result (λ v. AllByRecursion (IsReadyTrack snap.now.slot (length plan.now.nodes)) v.items) }
{
    let mut tracks = Vec::new(alloc);
    for link in plan.links() {
        let k = tracks.len();
        let there = &snap.logs[k];
        let back = &snap.logs[k + 1];
        let to = track_by(
            alloc, link.a, link.a_end, link.b, link.delay, snap.slot, there,
        )?;
        let fro = track_by(
            alloc, link.b, link.b_end, link.a, link.delay, snap.slot, back,
        )?;
        tracks.push(to)?;
        tracks.push(fro)?;
    }
    Ok(tracks)
}

// A directed link, with what is in flight.
fn track_by(
    alloc: Global,
    from: u8,
    from_end: u8,
    to: u8,
    delay: u32,
    slot: u32,
    log: &SnapLog,
) -> Result<Track, AllocError>
    requires end { from_end < LINK_ENDS }
    requires delayed { 1 ≤ delay }
    requires log { AreLinkEntries slot delay log.now.entries.entries }
    ensures begins { IfOk result (λ track. TrackBegins slot from from_end to delay log.now.entries.entries track) }
{
    let history = copy_of(alloc, log.entries.entries())?;
    let mut track = Track {
        from,
        from_end,
        to,
        delay,
        history,
        first: 0,
        arrived: Crossing::none(),
    };
    track.see(slot);
    Ok(track)
}

/// The wires of a plan, each of which shows what has come by the next slot, when these are the nodes. The error is want of memory.
pub(crate) fn wires_by(
    alloc: Global,
    plan: &Plan,
    snap: &SnapSystem,
    stations: &[Station],
) -> Result<Vec<Wire>, AllocError>
    requires snap { IsSnapSystem plan.now (body_of snap.now) }
    requires stations { length stations.now ≡ length plan.now.nodes }
    ensures begin { IfOk result (λ v. AllBegin (WireBeginsBy snap.now.slot (cores_of stations.now)) 0 plan.now.wires (drop (length (link_arcs plan.now.links)) (body_of snap.now).logs) v.items) }
    ensures ready { IfOk result (λ v. AllByRecursion (IsReadyWire snap.now.slot (length plan.now.nodes)) v.items) }
    ensures apart { IfOk result (λ v. AreDistinct (targets v.items)) }
{
    let directed = 2 * plan.links().len();
    let mut wires = Vec::new(alloc);
    for wire in plan.wires() {
        let log = &snap.logs[directed + wires.len()];
        let sender = &stations[wire.a as usize];
        let driven = sender.seat.driven(wire.a_port);
        let begun = wire_by(alloc, wire, driven, snap.slot, log)?;
        wires.push(begun)?;
    }
    Ok(wires)
}

// A wire, with what is in flight, whose first port drives this.
fn wire_by(
    alloc: Global,
    wire: &WirePlan,
    driven: Option<u32>,
    slot: u32,
    log: &SnapLog,
) -> Result<Wire, AllocError>
    requires a_port { wire.now.a_port < PORTS }
    requires b_port { wire.now.b_port < PORTS }
    requires widths { port_width wire.now.a_port ≡ port_width wire.now.b_port }
    requires delayed { 1 ≤ wire.now.delay }
    requires log { IsOnWire slot wire.now.delay (port_width wire.now.b_port) (seen log.now) }
    ensures begins { IfOk result (λ begun. WireBegins slot (driven_or_low driven) wire.now (seen log.now) begun) }
{
    let history = copy_of(alloc, log.entries.entries())?;
    let mut begun = Wire {
        from: wire.a,
        from_port: wire.a_port,
        to: wire.b,
        to_port: wire.b_port,
        delay: wire.delay,
        history,
        first: 0,
        sent: driven_or_low(driven),
        level: log.level,
        shown: Known::of(&log.level),
    };
    begun.take(slot);
    Ok(begun)
}

// The same entries. The error is want of memory.
fn copy_of(alloc: Global, entries: &[Entry]) -> Result<Batch, AllocError>
    ensures entries { IfOk result (λ batch. batch.entries ≡ entries.now) }
{
    let mut batch = Batch::new(alloc);
    for e in entries {
        batch.reserve(1)?;
        batch.add(*e);
    }
    Ok(batch)
}

/// The pins at the second ends of wires are told what these show.
pub(crate) fn show_all(wires: &[Wire], stations: &mut [Station], slot: u32)
    requires wires { AllByRecursion (IsReadyWire slot (length (levels_of stations.old))) wires.now }
    requires apart { AreDistinct (targets wires.now) }
    requires shown { AllByRecursion (IsShownAt slot) stations.old }
    ensures come { AllByRecursion (HasCome (levels_of stations.new)) wires.now }
    ensures same { AllZip (SameButCome slot) stations.old stations.new }
{
    for wire in wires {
        show(wire, stations, slot);
    }
}

// The pin at the second end of a wire is told what it shows.
fn show(wire: &Wire, stations: &mut [Station], slot: u32)
    requires wire { IsReadyWire slot (length (levels_of stations.old)) wire.now }
    requires shown { AllByRecursion (IsShownAt slot) stations.old }
    ensures come { HasCome (levels_of stations.new) wire.now }
    ensures others { (other : Wire) → (target other ≡ target wire.now → ⊥) → HasCome (levels_of stations.old) other → HasCome (levels_of stations.new) other }
    ensures same { AllZip (SameButCome slot) stations.old stations.new }
{
    stations[wire.to as usize]
        .pins
        .come(wire.to_port, wire.level, slot);
}
