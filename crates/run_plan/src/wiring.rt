//! The nodes, the directed links and the wires of a plan as they start.
ghost use Rattle.std.specs.Prelude.{◌≡◌, ◌<◌, length, IfOk};
ghost use Rattle.sys_plan.specs.Plan.{link_arcs, IsPlan};
ghost use Rattle.run_plan.specs.Starts.{StartsAs, AllStart, track_at_start, tracks_at_start, wire_at_start, wires_at_start};

use crate::inbound::Inbound;
use crate::station::Station;
use crate::track::Track;
use crate::wire::Wire;
use crossings::Crossing;
use known_value::Known;
use node_seats::{Pins, Seat};
use std::alloc::{AllocError, Global};
use sys_plan::{Plan, WirePlan};
use xs_base::Batch;

/// The nodes of a plan as they start. The error is want of memory.
pub(crate) fn stations_of(alloc: Global, plan: &Plan) -> Result<Vec<Station>, AllocError>
    ensures start { IfOk result (λ v. AllStart plan.now 0 plan.now.nodes v.items) }
{
    let mut stations = Vec::new(alloc);
    for n in 0..plan.nodes().len() {
        let station = station_of(alloc, plan, n as u8)?;
        stations.push(station)?;
    }
    Ok(stations)
}

// The node at a position as it starts.
fn station_of(alloc: Global, plan: &Plan, n: u8) -> Result<Station, AllocError>
    requires node { n < length plan.now.nodes }
    ensures start { IfOk result (λ station. StartsAs plan.now n station) }
{
    let seat = Seat::of(alloc, plan, n)?;
    let pins = Pins::of(plan, n)?;
    Ok(Station {
        seat,
        pins,
        incoming: Inbound::of(plan, n),
        due: false,
    })
}

/// The directed links of a plan as they start. The error is want of memory.
pub(crate) fn tracks_of(alloc: Global, plan: &Plan) -> Result<Vec<Track>, AllocError>
    ensures start { IfOk result (λ v. v.items ≡ tracks_at_start (link_arcs plan.now.links)) }
    ensures plan { IsPlan plan.now }
{
    let mut tracks = Vec::new(alloc);
    for link in plan.links() {
        tracks.push(track_of(alloc, link.a, link.a_end, link.b, link.delay))?;
        tracks.push(track_of(alloc, link.b, link.b_end, link.a, link.delay))?;
    }
    Ok(tracks)
}

// A directed link as it starts.
fn track_of(alloc: Global, from: u8, from_end: u8, to: u8, delay: u32) -> Track
    ensures { result ≡ track_at_start from from_end to delay }
{
    Track {
        from,
        from_end,
        to,
        delay,
        history: Batch::new(alloc),
        first: 0,
        arrived: Crossing::none(),
    }
}

/// The wires of a plan as they start. The error is want of memory.
pub(crate) fn wires_of(alloc: Global, plan: &Plan) -> Result<Vec<Wire>, AllocError>
    ensures start { IfOk result (λ v. v.items ≡ wires_at_start plan.now.wires) }
{
    let mut wires = Vec::new(alloc);
    for wire in plan.wires() {
        wires.push(wire_of(alloc, wire))?;
    }
    Ok(wires)
}

// A wire as it starts.
fn wire_of(alloc: Global, wire: &WirePlan) -> Wire
    ensures { result ≡ wire_at_start wire.now.a wire.now.a_port wire.now.b wire.now.b_port wire.now.delay }
{
    Wire {
        from: wire.a,
        from_port: wire.a_port,
        to: wire.b,
        to_port: wire.b_port,
        delay: wire.delay,
        history: Batch::new(alloc),
        first: 0,
        sent: 0,
        level: 0,
        shown: Known::of(&0),
    }
}
