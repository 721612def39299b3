//! The directed links and the wires of a snapshot.
ghost use Rattle.std.specs.Prelude.{◌≡◌, ◌<◌, ◌^◌, ◌++◌, length, map, slice_index_or, OnOk};
ghost use Rattle.std.specs.List.{AllByRecursion};
ghost use Rattle.sys_plan.specs.Plan.{IsLink};
ghost use Rattle.link_ends.specs.States.{absent_end};
ghost use Rattle.snap_parts.specs.Parts.{seen};
ghost use Rattle.byte_forms.specs.Reading.{Gives};
ghost use Rattle.byte_forms.specs.Forms.{repeat};
ghost use Rattle.log_forms.specs.Logs.{wire_log};
ghost use Rattle.snap_codec.specs.Body.{any_log, held_by, link_back, link_pair, links, wires};
ghost use Rattle.xs_base.specs.Ids.{port_width};

use byte_forms::{Fault, Reader};
use log_forms::{Ends, Held, read_link_log, read_wire_log, write_log};
use snap_parts::{SnapLog, SnapNode};
use std::alloc::{AllocError, Global};
use sys_plan::{LinkPlan, Plan, WirePlan};
use xs_base::{Text, port_width};

/// Reads the directed links of a plan by number, two for each link, in a snapshot of this slot with these nodes.
pub(crate) fn read_links(
    alloc: Global,
    from: &mut Reader,
    plan: &Plan,
    slot: u32,
    all: &[SnapNode],
) -> Result<Vec<SnapLog>, Fault>
    requires nodes { length all.now ≡ length plan.now.nodes }
    ensures value { Gives (links plan.now slot all.now) (λ logs. map seen logs.items) from.old result from.new }
{
    let mut logs = Vec::new(alloc);
    let each = plan.links();
    for link in each {
        let (forth, back) = read_pair(alloc, from, slot, link, all)?;
        logs.push(forth)?;
        logs.push(back)?;
    }
    Ok(logs)
}

// Reads the two directed links of a link.
#[tactic(auto, unfolding(crate::specs::Body::link_pair))]
fn read_pair(
    alloc: Global,
    from: &mut Reader,
    slot: u32,
    link: &LinkPlan,
    all: &[SnapNode],
) -> Result<(SnapLog, SnapLog), Fault>
    requires link { IsLink (length all.now) link.now }
    ensures value { Gives (link_pair slot all.now link.now) (λ pair. (seen pair.0, seen pair.1)) from.old result from.new }
{
    let forth = read_link_log(alloc, from, slot, link.delay, &None)?;
    let back = read_back(alloc, from, slot, link, all, &forth)?;
    Ok((forth, back))
}

// Reads the directed link that leads back, where this one leads forth.
fn read_back(
    alloc: Global,
    from: &mut Reader,
    slot: u32,
    link: &LinkPlan,
    all: &[SnapNode],
    forth: &SnapLog,
) -> Result<SnapLog, Fault>
    requires link { IsLink (length all.now) link.now }
    ensures value { Gives (link_back slot all.now link.now (seen forth.now)) seen from.old result from.new }
{
    let a = held(&all[link.a as usize], link.a_end);
    let b = held(&all[link.b as usize], link.b_end);
    let ends = Some(Ends::new(forth.entries.entries(), a, b));
    read_link_log(alloc, from, slot, link.delay, &ends)
}

// What a link end of a node holds.
fn held(node: &SnapNode, end: u8) -> Held
    requires end { end < 8 }
    ensures value { result ≡ held_by (slice_index_or node.now.state.ends end absent_end) }
{
    let state = &node.state.ends[end as usize];
    Held {
        window: state.window,
        buffered: state.buffer.len() as u8,
    }
}

/// Reads the wires of a plan in order, in a snapshot of this slot.
pub(crate) fn read_wires(
    alloc: Global,
    from: &mut Reader,
    plan: &Plan,
    slot: u32,
) -> Result<Vec<SnapLog>, Fault>
    ensures value { Gives (wires plan.now slot) (λ logs. map seen logs.items) from.old result from.new }
{
    let mut logs = Vec::new(alloc);
    let each = plan.wires();
    for wire in each {
        let log = read_wire(alloc, from, slot, wire)?;
        logs.push(log)?;
    }
    Ok(logs)
}

// Reads a wire.
fn read_wire(alloc: Global, from: &mut Reader, slot: u32, wire: &WirePlan) -> Result<SnapLog, Fault>
    requires port { wire.now.b_port < 29 }
    ensures value { Gives (wire_log slot wire.now.delay (port_width wire.now.b_port)) seen from.old result from.new }
{
    let width = port_width(wire.b_port);
    read_wire_log(alloc, from, slot, wire.delay, width as u8)
}

/// Writes directed links and wires by number. The error is want of memory.
pub(crate) fn write_logs(out: &mut Text, logs: &[SnapLog]) -> Result<(), AllocError>
    requires few { AllByRecursion (λ log. length log.entries.entries < 2 ^ 32) logs.now }
    ensures value { OnOk result (out.new ≡ out.old ++ (repeat (length logs.now) any_log).write (map seen logs.now)) }
{
    for log in logs {
        write_log(out, log)?;
    }
    Ok(())
}
