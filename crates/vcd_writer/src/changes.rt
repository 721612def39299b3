//! The changes of a run, slot by slot: the levels of all pins at the end of each, beside those at the end of the slot before. Slots in which
//! no pin changes its level, as far as the machine knows, are gone over at once.
ghost use Rattle.std.specs.Prelude.{◌≡◌, ◌<◌, ◌+◌, ◌++◌, length, IfOk, OnOk};
ghost use Rattle.serial_model.specs.Serial.{serial, begun_at_start, node_by};
ghost use Rattle.wave_model.specs.Runs.{change_in, changes_before, changes_in, port_changes};
ghost use Rattle.wave_model.specs.Waves.{change_lines, text_of_lines};
ghost use Rattle.vcd_writer.specs.Tells.{Tells, levels_of};

use crate::wave_text::WaveText;
use arrayvec::ArrayVec;
use run_plan::{SerialMachine, machines_are_serial};
use std::alloc::{AllocError, Global};
use sys_plan::Plan;
use wave_model::WaveChange;
use xs_base::Text;
use xs_base::numbers::PORTS;

/// A text whose last line is that of slot 0, and then the changes of a plan in so many slots. The error is want of memory. See docs/WAVES.md.
pub(crate) fn with_changes(
    alloc: Global,
    text: Text,
    plan: &Plan,
    limit: u32,
) -> Result<Text, AllocError>
    ensures { IfOk result (λ after. after ≡ text ++ text_of_lines (change_lines 0 (changes_before plan.now limit))) }
{
    machines_are_serial();
    let mut machine = SerialMachine::new(alloc, plan)?;
    let mut seen = all_levels(plan, &machine);
    let mut out = WaveText::begun(text);
    let mut slot = 0;
    while slot < limit {
        machine.run(slot + 1)?;
        put_slot(&mut out, plan, &machine, slot, seen.as_mut_slice())?;
        machine.pass_steady(limit);
        slot = machine.now();
    }
    Ok(out.into_text())
}

// The levels of all pins, by node, as a machine that began at slot 0 has come to them.
fn all_levels(plan: &Plan, machine: &SerialMachine) -> ArrayVec<[u32; 29], 16>
    requires plan { machine.now.plan ≡ plan.now }
    requires start { machine.now.begun ≡ begun_at_start plan.now }
    ensures { result.items ≡ levels_of (serial plan.now machine.now.now).nodes }
{
    let mut all = ArrayVec::new();
    for node in 0..plan.nodes().len() {
        all.push(levels(plan, machine, node as u8));
    }
    all
}

// Those of the node at a position.
#[inline]
fn levels(plan: &Plan, machine: &SerialMachine, node: u8) -> [u32; 29]
    requires plan { machine.now.plan ≡ plan.now }
    requires start { machine.now.begun ≡ begun_at_start plan.now }
    requires node { node < length plan.now.nodes }
    ensures { result ≡ (node_by (serial plan.now machine.now.now).nodes node).levels }
{
    machines_are_serial();
    machine.core(node).levels()
}

// The changes in a slot, which the machine has just run: the levels seen last become those at the end of it.
fn put_slot(
    out: &mut WaveText,
    plan: &Plan,
    machine: &SerialMachine,
    slot: u32,
    seen: &mut [[u32; 29]],
) -> Result<(), AllocError>
    requires plan { machine.now.plan ≡ plan.now }
    requires start { machine.now.begun ≡ begun_at_start plan.now }
    requires run { machine.now.now ≡ slot + 1 }
    requires seen { seen.old ≡ levels_of (serial plan.now slot).nodes }
    ensures tells { OnOk result (Tells out.old out.new (changes_in plan.now slot)) }
    ensures seen { OnOk result (seen.new ≡ levels_of (serial plan.now (slot + 1)).nodes) }
{
    for node in 0..plan.nodes().len() {
        let levels = levels(plan, machine, node as u8);
        put_node(out, slot, node as u8, &seen[node], &levels)?;
        seen[node] = levels;
    }
    Ok(())
}

// The changes of the pins of the node at a position, with these levels before and after.
#[inline]
fn put_node(
    out: &mut WaveText,
    slot: u32,
    node: u8,
    before: &[u32; 29],
    after: &[u32; 29],
) -> Result<(), AllocError>
    requires { node < 16 }
    ensures { OnOk result (Tells out.old out.new (port_changes slot node 0 before.now after.now)) }
{
    // In most slots the pins of most nodes stay as they are.
    if slot > 0 && *before == *after {
        return Ok(());
    }
    put_ports(out, slot, node, before, after)
}

// The same, whether any of the levels has changed or none.
fn put_ports(
    out: &mut WaveText,
    slot: u32,
    node: u8,
    before: &[u32; 29],
    after: &[u32; 29],
) -> Result<(), AllocError>
    requires { node < 16 }
    ensures { OnOk result (Tells out.old out.new (port_changes slot node 0 before.now after.now)) }
{
    for port in 0..PORTS {
        put_port(
            out,
            slot,
            node,
            port,
            before[port as usize],
            after[port as usize],
        )?;
    }
    Ok(())
}

// The change of one pin, if there is one: in slot 0 every level is told.
#[inline]
fn put_port(
    out: &mut WaveText,
    slot: u32,
    node: u8,
    port: u8,
    before: u32,
    after: u32,
) -> Result<(), AllocError>
    requires node { node < 16 }
    requires port { port < 29 }
    ensures { OnOk result (Tells out.old out.new (change_in slot node port before after)) }
{
    if slot > 0 && before == after {
        return Ok(());
    }
    out.put(WaveChange {
        slot,
        node,
        port,
        value: after,
    })
}
