//! The block of a node.
ghost use Rattle.std.specs.Prelude.{◌≡◌, ◌++◌, List, Bool, length, OnOk};
ghost use Rattle.xs_base.specs.Numbers.{Slot};
ghost use Rattle.byte_forms.specs.Reading.{Gives};
ghost use Rattle.node_forms.specs.Nodes.{core_fields, core_in, enable_fields, enables_in, net_fields, net_in, node_state, snap_node, used_of};

use crate::places::{
    read_chans, read_clocks, read_enables, read_locks, read_timers, taken_of, used_of, write_chans,
    write_clocks, write_enables, write_locks, write_timers,
};
use byte_forms::{Fault, Reader, write_long, write_word};
use core_step::NodeState;
use port_forms::{read_ports, write_ports};
use snap_parts::SnapNode;
use state_forms::{
    read_division, read_levels, read_memory, read_syncs, read_threads, write_division,
    write_levels, write_memory, write_syncs, write_threads,
};
use std::alloc::{AllocError, Global};
use switch_forms::{read_inputs, read_link_ends, write_inputs, write_link_ends};
use xs_base::Text;

/// Reads the block of a node of which the plan has these link ends, in a snapshot of this slot. See docs/SNAPSHOTS.md.
#[tactic(auto, unfolding(crate::specs::Nodes::snap_node))]
pub fn read_node(
    alloc: Global,
    from: &mut Reader,
    there: &[bool; 8],
    slot: u32,
) -> Result<SnapNode, Fault>
    ensures value { Gives (snap_node there.now slot) (λ node. node) from.old result from.new }
{
    let kept = from.read_word_below(262_145)?;
    let more = from.read_long_below(1 << 63)?;
    let state = read_state(alloc, from, there, slot)?;
    Ok(SnapNode { kept, more, state })
}

// Reads the state of a node.
#[tactic(auto, unfolding(crate::specs::Nodes::node_state))]
fn read_state(
    alloc: Global,
    from: &mut Reader,
    there: &[bool; 8],
    slot: u32,
) -> Result<NodeState, Fault>
    ensures value { Gives (node_state there.now slot) (λ state. state) from.old result from.new }
{
    let mut state = NodeState::new(alloc)?;
    read_core(from, slot, &mut state)?;
    read_all_enables(from, &mut state)?;
    read_net(alloc, from, there, slot, &mut state)?;
    Ok(state)
}

// Reads the threads and the resources.
#[tactic(auto, unfolding(crate::specs::Nodes::core_fields))]
fn read_core(from: &mut Reader, slot: u32, state: &mut NodeState) -> Result<(), Fault>
    ensures value { Gives (core_fields slot) (λ _. core_in state.new) from.old result from.new }
    ensures long { length state.new.threads ≡ length state.new.last }
{
    read_threads(from, slot, &mut state.threads, &mut state.last)?;
    read_chans(from, &mut state.chans)?;
    read_timers(from, &mut state.timers)?;
    read_clocks(from, &mut state.clocks)?;
    read_syncs(
        from,
        &taken_of(&state.threads, &state.last),
        &mut state.syncs,
    )?;
    read_locks(from, &mut state.locks)?;
    state.ports = read_ports(from)?;
    Ok(())
}

// Reads what the resources give.
#[tactic(auto, unfolding(crate::specs::Nodes::enable_fields))]
fn read_all_enables(from: &mut Reader, state: &mut NodeState) -> Result<(), Fault>
    ensures value { Gives enable_fields (λ _. enables_in state.new) from.old result from.new }
    ensures core { core_in state.new ≡ core_in state.old }
    ensures threads { state.new.threads ≡ state.old.threads }
    ensures last { state.new.last ≡ state.old.last }
{
    read_enables(from, &mut state.chan_enables)?;
    read_enables(from, &mut state.timer_enables)?;
    read_enables(from, &mut state.port_enables)
}

// Reads the inputs of the switch, the link ends and all the rest.
#[tactic(auto, unfolding(crate::specs::Nodes::net_fields))]
fn read_net(
    alloc: Global,
    from: &mut Reader,
    there: &[bool; 8],
    slot: u32,
    state: &mut NodeState,
) -> Result<(), Fault>
    ensures value { Gives (net_fields (used_of state.old.chans) there.now slot) (λ _. net_in state.new) from.old result from.new }
    ensures core { core_in state.new ≡ core_in state.old }
    ensures threads { state.new.threads ≡ state.old.threads }
    ensures last { state.new.last ≡ state.old.last }
    ensures enables { enables_in state.new ≡ enables_in state.old }
{
    read_inputs(from, &used_of(&state.chans), there, &mut state.inputs)?;
    read_link_ends(from, there, slot, &mut state.ends)?;
    state.division = read_division(from, slot)?;
    read_levels(from, &mut state.levels)?;
    state.memory = read_memory(alloc, from)?;
    Ok(())
}

/// Writes the block of a node. The error is want of memory. See docs/SNAPSHOTS.md.
#[tactic(auto, unfolding(crate::specs::Nodes::snap_node))]
pub fn write_node(out: &mut Text, node: &SnapNode) -> Result<(), AllocError>
    ensures value { OnOk result ((there : List Bool) (slot : Slot) → out.new ≡ out.old ++ (snap_node there slot).write node.now) }
{
    write_word(out, node.kept)?;
    write_long(out, node.more)?;
    write_state(out, &node.state)
}

// Writes the state of a node.
#[tactic(auto, unfolding(crate::specs::Nodes::node_state))]
fn write_state(out: &mut Text, state: &NodeState) -> Result<(), AllocError>
    ensures { OnOk result ((there : List Bool) (slot : Slot) → out.new ≡ out.old ++ (node_state there slot).write state.now) }
{
    write_core(out, state)?;
    write_all_enables(out, state)?;
    write_net(out, state)
}

// Writes the threads and the resources.
#[tactic(auto, unfolding(crate::specs::Nodes::core_fields))]
fn write_core(out: &mut Text, state: &NodeState) -> Result<(), AllocError>
    ensures { OnOk result ((slot : Slot) → out.new ≡ out.old ++ (core_fields slot).write (core_in state.now)) }
{
    write_threads(out, &state.threads, &state.last)?;
    write_chans(out, &state.chans)?;
    write_timers(out, &state.timers)?;
    write_clocks(out, &state.clocks)?;
    write_syncs(out, &state.syncs)?;
    write_locks(out, &state.locks)?;
    write_ports(out, &state.ports)
}

// Writes what the resources give.
#[tactic(auto, unfolding(crate::specs::Nodes::enable_fields))]
fn write_all_enables(out: &mut Text, state: &NodeState) -> Result<(), AllocError>
    ensures { OnOk result (out.new ≡ out.old ++ enable_fields.write (enables_in state.now)) }
{
    write_enables(out, &state.chan_enables)?;
    write_enables(out, &state.timer_enables)?;
    write_enables(out, &state.port_enables)
}

// Writes the inputs of the switch, the link ends and all the rest.
#[tactic(auto, unfolding(crate::specs::Nodes::net_fields))]
fn write_net(out: &mut Text, state: &NodeState) -> Result<(), AllocError>
    ensures { OnOk result ((used there : List Bool) (slot : Slot) → out.new ≡ out.old ++ (net_fields used there slot).write (net_in state.now)) }
{
    write_inputs(out, &state.inputs)?;
    write_link_ends(out, &state.ends)?;
    write_division(out, state.division)?;
    write_levels(out, &state.levels)?;
    write_memory(out, &state.memory)
}
