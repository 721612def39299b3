//! Who waits for whom.
ghost use Rattle.std.specs.Prelude.{◌≡◌, ◌≤◌, ◌<◌, ◌+◌, ◌*◌, ◌/◌, ◌++◌, ◌∷◌, [], map, option_map, slice_get, length, IfOk, OnOk};
ghost use Rattle.net_model.specs.Ways.{way_to};
ghost use Rattle.look_model.specs.WaitGraph.{thread_at, input_at, waiters, wait_graph};
ghost use Rattle.look_model.specs.WaitGraph.{master_of, waits_of_thread, waits_of_wait};
ghost use Rattle.look_model.specs.WaitGraph.{holds_wanted, inputs_where, is_here, is_full, next_input, waits_of_input};
ghost use Rattle.look_model.specs.WaitGraph.{waits_of_threads, waits_of_node, waits_of_kept, waits_from};

use crate::network::{buffer_count, other_end};
use crate::seen::{kept, missing, owner, sync_of};
use core_step::NodeState;
use route_ranks::{first_difference, leads};
use snap_parts::SnapNode;
use std::alloc::{AllocError, Global};
use switch_routes::InputState;
use sync_locks::SyncState;
use sys_plan::{NodePlan, Plan};
use xs_base::numbers::{BUFFER_TOKENS, INPUTS, LINK_ENDS, THREADS};
use xs_model::{Run, Thread, Wait};

// ---- Numbers

// How many threads and inputs a node has.
const WAITERS: u16 = 48;

// The number of a thread of the node at a position.
fn thread_at(n: u8, k: u8) -> u16
    ensures { result ≡ thread_at n k }
{
    u16::from(n) * WAITERS + u16::from(k)
}

// The number of an input.
fn input_at(n: u8, i: u16) -> u16
    requires { i < 1024 }
    ensures { result ≡ input_at n i }
{
    u16::from(n) * WAITERS + (u16::from(THREADS) + i)
}

// One number.
fn one(alloc: Global, at: u16) -> Result<Vec<u16>, AllocError>
    ensures { IfOk result (λ v. v.items ≡ at ∷ []) }
{
    let mut one = Vec::new(alloc);
    one.push(at)?;
    Ok(one)
}

// ---- For whom a thread waits

fn waits_of_thread(
    alloc: Global,
    n: u8,
    state: &NodeState,
    k: u8,
    run: Run,
) -> Result<Vec<u16>, AllocError>
    requires { k < 8 }
    ensures { IfOk result (λ v. v.items ≡ waits_of_thread n state.now k run) }
{
    match run {
        Run::Unstarted | Run::AtSync => master_of(alloc, n, sync_of(&state.syncs, k)),
        Run::Paused(wait) => waits_of_wait(alloc, n, state, wait),
        Run::Free | Run::Going | Run::Halted => Ok(Vec::new(alloc)),
    }
}

// The master of the synchroniser of which it is a slave.
fn master_of(alloc: Global, n: u8, sync: Option<(u8, SyncState)>) -> Result<Vec<u16>, AllocError>
    ensures { IfOk result (λ v. v.items ≡ master_of n sync) }
{
    match sync {
        None => Ok(Vec::new(alloc)),
        Some((_, sync)) => one(alloc, thread_at(n, sync.master)),
    }
}

// For whom a paused thread waits.
fn waits_of_wait(
    alloc: Global,
    n: u8,
    state: &NodeState,
    wait: Wait,
) -> Result<Vec<u16>, AllocError>
    ensures { IfOk result (λ v. v.items ≡ waits_of_wait n state.now wait) }
{
    match wait {
        Wait::Room { chan, .. } => one(alloc, input_at(n, u16::from(LINK_ENDS) + u16::from(chan))),
        Wait::Lock { lock } => match owner(&state.locks, lock) {
            None => Ok(Vec::new(alloc)),
            Some(k) => one(alloc, thread_at(n, k)),
        },
        Wait::Slaves { sync } => {
            let threads = missing(alloc, &state.threads, &state.syncs, sync)?;
            threads_at(alloc, n, &threads)
        }
        _ => Ok(Vec::new(alloc)),
    }
}

// The numbers of threads of a node.
fn threads_at(alloc: Global, n: u8, threads: &[u8]) -> Result<Vec<u16>, AllocError>
    ensures { IfOk result (λ v. v.items ≡ map (thread_at n) threads.now) }
{
    threads.iter().map(|k| thread_at(n, *k)).collect(alloc)
}

// ---- For whom an input waits

fn waits_of_input(
    alloc: Global,
    plan: &Plan,
    snaps: &[SnapNode],
    n: u8,
    node: &NodePlan,
    state: &NodeState,
    now: InputState,
) -> Result<Vec<u16>, AllocError>
    ensures { IfOk result (λ v. v.items ≡ waits_of_input plan.now snaps.now n node.now state.now now) }
{
    match now {
        InputState::Want { dest, net } => holders(alloc, n, node, dest, net, &state.inputs),
        InputState::Out { end, .. } => next_input(alloc, snaps, other_end(plan.links(), n, end)),
        _ => Ok(Vec::new(alloc)),
    }
}

// The inputs that hold what a packet to a destination wants.
fn holders(
    alloc: Global,
    n: u8,
    node: &NodePlan,
    dest: u32,
    net: u8,
    inputs: &[InputState; 40],
) -> Result<Vec<u16>, AllocError>
    ensures { IfOk result (λ v. v.items
        ≡ inputs_where (holds_wanted dest (way_to node.now.id node.now.ways node.now.nets net (dest / 65536))) n 0 inputs.now) }
{
    let mut found = Vec::new(alloc);
    for i in 0..40u8 {
        if holds_wanted(node, dest, net, inputs[i as usize]) {
            found.push(input_at(n, u16::from(i)))?;
        }
    }
    Ok(found)
}

// Whether an input holds what it wants.
fn holds_wanted(node: &NodePlan, dest: u32, net: u8, now: InputState) -> bool
    ensures { result ≡ holds_wanted dest (way_to node.now.id node.now.ways node.now.nets net (dest / 65536)) now }
{
    match now {
        InputState::Local { chan } => {
            is_here(node, net, dest) && u32::from(chan) == dest / 256 % 256
        }
        InputState::Out { end, .. } => {
            end < LINK_ENDS && leads(node, end, net, (dest / 65_536) as u16)
        }
        _ => false,
    }
}

// Whether it is on the node itself.
fn is_here(node: &NodePlan, net: u8, dest: u32) -> bool
    ensures { result ≡ is_here (way_to node.now.id node.now.ways node.now.nets net (dest / 65536)) }
{
    first_difference(node.id, (dest / 65_536) as u16).is_none()
}

// The input of the link end at the other end of a link, where its buffer is full.
fn next_input(
    alloc: Global,
    snaps: &[SnapNode],
    other: Option<(u8, u8)>,
) -> Result<Vec<u16>, AllocError>
    ensures { IfOk result (λ v. v.items ≡ next_input snaps.now other) }
{
    match other {
        Some((node, end)) if is_full(snaps, node, end) => {
            one(alloc, input_at(node, u16::from(end)))
        }
        _ => Ok(Vec::new(alloc)),
    }
}

// Whether no room is left in the buffer of a link end of the node at a position.
fn is_full(snaps: &[SnapNode], node: u8, end: u8) -> bool
    ensures { result ≡ is_full (slice_get snaps.now node) end }
{
    match snaps.get(node as usize) {
        None => false,
        Some(snap) => buffer_count(&snap.state.ends, end) == u64::from(BUFFER_TOKENS),
    }
}

// ---- The graph

/// Who waits for whom among the threads and the inputs of all nodes, by number: of each node, by position, its 8 threads and then the 40
/// inputs of its switch. The error is want of memory.
pub(crate) fn wait_graph(
    alloc: Global,
    plan: &Plan,
    snaps: &[SnapNode],
) -> Result<Vec<Vec<u16>>, AllocError>
    ensures graph { IfOk result (λ v. map (λ edges. edges.items) v.items ≡ wait_graph plan.now snaps.now) }
    ensures few { IfOk result (λ v. length v.items ≤ 65536) }
{
    plan.keeps();
    let nodes = plan.nodes();
    let mut graph = Vec::new(alloc);
    for n in 0..nodes.len() {
        let place = n as u8;
        add_kept(
            &mut graph,
            alloc,
            plan,
            snaps,
            place,
            &nodes[n],
            kept(snaps, place),
        )?;
    }
    Ok(graph)
}

// Adds the threads and the inputs of the node at a position, as it was kept.
fn add_kept(
    graph: &mut Vec<Vec<u16>>,
    alloc: Global,
    plan: &Plan,
    snaps: &[SnapNode],
    n: u8,
    node: &NodePlan,
    snap: Option<&SnapNode>,
) -> Result<(), AllocError>
    ensures graph { OnOk result (map (λ edges. edges.items) graph.new.items
        ≡ map (λ edges. edges.items) graph.old.items ++ waits_of_kept plan.now snaps.now n node.now (option_map (λ s. s.now) snap.entry)) }
    ensures many { OnOk result (length graph.new.items ≤ length graph.old.items + waiters) }
{
    match snap {
        None => Ok(()),
        Some(snap) => add_node(graph, alloc, plan, snaps, n, node, &snap.state),
    }
}

// Adds the threads and the inputs of a node.
fn add_node(
    graph: &mut Vec<Vec<u16>>,
    alloc: Global,
    plan: &Plan,
    snaps: &[SnapNode],
    n: u8,
    node: &NodePlan,
    state: &NodeState,
) -> Result<(), AllocError>
    ensures graph { OnOk result (map (λ edges. edges.items) graph.new.items
        ≡ map (λ edges. edges.items) graph.old.items ++ waits_of_node plan.now snaps.now n node.now state.now) }
    ensures many { OnOk result (length graph.new.items ≡ length graph.old.items + waiters) }
{
    add_threads(graph, alloc, n, state, &state.threads)?;
    add_inputs(graph, alloc, plan, snaps, n, node, state, &state.inputs)
}

// Adds the threads of a node.
fn add_threads(
    graph: &mut Vec<Vec<u16>>,
    alloc: Global,
    n: u8,
    state: &NodeState,
    threads: &[Thread; 8],
) -> Result<(), AllocError>
    ensures graph { OnOk result (map (λ edges. edges.items) graph.new.items
        ≡ map (λ edges. edges.items) graph.old.items ++ waits_of_threads n state.now 0 threads.now) }
    ensures many { OnOk result (length graph.new.items ≡ length graph.old.items + 8) }
{
    for k in 0..8u8 {
        graph.push(waits_of_thread(alloc, n, state, k, threads[k as usize].run)?)?;
    }
    Ok(())
}

// Adds the inputs of a node's switch.
fn add_inputs(
    graph: &mut Vec<Vec<u16>>,
    alloc: Global,
    plan: &Plan,
    snaps: &[SnapNode],
    n: u8,
    node: &NodePlan,
    state: &NodeState,
    inputs: &[InputState; 40],
) -> Result<(), AllocError>
    ensures graph { OnOk result (map (λ edges. edges.items) graph.new.items
        ≡ map (λ edges. edges.items) graph.old.items ++ map (waits_of_input plan.now snaps.now n node.now state.now) inputs.now) }
    ensures many { OnOk result (length graph.new.items ≡ length graph.old.items + 40) }
{
    for i in 0..40u8 {
        graph.push(waits_of_input(alloc, plan, snaps, n, node, state, inputs[i as usize])?)?;
    }
    Ok(())
}
