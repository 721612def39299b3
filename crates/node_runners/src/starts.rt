//! The ends of a node before its first slot.
ghost use Rattle.std.specs.Prelude.{ℕ, ◌≡◌, ◌+◌, ◌<◌, ◌≤◌, None, [], IfOk, IfSome, length};
ghost use Rattle.xs_base.specs.declared.numbers.TheConstants.{LINK_ENDS};
ghost use Rattle.sys_plan.specs.Plan.{IsPlan, arc_count, count_from, count_to, incoming, outgoing};
ghost use Rattle.node_runners.specs.Queue.{inlet_at};
ghost use Rattle.node_runners.specs.Wires.{wire_in};
ghost use Rattle.node_runners.specs.Sent.{batch_at, wire_out};
ghost use Rattle.node_runners.specs.Starts.{first_inlet, FirstIn, FirstOut};

use crate::inlet::Inlet;
use crate::wire_inlets::WireInlet;
use crate::wire_outlets::WireOutlet;
use std::alloc::{AllocError, Global};
use sys_plan::Plan;
use xs_base::Batch;
use xs_base::numbers::LINK_ENDS;

/// What comes to the link ends of the node at a position, as far as the last to which a link comes. Nothing was seen yet. The error is want
/// of memory.
pub(crate) fn inlets_of(alloc: Global, plan: &Plan, n: u8) -> Result<Vec<Inlet>, AllocError>
    ensures plan { IsPlan plan.now }
    ensures few { IfOk result (λ v. length v.items ≤ 8) }
    ensures fresh { IfOk result (λ v. (end : ℕ) → end < length v.items → inlet_at v.items end ≡ first_inlet plan.now (incoming plan.now n end)) }
    ensures rest { IfOk result (λ v. (end : ℕ) → length v.items ≤ end → end < 8 → incoming plan.now n end ≡ None) }
{
    plan.keeps();
    let mut inlets = Vec::new(alloc);
    for end in 0..reached_of(plan, n) {
        inlets.push(inlet_of(alloc, plan, plan.incoming(n, end)))?;
    }
    Ok(inlets)
}

// What comes by an arc, where there is one.
fn inlet_of(alloc: Global, plan: &Plan, link: Option<u32>) -> Inlet
    requires link { IfSome link (λ l. l < arc_count plan.now) }
    ensures { result ≡ first_inlet plan.now link }
{
    match link {
        None => Inlet::new(alloc, 0),
        Some(link) => Inlet::new(alloc, plan.delay(link)),
    }
}

// The least link end such that no link comes to it or to one after it.
fn reached_of(plan: &Plan, n: u8) -> u8
    ensures within { result ≤ 8 }
    ensures rest { (end : ℕ) → result ≤ end → end < 8 → incoming plan.now n end ≡ None }
{
    let mut reached = LINK_ENDS;
    while reached > 0 && plan.incoming(n, reached - 1).is_none() {
        reached -= 1;
    }
    reached
}

/// What is sent by the link ends of the node at a position, as far as the last by which a link leaves. Nothing was sent yet. The error is
/// want of memory.
#[tactic(auto, using(crate::proofs::Batches::empty_more))]
pub(crate) fn batches_of(alloc: Global, plan: &Plan, n: u8) -> Result<Vec<Batch>, AllocError>
    ensures few { IfOk result (λ v. length v.items ≤ 8) }
    ensures empty { IfOk result (λ v. (end : ℕ) → (batch_at v.items end).entries ≡ []) }
    ensures rest { IfOk result (λ v. (end : ℕ) → length v.items ≤ end → end < 8 → outgoing plan.now n end ≡ None) }
{
    let mut batches = Vec::new(alloc);
    for _ in 0..leaving_of(plan, n) {
        batches.push(Batch::new(alloc))?;
    }
    Ok(batches)
}

// The least link end such that no link leaves by it or by one after it.
fn leaving_of(plan: &Plan, n: u8) -> u8
    ensures within { result ≤ 8 }
    ensures rest { (end : ℕ) → result ≤ end → end < 8 → outgoing plan.now n end ≡ None }
{
    let mut reached = LINK_ENDS;
    while reached > 0 && plan.outgoing(n, reached - 1).is_none() {
        reached -= 1;
    }
    reached
}

/// The wires that come to the node at a position, in the order of their ends. Nothing was seen yet. The error is want of memory.
pub(crate) fn wires_in_of(alloc: Global, plan: &Plan, n: u8) -> Result<Vec<WireInlet>, AllocError>
    ensures all { IfOk result (λ v. length v.items ≡ count_to n plan.now.wires) }
    ensures fresh { IfOk result (λ v. (k : ℕ) → k < length v.items → FirstIn plan.now n (LINK_ENDS + k) (wire_in v.items k)) }
{
    let mut ends = Vec::new(alloc);
    for wire in plan.wires() {
        if wire.b == n {
            ends.push(WireInlet {
                port: wire.b_port,
                inlet: Inlet::new(alloc, wire.delay),
            })?;
        }
    }
    Ok(ends)
}

/// The wires that leave the node at a position, in the order of their ends. They were told nothing yet. The error is want of memory.
pub(crate) fn wires_out_of(alloc: Global, plan: &Plan, n: u8) -> Result<Vec<WireOutlet>, AllocError>
    ensures all { IfOk result (λ v. length v.items ≡ count_from n plan.now.wires) }
    ensures fresh { IfOk result (λ v. (k : ℕ) → k < length v.items → FirstOut plan.now n (LINK_ENDS + k) (wire_out v.items k)) }
{
    let mut ends = Vec::new(alloc);
    for wire in plan.wires() {
        if wire.a == n {
            ends.push(WireOutlet::new(alloc, wire.a_port))?;
        }
    }
    Ok(ends)
}
