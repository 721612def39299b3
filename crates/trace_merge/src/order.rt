//! `merge`, which puts the kept events of all nodes into one order.
ghost use Rattle.std.specs.Prelude.{◌≡◌, ◌≤◌, ◌++◌, length, IfOk, OnOk};
ghost use Rattle.trace_model.specs.EventOrder.{told_at, node_after_node, merged, AreInOrder};
ghost use Rattle.trace_merge.specs.Nodes.{events_of, AreWithinCounts, AreOfNodes};

use std::alloc::{AllocError, Global};
use std::marker::Model;
use trace_lines::{Event, NodeEvents};

/// The events of all nodes in one order, each with the position of its node. Contracts see it as the list of these
/// pairs. See docs/OUTPUT.md.
#[derive(Drop)]
pub struct Merged {
    events: Vec<(u8, Event)>,
}

impl Model for Merged {
    ghost use Rattle.std.specs.Prelude.{List};
    ghost use Rattle.trace_model.specs.EventOrder.{Placed};
    ghost use Rattle.trace_merge.specs.Nodes.{AreWithinCounts};

    ghost Value = { List Placed };

    ghost view = { λ m. m.events.items };

    ghost invariant = { λ m. AreWithinCounts m.events.items };
}

impl Merged {
    /// The position of the node of each event, and the event.
    pub fn list(&self) -> &[(u8, Event)]
        ensures value { result.now ≡ self.now }
        ensures within { AreWithinCounts result.now }
    {
        self.events.as_slice()
    }
}

/// The kept events of nodes, of which there are at most 256, as one list: by slot, within a slot by the position of the
/// node, and each node's in its own order. The error is want of memory. See docs/OUTPUT.md.
pub fn merge(alloc: Global, nodes: &[NodeEvents]) -> Result<Merged, AllocError>
    requires few { length nodes.now ≤ 256 }
    ensures in_order { IfOk result (λ m. AreInOrder (events_of nodes.now) m) }
    ensures order { IfOk result (λ m. m ≡ merged (events_of nodes.now)) }
    ensures positions { IfOk result (λ m. AreOfNodes (length nodes.now) m) }
{
    let mut events = all_events(alloc, nodes)?;
    // It keeps the order of those that are in one slot.
    events.sort_by_key(|e| e.1.slot)?;
    Ok(Merged { events })
}

// All events, node after node.
fn all_events(alloc: Global, nodes: &[NodeEvents]) -> Result<Vec<(u8, Event)>, AllocError>
    requires few { length nodes.now ≤ 256 }
    ensures all { IfOk result (λ v. v.items ≡ node_after_node 0 (events_of nodes.now)) }
    ensures within { IfOk result (λ v. AreWithinCounts v.items) }
    ensures positions { IfOk result (λ v. AreOfNodes (length nodes.now) v.items) }
{
    let mut all = Vec::new(alloc);
    for (k, node) in nodes.iter().enumerate() {
        append_told(&mut all, k as u8, node.events())?;
    }
    Ok(all)
}

// Puts a node's events after those of the nodes before it, each with the node's position.
fn append_told(all: &mut Vec<(u8, Event)>, k: u8, events: &[Event]) -> Result<(), AllocError>
    ensures { OnOk result (all.new.items ≡ all.old.items ++ told_at k events.now) }
{
    for e in events {
        all.push((k, *e))?;
    }
    Ok(())
}
