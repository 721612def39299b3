//! Events of a few nodes as one list.

use std::alloc::{AllocError, Global};
use std::test::Fail;
use trace_lines::{Event, Happen, NodeEvents};
use trace_merge::merge;

// A node on which a thread halted in each of these slots.
fn halted_in(alloc: Global, slots: &[u32]) -> Result<NodeEvents, AllocError> {
    let mut kept = NodeEvents::new(alloc);
    for slot in slots {
        kept.reserve(1)?;
        kept.add(Event {
            slot: *slot,
            what: Happen::Halt { thread: 3 },
        });
    }
    Ok(kept)
}

#[test]
fn events_stand_by_slot_and_then_by_node(rt: HostRuntime) -> Result<(), Fail> {
    let alloc = rt.alloc();
    let mut nodes = Vec::new(alloc);
    nodes.push(halted_in(alloc, &[5, 9])?)?;
    nodes.push(halted_in(alloc, &[])?)?;
    nodes.push(halted_in(alloc, &[3, 5, 5, 12])?)?;
    let merged = merge(alloc, &nodes)?;
    let mut order = Vec::new(alloc);
    for (node, event) in merged.list() {
        order.push((*node, event.slot))?;
    }
    let expected = [(2, 3), (0, 5), (2, 5), (2, 5), (0, 9), (2, 12)];
    assert_eq!(rt; order.as_slice(), expected.as_slice());
    Ok(())
}
