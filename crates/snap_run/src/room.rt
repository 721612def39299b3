//! Events of a node from a snapshot's slot on, where so many more are kept.
ghost use Rattle.std.specs.Prelude.{◌≡◌, ◌-◌, ◌^◌, ◌<◌, ◌≤◌, List, length, take, IfOk, All};
ghost use Rattle.xs_model.specs.declared.event.Event.{Event};
ghost use Rattle.xs_model.specs.Events.{IsWithinCounts};
ghost use Rattle.xs_model.specs.FirstEvents.{kept_at_most};
ghost use Rattle.trace_lines.specs.Kept.{Keeps};
ghost use Rattle.snap_model.specs.Rest.{room_of};

use snap_parts::SnapNode;
use std::alloc::{AllocError, Global};
use trace_lines::{Event, NodeEvents};

// How many events of a node are kept; see docs/OUTPUT.md.
const KEPT_AT_MOST: u32 = 262_144;

/// How many more events of a node are kept.
pub(crate) fn room_of(node: &SnapNode) -> u32
    ensures value { result ≡ room_of node.now }
{
    KEPT_AT_MOST.saturating_sub(node.kept)
}

/// How many events there were after the first so many.
pub(crate) fn past_room(events: &NodeEvents, room: u32) -> u64
    requires room { room ≤ kept_at_most }
    requires few { events.now.more < 2 ^ 62 }
    ensures value { (all : List Event) → Keeps events.now all → result ≡ length all - room }
    ensures bound { result < 2 ^ 63 }
{
    let there = events.events().len() as u64 + events.more();
    there.saturating_sub(u64::from(room))
}

/// The same events as far as there is room. The error is want of memory.
pub(crate) fn cut(alloc: Global, events: NodeEvents, room: u32) -> Result<NodeEvents, AllocError>
    ensures first { IfOk result (λ first. first.events ≡ take room events.events) }
{
    if events.events().len() <= room as usize {
        return Ok(events);
    }
    kept_again(alloc, &events.events()[..room as usize])
}

// The same events. The error is want of memory.
fn kept_again(alloc: Global, events: &[Event]) -> Result<NodeEvents, AllocError>
    requires within { All IsWithinCounts events.now }
    requires few { length events.now ≤ kept_at_most }
    ensures same { IfOk result (λ kept. kept.events ≡ events.now) }
{
    let mut kept = NodeEvents::new(alloc);
    kept.reserve(events.len())?;
    for e in events {
        kept.add(*e);
    }
    Ok(kept)
}
