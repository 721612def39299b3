//! The least end, or arc, of those ends of a node of which something holds.
ghost use Rattle.std.specs.Prelude.{◌≡◌, ◌<◌};
ghost use Rattle.sys_plan.specs.Plan.{arc_count};
ghost use Rattle.core_workers.specs.Worker.{shut_links, stops_here, unheard_ends, untold_ends};
ghost use Rattle.core_workers.specs.Steps.{IsLeastOf, IsLeastStop, AreOfPlan, least_of, lesser_stop};

use plan_cells::{Incoming, Outgoing};
use sys_plan::Plan;

/// The lesser of two ends, where there are two.
pub(crate) fn least_end(a: Option<u8>, b: Option<u8>) -> Option<u8>
    ensures { result ≡ least_of a b }
{
    match (a, b) {
        (None, b) => b,
        (Some(a), None) => Some(a),
        (Some(a), Some(b)) => Some(a.min(b)),
    }
}

// The same of two arcs.
fn least_link(a: Option<u32>, b: Option<u32>) -> Option<u32>
    ensures { result ≡ least_of a b }
{
    match (a, b) {
        (None, b) => b,
        (Some(a), None) => Some(a),
        (Some(a), Some(b)) => Some(a.min(b)),
    }
}

/// The least of the arcs of which the logs were found closed. None comes exactly where none was.
pub(crate) fn least_shut(readers: &[Incoming]) -> Option<u32>
    ensures { IsLeastOf result (shut_links readers.now) }
{
    let mut least = None;
    for reader in readers {
        if reader.r.is_shut() {
            least = least_link(least, Some(reader.link));
        }
    }
    least
}

/// The least of the ends of links and wires that were not looked at, since their cells were in use. None comes exactly where all were looked at.
pub(crate) fn least_unheard(readers: &[Incoming]) -> Option<u8>
    ensures { IsLeastOf result (unheard_ends readers.now) }
{
    let mut least = None;
    for reader in readers {
        if reader.busy {
            least = least_end(least, Some(reader.end));
        }
    }
    least
}

/// The least of the ends of links and wires that are not published up to a slot. None comes exactly where all are.
pub(crate) fn least_untold(writers: &[Outgoing], slot: u32) -> Option<u8>
    ensures { IsLeastOf result (untold_ends slot writers.now) }
{
    let mut least = None;
    for writer in writers {
        if writer.w.published() != slot {
            least = least_end(least, Some(writer.end));
        }
    }
    least
}

/// The least of the ends that were looked at and let the node run no further, and up to which slot its link or wire was read. None comes
/// exactly where none does.
pub(crate) fn least_stop(plan: &Plan, readers: &[Incoming], clock: u32) -> Option<(u8, u32)>
    requires of_plan { AreOfPlan plan.now readers.now }
    ensures { IsLeastStop plan.now clock readers.now result }
{
    let mut least: Option<(u8, u32)> = None;
    for reader in readers {
        if stops(plan, reader, clock) {
            least = Some(lesser_of_two(least, reader.end, reader.r.got()));
        }
    }
    least
}

// Whether an arc was looked at, and lets the node run no further than the clock.
fn stops(plan: &Plan, reader: &Incoming, clock: u32) -> bool
    requires of_plan { reader.now.link < arc_count plan.now }
    ensures { result ≡ stops_here plan.now clock reader.now }
{
    !reader.busy
        && u64::from(reader.r.got()) + u64::from(plan.delay(reader.link)) == u64::from(clock)
}

// The lesser of two ends, where there are two, and up to which slot its arc was read.
fn lesser_of_two(stop: Option<(u8, u32)>, end: u8, got: u32) -> (u8, u32)
    ensures { result ≡ lesser_stop stop end got }
{
    match stop {
        None => (end, got),
        Some((first, seen)) if first <= end => (first, seen),
        Some(_) => (end, got),
    }
}
