//! The cells of a plan of two nodes and one link.
use plan_cells::{Ends, PlanCells};
use std::sync::Arc;
use std::test::Fail;
use test_plans::pair;

// Whether these are an end that writes and an end that reads, at this link end of these directed links.
fn are_ends(ends: &Ends, end: u8, leaves: u32, comes: u32) -> bool {
    let outgoing = ends.outgoing.iter().all(|o| o.end == end
        && o.link == leaves
        && o.w.published() == 0);
    let incoming = ends.incoming.iter().all(|i| i.end == end
        && i.link == comes
        && i.r.got() == 0
        && i.hand.is_none());
    ends.outgoing.len() == 1 && ends.incoming.len() == 1 && outgoing && incoming
}

#[test]
fn ends_are_dealt_and_gathered(rt: HostRuntime) -> Result<(), Fail> {
    let plan = Arc::new(rt.alloc(), pair(rt.alloc(), 5)?)?;
    let (cells, all) = PlanCells::new(rt.alloc(), &plan)?;
    let _ = cells.cell(1);
    let nodes = all.len();
    for (n, ends) in all.iter().enumerate() {
        let (end, leaves, comes) = if n == 0 { (7, 0, 1) } else { (0, 1, 0) };
        assert!(rt; are_ends(ends, end, leaves, comes), "node {n}");
    }
    let logs = cells.logs(rt.alloc(), all)?;
    let are_empty = logs
        .iter()
        .all(|log| log.published() == 0 && log.entries().is_empty());
    assert!(rt; nodes == 2 && logs.len() == 2 && are_empty);
    Ok(())
}
