//! Two nodes that are run round by round, worked out by hand.
use node_rounds::RoundRun;
use std::sync::Arc;
use std::sync::atomic::{AtomicU64, Ordering};
use std::test::Fail;
use test_plans::pair;
use xs_edge::{Gate, OpenGate};

// Whoever is node 0 waits here until node 1 came by, for some time.
#[derive(Drop)]
struct Together {
    came: AtomicU64,
    met: AtomicU64,
}

impl Gate for Together {
    fn pass(&self, worker: u32) {
        if worker == 1 {
            self.came.store(1, Ordering::SeqCst);
            return;
        }
        for _ in 0..1_000_000_000 {
            if self.came.load(Ordering::SeqCst) == 1 {
                self.met.store(1, Ordering::SeqCst);
                return;
            }
        }
    }
}

#[test]
fn two_nodes_go_round_by_round(rt: HostRuntime) -> Result<(), Fail> {
    let alloc = rt.alloc();
    let plan = Arc::new(alloc, pair(alloc, 5)?)?;
    let mut run = RoundRun::new(alloc, &plan, 12)?;
    assert!(rt; run.passes() == 0 && run.clock(0) == 0 && run.clock(1) == 0);
    // In a round each goes the delay further, and in the last to the limit.
    for clock in [5, 10, 12] {
        assert!(rt; !run.is_at_limit());
        run = run.pass(&rt, alloc, &OpenGate)?;
        assert!(rt; run.clock(0) == clock && run.clock(1) == clock);
    }
    assert!(rt; run.is_at_limit() && run.passes() == 3);
    let (runners, totals) = run.into_parts(alloc)?;
    assert!(rt; runners.len() == 2 && totals.len() == 2);
    Ok(())
}

#[test]
fn a_run_of_no_slots_takes_no_round(rt: HostRuntime) -> Result<(), Fail> {
    let alloc = rt.alloc();
    let plan = Arc::new(alloc, pair(alloc, 5)?)?;
    let run = RoundRun::new(alloc, &plan, 0)?;
    assert!(rt; run.is_at_limit() && run.passes() == 0);
    Ok(())
}

#[test]
fn two_nodes_work_at_once(rt: HostRuntime) -> Result<(), Fail> {
    let alloc = rt.alloc();
    let plan = Arc::new(alloc, pair(alloc, 5)?)?;
    let gate = Together {
        came: AtomicU64::new(0),
        met: AtomicU64::new(0),
    };
    let run = RoundRun::new(alloc, &plan, 12)?;
    assert!(rt; !run.is_at_limit());
    let run = run.pass(&rt, alloc, &gate)?;
    assert!(rt; run.passes() == 1 && gate.met.load(Ordering::SeqCst) == 1);
    Ok(())
}
