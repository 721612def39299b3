//! Horizons, and the numbers of a schedule, worked out by hand.
use ahead_limits::{Horizon, Numbers};
use pin_scripts::Script;
use std::test::Fail;
use sys_plan::{Plan, Step};
use test_plans::{bare_node, link_on};

#[test]
fn a_node_runs_as_far_as_its_links_are_known(rt: HostRuntime) {
    // No link: as far as the limit goes.
    let alone = Horizon::new(3);
    assert!(rt; alone.may_run(2) && !alone.may_run(3) && alone.first_block(3).is_none());

    // Delays of 5 and 2 slots; of the first link slots 0 to 9 were seen.
    let mut two = Horizon::new(100);
    two.add(6, 5);
    two.add(1, 2);
    assert!(rt; two.may_run(1) && !two.may_run(2) && two.first_block(2) == Some((1, 0)));
    two.see(6, 10);
    two.see(1, 13);
    assert!(rt;
        two.may_run(14)
            && !two.may_run(15)
            && two.first_block(14).is_none()
            && two.first_block(15) == Some((1, 13))
    );

    // Where several stop it, the least is told; where no link comes, nothing is seen.
    let mut three = Horizon::new(2000);
    three.add(6, 5);
    three.add(1, 2);
    three.add(3, 1000);
    three.see(6, 7);
    three.see(1, 10);
    three.see(0, 50);
    assert!(rt;
        three.first_block(12) == Some((1, 10))
            && three.first_block(1000) == Some((3, 0))
            && three.first_block(50).is_none()
    );
    assert!(rt;
        three.limit() == 2000 && three.seen(6) == 7 && three.seen(0) == 0 && three.seen(8) == 0
    );
}

#[test]
fn a_node_takes_what_the_other_has_sent(rt: HostRuntime) -> Result<(), Fail> {
    let mut nodes = Vec::new(rt.alloc());
    nodes.push(bare_node(rt.alloc(), 0))?;
    nodes.push(bare_node(rt.alloc(), 1))?;
    let mut links = Vec::new(rt.alloc());
    links.push(link_on(0, 5))?;
    let mut steps = Vec::new(rt.alloc());
    steps.push(Step::Run { node: 0, count: 3 })?;
    steps.push(Step::Send { node: 0, end: 7 })?;
    steps.push(Step::Take { node: 1, end: 0 })?;
    steps.push(Step::Run {
        node: 0,
        count: 1_000_000,
    })?;
    let plan = Plan::of(nodes, links, Script::empty(), steps, Vec::new(rt.alloc()));
    let numbers = Numbers::of(rt.alloc(), &plan, 40)?;
    // No count is run further than 5 slots, of which 3 were sent.
    let clocks = [numbers.clock(0), numbers.clock(1)];
    let published = [numbers.published(0), numbers.published(1)];
    let seen = [numbers.seen(0), numbers.seen(1)];
    assert!(rt; clocks == [5, 0] && published == [3, 0] && seen == [3, 0]);
    Ok(())
}
