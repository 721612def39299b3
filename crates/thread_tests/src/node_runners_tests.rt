//! A node that runs ahead of another one, worked out by hand.
use node_runners::{NodeRunner, Ran};
use std::test::Fail;
use test_plans::pair;

#[test]
fn a_node_stops_where_its_link_was_not_seen(rt: HostRuntime) -> Result<(), Fail> {
    let plan = pair(rt.alloc(), 3)?;
    let mut runner = NodeRunner::new(rt.alloc(), &plan, 0, 40)?;
    assert!(rt; runner.send(7).entries().is_empty());
    for slot in 0..3 {
        let before = runner.clock();
        assert!(rt; before == slot && runner.run_slot()? == Ran::Slot);
    }
    let blocked = runner.run_slot()?;
    assert!(rt; blocked == Ran::Blocked { end: 7, seen: 0 } && runner.clock() == 3);

    // It has no code: its thread trapped in slot 0 and is halted.
    assert!(rt; runner.events().events().len() == 2);
    assert!(rt; runner.into_events().events().len() == 2);
    Ok(())
}

#[test]
fn a_node_goes_over_its_quiet_slots_at_once(rt: HostRuntime) -> Result<(), Fail> {
    let plan = pair(rt.alloc(), 3)?;
    let mut runner = NodeRunner::new(rt.alloc(), &plan, 0, 40)?;
    // Its thread traps in slot 0, which is busy. Then it goes as far as its link was seen.
    assert!(rt; runner.skip() == 0 && runner.run_slot()? == Ran::Slot);
    assert!(rt; runner.skip() == 2 && runner.skip() == 0);
    assert!(rt; runner.clock() == 3 && runner.stepped() == 1);
    assert!(rt; runner.run_slot()? == Ran::Blocked { end: 7, seen: 0 });
    Ok(())
}
