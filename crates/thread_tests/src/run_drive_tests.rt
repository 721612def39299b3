//! A play of a plan without steps.
use pin_scripts::Script;
use run_drive::drive_play;
use std::sync::Arc;
use std::test::Fail;
use sys_plan::Plan;

#[test]
fn a_play_without_steps_tells_nothing(rt: HostRuntime) -> Result<(), Fail> {
    let plan = Plan::of(
        Vec::new(rt.alloc()),
        Vec::new(rt.alloc()),
        Script::empty(),
        Vec::new(rt.alloc()),
        Vec::new(rt.alloc()),
    );
    let plan = Arc::new(rt.alloc(), plan)?;
    let played = drive_play(rt.alloc(), &plan, 7)?;
    assert!(rt; played.lines().is_empty() && played.limit() == 7);
    Ok(())
}
