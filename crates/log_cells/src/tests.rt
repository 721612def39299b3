//! What only a race of two threads brings about by the calls of a cell alone: news that are raised between the last look at them and the sleep,
//! or while an end looks at the log that has read them before, and a turn that is held. One thread takes the steps of both ends here, in the one
//! order that is meant. A sleep that no news end would last for ever.
ghost use Rattle.std.specs.Prelude.{List, []};
ghost use Rattle.xs_base.specs.declared.entry.Entry.{Entry};
ghost use Rattle.std.proofs.Common.{rules};

use crate::{ReadEnd, Sent, TryGot, WriteEnd, make_cell, steps};
use link_logs::{Cause, Got, Story};
use std::alloc::AllocError;
use xs_base::Batch;

// A link that carries nothing.
#[derive(Drop)]
struct Silence;

impl Story for Silence {
    type Run = u8;

    ghost run = { λ _. 0 };

    ghost number = { λ _. 7 };

    ghost entries_at = { λ _ _ _. [] };

    fn link(&self) -> u32 {
        7
    }

    ghost at_most_two = { Prim.search rules };
}

#[test]
fn a_publish_between_the_last_look_and_the_sleep_ends_it(
    rt: HostRuntime,
) -> Result<(), AllocError> {
    let (cell, mut w, mut r) = make_cell(rt.alloc(), Silence)?;
    let top = &cell.table.shared;
    let mut batch = Batch::new(rt.alloc());
    let saw_none = steps::news(top) == r.heard;
    cell.publish(&rt, &mut w, 5, &mut batch)?;
    cell.sleep(&rt, &r);
    let _ = cell.poll(&rt, &mut r);
    let _ = cell.poll(&rt, &mut r);
    let saw_no_more = steps::news(top) == r.heard;
    cell.end(&rt, &mut w, Cause::Memory);
    cell.sleep(&rt, &r);
    assert!(rt; saw_none && saw_no_more);
    Ok(())
}

// All is taken of a publish before its news are raised, which is then between the end's reading of the news and its next look.
#[test]
fn who_finds_nothing_has_not_heard_of_later_news(rt: HostRuntime) -> Result<(), AllocError> {
    let (cell, w, mut r) = make_cell(rt.alloc(), Silence)?;
    let WriteEnd { mut seat, mut end } = w;
    let top = &cell.table.shared;
    let mut batch = Batch::new(rt.alloc());
    if !steps::claim_to_write(top, &mut seat, &end) {
        panic!(rt; "the turn of a new cell is free");
    }
    steps::append(top, &mut seat, &mut end, 5, &mut batch)?;
    steps::give_written(top, &mut seat, &end);
    let is_read = matches!(cell.poll(&rt, &mut r), Got::Entries { .. });
    let before = steps::news(top);
    let news = steps::raise(top, &mut seat, &end);
    let is_empty = matches!(
        cell.take_after(&mut r, before),
        TryGot::Got(Got::Nothing { published: 5 })
    );
    cell.wake(news);
    cell.sleep(&rt, &r);
    assert!(rt; is_read && is_empty && r.heard == before);
    Ok(())
}

#[test]
fn who_looks_while_the_turn_is_held_is_told_so(rt: HostRuntime) -> Result<(), AllocError> {
    let (cell, w, mut r) = make_cell(rt.alloc(), Silence)?;
    let WriteEnd { mut seat, end } = w;
    let top = &cell.table.shared;
    if !steps::claim_to_write(top, &mut seat, &end) {
        panic!(rt; "the turn of a new cell is free");
    }
    let is_held = matches!(cell.try_take(&mut r), TryGot::Busy);
    steps::give_written(top, &mut seat, &end);
    let is_free = matches!(
        cell.try_take(&mut r),
        TryGot::Got(Got::Nothing { published: 0 })
    );
    assert!(rt; is_held && is_free && r.looks() == 1);
    Ok(())
}

#[test]
fn who_writes_while_the_turn_is_held_is_told_so(rt: HostRuntime) -> Result<(), AllocError> {
    let (cell, mut w, r) = make_cell(rt.alloc(), Silence)?;
    let ReadEnd { mut seat, end, .. } = r;
    let top = &cell.table.shared;
    let mut batch = Batch::new(rt.alloc());
    if !steps::claim_to_read(top, &mut seat, &end) {
        panic!(rt; "the turn of a new cell is free");
    }
    if cell.try_end(&mut w, Cause::Memory) {
        panic!(rt; "the turn is held");
    }
    let is_held = cell.try_publish(&mut w, 5, &mut batch) == Sent::Busy;
    assert!(rt; is_held && w.published() == 0 && w.cause().is_none());
    Ok(())
}
