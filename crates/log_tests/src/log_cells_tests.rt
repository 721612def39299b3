//! A cell that its two ends use, by turns and from two threads.
ghost use Rattle.std.specs.Prelude.{◌≡◌, List, [], None};
ghost use Rattle.xs_base.specs.declared.entry.Entry.{Entry};
ghost use Rattle.log_cells.specs.Ends.{WritesTo, ReadsOf};
ghost use Rattle.std.proofs.Common.{rules};

use crate::header_bytes::{HeaderBytes, header, holds, is_header};
use link_logs::{Cause, Got, Story};
use log_cells::{Cell, ReadEnd, Sent, TryGot, WriteEnd, make_cell};
use std::alloc::{AllocError, Global};
use std::sync::Wait;
use std::thread;
use std::time::{Clock, Duration};
use xs_base::Batch;

// A link that carries nothing.
#[derive(Drop)]
struct Silence;

impl Story for Silence {
    type Run = u8;

    ghost run = { λ _. 0 };

    ghost number = { λ _. 7 };

    ghost entries_at = { λ _ _ _. [] };

    fn link(&self) -> u32 {
        7
    }

    ghost at_most_two = { Prim.search rules };
}

#[test]
fn what_is_published_is_polled_once(rt: HostRuntime) -> Result<(), AllocError> {
    let (cell, mut w, mut r) = make_cell(rt.alloc(), Silence)?;
    let mut batch = Batch::new(rt.alloc());
    cell.publish(&rt, &mut w, 5, &mut batch)?;
    assert!(rt; batch.entries().is_empty() && w.published() == 5 && w.cause().is_none());
    let is_read = match cell.poll(&rt, &mut r) {
        Got::Entries { from, to, batch } => from == 0 && to == 5 && batch.entries().is_empty(),
        _ => false,
    };
    let nothing = matches!(cell.poll(&rt, &mut r), Got::Nothing { published: 5 });
    assert!(rt; is_read && nothing && r.got() == 5 && r.looks() == 2 && !r.is_shut());
    Ok(())
}

#[test]
fn what_is_published_at_once_is_taken_once(rt: HostRuntime) -> Result<(), AllocError> {
    let (cell, mut w, mut r) = make_cell(rt.alloc(), Silence)?;
    let mut batch = Batch::new(rt.alloc());
    match cell.try_publish(&mut w, 5, &mut batch) {
        Sent::Done => {}
        Sent::Busy | Sent::Memory => panic!(rt; "nobody else has the turn"),
    }
    let is_read = match cell.try_take(&mut r) {
        TryGot::Got(Got::Entries { from, to, batch }) => {
            from == 0 && to == 5 && batch.entries().is_empty()
        }
        _ => false,
    };
    let nothing = matches!(
        cell.try_take(&mut r),
        TryGot::Got(Got::Nothing { published: 5 })
    );
    assert!(rt; is_read && nothing && w.published() == 5 && r.got() == 5);
    let is_closed = cell.try_end(&mut w, Cause::Memory);
    let is_found = matches!(cell.try_take(&mut r), TryGot::Got(Got::Closed));
    assert!(rt; is_closed && is_found && r.looks() == 3 && r.is_shut());
    Ok(())
}

#[test]
fn a_closed_log_is_read_to_its_end_and_comes_home(rt: HostRuntime) -> Result<(), AllocError> {
    let (cell, mut w, mut r) = make_cell(rt.alloc(), Silence)?;
    let mut batch = Batch::new(rt.alloc());
    cell.publish(&rt, &mut w, 3, &mut batch)?;
    cell.end(&rt, &mut w, Cause::Neighbour { link: 2 });
    let news = cell.wait_news(&rt, &mut r);
    let is_read = matches!(
        news,
        Got::Entries {
            from: 0,
            to: 3,
            batch: _
        }
    );
    assert!(rt; is_read && w.cause() == Some(Cause::Neighbour { link: 2 }));
    let first = matches!(cell.wait_news(&rt, &mut r), Got::Closed);
    let second = matches!(cell.poll(&rt, &mut r), Got::Closed);
    // Nothing comes any more, and nobody waits for it.
    cell.await_news(&rt, &r, 3);
    let third = matches!(cell.wait_news(&rt, &mut r), Got::Closed);
    assert!(rt; first && second && third && r.got() == 3 && r.looks() == 4 && r.is_shut());
    let log = cell.done(w, r);
    assert!(rt; log.published() == 3 && log.entries().is_empty());
    Ok(())
}

#[test]
fn what_is_polled_is_held_no_more_and_still_counted(rt: HostRuntime) -> Result<(), AllocError> {
    let (cell, mut w, mut r) = make_cell(rt.alloc(), HeaderBytes)?;
    let mut batch = header(rt.alloc())?;
    cell.publish(&rt, &mut w, 20, &mut batch)?;
    let got = cell.poll(&rt, &mut r);
    let log = cell.done(w, r);
    assert!(rt; is_header(&got) && holds(&log, 20, 0));
    Ok(())
}

#[test]
fn what_was_not_polled_comes_home(rt: HostRuntime) -> Result<(), AllocError> {
    let (cell, mut w, r) = make_cell(rt.alloc(), HeaderBytes)?;
    let mut batch = header(rt.alloc())?;
    cell.publish(&rt, &mut w, 20, &mut batch)?;
    let log = cell.done(w, r);
    assert!(rt; holds(&log, 0, 2));
    Ok(())
}

#[test]
fn who_has_not_found_nothing_does_not_wait(rt: HostRuntime) -> Result<(), AllocError> {
    let (cell, mut w, mut r) = make_cell(rt.alloc(), Silence)?;
    let mut batch = Batch::new(rt.alloc());
    cell.publish(&rt, &mut w, 5, &mut batch)?;
    cell.end(&rt, &mut w, Cause::Memory);
    cell.await_news(&rt, &r, 3);
    let is_read = matches!(cell.poll(&rt, &mut r), Got::Entries { .. });
    // The log was closed before this poll, which did not say so.
    cell.await_news(&rt, &r, 3);
    assert!(rt; is_read && matches!(cell.poll(&rt, &mut r), Got::Closed));
    Ok(())
}

// Publishes up to slot 5 after a while, and then closes the log.
fn publish_late<R: Wait + Clock>(
    rt: &R,
    alloc: Global,
    cell: &Cell<Silence>,
    mut w: WriteEnd<Silence>,
) -> Result<(), AllocError>
    requires cell { WritesTo w cell.now }
    requires new { (w.end.published ≡ 0) × (w.end.cause ≡ None) }
{
    thread::sleep(rt, Duration::from_millis(30));
    let mut batch = Batch::new(alloc);
    cell.publish(rt, &mut w, 5, &mut batch)?;
    thread::sleep(rt, Duration::from_millis(30));
    cell.end(rt, &mut w, Cause::Memory);
    Ok(())
}

// Publishes up to slot 5 after a while, and leaves the log open.
fn publish_alone<R: Wait + Clock>(
    rt: &R,
    alloc: Global,
    cell: &Cell<Silence>,
    mut w: WriteEnd<Silence>,
) -> Result<(), AllocError>
    requires cell { WritesTo w cell.now }
    requires new { (w.end.published ≡ 0) × (w.end.cause ≡ None) }
{
    thread::sleep(rt, Duration::from_millis(30));
    let mut batch = Batch::new(alloc);
    cell.publish(rt, &mut w, 5, &mut batch)
}

// How many slots were waited for, until the log was closed.
fn hear<R: Wait>(rt: &R, cell: &Cell<Silence>, mut r: ReadEnd<Silence>) -> u32
    requires { ReadsOf r cell.now }
{
    for _ in rt.forever() {
        if matches!(cell.wait_news(rt, &mut r), Got::Closed) {
            break;
        }
    }
    r.got()
}

// How many slots were read, once there was something to read.
fn hear_once<R: Wait>(rt: &R, cell: &Cell<Silence>, mut r: ReadEnd<Silence>) -> u32
    requires { ReadsOf r cell.now }
{
    let news = cell.wait_news(rt, &mut r);
    if matches!(news, Got::Closed) {
        return 0;
    }
    r.got()
}

// It would sleep for ever where only a close woke it.
#[test]
fn a_publish_alone_wakes_a_sleeper(rt: HostRuntime) -> Result<(), AllocError> {
    let alloc = rt.alloc();
    let (cell, w, r) = make_cell(alloc, Silence)?;
    let (told, heard) = thread::join(
        &rt,
        || publish_alone(&rt, alloc, &cell, w),
        || hear_once(&rt, &cell, r),
    );
    told?;
    assert!(rt; heard == 5);
    Ok(())
}

#[test]
fn a_sleeper_wakes_at_each_news(rt: HostRuntime) -> Result<(), AllocError> {
    let alloc = rt.alloc();
    let (cell, w, r) = make_cell(alloc, Silence)?;
    let (told, heard) = thread::join(
        &rt,
        || publish_late(&rt, alloc, &cell, w),
        || hear(&rt, &cell, r),
    );
    told?;
    assert!(rt; heard == 5);
    Ok(())
}
