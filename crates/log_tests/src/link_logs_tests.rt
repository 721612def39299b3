//! A log that is written and read by turns.
ghost use Rattle.std.specs.Prelude.{List, [], ◌∷◌, ◌==◌, if◌then◌else◌};
ghost use Rattle.xs_base.specs.declared.entry.Entry.{Entry};
ghost use Rattle.xs_base.specs.declared.entry.What.TheVariants.{Credit};
ghost use Rattle.std.proofs.Common.{rules};

use crate::header_bytes::{HeaderBytes, byte_in, header, holds, is_header};
use link_logs::{Cause, Got, Story, make_log};
use std::alloc::AllocError;
use xs_base::{Batch, Entry, What};

// A link that carries one credit, in slot 1.
#[derive(Drop)]
struct OneCredit;

impl Story for OneCredit {
    type Run = u8;

    ghost run = { λ _. 0 };

    ghost number = { λ _. 7 };

    ghost entries_at = { λ _ _ slot. if slot == 1 then (record { slot = 1; what = Credit }) ∷ [] else [] };

    fn link(&self) -> u32 {
        7
    }

    ghost at_most_two = { Prim.search rules };
}

#[test]
fn what_is_published_is_read(rt: HostRuntime) -> Result<(), AllocError> {
    let (mut log, mut w, mut r) = make_log(rt.alloc(), OneCredit)?;
    let nothing = matches!(log.take(&mut r), Got::Nothing { published: 0 });
    assert!(rt; nothing && OneCredit.link() == 7);

    let mut batch = Batch::new(rt.alloc());
    batch.reserve(1)?;
    let credit = Entry {
        slot: 1,
        what: What::Credit,
    };
    batch.add(credit);
    log.append(&mut w, 3, &mut batch)?;
    assert!(rt;
        batch.entries().is_empty()
            && w.published() == 3
            && log.published() == 3
            && log.entries() == [credit].as_slice()
    );
    let is_read = match log.take(&mut r) {
        Got::Entries { from, to, batch } => {
            from == 0 && to == 3 && batch.entries() == [credit].as_slice()
        }
        _ => false,
    };
    assert!(rt; is_read && r.got() == 3 && r.looks() == 2 && !r.is_shut());

    // Slots in which nothing is sent are published too.
    log.append(&mut w, 5, &mut batch)?;
    let is_read = match log.take(&mut r) {
        Got::Entries { from, to, batch } => from == 3 && to == 5 && batch.entries().is_empty(),
        _ => false,
    };
    let nothing = matches!(log.take(&mut r), Got::Nothing { published: 5 });
    log.close(&mut w, Cause::Neighbour { link: 4 });
    let is_closed = matches!(log.take(&mut r), Got::Closed);
    let cause = Some(Cause::Neighbour { link: 4 });
    assert!(rt; is_read && nothing && is_closed && w.cause() == cause && r.is_shut());
    Ok(())
}

#[test]
fn what_is_read_is_held_no_more_and_still_counted(rt: HostRuntime) -> Result<(), AllocError> {
    let (mut log, mut w, mut r) = make_log(rt.alloc(), HeaderBytes)?;
    let mut batch = header(rt.alloc())?;
    log.append(&mut w, 20, &mut batch)?;
    assert!(rt; holds(&log, 0, 2));
    let got = log.take(&mut r);
    assert!(rt; is_header(&got) && holds(&log, 20, 0));
    Ok(())
}

// The second append finds the first one's entry there.
#[test]
fn what_is_published_by_and_by_is_read_at_once(rt: HostRuntime) -> Result<(), AllocError> {
    let (mut log, mut w, mut r) = make_log(rt.alloc(), HeaderBytes)?;
    let mut batch = Batch::new(rt.alloc());
    batch.reserve(1)?;
    batch.add(byte_in(13, 0));
    log.append(&mut w, 15, &mut batch)?;
    batch.reserve(1)?;
    batch.add(byte_in(17, 1));
    log.append(&mut w, 20, &mut batch)?;
    assert!(rt; holds(&log, 0, 2));
    let got = log.take(&mut r);
    assert!(rt; is_header(&got) && holds(&log, 20, 0));
    Ok(())
}
