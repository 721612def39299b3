//! What a snapshot keeps of a directed link or a wire.
ghost use Rattle.std.specs.Prelude.{◌≡◌, ◌+◌, ◌<◌, ◌^◌, IfOk, OnOk};
ghost use Rattle.std.specs.List.{AllByRecursion};
ghost use Rattle.xs_base.specs.declared.entry.Entry.{Entry};
ghost use Rattle.sys_plan.specs.Plan.{Arc};
ghost use Rattle.serial_model.specs.Serial.{level_or};
ghost use Rattle.snap_parts.specs.Parts.{seen};
ghost use Rattle.snap_model.specs.Saved.{saved_log};
ghost use Rattle.snap_run.specs.Keeping.{is_wire, log_with};

use snap_parts::SnapLog;
use std::alloc::{AllocError, Global};
use xs_base::{Batch, Entry, What};

/// What a snapshot before a slot keeps of an arc with this delay and this history, which is a wire or not. The error is want of memory.
pub(crate) fn saved_log(
    alloc: Global,
    history: &[Entry],
    delay: u32,
    wire: bool,
    slot: u32,
) -> Result<SnapLog, AllocError>
    requires before { AllByRecursion (λ (e : Entry). e.slot < slot) history.now }
    ensures saved { IfOk result (λ log. (d : Arc) → d.delay ≡ delay → is_wire d.joins ≡ wire → seen log ≡ saved_log slot d history.now) }
{
    let from = slot.saturating_sub(delay);
    let mut log = SnapLog {
        entries: Batch::new(alloc),
        totals: (0, 0),
        level: 0,
    };
    for e in history {
        keep(&mut log, *e, from, wire)?;
    }
    Ok(log)
}

// One more entry of an arc: it is in flight where it was sent in this slot or after it, and else it has arrived. The error is want of
// memory.
fn keep(log: &mut SnapLog, e: Entry, from: u32, wire: bool) -> Result<(), AllocError>
    requires few { log.old.totals.0 + log.old.totals.1 < 2 ^ 63 }
    ensures kept { OnOk result (seen log.new ≡ log_with from wire (seen log.old) e) }
{
    match e.what {
        What::Token(_) | What::Level(_) => log.totals.0 += 1,
        What::Credit => log.totals.1 += 1,
    }
    if from <= e.slot {
        log.entries.reserve(1)?;
        log.entries.add(e);
    } else if wire {
        log.level = level_after(e.what, log.level);
    }
    Ok(())
}

// The level that an entry leaves, where it was this before it.
fn level_after(what: What, before: u32) -> u32
    ensures value { result ≡ level_or what before }
{
    match what {
        What::Level(level) => level,
        _ => before,
    }
}
