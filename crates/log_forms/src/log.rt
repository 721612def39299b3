//! What a snapshot keeps of directed links and wires as bytes.
ghost use Rattle.std.specs.Prelude.{◌≡◌, ◌≤◌, ◌<◌, ◌^◌, ◌++◌, ℕ, length, Option, OnOk};
ghost use Rattle.byte_forms.specs.Forms.{repeat};
ghost use Rattle.byte_forms.specs.Reading.{Gives};
ghost use Rattle.log_forms.specs.Entries.{any_entry};
ghost use Rattle.log_forms.specs.Windows.{EndsRec};
ghost use Rattle.snap_parts.specs.Parts.{seen};
ghost use Rattle.log_forms.specs.Logs.{link_entries, link_log, sums, wire_entries, wire_log};

use crate::ends::Ends;
use crate::entry::{Before, read_link_count, read_link_entry, read_wire_entry, write_entry};
use byte_forms::{Fault, Reader, write_long, write_word};
use snap_parts::SnapLog;
use std::alloc::{AllocError, Global};
use xs_base::{Batch, Entry, Text};

// Reads so many entries of a directed link. Memory is taken as they are read.
fn read_link_entries(
    alloc: Global,
    from: &mut Reader,
    slot: u32,
    delay: u32,
    ends: &Option<Ends>,
    count: u32,
) -> Result<Batch, Fault>
    ensures value { Gives (link_entries slot delay ends.now count) (λ batch. batch.entries) from.old result from.new }
{
    let mut entries = Batch::new(alloc);
    let mut before = Before::none();
    for _ in 0..count {
        let e = read_link_entry(from, slot, delay, ends, count as usize, before)?;
        entries.reserve(1)?;
        entries.add(e);
        before = before.with(e);
    }
    Ok(entries)
}

// Reads so many entries of a wire. Memory is taken as they are read.
fn read_wire_entries(
    alloc: Global,
    from: &mut Reader,
    slot: u32,
    delay: u32,
    width: u8,
    count: u32,
) -> Result<Batch, Fault>
    requires width { width ≤ 32 }
    ensures value { Gives (wire_entries slot delay width count) (λ batch. batch.entries) from.old result from.new }
{
    let mut entries = Batch::new(alloc);
    let mut last = None;
    for _ in 0..count {
        let e = read_wire_entry(from, slot, delay, width, last)?;
        entries.reserve(1)?;
        entries.add(e);
        last = Some(e);
    }
    Ok(entries)
}

// Reads how much was sent since slot 0, and a level below a limit.
#[tactic(auto, unfolding(crate::specs::Logs::sums))]
fn read_sums(from: &mut Reader, limit: u64) -> Result<((u64, u64), u32), Fault>
    ensures value { Gives (sums limit) (λ x. (x.0.0, (x.0.1, x.1))) from.old result from.new }
{
    let tokens = from.read_long_below(1 << 63)?;
    let credits = from.read_long_below(1 << 63)?;
    let level = from.read_word_below(limit)?;
    Ok(((tokens, credits), level))
}

/// Reads a directed link of a snapshot of this slot, with the delay of its link in slots. Of the second directed link of a link `ends` is
/// what is known of its two ends; of the first it is None. The fault is the first field that is wrong or cut, or want of memory.
#[tactic(auto, unfolding(crate::specs::Logs::link_log))]
pub fn read_link_log(
    alloc: Global,
    from: &mut Reader,
    slot: u32,
    delay: u32,
    ends: &Option<Ends>,
) -> Result<SnapLog, Fault>
    ensures value { Gives (link_log slot delay ends.now) seen from.old result from.new }
{
    let count = read_link_count(from, ends)?;
    let entries = read_link_entries(alloc, from, slot, delay, ends, count)?;
    let (totals, level) = read_sums(from, 1)?;
    Ok(SnapLog {
        entries,
        totals,
        level,
    })
}

/// Reads a wire of a snapshot of this slot, with its delay in slots and the width of its pins. The fault is the first field that is wrong
/// or cut, or want of memory.
#[tactic(auto, unfolding(crate::specs::Logs::wire_log))]
pub fn read_wire_log(
    alloc: Global,
    from: &mut Reader,
    slot: u32,
    delay: u32,
    width: u8,
) -> Result<SnapLog, Fault>
    requires width { width ≤ 32 }
    ensures value { Gives (wire_log slot delay width) seen from.old result from.new }
{
    let count = from.read_word()?;
    let entries = read_wire_entries(alloc, from, slot, delay, width, count)?;
    let (totals, level) = read_sums(from, 1 << width)?;
    Ok(SnapLog {
        entries,
        totals,
        level,
    })
}

// Writes entries, in order.
fn write_entries(out: &mut Text, entries: &[Entry]) -> Result<(), AllocError>
    ensures value { OnOk result (out.new ≡ out.old ++ (repeat (length entries.now) any_entry).write entries.now) }
{
    for e in entries {
        write_entry(out, *e)?;
    }
    Ok(())
}

/// Writes what a snapshot keeps of a directed link or a wire. The error is want of memory.
pub fn write_log(out: &mut Text, log: &SnapLog) -> Result<(), AllocError>
    requires few { length log.now.entries.entries < 2 ^ 32 }
    ensures link { (slot delay : ℕ) (ends : Option EndsRec) → OnOk result (out.new ≡ out.old ++ (link_log slot delay ends).write (seen log.now)) }
    ensures wire { (slot delay width : ℕ) → OnOk result (out.new ≡ out.old ++ (wire_log slot delay width).write (seen log.now)) }
{
    let entries = log.entries.entries();
    write_word(out, entries.len() as u32)?;
    write_entries(out, entries)?;
    write_long(out, log.totals.0)?;
    write_long(out, log.totals.1)?;
    write_word(out, log.level)
}
