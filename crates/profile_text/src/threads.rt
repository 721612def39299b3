//! What the threads of a node did.
ghost use Rattle.std.specs.Prelude.{◌≡◌, ◌<◌, ◌++◌, length, slice_index_or, OnOk};
ghost use Rattle.xs_base.specs.declared.numbers.TheConstants.{THREADS};
ghost use Rattle.profile_model.specs.declared.TheConstants.{KINDS};
ghost use Rattle.profile_model.specs.Profile.{kind_name, kind_text, kinds_text, shown_line, thread_line};
ghost use Rattle.run_counts.specs.Tallies.{at};
ghost use Rattle.profile_text.specs.Counted.{threads_by};

use crate::words::append_node_name;
use decimal_text::append_decimal;
use look_words::append_thread_name;
use profile_model::KINDS;
use std::alloc::AllocError;
use sys_plan::NodePlan;
use xs_base::Text;

/// The lines of the threads of a node that were not free in all of so many slots, by how many slots a chart shows them by each character. The error is
/// want of memory, here and below.
pub(crate) fn append_threads(
    out: &mut Text,
    node: &NodePlan,
    slots: u32,
    counts: &[[u64; 256]; 8],
) -> Result<(), AllocError>
    ensures { OnOk result (out.new ≡ out.old ++ threads_by node.now slots counts.now THREADS) }
{
    for k in 0..8u8 {
        append_thread(out, node, k, slots, &counts[k as usize])?;
    }
    Ok(())
}

// That of a thread.
fn append_thread(
    out: &mut Text,
    node: &NodePlan,
    k: u8,
    slots: u32,
    counts: &[u64; 256],
) -> Result<(), AllocError>
    ensures { OnOk result (out.new ≡ out.old ++ thread_line node.now slots k (at counts.now)) }
{
    if counts[b'-' as usize] == u64::from(slots) {
        return Ok(());
    }
    append_shown(out, node, k, counts)
}

// `nN.tT NAME C NAME C ..`.
fn append_shown(
    out: &mut Text,
    node: &NodePlan,
    k: u8,
    counts: &[u64; 256],
) -> Result<(), AllocError>
    ensures { OnOk result (out.new ≡ out.old ++ shown_line node.now k (at counts.now)) }
{
    append_node_name(out, node)?;
    out.append(b".")?;
    append_thread_name(out, k)?;
    append_kinds(out, counts)?;
    out.append(b"\n")?;
    Ok(())
}

// In how many slots it did what.
fn append_kinds(out: &mut Text, counts: &[u64; 256]) -> Result<(), AllocError>
    ensures { OnOk result (out.new ≡ out.old ++ kinds_text (at counts.now) (length KINDS)) }
{
    for i in 0..19u8 {
        append_kind(out, counts[kind(i) as usize], kind_name(i))?;
    }
    Ok(())
}

fn kind(i: u8) -> u8
    requires { i < length KINDS }
    ensures { result ≡ slice_index_or KINDS i 0 }
{
    KINDS[i as usize]
}

fn kind_name(i: u8) -> &'static [u8]
    requires { i < length KINDS }
    ensures { result.now ≡ kind_name i }
{
    match i {
        0 => b"done",
        1 => b"pauses",
        2 => b"traps",
        3 => b"events",
        4 => b"interrupts",
        5 => b"ready",
        6 => b"between",
        7 => b"tokens",
        8 => b"room",
        9 => b"port",
        10 => b"timer",
        11 => b"lock",
        12 => b"slaves",
        13 => b"divider",
        14 => b"waiteu",
        15 => b"sync",
        16 => b"unstarted",
        17 => b"halted",
        _ => b"free",
    }
}

// ` NAME C`, where it did.
fn append_kind(out: &mut Text, count: u64, name: &[u8]) -> Result<(), AllocError>
    ensures { OnOk result (out.new ≡ out.old ++ kind_text count name.now) }
{
    if count == 0 {
        return Ok(());
    }
    out.append(b" ")?;
    out.append(name)?;
    out.append(b" ")?;
    append_decimal(out, count)
}
