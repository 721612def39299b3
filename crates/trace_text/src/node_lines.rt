//! The lines of a node: what of its events was left out, its halted threads, and the words of its memory.
ghost use Rattle.std.specs.Prelude.{◌≡◌, ◌<◌, ◌++◌, length, OnOk};
ghost use Rattle.xs_base.specs.declared.numbers.TheConstants.{MEMORY_START};
ghost use Rattle.xs_model.specs.Memory.{words_of};
ghost use Rattle.trace_merge.specs.Nodes.{AreWithinCounts, AreOfNodes};
ghost use Rattle.trace_model.specs.Trace.{number_at, event_lines, more_line, halted_line, halted_lines, memory_line, memory_lines, end_line};

use core_memory::words_in_order;
use core_step::Core;
use decimal_text::append_decimal;
use line_text::{append_hex_word, line_of};
use std::alloc::{AllocError, Global};
use sys_plan::NodePlan;
use xs_base::Text;
use xs_base::numbers::MEMORY_START;
use xs_model::{Event, Run};

// How many words the memory has.
const MEMORY_WORDS: u32 = 16384;

// The line of each event, with the number of the node at its position.
pub(crate) fn append_event_lines(
    out: &mut Text,
    alloc: Global,
    nodes: &[NodePlan],
    events: &[(u8, Event)],
) -> Result<(), AllocError>
    requires within { AreWithinCounts events.now }
    requires positions { AreOfNodes (length nodes.now) events.now }
    ensures { OnOk result (out.new ≡ out.old ++ event_lines nodes.now events.now) }
{
    for e in events {
        line_of(alloc, number_of(nodes, e.0), e.1, out)?;
    }
    Ok(())
}

// The number of the node at a position.
fn number_of(nodes: &[NodePlan], k: u8) -> u8
    requires { k < length nodes.now }
    ensures { result ≡ number_at nodes.now k }
{
    nodes[k as usize].number
}

// How many events were left out, where some were.
pub(crate) fn append_more_line(out: &mut Text, node: u8, count: u64) -> Result<(), AllocError>
    ensures { OnOk result (out.new ≡ out.old ++ more_line node count) }
{
    if count == 0 {
        return Ok(());
    }
    out.append(b"n")?;
    append_decimal(out, u64::from(node))?;
    out.append(b" more ")?;
    append_decimal(out, count)?;
    out.append(b"\n")
}

// The line of each thread that halted.
pub(crate) fn append_halted_lines(out: &mut Text, node: u8, core: &Core) -> Result<(), AllocError>
    ensures { OnOk result (out.new ≡ out.old ++ halted_lines node 0 core.now.core.threads) }
{
    for k in 0..8 {
        append_halted_line(out, node, k, core.run_of(k))?;
    }
    Ok(())
}

// The line of thread k, where it halted.
fn append_halted_line(out: &mut Text, node: u8, k: u8, run: Run) -> Result<(), AllocError>
    ensures { OnOk result (out.new ≡ out.old ++ halted_line node k run) }
{
    if !matches!(run, Run::Halted) {
        return Ok(());
    }
    out.append(b"n")?;
    append_decimal(out, u64::from(node))?;
    out.append(b".t")?;
    append_decimal(out, u64::from(k))?;
    out.append(b" halted\n")
}

// The line of each word of the memory that isn't 0.
pub(crate) fn append_memory_lines(out: &mut Text, node: u8, core: &Core) -> Result<(), AllocError>
    ensures { OnOk result (out.new ≡ out.old ++ memory_lines node MEMORY_START (words_of core.now.core.memory)) }
{
    words_in_order();
    for k in 0..MEMORY_WORDS {
        let at = MEMORY_START + 4 * k;
        // Each such address is one of a word.
        let w = core.word(at).unwrap();
        append_memory_line(out, node, at, w)?;
    }
    Ok(())
}

// The line of the word at an address, where it isn't 0.
fn append_memory_line(out: &mut Text, node: u8, at: u32, w: u32) -> Result<(), AllocError>
    ensures { OnOk result (out.new ≡ out.old ++ memory_line node at w) }
{
    if w == 0 {
        return Ok(());
    }
    out.append(b"n")?;
    append_decimal(out, u64::from(node))?;
    out.append(b" mem ")?;
    append_hex_word(out, at)?;
    out.append(b" ")?;
    append_hex_word(out, w)?;
    out.append(b"\n")
}

// The last line, with the number of slots.
pub(crate) fn append_end_line(out: &mut Text, slots: u32) -> Result<(), AllocError>
    ensures { OnOk result (out.new ≡ out.old ++ end_line slots) }
{
    out.append(b"end ")?;
    append_decimal(out, u64::from(slots))?;
    out.append(b"\n")
}
