//! The lines of a step.
ghost use Rattle.std.specs.Prelude.{◌≡◌, ◌<◌, ◌++◌, length, OnOk};
ghost use Rattle.std.specs.List.{flat_map};
ghost use Rattle.trace_model.specs.Trace.{number_at};
ghost use Rattle.play_model.specs.PlayText.{carried_text, entry_line, level_text, played_lines, run_line, send_line, take_line};
ghost use Rattle.run_drive.specs.Played.{line_of};
ghost use Rattle.play_text.specs.Steps.{IsOfNodes};

use decimal_text::append_decimal;
use line_text::{append_hex_word, append_link_end, append_token};
use run_drive::PlayLine;
use std::alloc::AllocError;
use sys_plan::{NodePlan, Step};
use xs_base::{Entry, Text, What};

// The lines of a step, with the number of the node at its position.
pub(crate) fn append_step(
    out: &mut Text,
    nodes: &[NodePlan],
    line: &PlayLine,
) -> Result<(), AllocError>
    requires node { IsOfNodes (length nodes.now) line.now }
    ensures { OnOk result (out.new ≡ out.old ++ played_lines nodes.now (line_of line.now)) }
{
    match line.step {
        Step::Take { node, end } => append_take(out, number_of(nodes, node), end, line.number),
        Step::Run { node, .. } => append_run(out, number_of(nodes, node), line.number),
        Step::Send { node, end } => {
            let number = number_of(nodes, node);
            append_send(out, number, end, line.number)?;
            append_entries(out, number, end, line.batch.entries())
        }
    }
}

// The number of the node at a position.
fn number_of(nodes: &[NodePlan], k: u8) -> u8
    requires { k < length nodes.now }
    ensures { result ≡ number_at nodes.now k }
{
    nodes[k as usize].number
}

// `take N:E seen K`
fn append_take(out: &mut Text, node: u8, end: u8, seen: u32) -> Result<(), AllocError>
    ensures { OnOk result (out.new ≡ out.old ++ take_line node end seen) }
{
    out.append(b"take ")?;
    append_link_end(out, node, end)?;
    out.append(b" seen ")?;
    append_decimal(out, u64::from(seen))?;
    out.append(b"\n")
}

// `run N clock K`
fn append_run(out: &mut Text, node: u8, clock: u32) -> Result<(), AllocError>
    ensures { OnOk result (out.new ≡ out.old ++ run_line node clock) }
{
    out.append(b"run ")?;
    append_decimal(out, u64::from(node))?;
    out.append(b" clock ")?;
    append_decimal(out, u64::from(clock))?;
    out.append(b"\n")
}

// `send N:E published K`
fn append_send(out: &mut Text, node: u8, end: u8, published: u32) -> Result<(), AllocError>
    ensures { OnOk result (out.new ≡ out.old ++ send_line node end published) }
{
    out.append(b"send ")?;
    append_link_end(out, node, end)?;
    out.append(b" published ")?;
    append_decimal(out, u64::from(published))?;
    out.append(b"\n")
}

// The line of each entry that a send published.
fn append_entries(out: &mut Text, node: u8, end: u8, entries: &[Entry]) -> Result<(), AllocError>
    ensures { OnOk result (out.new ≡ out.old ++ flat_map (entry_line node end) entries.now) }
{
    for e in entries {
        append_entry(out, node, end, *e)?;
    }
    Ok(())
}

// `entry N:E SLOT WHAT`
fn append_entry(out: &mut Text, node: u8, end: u8, e: Entry) -> Result<(), AllocError>
    ensures { OnOk result (out.new ≡ out.old ++ entry_line node end e) }
{
    out.append(b"entry ")?;
    append_link_end(out, node, end)?;
    out.append(b" ")?;
    append_decimal(out, u64::from(e.slot))?;
    out.append(b" ")?;
    append_carried(out, e.what)?;
    out.append(b"\n")
}

// `dt V`, `ct V` or `credit`, and of a wire `level V`
fn append_carried(out: &mut Text, what: What) -> Result<(), AllocError>
    ensures { OnOk result (out.new ≡ out.old ++ carried_text what) }
{
    match what {
        What::Token(token) => append_token(out, token),
        What::Credit => out.append(b"credit"),
        What::Level(level) => append_level(out, level),
    }
}

// `level V`
fn append_level(out: &mut Text, level: u32) -> Result<(), AllocError>
    ensures { OnOk result (out.new ≡ out.old ++ level_text level) }
{
    out.append(b"level ")?;
    append_hex_word(out, level)
}
