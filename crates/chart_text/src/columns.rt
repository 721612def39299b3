//! What all rows show in a slot.
ghost use Rattle.std.specs.Prelude.{◌≡◌, ◌+◌, ◌≤◌, ◌^◌, ◌<◌, ◌++◌, Some, map, length, slice_get, IfOk, OnOk};
ghost use Rattle.xs_base.specs.declared.numbers.TheConstants.{BUFFER_TOKENS, THREADS};
ghost use Rattle.xs_model.specs.Record.{NodeRec};
ghost use Rattle.core_step.specs.Core.{StandsFor};
ghost use Rattle.told_run.specs.Slots.{TellsNode};
ghost use Rattle.chart_model.specs.Columns.{thread_chars, count_char, link_char, taken_char, sent_char, token_chars, node_column, column_at, columns_from};

use chan_ends::ChanState;
use core_step::Core;
use link_ends::EndState;
use slot_marks::{mark_char, mark_in};
use std::alloc::{AllocError, Global};
use sys_plan::{NodePlan, Plan};
use told_run::ToldRun;
use xs_base::Text;

/// A column for each of the next slots of a run by a plan, so many as are asked. The error is want of memory, here and below.
pub(crate) fn columns(
    alloc: Global,
    run: &mut ToldRun,
    plan: &Plan,
    count: u32,
) -> Result<Vec<Text>, AllocError>
    requires plan { run.old.plan ≡ plan.now }
    requires slots { run.old.now + count < 2 ^ 32 }
    ensures plan { run.new.plan ≡ plan.now }
    ensures passed { OnOk result (run.new.now ≡ run.old.now + count) }
    ensures columns { IfOk result (λ columns. columns.items ≡ columns_from plan.now run.old.now count) }
{
    plan.keeps();
    let mut columns = Vec::new(alloc);
    for _ in 0..count {
        let slot = run.now();
        run.step()?;
        let column = column(alloc, run, plan.nodes(), slot)?;
        columns.push(column)?;
    }
    Ok(columns)
}

// The column of a slot, which the run has passed and tells; these are the nodes of its plan.
#[tactic(auto, unfolding(trace_model::specs::Trace::by_position))]
fn column(alloc: Global, run: &ToldRun, nodes: &[NodePlan], slot: u32) -> Result<Text, AllocError>
    requires nodes { run.now.plan.nodes ≡ nodes.now }
    requires few { length nodes.now ≤ 16 }
    requires told { run.now.slot ≡ Some slot }
    requires passed { run.now.now ≡ slot + 1 }
    ensures { IfOk result (λ column. column ≡ column_at run.now.plan slot) }
{
    let mut out = Text::new(alloc);
    for n in 0..nodes.len() {
        append_node(&mut out, run, slot, n as u8, &nodes[n])?;
    }
    Ok(out)
}

// The rows of the node at a position.
fn append_node(
    out: &mut Text,
    run: &ToldRun,
    slot: u32,
    n: u8,
    node: &NodePlan,
) -> Result<(), AllocError>
    requires tells { TellsNode run.now slot n node.now }
    ensures { OnOk result (out.new ≡ out.old ++ node_column run.now.plan slot n node.now) }
{
    append_threads(out, run, slot, n, node)?;
    append_tokens(out, run.core(n))?;
    Ok(())
}

// Its threads.
fn append_threads(
    out: &mut Text,
    run: &ToldRun,
    slot: u32,
    n: u8,
    node: &NodePlan,
) -> Result<(), AllocError>
    requires tells { TellsNode run.now slot n node.now }
    ensures { OnOk result (out.new ≡ out.old ++ thread_chars run.now.plan slot n node.now THREADS) }
{
    for k in 0..8u8 {
        out.append(&[mark_char(mark_in(run, slot, n, k))])?;
    }
    Ok(())
}

// Its link ends and channel ends.
fn append_tokens(out: &mut Text, core: &Core) -> Result<(), AllocError>
    ensures { (rec : NodeRec) → StandsFor core.now rec → OnOk result (out.new ≡ out.old ++ token_chars rec) }
{
    let chans = core.chan_ends();
    append_links(out, &core.link_ends())?;
    append_taken(out, &chans)?;
    append_sent(out, &chans)?;
    Ok(())
}

fn append_links(out: &mut Text, ends: &[EndState]) -> Result<(), AllocError>
    ensures { OnOk result (out.new ≡ out.old ++ map link_char ends.now) }
{
    for end in ends {
        out.append(&[count_char(end.buffer.len())])?;
    }
    Ok(())
}

fn append_taken(out: &mut Text, chans: &[ChanState]) -> Result<(), AllocError>
    ensures { OnOk result (out.new ≡ out.old ++ map taken_char chans.now) }
{
    for chan in chans {
        out.append(&[count_char(chan.input.len())])?;
    }
    Ok(())
}

fn append_sent(out: &mut Text, chans: &[ChanState]) -> Result<(), AllocError>
    ensures { OnOk result (out.new ≡ out.old ++ map sent_char chans.now) }
{
    for chan in chans {
        out.append(&[count_char(chan.output.len())])?;
    }
    Ok(())
}

// How many tokens wait, 0 to 8.
fn count_char(count: usize) -> u8
    requires few { count ≤ BUFFER_TOKENS }
    ensures { result ≡ count_char count }
{
    if count == 0 { b'.' } else { b'0' + count as u8 }
}
