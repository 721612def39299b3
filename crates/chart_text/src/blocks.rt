//! The blocks of a chart, and the whole.
ghost use Rattle.std.specs.Prelude.{◌≡◌, ◌+◌, ◌-◌, ◌≤◌, ◌^◌, ◌<◌, ◌++◌, IfOk, OnOk};
ghost use Rattle.chart_model.specs.Chart.{block_text, blocks_text, block_count, chart_of};
ghost use Rattle.chart_model.specs.declared.TheConstants.{BLOCK_SLOTS, MOST_CHARTED};

use crate::columns::columns;
use crate::rows::append_rows;
use crate::ruler::append_ruler;
use chart_model::{BLOCK_SLOTS, MOST_CHARTED};
use look_words::{append_end, append_more};
use std::alloc::{AllocError, Global};
use sys_plan::Plan;
use told_run::ToldRun;
use xs_base::Text;

/// What each thread does in each slot of a run of so many slots by a plan, from slot `from` on, and which tokens wait: a character each. The
/// error is want of memory. See docs/LOOK.md.
pub fn chart(alloc: Global, plan: &Plan, slots: u32, from: u32) -> Result<Text, AllocError>
    ensures text { IfOk result (λ text. text ≡ chart_of plan.now slots from) }
{
    let left = slots.saturating_sub(from);
    let count = MOST_CHARTED.min(left);
    let mut out = Text::new(alloc);
    append_charted(alloc, &mut out, plan, from, count)?;
    append_more(&mut out, u64::from(left.saturating_sub(MOST_CHARTED)))?;
    append_end(&mut out, slots)?;
    Ok(out)
}

// The blocks of so many slots from one on.
fn append_charted(
    alloc: Global,
    out: &mut Text,
    plan: &Plan,
    from: u32,
    count: u32,
) -> Result<(), AllocError>
    requires count { count ≤ MOST_CHARTED }
    requires slots { from + count < 2 ^ 32 }
    ensures { OnOk result (out.new ≡ out.old ++ blocks_text plan.now from count (block_count count)) }
{
    if count == 0 {
        return Ok(());
    }
    let mut run = ToldRun::new(alloc, plan)?;
    run.run(from)?;
    append_blocks(alloc, out, &mut run, plan, count)?;
    Ok(())
}

// Those of the next slots of a run.
fn append_blocks(
    alloc: Global,
    out: &mut Text,
    run: &mut ToldRun,
    plan: &Plan,
    count: u32,
) -> Result<(), AllocError>
    requires plan { run.old.plan ≡ plan.now }
    requires count { count ≤ MOST_CHARTED }
    requires slots { run.old.now + count < 2 ^ 32 }
    ensures { OnOk result (out.new ≡ out.old ++ blocks_text plan.now run.old.now count (block_count count)) }
{
    for k in 0..(count + (BLOCK_SLOTS - 1)) / BLOCK_SLOTS {
        let here = BLOCK_SLOTS.min(count - BLOCK_SLOTS * k);
        append_block(alloc, out, run, plan, here)?;
    }
    Ok(())
}

// One block.
fn append_block(
    alloc: Global,
    out: &mut Text,
    run: &mut ToldRun,
    plan: &Plan,
    count: u32,
) -> Result<(), AllocError>
    requires plan { run.old.plan ≡ plan.now }
    requires count { count ≤ BLOCK_SLOTS }
    requires slots { run.old.now + count < 2 ^ 32 }
    ensures text { OnOk result (out.new ≡ out.old ++ block_text plan.now run.old.now count) }
    ensures plan { run.new.plan ≡ plan.now }
    ensures passed { OnOk result (run.new.now ≡ run.old.now + count) }
{
    let from = run.now();
    let columns = columns(alloc, run, plan, count)?;
    append_ruler(alloc, out, from, count)?;
    append_rows(alloc, out, plan, &columns)?;
    out.append(b"\n")
}
