//! A line for each issue.
ghost use Rattle.std.specs.Prelude.{◌≡◌, ◌+◌, ◌-◌, ◌*◌, ◌^◌, ◌<◌, ◌≤◌, Some, map, IfOk, OnOk};
ghost use Rattle.issue_model.specs.Issues.{slot_lines, lines_from, issues_of};
ghost use Rattle.issue_text.specs.Kept.{Adds};
ghost use Rattle.issue_text.specs.NodeSlots.{AreSources, numbers_of};

use crate::lines::Lines;
use crate::sources::{Sources, printers_of};
use std::alloc::{AllocError, Global};
use sys_plan::Plan;
use told_run::ToldRun;
use xs_base::Text;

/// A line for each issue of a run of so many slots by a plan, from slot `from` on. `lines` has, for each node by position, the line of its source
/// that each of its instructions comes from. The error is want of memory. See docs/LOOK.md.
pub fn issues<'a>(
    alloc: Global,
    plan: &'a Plan,
    lines: &'a [Vec<u32>],
    slots: u32,
    from: u32,
) -> Result<Text, AllocError>
    ensures text { IfOk result (λ text. text ≡ issues_of plan.now (map (λ numbers. numbers.items) lines.now) slots from) }
{
    let mut kept = Lines::new(alloc);
    if from >= slots {
        return kept.into_text(slots);
    }
    let printers = printers_of(alloc, plan)?;
    let printers = printers.as_slice();
    let mut run = ToldRun::new(alloc, plan)?;
    run.run(from)?;
    let sources = Sources {
        plan,
        printers,
        lines,
    };
    tell_slots(&mut run, &sources, slots, &mut kept)?;
    let text = kept.into_text(slots)?;
    Ok(text)
}

// The slots that come next, before one.
fn tell_slots(
    run: &mut ToldRun,
    sources: &Sources,
    slots: u32,
    kept: &mut Lines,
) -> Result<(), AllocError>
    requires within { run.old.now ≤ slots }
    requires sources { AreSources run.old.plan sources.now }
    requires count { kept.old.count ≤ 16 * run.old.now }
    ensures lines { OnOk result (Adds kept.old kept.new (lines_from (slot_lines run.old.plan (numbers_of sources.now)) run.old.now (slots - run.old.now))) }
{
    while run.now() < slots {
        tell_slot(run, sources, kept)?;
    }
    Ok(())
}

// The next slot.
fn tell_slot(run: &mut ToldRun, sources: &Sources, kept: &mut Lines) -> Result<(), AllocError>
    requires slot { run.old.now < 2 ^ 32 - 1 }
    requires sources { AreSources run.old.plan sources.now }
    requires count { kept.old.count ≤ 16 * run.old.now }
    ensures lines { OnOk result (Adds kept.old kept.new (slot_lines run.old.plan (numbers_of sources.now) run.old.now)) }
    ensures count { OnOk result (kept.new.count ≤ 16 * run.new.now) }
    ensures plan { run.new.plan ≡ run.old.plan }
    ensures passed { OnOk result (run.new.now ≡ run.old.now + 1) }
{
    let slot = run.now();
    run.step()?;
    add_lines(run, sources, slot, kept)?;
    Ok(())
}

// The lines of all nodes in a slot that was told.
fn add_lines<'a>(
    run: &'a ToldRun,
    sources: &'a Sources<'a>,
    slot: u32,
    kept: &mut Lines,
) -> Result<(), AllocError>
    requires sources { AreSources run.now.plan sources.now }
    requires told { run.now.slot ≡ Some slot }
    requires passed { run.now.now ≡ slot + 1 }
    requires count { kept.old.count ≤ 16 * slot }
    ensures lines { OnOk result (Adds kept.old kept.new (slot_lines run.now.plan (numbers_of sources.now) slot)) }
    ensures count { OnOk result (kept.new.count ≤ 16 * (slot + 1)) }
{
    for n in 0..run.nodes() {
        let n = n as u8;
        let at = sources.node_slot(run, slot, n);
        kept.add_issue(&at, run.told(n))?;
    }
    Ok(())
}
