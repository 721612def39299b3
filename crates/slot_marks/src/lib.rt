//! What a thread does in a slot of a run. See docs/LOOK.md.
#![tactic(auto)]

ghost use Rattle.std.specs.Prelude.{◌≡◌, ◌+◌, ◌<◌, ◌&&◌, None, Some, length, slice_get, slice_index_or};
ghost use Rattle.xs_base.specs.declared.numbers.TheConstants.{THREADS};
ghost use Rattle.xs_model.specs.Masks.{in_mask};
ghost use Rattle.xs_model.specs.Picks.{is_rested};
ghost use Rattle.sys_plan.specs.declared.NodePlan.{NodePlan};
ghost use Rattle.issue_model.specs.Endings.{ending_of, ending_of_run};
ghost use Rattle.issue_model.specs.Issues.{thread_in};
ghost use Rattle.chart_model.specs.Columns.{mark_char};
ghost use Rattle.chart_model.specs.Marks.{takes_mark, issue_mark, wait_mark, ready_or, run_mark, mark_of, mark_at};

use bit_masks::has_bit;
use chart_model::Mark;
use core_step::{Choice, NextIssue};
use told_run::{Before, ToldRun};
use xs_model::{Run, Wait};

/// What thread k, 0 to 7, of the node at a position does in a slot, which the run has passed and tells.
pub fn mark_in(run: &ToldRun, slot: u32, n: u8, k: u8) -> Mark
    requires told { run.now.slot ≡ Some slot }
    requires passed { run.now.now ≡ slot + 1 }
    requires node { n < length run.now.plan.nodes }
    requires thread { k < THREADS }
    ensures { (node : NodePlan) → slice_get run.now.plan.nodes n ≡ Some node → result ≡ mark_at run.now.plan slot n node k }
{
    let before = run.before(n);
    let told = run.told(n);
    let may = may_issue(told.able, last_of(before, k), k, slot);
    let is = run.core(n).run_of(k);
    mark_of(k, may, run_before(before, k), is, told.traps, told.issue)
}

/// The character by which a chart shows a mark. See docs/LOOK.md.
pub fn mark_char(mark: Mark) -> u8
    ensures { result ≡ mark_char mark }
{
    match mark {
        Mark::Done => b'X',
        Mark::Pauses => b'P',
        Mark::Traps => b'T',
        Mark::TakesEvent => b'E',
        Mark::TakesInterrupt => b'I',
        Mark::Ready => b'r',
        Mark::Between => b'.',
        Mark::Tokens => b'i',
        Mark::Room => b'o',
        Mark::Port => b'p',
        Mark::Timer => b't',
        Mark::Lock => b'l',
        Mark::Slaves => b's',
        Mark::Divider => b'd',
        Mark::Choice => b'e',
        Mark::AtSync => b'm',
        Mark::Unstarted => b'u',
        Mark::Halted => b'h',
        Mark::Free => b'-',
    }
}

// What thread k did before the slot.
fn run_before(before: &Before, k: u8) -> Run
    requires thread { k < THREADS }
    ensures { result ≡ (thread_in before.now.threads k).run }
{
    before.threads[k as usize].run
}

// In which slot it issued last.
fn last_of(before: &Before, k: u8) -> Option<u32>
    requires thread { k < THREADS }
    ensures { result ≡ slice_index_or before.now.last k None }
{
    before.last[k as usize]
}

// Whether a thread may issue, where these are able to, and it issued last in this slot.
fn may_issue(able: u8, last: Option<u32>, k: u8, slot: u32) -> bool
    requires thread { k < THREADS }
    ensures { result ≡ in_mask able k && is_rested last slot }
{
    has_bit(u32::from(able), k) && is_rested(last, slot)
}

// Whether the last issue is four slots back or more.
fn is_rested(last: Option<u32>, slot: u32) -> bool
    ensures { result ≡ is_rested last slot }
{
    match last {
        None => true,
        Some(last) => u64::from(last) + 4 <= u64::from(slot),
    }
}

// Of thread k, by whether it may issue, what it does before the slot and after it, whether who issues traps, and who that is.
fn mark_of(k: u8, may: bool, was: Run, is: Run, traps: bool, issue: Option<NextIssue>) -> Mark
    ensures { result ≡ mark_of k may was is traps issue }
{
    match issue {
        Some(next) if next.thread == k => issue_mark(next.takes, traps, is),
        _ => run_mark(may, was),
    }
}

// Of a thread that issues, by what it takes, whether it traps, and what it does then.
fn issue_mark(takes: Option<Choice>, traps: bool, is: Run) -> Mark
    ensures { result ≡ issue_mark (ending_of takes traps is) }
{
    match takes {
        Some(choice) => takes_mark(choice.interrupt),
        None if traps => Mark::Traps,
        None => done_mark(is),
    }
}

fn takes_mark(interrupt: bool) -> Mark
    ensures { result ≡ takes_mark interrupt }
{
    if interrupt {
        Mark::TakesInterrupt
    } else {
        Mark::TakesEvent
    }
}

// Of one that took nothing and did not trap.
fn done_mark(is: Run) -> Mark
    ensures { result ≡ issue_mark (ending_of_run is) }
{
    match is {
        Run::Paused(_) => Mark::Pauses,
        _ => Mark::Done,
    }
}

// Of a thread that does not issue.
fn run_mark(may: bool, was: Run) -> Mark
    ensures { result ≡ run_mark may was }
{
    match was {
        Run::Free => Mark::Free,
        Run::Unstarted => Mark::Unstarted,
        Run::AtSync => Mark::AtSync,
        Run::Halted => Mark::Halted,
        Run::Going => ready_or(may, Mark::Between),
        Run::Paused(wait) => ready_or(may, wait_mark(wait)),
    }
}

fn ready_or(may: bool, other: Mark) -> Mark
    ensures { result ≡ ready_or may other }
{
    if may { Mark::Ready } else { other }
}

// Of a thread that is paused, by what it waits for.
fn wait_mark(wait: Wait) -> Mark
    ensures { result ≡ wait_mark wait }
{
    match wait {
        Wait::Room { .. } => Mark::Room,
        Wait::Tokens { .. } => Mark::Tokens,
        Wait::PortFull { .. } | Wait::PortEmpty { .. } | Wait::PortIdle { .. } => Mark::Port,
        Wait::Timer { .. } => Mark::Timer,
        Wait::Lock { .. } => Mark::Lock,
        Wait::Slaves { .. } => Mark::Slaves,
        Wait::Choice => Mark::Choice,
        Wait::Divider => Mark::Divider,
    }
}
