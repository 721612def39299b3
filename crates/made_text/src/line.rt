//! The line that tells what a load came to.
ghost use Rattle.std.specs.Prelude.{◌≡◌, ◌++◌, IfOk, OnOk, length};
ghost use Rattle.serial_model.specs.Serial.{serial};
ghost use Rattle.load_model.specs.Made.{made_line, numbers_line, totals_text};

use crate::totals::{all_events, all_sent};
use decimal_text::append_wide_decimal;
use finished_runs::FinishedRun;
use std::alloc::{AllocError, Global};
use sys_plan::Plan;
use xs_base::Text;

/// `made N nodes K tokens A credits B events C`: what a run of a plan came to that has come to its limit, whatever the way in which its
/// nodes were run. N is the load's number. The error is want of memory. See docs/LOADS.md.
pub fn made(
    alloc: Global,
    number: u32,
    plan: &Plan,
    finished: &FinishedRun,
) -> Result<Text, AllocError>
    requires plan { finished.now.plan ≡ plan.now }
    ensures text { IfOk result (λ t. t ≡ made_line number plan.now (serial plan.now finished.now.limit)) }
{
    let (tokens, credits) = all_sent(plan, finished);
    let events = all_events(plan, finished);
    let nodes = plan.nodes().len() as u128;
    let mut out = Text::new(alloc);
    append_line(&mut out, u128::from(number), nodes, tokens, credits, events)?;
    Ok(out)
}

// The line with these numbers.
fn append_line(
    out: &mut Text,
    number: u128,
    nodes: u128,
    tokens: u128,
    credits: u128,
    events: u128,
) -> Result<(), AllocError>
    ensures { OnOk result (out.new ≡ out.old ++ numbers_line number nodes tokens credits events) }
{
    out.append(b"made ")?;
    append_wide_decimal(out, number)?;
    out.append(b" nodes ")?;
    append_wide_decimal(out, nodes)?;
    append_totals(out, tokens, credits, events)
}

// ` tokens A credits B events C`, and the line's end.
fn append_totals(
    out: &mut Text,
    tokens: u128,
    credits: u128,
    events: u128,
) -> Result<(), AllocError>
    ensures { OnOk result (out.new ≡ out.old ++ totals_text tokens credits events) }
{
    out.append(b" tokens ")?;
    append_wide_decimal(out, tokens)?;
    out.append(b" credits ")?;
    append_wide_decimal(out, credits)?;
    out.append(b" events ")?;
    append_wide_decimal(out, events)?;
    out.append(b"\n")
}
