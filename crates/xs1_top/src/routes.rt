//! The form `routes`.
ghost use Rattle.std.specs.Prelude.{◌≡◌, ◌≤◌, ◌<◌, ◌++◌, length, IfOk, OnOk};
ghost use Rattle.system_model.specs.System.{system_of};
ghost use Rattle.rank_model.specs.Checks.{checked};
ghost use Rattle.rank_model.specs.Lines.{system_after};
ghost use Rattle.rank_model.specs.Next.{link_count};
ghost use Rattle.answer_model.specs.RoutesForm as found;
ghost use Rattle.answer_model.specs.RoutesForm.{answer_to_routes, link_end_text, routes_answer, routes_by, routes_with, verdict_text};
ghost use Rattle.xs1_top.specs.Routes.{NamesLinks};

use crate::refusals::{is_too_long, ranks_line, too_long};
use answer_model::{Answer, Status};
use decimal_text::append_decimal;
use line_text::{append_hex_word, append_link_end};
use plan_routes::route_of;
use rank_model::{RankKind, Verdict};
use route_ranks::{RankError, Ranks, check_ranks, read_ranks};
use std::alloc::{AllocError, Global};
use sys_plan::Plan;
use system_answers::{Reading, read};
use xs_base::Text;

/// Reads the ranks and the system of the input, runs nothing, and answers with what the ranks come to, or with the line that refuses the
/// input: the whole of it where it is too long, then the ranks where a line has no form, then the system, and then the ranks as those of the
/// system. The error is want of memory. See docs/ROUTES.md.
pub fn answer(alloc: Global, input: &[u8]) -> Result<Answer, AllocError>
    ensures { IfOk result (λ answer. answer ≡ routes_answer input.now) }
{
    if is_too_long(input) {
        return too_long(alloc);
    }
    match read_ranks(alloc, input) {
        Ok(ranks) => answer_to_ranks(alloc, input, &ranks),
        Err(RankError::Fault { line, kind }) => refused(alloc, line, kind),
        Err(RankError::Memory) => Err(AllocError),
    }
}

// What is answered to the ranks before the system text of the input.
fn answer_to_ranks(alloc: Global, input: &[u8], ranks: &Ranks) -> Result<Answer, AllocError>
    requires within { ranks.now.rest ≤ length input.now }
    ensures { IfOk result (λ answer. answer ≡ answer_to_routes (routes_with ranks.now (system_of (system_after input.now ranks.now)))) }
{
    match read(alloc, &input[ranks.rest()..])? {
        Reading::System(plan) => answer_to_plan(alloc, &plan, ranks),
        Reading::Refused(answer) => Ok(answer),
    }
}

// What is answered to the ranks of a plan.
fn answer_to_plan(alloc: Global, plan: &Plan, ranks: &Ranks) -> Result<Answer, AllocError>
    ensures { IfOk result (λ answer. answer ≡ answer_to_routes (routes_by plan.now (checked plan.now ranks.now))) }
{
    match check_ranks(plan, ranks) {
        Ok(verdict) => Ok(Answer {
            text: verdict_line(alloc, plan, verdict)?,
            status: Status::Done,
        }),
        Err(RankError::Fault { line, kind }) => refused(alloc, line, kind),
        Err(RankError::Memory) => Err(AllocError),
    }
}

// The line that refuses ranks. The error is want of memory.
fn refused(alloc: Global, line: u32, kind: RankKind) -> Result<Answer, AllocError>
    ensures { IfOk result (λ answer. answer ≡ answer_to_routes (found.BadRanks line kind)) }
{
    Ok(Answer {
        text: ranks_line(alloc, line, kind)?,
        status: Status::SystemFault,
    })
}

// The line of a verdict: `routes yes`, `no way N M net K`, or `no rank N:E M:F dest ID`. The error is want of memory.
fn verdict_line(alloc: Global, plan: &Plan, verdict: Verdict) -> Result<Text, AllocError>
    requires links { NamesLinks plan.now verdict }
    ensures text { IfOk result (λ text. text ≡ verdict_text plan.now verdict) }
{
    let mut text = Text::new(alloc);
    match verdict {
        Verdict::Yes => {
            text.append(b"routes yes\n")?;
            Ok(text)
        }
        Verdict::NoWay { from, to, net } => {
            text.append(b"no way ")?;
            append_decimal(&mut text, u64::from(from))?;
            text.append(b" ")?;
            append_decimal(&mut text, u64::from(to))?;
            text.append(b" net ")?;
            append_decimal(&mut text, u64::from(net))?;
            text.append(b"\n")?;
            Ok(text)
        }
        Verdict::NoRank {
            first,
            second,
            dest,
        } => {
            text.append(b"no rank")?;
            append_link(&mut text, plan, first)?;
            append_link(&mut text, plan, second)?;
            text.append(b" dest ")?;
            append_hex_word(&mut text, u32::from(dest))?;
            text.append(b"\n")?;
            Ok(text)
        }
    }
}

// ` N:E`: the link end that a directed link leaves.
fn append_link(out: &mut Text, plan: &Plan, link: u32) -> Result<(), AllocError>
    requires { link < link_count plan.now }
    ensures { OnOk result (out.new ≡ out.old ++ link_end_text plan.now link) }
{
    let route = route_of(plan, link);
    let node = &plan.nodes()[route.from as usize];
    out.append(b" ")?;
    append_link_end(out, node.number, route.from_end)
}
