//! The form `check`: the sources of a system as the images of its nodes give them.
ghost use Rattle.std.specs.Prelude.{◌≡◌, ◌++◌, IfOk, OnOk};
ghost use Rattle.std.specs.List.{flat_map};
ghost use Rattle.answer_model.specs.CheckForm.{check_answer, check_text, source_section};

use answer_model::{Answer, Status};
use decimal_text::append_decimal;
use std::alloc::{AllocError, Global};
use sys_plan::{NodePlan, Plan};
use system_answers::{Reading, read};
use xs_base::Text;
use xs_printer::print_image;

/// Reads the system of the input, runs nothing, and answers with its sources. The error is want of memory. See
/// docs/OUTPUT.md.
pub fn answer(alloc: Global, input: &[u8]) -> Result<Answer, AllocError>
    ensures { IfOk result (λ answer. answer ≡ check_answer input.now) }
{
    match read(alloc, input)? {
        Reading::System(plan) => Ok(Answer {
            text: check_text(alloc, &plan)?,
            status: Status::Done,
        }),
        Reading::Refused(answer) => Ok(answer),
    }
}

// A section for each node, by number.
fn check_text(alloc: Global, plan: &Plan) -> Result<Text, AllocError>
    ensures text { IfOk result (λ text. text ≡ check_text plan.now) }
{
    let mut text = Text::new(alloc);
    append_sources(alloc, &mut text, plan.nodes())?;
    Ok(text)
}

// The section of each node.
fn append_sources(alloc: Global, out: &mut Text, nodes: &[NodePlan]) -> Result<(), AllocError>
    ensures { OnOk result (out.new ≡ out.old ++ flat_map source_section nodes.now) }
{
    for node in nodes {
        append_source(alloc, out, node)?;
    }
    Ok(())
}

// `source N`, the canonical text of the node's image, and `end`.
fn append_source(alloc: Global, out: &mut Text, node: &NodePlan) -> Result<(), AllocError>
    ensures { OnOk result (out.new ≡ out.old ++ source_section node.now) }
{
    let source = print_image(alloc, &node.image)?;
    out.append(b"source ")?;
    append_decimal(out, u64::from(node.number))?;
    out.append(b"\n")?;
    out.append(source.bytes())?;
    out.append(b"end\n")
}
