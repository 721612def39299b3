//! The answer of `explain`.
ghost use Rattle.std.specs.Prelude.{◌≡◌, ◌≤◌, ◌<◌, ◌+◌, ◌^◌, ◌++◌, [], length, IfOk, OnOk};
ghost use Rattle.xs_text.specs.Lines.{lines_of};
ghost use Rattle.system_model.specs.declared.frame_line.SectionKind.TheVariants as section;
ghost use Rattle.system_model.specs.System.{system_of};
ghost use Rattle.answer_model.specs.OnSystem.{answer_to};
ghost use Rattle.explain_whole.specs.Opened.{opened_in};
ghost use Rattle.explain_whole.specs.Explained.{told_of_source, nodes_told, told_of_script, explained};

use crate::lines::count_lines;
use crate::openings::find_section;
use answer_model::{Answer, Status};
use explain_frame_text::append_frame_told;
use explain_script_text::append_script_told;
use explain_text::append_told;
use frame_lines::append_system_nodes;
use pin_scripts::PinKind;
use source_model::AsmKind;
use std::alloc::{AllocError, Global};
use system_answers::{Reading, read};
use system_model::SectionKind;
use system_text::{LONGEST_INPUT, SystemError, read_system};
use warning_text::append_warnings;
use xs_base::Text;

// The line that refuses a text, nothing where it is accepted. The error is want of memory, here and below.
fn refusal(alloc: Global, input: &[u8]) -> Result<Text, AllocError>
    ensures { IfOk result (λ text. text ≡ (answer_to (λ plan. []) (system_of input.now)).text) }
{
    match read(alloc, input)? {
        Reading::System(_) => Ok(Text::new(alloc)),
        Reading::Refused(answer) => Ok(answer.text),
    }
}

// What is told of the line of a source.
fn append_source(
    alloc: Global,
    out: &mut Text,
    input: &[u8],
    node: u8,
    line: u32,
    kind: AsmKind,
) -> Result<(), AllocError>
    requires { length input.now < 2 ^ 31 }
    ensures { OnOk result (out.new ≡ out.old ++ told_of_source kind line (opened_in (section.Source node) (lines_of input.now))) }
{
    let Some(opened) = find_section(input, SectionKind::Source(node)) else {
        return Ok(());
    };
    if line < 1 || line > count_lines(opened.text) {
        return Ok(());
    }
    append_told(alloc, out, opened.text, opened.opening + 1, line, kind)
}

// Which nodes there are, where a line of the script names another one.
fn append_nodes(
    alloc: Global,
    out: &mut Text,
    input: &[u8],
    kind: PinKind,
) -> Result<(), AllocError>
    requires { length input.now < 2 ^ 31 }
    ensures { OnOk result (out.new ≡ out.old ++ nodes_told kind (lines_of input.now)) }
{
    match kind {
        PinKind::NoSuchNode => append_system_nodes(alloc, out, input),
        _ => Ok(()),
    }
}

// Of the line of the script.
fn append_script(
    alloc: Global,
    out: &mut Text,
    input: &[u8],
    line: u32,
    kind: PinKind,
) -> Result<(), AllocError>
    requires { length input.now < 2 ^ 31 }
    ensures { OnOk result (out.new ≡ out.old ++ told_of_script kind line (lines_of input.now) (opened_in section.Pins (lines_of input.now))) }
{
    let Some(opened) = find_section(input, SectionKind::Pins) else {
        return Ok(());
    };
    if line < 1 || line > count_lines(opened.text) {
        return Ok(());
    }
    append_script_told(alloc, out, opened.text, opened.opening + 1, line, kind)?;
    append_nodes(alloc, out, input, kind)
}

/// Answers to the bytes of a system text: where it is refused, with the line that refuses it and what is told of the fault; where it is accepted, with
/// warnings. The error is want of memory. See docs/LOOK.md.
pub fn explain(alloc: Global, input: &[u8]) -> Result<Answer, AllocError>
    ensures { IfOk result (λ answer. answer ≡ explained input.now) }
{
    let mut text = refusal(alloc, input)?;
    if input.len() > LONGEST_INPUT {
        return Ok(Answer {
            text,
            status: Status::SystemFault,
        });
    }
    match read_system(alloc, input) {
        Ok(plan) => {
            text.append(b"accepted\n")?;
            append_warnings(alloc, &mut text, input, &plan)?;
            Ok(Answer {
                text,
                status: Status::Done,
            })
        }
        Err(SystemError::Frame { line, kind }) => {
            append_frame_told(alloc, &mut text, input, line, kind)?;
            Ok(Answer {
                text,
                status: Status::SystemFault,
            })
        }
        Err(SystemError::Source { node, line, kind }) => {
            append_source(alloc, &mut text, input, node, line, kind)?;
            Ok(Answer {
                text,
                status: Status::SourceFault,
            })
        }
        Err(SystemError::Pins { line, kind }) => {
            append_script(alloc, &mut text, input, line, kind)?;
            Ok(Answer {
                text,
                status: Status::ScriptFault,
            })
        }
        Err(SystemError::Memory) => Err(AllocError),
    }
}
