//! Numbers that lines of the frame give, in words.
ghost use Rattle.std.specs.Prelude.{◌≡◌, ◌<◌, ◌^◌, ◌++◌, length, flat_map, codes, decimal, IfOk, OnOk};
ghost use Rattle.xs_text.specs.Lines.{lines_of};
ghost use Rattle.explain_frame_model.specs.FrameGifts.{is_given, has_end, numbers_below, numbers_text, nodes_text, ends_text, already_line, system_nodes};

use crate::before::read_before;
use crate::earlier_line::EarlierLine;
use crate::gifts::{has_end, is_given};
use crate::words;
use decimal_text::append_decimal;
use explain_frame_model::Gift;
use std::alloc::{AllocError, Global};
use xs_base::Text;

// Each behind a comma.
fn append_others(out: &mut Text, numbers: &[u32]) -> Result<(), AllocError>
    ensures { OnOk result (out.new ≡ out.old ++ flat_map (λ m. codes ", " ++ decimal m) numbers.now) }
{
    for number in numbers {
        out.append(b", ")?;
        append_decimal(out, u64::from(*number))?;
    }
    Ok(())
}

fn append_numbers(out: &mut Text, numbers: &[u32]) -> Result<(), AllocError>
    ensures { OnOk result (out.new ≡ out.old ++ numbers_text numbers.now) }
{
    match numbers {
        [] => out.append(b"none"),
        [number, others @ ..] => {
            append_decimal(out, u64::from(*number))?;
            append_others(out, others)
        }
    }
}

// The numbers of the nodes that lines give. The error is want of memory, here and below.
#[tactic(auto, unfolding(explain_frame_model::specs::FrameGifts::numbers_below))]
fn given_nodes(alloc: Global, lines: &[EarlierLine]) -> Result<Vec<u32>, AllocError>
    ensures { IfOk result (λ numbers. numbers.items ≡ numbers_below (λ n. is_given (Gift.Node n) lines.now) 100) }
{
    let mut numbers = Vec::new(alloc);
    for number in 0..100 {
        if is_given(Gift::Node(number), lines) {
            numbers.push(number)?;
        }
    }
    Ok(numbers)
}

// The ends that a node has.
#[tactic(auto, unfolding(explain_frame_model::specs::FrameGifts::numbers_below))]
fn given_ends(
    alloc: Global,
    node: u32,
    wires: usize,
    lines: &[EarlierLine],
) -> Result<Vec<u32>, AllocError>
    ensures { IfOk result (λ numbers. numbers.items ≡ numbers_below (has_end node wires lines.now) 40) }
{
    let mut numbers = Vec::new(alloc);
    for end in 0..40 {
        if has_end(node, wires, lines, end) {
            numbers.push(end)?;
        }
    }
    Ok(numbers)
}

/// Writes the numbers of the nodes that lines give, ascending, or `none`. The error is want of memory. See docs/LOOK.md.
pub fn append_nodes(alloc: Global, out: &mut Text, lines: &[EarlierLine]) -> Result<(), AllocError>
    ensures { OnOk result (out.new ≡ out.old ++ nodes_text lines.now) }
{
    let numbers = given_nodes(alloc, lines)?;
    append_numbers(out, &numbers)
}

/// Writes the ends of a node that lines give, ascending, or `none`: those of links, and from 8 on those of so many wires. The error is want of memory. See
/// docs/LOOK.md.
pub fn append_ends(
    alloc: Global,
    out: &mut Text,
    node: u32,
    wires: usize,
    lines: &[EarlierLine],
) -> Result<(), AllocError>
    ensures { OnOk result (out.new ≡ out.old ++ ends_text node wires lines.now) }
{
    let numbers = given_ends(alloc, node, wires, lines)?;
    append_numbers(out, &numbers)
}

/// Writes `line N gives it already`, where there is such a line. The error is want of memory. See docs/LOOK.md.
pub fn append_already(out: &mut Text, number: Option<u32>) -> Result<(), AllocError>
    ensures { OnOk result (out.new ≡ out.old ++ already_line number) }
{
    let Some(number) = number else {
        return Ok(());
    };
    out.append(b"line ")?;
    append_decimal(out, u64::from(number))?;
    out.append(words::gives_it_already())
}

/// Writes the numbers of the nodes of a system text, as its `node` lines give them, in ascending order. The error is want of memory. See docs/LOOK.md.
#[tactic(auto, unfolding(explain_frame_model::specs::FrameGifts::system_nodes))]
pub fn append_system_nodes(alloc: Global, out: &mut Text, text: &[u8]) -> Result<(), AllocError>
    requires { length text.now < 2 ^ 32 }
    ensures { OnOk result (out.new ≡ out.old ++ system_nodes (lines_of text.now)) }
{
    let before = read_before(alloc, text)?;
    out.append(words::nodes_of_the_system())?;
    append_nodes(alloc, out, &before.lines)?;
    out.append(b"\n")
}
