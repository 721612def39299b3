//! The labels of lines, with the numbers of the lines that define them.
ghost use Rattle.std.specs.Prelude.{◌≡◌, ◌≤◌, ◌<◌, ◌+◌, ◌^◌, length, take, option_map, IsTrue, IfOk, IfSome, OnOk};
ghost use Rattle.xs_text.specs.Lines.{lines_of};
ghost use Rattle.xs_text.specs.Tokens.{is_name};
ghost use Rattle.explain_model.specs.Placed.{placed_tokens, placed_labels};
ghost use Rattle.explain_model.specs.Labels.{note_label, note_line, labels_of, first_twice};
ghost use Rattle.explain_text.specs.Found.{twice_of_kept};

use placed_tokens::{Token, next_label};
use std::alloc::{AllocError, Global};
use xs_instructions::{Symbols, is_reserved};
use xs_text::{Lines, all_allowed};

/// A label that is defined already, and the number of the line that defines it.
#[derive(Clone, Copy)]
pub(crate) struct Twice<'a> {
    pub(crate) label: Token<'a>,
    pub(crate) line: u32,
}

// Notes the labels of a line with a number. The error is want of memory, here and below.
#[tactic(auto, unfolding(explain_model::specs::Labels::note_labels))]
fn note_line(
    alloc: Global,
    labels: &mut Symbols,
    number: u32,
    line: &[u8],
) -> Result<(), AllocError>
    ensures { OnOk result (labels.new.labels ≡ note_line number line.now labels.old.labels) }
{
    if !all_allowed(line) {
        return Ok(());
    }
    let mut at = 0;
    while let Some((name, behind)) = next_label(line, at) {
        note_label(alloc, labels, number, name.bytes)?;
        at = behind;
    }
    Ok(())
}

fn note_label(
    alloc: Global,
    labels: &mut Symbols,
    number: u32,
    name: &[u8],
) -> Result<(), AllocError>
    requires { IsTrue (is_name name.now) }
    ensures { OnOk result (labels.new.labels ≡ note_label number name.now labels.old.labels) }
{
    if is_reserved(name) {
        return Ok(());
    }
    labels.define(alloc, name, number)?;
    Ok(())
}

/// The labels of the first lines of a source, so many, of which the first has a number.
#[tactic(auto, unfolding(explain_model::specs::Labels::note_lines))]
pub(crate) fn labels_of(
    alloc: Global,
    source: &[u8],
    first: u32,
    count: u32,
) -> Result<Symbols, AllocError>
    requires { first + length source.now < 2 ^ 32 }
    ensures { IfOk result (λ labels. labels.labels ≡ labels_of first (take count (lines_of source.now))) }
{
    let mut labels = Symbols::of_source(alloc, source);
    let mut lines = Lines::new(source);
    while let Some(line) = lines.next_line() {
        if line.number > count {
            return Ok(labels);
        }
        note_line(
            alloc,
            &mut labels,
            first + (line.number - 1),
            &source[line.from..line.to],
        )?;
    }
    Ok(labels)
}

/// The first label of line `number` that a line before, or one before it in the line, defines. It takes the labels of the lines before.
#[tactic(auto, unfolding(explain_model::specs::Labels::first_twice))]
pub(crate) fn first_twice<'a>(
    alloc: Global,
    labels: Symbols,
    number: u32,
    line: &'a [u8],
) -> Result<Option<Twice<'a>>, AllocError>
    ensures found { IfOk result (λ found. option_map twice_of_kept found ≡ first_twice number labels.labels (placed_labels (placed_tokens line.now))) }
    ensures within { IfOk result (λ found. IfSome found (λ t. t.label.end ≤ length line.now)) }
{
    let mut labels = labels;
    let mut at = 0;
    while let Some((name, behind)) = next_label(line, at) {
        if let Some(defined) = labels.address(name.bytes) {
            return Ok(Some(Twice {
                label: name,
                line: defined,
            }));
        }
        note_label(alloc, &mut labels, number, name.bytes)?;
        at = behind;
    }
    Ok(None)
}
