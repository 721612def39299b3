//! What may be wrong in the lines of a source.
ghost use Rattle.std.specs.Prelude.{◌≡◌, ◌≤◌, ◌<◌, ◌+◌, ◌^◌, ◌++◌, length, option_map, OnOk};
ghost use Rattle.xs_text.specs.Lines.{lines_of};
ghost use Rattle.source_model.specs.declared.layout.Section.TheVariants.{Text};
ghost use Rattle.placed_tokens.specs.Tokens.{placed_left};
ghost use Rattle.warning_model.specs.Named.{name_of_line, operands_of};
ghost use Rattle.warning_model.specs.Source.{is_behind, doubt_of_end, doubt_of_register, warnings_of_word, warnings_of_statement, warnings_of_line, warnings_of_lines, warnings_of_source};
ghost use Rattle.warning_model.specs.Warnings.{lines_to_end};
ghost use Rattle.warning_text.specs.Kept.{doubt_of, known_of, site_of};

use crate::known::Known;
use crate::labels::add_labels;
use crate::names::{has_setd, is_named, last_instruction, named_in};
use crate::source_lines::SourceLines;
use crate::statement::{Statement, gets, leaves, statement_of};
use crate::values::add_values;
use crate::warning::{Doubt, InSource, Site, Warnings};
use placed_tokens::{next_token, section_after_line};
use source_model::Section;
use std::alloc::{AllocError, Global};
use sys_plan::NodePlan;
use xs_instructions::{Symbols, same_name};

// Whether line `number`, which stands in a section, is one of the code behind the last instruction.
fn is_behind(known: &Known, number: u32, section: Section) -> bool
    ensures { result ≡ is_behind (known_of known.now) number section }
{
    known.last < number && section == Section::Text
}

// Of a statement by its name, and whether it is the last instruction.
fn doubt_of_end<'a>(is_last: bool, name: &[u8]) -> Option<Doubt<'a>>
    ensures { option_map doubt_of result ≡ doubt_of_end is_last name.now }
{
    if is_last && !leaves(name) {
        return Some(Doubt::CodeEnds);
    }
    None
}

// Of what comes behind the name, if something is got into a register.
fn doubt_of_register<'a>(
    names: &Symbols,
    name: &[u8],
    line: &'a [u8],
    behind: usize,
) -> Option<Doubt<'a>>
    requires { behind ≤ length line.now }
    ensures { option_map doubt_of result ≡ doubt_of_register names.now.labels name.now (placed_left line.now behind) }
{
    let Some(token) = next_token(line, behind) else {
        return None;
    };
    if gets(name) && !is_named(names, token.bytes) {
        return Some(Doubt::RegisterUnnamed(token.bytes));
    }
    None
}

// Of the values of a `.word`, in a source that has a `setd`. The error is want of memory, here and below.
fn add_word<'a>(
    warnings: &mut Warnings<'a>,
    site: Site<'a>,
    known: &Known,
    statement: Statement,
) -> Result<(), AllocError>
    requires { statement.end ≤ length site.bytes.now }
    ensures { OnOk result (warnings.new ≡ warnings.old ++ warnings_of_word (site_of site.entry) (known_of known.now) statement.entry.name.now (placed_left site.entry.bytes.now statement.entry.end)) }
{
    if known.sends && same_name(b".word", statement.name) {
        return add_values(warnings, site, known.nodes, statement.end);
    }
    Ok(())
}

// Of the statement of line `number`.
fn add_statement<'a>(
    warnings: &mut Warnings<'a>,
    site: Site<'a>,
    known: &Known,
    number: u32,
) -> Result<(), AllocError>
    ensures { OnOk result (warnings.new ≡ warnings.old ++ warnings_of_statement (site_of site.entry) (known_of known.now) number (name_of_line site.entry.bytes.now) (operands_of site.entry.bytes.now)) }
{
    let statement = statement_of(site.bytes);
    warnings.add(site, doubt_of_end(number == known.last, statement.name))?;
    warnings.add(
        site,
        doubt_of_register(&known.names, statement.name, site.bytes, statement.end),
    )?;
    add_word(warnings, site, known, statement)
}

// Of line `number`, which stands in a section.
fn add_line<'a>(
    warnings: &mut Warnings<'a>,
    known: &Known,
    number: u32,
    section: Section,
    line: &'a [u8],
) -> Result<(), AllocError>
    requires { known.now.opening + number < 2 ^ 32 }
    ensures { OnOk result (warnings.new ≡ warnings.old ++ warnings_of_line (known_of known.now) number section line.now) }
{
    let site = Site {
        source: Some(InSource {
            node: known.node,
            line: number,
        }),
        number: known.opening + number,
        bytes: line,
    };
    add_labels(
        warnings,
        site,
        &known.names,
        is_behind(known, number, section),
    )?;
    add_statement(warnings, site, known, number)
}

// Of all lines.
#[tactic(auto, unfolding(warning_model::specs::Source::warnings_of_lines))]
fn add_lines<'a>(
    warnings: &mut Warnings<'a>,
    known: &Known,
    source: &'a [u8],
) -> Result<(), AllocError>
    requires { known.now.opening + length source.now < 2 ^ 32 }
    ensures { OnOk result (warnings.new ≡ warnings.old ++ warnings_of_lines (known_of known.now) 1 Text (lines_to_end (lines_of source.now))) }
{
    let mut section = Section::Text;
    let mut lines = SourceLines::new(source);
    while let Some((number, line)) = lines.next_line() {
        add_line(warnings, known, number, section, line)?;
        section = section_after_line(section, line);
    }
    Ok(())
}

/// Of the source of the node with a number, whose lines come behind the line with the number `opening`.
pub(crate) fn add_source<'a>(
    alloc: Global,
    warnings: &mut Warnings<'a>,
    nodes: &[NodePlan],
    node: u8,
    opening: u32,
    source: &'a [u8],
) -> Result<(), AllocError>
    requires { opening + length source.now < 2 ^ 32 }
    ensures { OnOk result (warnings.new ≡ warnings.old ++ warnings_of_source nodes.now node opening (lines_to_end (lines_of source.now))) }
{
    let known = Known {
        nodes,
        node,
        opening,
        names: named_in(alloc, source)?,
        last: last_instruction(source),
        sends: has_setd(source),
    };
    add_lines(warnings, &known, source)
}
