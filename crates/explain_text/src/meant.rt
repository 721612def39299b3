//! One line more on a faulty line: what is meant, of names above all.
ghost use Rattle.std.specs.Prelude.{◌≡◌, ◌++◌, Some, option_map, OnOk};
ghost use Rattle.source_model.specs.declared.AsmKind.TheVariants as kinds;
ghost use Rattle.explain_model.specs.Spots.{statement_in};
ghost use Rattle.explain_model.specs.Meant.{statement_name, unknown_line, home_line, reserved_line, section_text, section_of_label, section_line, range_line, twice_line, missing_line, meant_line};
ghost use Rattle.placed_tokens.specs.Tokens.{placed_of};
ghost use Rattle.explain_text.specs.Found.{twice_of_kept, use_of_kept};
ghost use Rattle.explain_text.specs.Lines.{line_of_kept};

use crate::labels::Twice;
use crate::source_line::SourceLine;
use crate::uses::Use;
use crate::words;
use decimal_text::append_decimal;
use marked_lines::{append_bad_byte, append_near_directives, append_near_labels, append_near_rows};
use placed_tokens::{Token, home_of, section_of};
use source_model::{AsmKind, Home, Section};
use std::alloc::{AllocError, Global};
use xs_base::Text;
use xs_instructions::Symbols;

// The error is want of memory, here and below.
fn append_bad_byte_of(out: &mut Text, at: &SourceLine) -> Result<(), AllocError>
    ensures { OnOk result (out.new ≡ out.old ++ meant_line kinds.BadByte (line_of_kept at.now)) }
{
    let b = match at.bytes.get(at.allowed_length()) {
        None => 0,
        Some(b) => *b,
    };
    append_bad_byte(out, b)
}

fn statement_name<'a>(at: &SourceLine<'a>) -> &'a [u8]
    ensures { result.now ≡ statement_name (statement_in (line_of_kept at.now)) }
{
    match at.first_token() {
        None => b"",
        Some(name) => name.bytes,
    }
}

#[tactic(auto, unfolding(explain_model::specs::Meant::unknown_line))]
fn append_unknown(alloc: Global, out: &mut Text, name: &[u8]) -> Result<(), AllocError>
    ensures { OnOk result (out.new ≡ out.old ++ unknown_line name.now) }
{
    out.append(name)?;
    out.append(words::is_no_instruction())?;
    append_near_rows(alloc, out, name)
}

fn append_named(out: &mut Text, name: &[u8], text: &[u8]) -> Result<(), AllocError>
    ensures { OnOk result (out.new ≡ out.old ++ (name.now ++ text.now)) }
{
    out.append(name)?;
    out.append(text)
}

// Where a statement stands that may not stand where it does.
fn append_home(alloc: Global, out: &mut Text, name: &[u8], home: Home) -> Result<(), AllocError>
    ensures { OnOk result (out.new ≡ out.old ++ home_line name.now home) }
{
    match home {
        Home::Anywhere => Ok(()),
        Home::InText => out.append(words::stands_before()),
        Home::InBytes => append_named(out, name, words::stands_in()),
        Home::BeginsData => append_named(out, name, words::stands_once_before()),
        Home::BeginsConstants => append_named(out, name, words::stands_once()),
        Home::Nowhere => {
            append_named(out, name, words::is_no_directive())?;
            append_near_directives(alloc, out, name)
        }
    }
}

fn append_reserved(out: &mut Text, label: Option<Token>) -> Result<(), AllocError>
    ensures { OnOk result (out.new ≡ out.old ++ reserved_line (option_map placed_of label.entry)) }
{
    match label {
        None => Ok(()),
        Some(name) => append_named(out, name.bytes, words::is_kept()),
    }
}

fn section_text(section: Section) -> &'static [u8]
    ensures { result.now ≡ section_text section }
{
    match section {
        Section::Text => b"the code",
        Section::Data => b".data",
        Section::Constants => b".cp",
    }
}

// The section of a label, where a line with this number defines it.
fn append_section(out: &mut Text, at: &SourceLine, line: Option<u32>) -> Result<(), AllocError>
    ensures { OnOk result (out.new ≡ out.old ++ section_of_label (line_of_kept at.now) line) }
{
    match line {
        None => Ok(()),
        Some(line) => out.append(section_text(section_of(
            at.source,
            line.saturating_sub(at.first),
        ))),
    }
}

fn append_range(alloc: Global, out: &mut Text, at: &SourceLine) -> Result<(), AllocError>
    ensures { OnOk result (out.new ≡ out.old ++ meant_line kinds.NumberOutOfRange (line_of_kept at.now)) }
{
    let spot = at.statement_spot(alloc)?;
    if !spot.all_fit {
        return Ok(());
    }
    match at.first_use(None) {
        None => Ok(()),
        Some(found) => append_label_section(alloc, out, at, found),
    }
}

// A label that a line with this number defines.
#[tactic(auto, unfolding(explain_model::specs::Meant::section_line))]
fn append_section_line(
    out: &mut Text,
    at: &SourceLine,
    name: &[u8],
    line: Option<u32>,
) -> Result<(), AllocError>
    ensures { OnOk result (out.new ≡ out.old ++ section_line (line_of_kept at.now) name.now line) }
{
    append_named(out, name, words::is_a_label_of())?;
    append_section(out, at, line)?;
    out.append(b"\n")
}

fn append_label_section(
    alloc: Global,
    out: &mut Text,
    at: &SourceLine,
    found: Use,
) -> Result<(), AllocError>
    ensures { OnOk result (out.new ≡ out.old ++ range_line (line_of_kept at.now) (Some (use_of_kept found.entry))) }
{
    let labels = at.all_labels(alloc)?;
    let line = labels.address(found.label.bytes);
    append_section_line(out, at, found.label.bytes, line)
}

fn append_twice(out: &mut Text, twice: Option<Twice>) -> Result<(), AllocError>
    ensures { OnOk result (out.new ≡ out.old ++ twice_line (option_map twice_of_kept twice.entry)) }
{
    let Some(twice) = twice else {
        return Ok(());
    };
    append_named(out, twice.label.bytes, words::is_a_label_of_line())?;
    append_decimal(out, u64::from(twice.line))?;
    out.append(words::already())
}

fn append_missing(
    alloc: Global,
    out: &mut Text,
    labels: &Symbols,
    found: Option<Use>,
) -> Result<(), AllocError>
    ensures { OnOk result (out.new ≡ out.old ++ missing_line labels.now.labels (option_map use_of_kept found.entry)) }
{
    let Some(found) = found else {
        return Ok(());
    };
    let name = found.label.bytes;
    append_named(out, words::no_line_has(), name)?;
    append_near_labels(alloc, out, name, labels)
}

/// The line that says what is meant, by the kind of the fault, where there is one.
pub(crate) fn append_meant(
    alloc: Global,
    out: &mut Text,
    kind: AsmKind,
    at: &SourceLine,
) -> Result<(), AllocError>
    ensures { OnOk result (out.new ≡ out.old ++ meant_line kind (line_of_kept at.now)) }
{
    match kind {
        AsmKind::BadByte => append_bad_byte_of(out, at),
        AsmKind::UnknownName => append_unknown(alloc, out, statement_name(at)),
        AsmKind::WrongOperands => append_reserved(out, at.reserved_label()),
        AsmKind::NumberOutOfRange => append_range(alloc, out, at),
        AsmKind::LabelTwice => append_twice(out, at.twice(alloc)?),
        AsmKind::LabelMissing => {
            let labels = at.all_labels(alloc)?;
            append_missing(alloc, out, &labels, at.first_use(Some(&labels)))
        }
        AsmKind::DirectiveNotAllowed => append_home(
            alloc,
            out,
            statement_name(at),
            home_of(at.bytes),
        ),
        AsmKind::TooManyInstructions => out.append(words::too_many_instructions()),
        AsmKind::TooManyBytes => out.append(words::too_many_bytes()),
    }
}
