//! The lines that refuse a system text.
ghost use Rattle.std.specs.Prelude.{◌≡◌, IfOk};
ghost use Rattle.answer_model.specs.Refusals.{frame_text, pins_text, source_text, text_of_asm_kind, text_of_pin_kind, text_of_sys_kind};

use decimal_text::append_decimal;
use pin_scripts::PinKind;
use source_model::AsmKind;
use std::alloc::{AllocError, Global};
use system_model::SysKind;
use xs_base::Text;

/// The line of a refused frame: `system line L: KIND TEXT`. The error is want of memory. See docs/OUTPUT.md.
pub fn frame_line(alloc: Global, line: u32, kind: SysKind) -> Result<Text, AllocError>
    ensures { IfOk result (λ text. text ≡ frame_text line kind) }
{
    let mut text = Text::new(alloc);
    text.append(b"system line ")?;
    append_decimal(&mut text, u64::from(line))?;
    text.append(b": ")?;
    text.append(text_of_sys_kind(kind))?;
    text.append(b"\n")?;
    Ok(text)
}

/// The line of a refused source of a node: `source N line L: KIND TEXT`. The error is want of memory. See
/// docs/OUTPUT.md.
pub fn source_line(alloc: Global, node: u8, line: u32, kind: AsmKind) -> Result<Text, AllocError>
    ensures { IfOk result (λ text. text ≡ source_text node line kind) }
{
    let mut text = Text::new(alloc);
    text.append(b"source ")?;
    append_decimal(&mut text, u64::from(node))?;
    text.append(b" line ")?;
    append_decimal(&mut text, u64::from(line))?;
    text.append(b": ")?;
    text.append(text_of_asm_kind(kind))?;
    text.append(b"\n")?;
    Ok(text)
}

/// The line of a refused pin script: `pins line L: KIND TEXT`. The error is want of memory. See docs/OUTPUT.md.
pub fn pins_line(alloc: Global, line: u32, kind: PinKind) -> Result<Text, AllocError>
    ensures { IfOk result (λ text. text ≡ pins_text line kind) }
{
    let mut text = Text::new(alloc);
    text.append(b"pins line ")?;
    append_decimal(&mut text, u64::from(line))?;
    text.append(b": ")?;
    text.append(text_of_pin_kind(kind))?;
    text.append(b"\n")?;
    Ok(text)
}

fn text_of_sys_kind(kind: SysKind) -> &'static [u8]
    ensures { result.now ≡ text_of_sys_kind kind }
{
    match kind {
        SysKind::FirstLine => b"S1 first line is not xs1 1 or xs1 2",
        SysKind::BadLine => b"S2 bad line",
        SysKind::GivenTwice => b"S3 given twice",
        SysKind::IdTwice => b"S4 id twice",
        SysKind::LinkEndTwice => b"S5 link end twice",
        SysKind::LinkToItself => b"S6 link from a node to itself",
        SysKind::NumberOutOfRange => b"S7 number out of range",
        SysKind::NodeWithoutSource => b"S8 node without source",
        SysKind::SectionNotEnded => b"S9 section not ended",
        SysKind::TooLong => b"S10 input too long",
        SysKind::BitTwice => b"S11 bit twice",
        SysKind::NoSuchNode => b"S12 no such node or link end",
        SysKind::TooMany => b"S13 too many nodes or links",
        SysKind::WireWithinNode => b"S14 wire within one node",
        SysKind::WidthsDiffer => b"S15 widths differ",
        SysKind::PinWiredTwice => b"S16 pin wired twice",
        SysKind::TooManyWires => b"S17 too many wires",
    }
}

fn text_of_asm_kind(kind: AsmKind) -> &'static [u8]
    ensures { result.now ≡ text_of_asm_kind kind }
{
    match kind {
        AsmKind::BadByte => b"A1 bad byte",
        AsmKind::UnknownName => b"A2 unknown name",
        AsmKind::WrongOperands => b"A3 wrong operands",
        AsmKind::NumberOutOfRange => b"A4 number out of range",
        AsmKind::LabelTwice => b"A5 label defined twice",
        AsmKind::LabelMissing => b"A6 label missing",
        AsmKind::DirectiveNotAllowed => b"A7 directive not allowed",
        AsmKind::TooManyInstructions => b"A8 too many instructions",
        AsmKind::TooManyBytes => b"A9 too many bytes",
    }
}

fn text_of_pin_kind(kind: PinKind) -> &'static [u8]
    ensures { result.now ≡ text_of_pin_kind kind }
{
    match kind {
        PinKind::BadLine => b"P1 bad line",
        PinKind::SlotFalls => b"P2 slot falls",
        PinKind::NoSuchPort => b"P3 no such port",
        PinKind::ValueTooWide => b"P4 value too wide",
        PinKind::NoSuchNode => b"P5 no such node",
        PinKind::PinGivenTwice => b"P6 pin given twice",
    }
}
