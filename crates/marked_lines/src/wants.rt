//! What may stand at a place: lists of it, and in words.
ghost use Rattle.std.specs.Prelude.{◌≡◌, ◌++◌, decimal, OnOk};
ghost use Rattle.std.specs.List.{list_any};
ghost use Rattle.explain_model.specs.Wants.{is_same_part, is_same_word, is_same_want, put_want, add_wants, quoted, part_text, base_text, value_text, statement_text, word_text, want_text};
ghost use Rattle.explain_model.specs.declared.Want.TheVariants.{Offset, Number, WirePin, ScriptPin};

use crate::words;
use decimal_text::append_decimal;
use explain_model::{FixedWord, Want};
use source_model::{Section, Width};
use std::alloc::AllocError;
use xs_base::Text;
use xs_instructions::{Part, same_name};

fn is_same_part(a: Part, b: Part) -> bool
    ensures { result ≡ is_same_part a b }
{
    match (a, b) {
        (Part::Common, Part::Common) => true,
        (Part::AnyRegister, Part::AnyRegister) => true,
        (Part::Register(a), Part::Register(b)) => a == b,
        (Part::Small, Part::Small) => true,
        (Part::Width, Part::Width) => true,
        (Part::Short, Part::Short) => true,
        (Part::Exactly(a), Part::Exactly(b)) => a == b,
        (Part::Label, Part::Label) => true,
        (Part::Word(a), Part::Word(b)) => a == b,
        _ => false,
    }
}

fn is_same_word(a: FixedWord, b: FixedWord) -> bool
    ensures { result ≡ is_same_word a b }
{
    same_name(word_text(a), word_text(b))
}

fn is_same_want(a: Want, b: Want) -> bool
    ensures { result ≡ is_same_want a b }
{
    match (a, b) {
        (Want::Operand(a), Want::Operand(b)) => is_same_part(a, b),
        (Want::OtherRegister, Want::OtherRegister) => true,
        (Want::Offset(_), Want::Offset(_)) => true,
        (Want::LineEnd, Want::LineEnd) => true,
        (Want::Number(a, b), Want::Number(c, d)) => a == c && b == d,
        (Want::Word(a), Want::Word(b)) => is_same_word(a, b),
        (Want::LinkEnd, Want::LinkEnd) => true,
        (Want::StepEnd, Want::StepEnd) => true,
        (Want::WirePin, Want::WirePin) => true,
        (Want::ScriptPin, Want::ScriptPin) => true,
        _ => false,
    }
}

fn has_want(wants: &[Want], want: Want) -> bool
    ensures { result ≡ list_any (λ w. is_same_want w want) wants.now }
{
    wants.iter().any(|w| is_same_want(*w, want))
}

// Puts one more at the end, where it is not there yet. The error is want of memory, here and below.
fn put_want(wants: &mut Vec<Want>, want: Want) -> Result<(), AllocError>
    ensures { OnOk result (wants.new.items ≡ put_want wants.old.items want) }
{
    if !has_want(wants, want) {
        wants.push(want)?;
    }
    Ok(())
}

/// Puts one more at the end, where there is one and it is not there yet: the registers from r0 to r11 apart from the others.
pub(crate) fn add_wants(wants: &mut Vec<Want>, want: Option<Want>) -> Result<(), AllocError>
    ensures { OnOk result (wants.new.items ≡ add_wants wants.old.items want) }
{
    match want {
        None => Ok(()),
        Some(Want::Operand(Part::AnyRegister)) => {
            put_want(wants, Want::Operand(Part::Common))?;
            put_want(wants, Want::OtherRegister)
        }
        Some(want) => put_want(wants, want),
    }
}

fn append_quoted(out: &mut Text, text: &[u8]) -> Result<(), AllocError>
    ensures { OnOk result (out.new ≡ out.old ++ quoted text.now) }
{
    out.append(b"`")?;
    out.append(text)?;
    out.append(b"`")
}

fn append_quoted_number(out: &mut Text, number: u32) -> Result<(), AllocError>
    ensures { OnOk result (out.new ≡ out.old ++ quoted (decimal number)) }
{
    out.append(b"`")?;
    append_decimal(out, u64::from(number))?;
    out.append(b"`")
}

fn append_part(out: &mut Text, part: Part) -> Result<(), AllocError>
    ensures { OnOk result (out.new ≡ out.old ++ part_text part) }
{
    match part {
        Part::Common => out.append(b"r0 to r11"),
        Part::AnyRegister => out.append(words::any_register()),
        Part::Register(r) => append_quoted(out, words::register_name(r)),
        Part::Small => out.append(b"a number, 0 to 11"),
        Part::Width => out.append(words::width()),
        Part::Short => out.append(words::short()),
        Part::Exactly(number) => append_quoted_number(out, number),
        Part::Label => out.append(b"a label of the code"),
        Part::Word(k) => append_quoted(out, words::fixed_text(k)),
    }
}

fn base_text(base: Section) -> &'static [u8]
    ensures { result.now ≡ base_text base }
{
    match base {
        Section::Text => words::first_instruction(),
        Section::Data => words::first_of_data(),
        Section::Constants => words::first_of_constants(),
    }
}

fn value_text(width: Width) -> &'static [u8]
    ensures { result.now ≡ value_text width }
{
    match width {
        Width::Byte => words::byte_value(),
        Width::Short => words::short_value(),
        Width::Word => words::word_value(),
    }
}

fn statement_text(section: Section) -> &'static [u8]
    ensures { result.now ≡ statement_text section }
{
    match section {
        Section::Text => words::text_statement(),
        Section::Data => words::data_statement(),
        Section::Constants => words::constant_statement(),
    }
}

fn append_offset(out: &mut Text, base: Section) -> Result<(), AllocError>
    ensures { OnOk result (out.new ≡ out.old ++ want_text (Offset base)) }
{
    out.append(words::offset())?;
    out.append(base_text(base))
}

fn append_range(out: &mut Text, least: u32, most: u32) -> Result<(), AllocError>
    ensures { OnOk result (out.new ≡ out.old ++ want_text (Number least most)) }
{
    out.append(b"a number, ")?;
    append_decimal(out, u64::from(least))?;
    out.append(b" to ")?;
    append_decimal(out, u64::from(most))
}

/// A word of a frame or of a script as it stands. See docs/LOOK.md.
pub fn word_text(word: FixedWord) -> &'static [u8]
    ensures { result.now ≡ word_text word }
{
    match word {
        FixedWord::Xs1 => b"xs1",
        FixedWord::One => b"1",
        FixedWord::Two => b"2",
        FixedWord::Node => b"node",
        FixedWord::Id => b"id",
        FixedWord::Link => b"link",
        FixedWord::Delay => b"delay",
        FixedWord::Gap => b"gap",
        FixedWord::Net => b"net",
        FixedWord::Bit => b"bit",
        FixedWord::Wire => b"wire",
        FixedWord::Source => b"source",
        FixedWord::Pins => b"pins",
        FixedWord::Play => b"play",
        FixedWord::Take => b"take",
        FixedWord::Run => b"run",
        FixedWord::Send => b"send",
        FixedWord::End => b"end",
    }
}

fn append_wire_pin(out: &mut Text) -> Result<(), AllocError>
    ensures { OnOk result (out.new ≡ out.old ++ want_text WirePin) }
{
    out.append(words::wire_pin())?;
    out.append(words::ports())
}

fn append_script_pin(out: &mut Text) -> Result<(), AllocError>
    ensures { OnOk result (out.new ≡ out.old ++ want_text ScriptPin) }
{
    out.append(words::script_pin())?;
    out.append(words::ports())
}

/// What may stand at a place, in words.
pub(crate) fn append_want(out: &mut Text, want: Want) -> Result<(), AllocError>
    ensures { OnOk result (out.new ≡ out.old ++ want_text want) }
{
    match want {
        Want::Operand(part) => append_part(out, part),
        Want::OtherRegister => out.append(b"cp, dp, sp or lr"),
        Want::Offset(base) => append_offset(out, base),
        Want::Number(least, most) => append_range(out, least, most),
        Want::AnyName => out.append(b"a name"),
        Want::Value(width) => out.append(value_text(width)),
        Want::CommaOrEnd => out.append(words::comma_or_end()),
        Want::LineEnd => out.append(words::line_end()),
        Want::Statement(section) => out.append(statement_text(section)),
        Want::NewLabel => out.append(words::new_label()),
        Want::FreeName => out.append(words::free_name()),
        Want::AllowedByte => out.append(words::allowed_byte()),
        Want::Word(word) => append_quoted(out, word_text(word)),
        Want::LinkEnd => out.append(words::link_end()),
        Want::StepEnd => out.append(words::step_end()),
        Want::WirePin => append_wire_pin(out),
        Want::ScriptPin => append_script_pin(out),
    }
}
