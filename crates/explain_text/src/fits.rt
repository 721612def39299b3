//! Whether a token may stand at a place of a form.
ghost use Rattle.std.specs.Prelude.{◌≡◌, None};
ghost use Rattle.source_model.specs.Operands.{name_shape, shape_by_kind};
ghost use Rattle.xs_instructions.specs.Find.{is_in_range, shape_fits};
ghost use Rattle.explain_model.specs.Forms.{fits_part, fits_number, is_part_value, number_of};
ghost use Rattle.placed_tokens.specs.Tokens.{placed_of};

use placed_tokens::Token;
use xs_instructions::{Part, Shape, fixed, is_reserved, register_number};
use xs_text::{TokKind, source_number};

/// The number that a token is, None where it has more than 32 bits.
pub(crate) fn number_of(token: Token) -> Option<u32>
    ensures { result ≡ number_of (placed_of token.entry).token }
{
    source_number(token.bytes, u32::MAX)
}

// The shape of a name where no words are counted.
fn name_shape(name: &[u8]) -> Option<Shape>
    ensures { result ≡ name_shape None name.now }
{
    if let Some(register) = register_number(name) {
        return Some(Shape::Reg(register));
    }
    if let Some(word) = fixed(name) {
        return Some(Shape::Word(word));
    }
    if is_reserved(name) {
        return None;
    }
    Some(Shape::Label)
}

fn shape_of(token: Token) -> Option<Shape>
    ensures { result ≡ shape_by_kind token.entry.kind None token.entry.bytes.now }
{
    match token.kind {
        TokKind::Name => name_shape(token.bytes),
        TokKind::Number => Some(Shape::Num),
        TokKind::Mark => fixed(token.bytes).map(Shape::Word),
        TokKind::Stray => None,
    }
}

// Whether a value is in the range of its part.
fn is_in_range(part: Part, value: u32) -> bool
    ensures { result ≡ is_in_range part value }
{
    match part {
        Part::Common | Part::Small => value < 12,
        Part::AnyRegister => value < 16,
        Part::Width => matches!(value, 1..=8 | 16 | 24 | 32),
        Part::Short | Part::Label => value < 65_536,
        Part::Exactly(number) => value == number,
        Part::Register(_) | Part::Word(_) => false,
    }
}

// Whether what is written may stand at a part, whatever its value.
fn shape_fits(part: Part, shape: Shape) -> bool
    ensures { result ≡ shape_fits part shape }
{
    match (part, shape) {
        (Part::Common, Shape::Reg(n)) => n < 12,
        (Part::AnyRegister, Shape::Reg(n)) => n < 16,
        (Part::Register(r), Shape::Reg(n)) => r == n,
        (Part::Small | Part::Width | Part::Short | Part::Exactly(_), Shape::Num) => true,
        (Part::Label, Shape::Label) => true,
        (Part::Word(k), Shape::Word(n)) => k == n,
        _ => false,
    }
}

// Whether a token is a number in the range of a part.
fn is_part_value(part: Part, token: Token) -> bool
    ensures { result ≡ is_part_value part (number_of (placed_of token.entry).token) }
{
    match number_of(token) {
        Some(value) => is_in_range(part, value),
        None => false,
    }
}

/// Whether a token may stand at a part of a row.
pub(crate) fn fits_part(part: Part, token: Token) -> bool
    ensures { result ≡ fits_part part (placed_of token.entry).token }
{
    match shape_of(token) {
        None => false,
        Some(Shape::Num) => shape_fits(part, Shape::Num) && is_part_value(part, token),
        Some(shape) => shape_fits(part, shape),
    }
}

/// Whether a token is a number in this range.
pub(crate) fn fits_number(least: u32, most: u32, token: Token) -> bool
    ensures { result ≡ fits_number least most (placed_of token.entry).token }
{
    if token.kind != TokKind::Number {
        return false;
    }
    match number_of(token) {
        Some(value) => least <= value && value <= most,
        None => false,
    }
}
