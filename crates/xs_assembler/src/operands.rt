ghost use Rattle.std.specs.Prelude.{◌≡◌, [], ◌∷◌, MatchOption, IfNone, IfSome, true, Option, option_and_then, option_map};
ghost use Rattle.std.specs.List.{slice_range};
ghost use Rattle.source_model.specs.Operands.{base_named, base_after, operands_of, name_shape, shape_of, shapes_of, name_amount, amount_of};
ghost use Rattle.xs_instructions.specs.Table.{find, known, register_number};
ghost use Rattle.xs_text.specs.Tokens.{tokens_of};
ghost use Rattle.xs_assembler.specs.Parts.{operand_of, read_amount, HasShapes};

use crate::amount::Amount;
use crate::tokens::{ReadToken, first_token};
use arrayvec::ArrayVec;
use source_model::Section;
use std::marker::Model;
use xs_instructions::{Row, Shape, find, fixed, is_reserved, register_number};
use xs_text::{TokKind, source_number};

// The longest form of a row has fewer places.
const MOST_SHAPES: usize = 16;

// A token among the operands of an instruction, and the section that a name there counts from.
#[derive(Clone, Copy)]
pub struct Operand<'a> {
    pub base: Option<Section>,
    pub piece: ReadToken<'a>,
}

// Gives the operands in a text one by one.
#[derive(Drop)]
pub struct Operands<'a> {
    // The two tokens before the next one.
    second: &'a [u8],
    last: &'a [u8],
    rest: &'a [u8],
}

impl<'a> Model for Operands<'a> {
    ghost use Rattle.std.specs.Prelude.{List};
    ghost use Rattle.source_model.specs.Operands.{Operand, operands_after};
    ghost use Rattle.xs_text.specs.Tokens.{tokens_of};

    ghost Value = { List Operand };

    ghost view = { λ o. operands_after o.second.now o.last.now (tokens_of o.rest.now) };
}

impl<'a> Operands<'a> {
    // Those of the text after an instruction's name.
    pub fn new(text: &'a [u8]) -> Operands<'a>
        ensures { result ≡ operands_of (tokens_of text.now) }
    {
        Operands {
            second: b"",
            last: b"",
            rest: text,
        }
    }

    // The next one.
    #[tactic(auto, unfolding(source_model::specs::Operands::operands_after))]
    pub fn next_operand(&mut self) -> Option<Operand<'a>>
        ensures next { MatchOption result (self.old ≡ []) (λ o. self.old ≡ operand_of o ∷ self.new) }
        ensures end_stays { IfNone result (self.new ≡ self.old) }
    {
        let Some((piece, rest)) = first_token(self.rest) else {
            return None;
        };
        let base = base_after(self.second, self.last);
        self.second = self.last;
        self.last = piece.bytes;
        self.rest = rest;
        Some(Operand { base, piece })
    }
}

// The section that a base register stands for.
fn base_named(name: &[u8]) -> Option<Section>
    ensures { result ≡ base_named name.now }
{
    match name {
        b"dp" => Some(Section::Data),
        b"cp" => Some(Section::Constants),
        _ => None,
    }
}

// The same after two tokens.
fn base_after(second: &[u8], last: &[u8]) -> Option<Section>
    ensures { result ≡ base_after second.now last.now }
{
    match last {
        b"[" => base_named(second),
        _ => None,
    }
}

// The shape of a name: a register, a word of a row, or a label.
fn name_shape(base: Option<Section>, name: &[u8]) -> Option<Shape>
    ensures { result ≡ name_shape base name.now }
{
    if let Some(register) = register_number(name) {
        return Some(Shape::Reg(register));
    }
    if let Some(word) = fixed(name) {
        return Some(Shape::Word(word));
    }
    if is_reserved(name) {
        return None;
    }
    match base {
        Some(_) => Some(Shape::Num),
        None => Some(Shape::Label),
    }
}

// The shape of an operand, if it has one.
fn shape(operand: Operand) -> Option<Shape>
    ensures { result ≡ shape_of (operand_of operand.entry) }
{
    let bytes = operand.piece.bytes;
    match operand.piece.kind {
        TokKind::Name => name_shape(operand.base, bytes),
        TokKind::Number => Some(Shape::Num),
        TokKind::Mark => fixed(bytes).map(Shape::Word),
        TokKind::Stray => None,
    }
}

// The shapes of the operands in a text. None where one has none, or where they are more than any row has.
fn shapes(text: &[u8]) -> Option<ArrayVec<Shape, MOST_SHAPES>>
    ensures { HasShapes (operands_of (tokens_of text.now)) (option_map (λ v. v.items) result) }
{
    let mut operands = Operands::new(text);
    let mut shapes = ArrayVec::new();
    while let Some(operand) = operands.next_operand() {
        if shapes.is_full() {
            return None;
        }
        match shape(operand) {
            Some(shape) => shapes.push(shape),
            None => return None,
        }
    }
    Some(shapes)
}

// The row of an instruction, by its name and the text after it.
pub fn find_row(name: &[u8], text: &[u8]) -> Option<Row>
    ensures row { result ≡ option_and_then (find name.now) (shapes_of (operands_of (tokens_of text.now))) }
    ensures known { IfSome result (λ _. known name.now ≡ true) }
{
    match shapes(text) {
        Some(shapes) => find(name, &shapes),
        None => None,
    }
}

// The amount of a register or of a label's name.
fn name_amount<'a>(base: Option<Section>, name: &'a [u8]) -> Amount<'a>
    ensures { read_amount result ≡ name_amount (register_number name.now) base name.now }
{
    match (register_number(name), base) {
        (Some(register), _) => Amount::Known(Some(u32::from(register))),
        (None, Some(base)) => Amount::Offset(base, name),
        (None, None) => Amount::Target(name),
    }
}

// The amount of an operand. No row takes one of a mark.
pub fn amount<'a>(operand: Operand<'a>) -> Amount<'a>
    ensures { read_amount result ≡ amount_of (operand_of operand.entry) }
{
    let bytes = operand.piece.bytes;
    match operand.piece.kind {
        TokKind::Name => name_amount(operand.base, bytes),
        TokKind::Number => Amount::Known(source_number(bytes, u32::MAX)),
        TokKind::Mark | TokKind::Stray => Amount::Known(None),
    }
}
