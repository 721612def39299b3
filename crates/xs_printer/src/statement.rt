//! How an instruction is written.
ghost use Rattle.std.specs.Prelude.{◌≡◌, ◌+◌, ◌<◌, ◌++◌, [], length, decimal, get_or, map, OnOk, IsTrue};
ghost use Rattle.std.specs.List.{AllByRecursion, flat_map};
ghost use Rattle.xs_instructions.specs.Words.{register_names};
ghost use Rattle.xs_instructions.specs.Code.{place_address};
ghost use Rattle.xs_instructions.specs.Image.{IsImage, has_symbol_at};
ghost use Rattle.xs_instructions.specs.Spelling.{spelled_piece};
ghost use Rattle.source_model.specs.Canonical.{first_name_at, piece_text, statement_text};
ghost use Rattle.xs_printer.specs.Firsts.{AreFirstLabels, IsWritable};

use crate::labels::label;
use decimal_text::append_decimal;
use source_laws::{labels_stand_in_order, labels_stand_in_their_parts};
use std::alloc::AllocError;
use xs_base::Text;
use xs_instructions::{Image, Piece};

// The name of a register.
fn register_name(n: u8) -> &'static str
    requires { n < 16 }
    ensures { result.now ≡ get_or register_names n [] }
{
    match n {
        0 => "r0",
        1 => "r1",
        2 => "r2",
        3 => "r3",
        4 => "r4",
        5 => "r5",
        6 => "r6",
        7 => "r7",
        8 => "r8",
        9 => "r9",
        10 => "r10",
        11 => "r11",
        12 => "cp",
        13 => "dp",
        14 => "sp",
        _ => "lr",
    }
}

// Puts the name of the first label that leads to a place.
fn append_place(
    out: &mut Text,
    image: &Image,
    firsts: &[usize],
    place: u16,
) -> Result<(), AllocError>
    requires image { IsImage image.now }
    requires firsts { AreFirstLabels image.now.symbols (length image.now.code + 1) firsts.now }
    requires target { IsTrue (has_symbol_at image.now.symbols (place_address place)) }
    ensures { OnOk result (out.new ≡ out.old ++ first_name_at image.now.symbols (place_address place)) }
{
    labels_stand_in_order();
    labels_stand_in_their_parts();
    let (name, _) = label(image, firsts[place as usize]);
    out.append(name.as_bytes())
}

// Puts a piece of an instruction.
fn append_piece(
    out: &mut Text,
    image: &Image,
    firsts: &[usize],
    piece: Piece,
) -> Result<(), AllocError>
    requires image { IsImage image.now }
    requires firsts { AreFirstLabels image.now.symbols (length image.now.code + 1) firsts.now }
    requires writable { IsWritable image.now.symbols (spelled_piece piece) }
    ensures { OnOk result (out.new ≡ out.old ++ piece_text image.now.symbols (spelled_piece piece)) }
{
    match piece {
        Piece::Word(text) if text == "," => out.append(b", "),
        Piece::Word(text) => out.append(text.as_bytes()),
        Piece::Reg(n) => out.append(register_name(n).as_bytes()),
        Piece::Num(n) => append_decimal(out, u64::from(n)),
        Piece::Place(place) => append_place(out, image, firsts, place),
    }
}

// Puts pieces one after the other.
fn append_pieces(
    out: &mut Text,
    image: &Image,
    firsts: &[usize],
    pieces: &[Piece],
) -> Result<(), AllocError>
    requires image { IsImage image.now }
    requires firsts { AreFirstLabels image.now.symbols (length image.now.code + 1) firsts.now }
    requires writable { AllByRecursion (λ p. IsWritable image.now.symbols (spelled_piece p)) pieces.now }
    ensures { OnOk result (out.new ≡ out.old ++ flat_map (piece_text image.now.symbols) (map spelled_piece pieces.now)) }
{
    for piece in pieces {
        append_piece(out, image, firsts, *piece)?;
    }
    Ok(())
}

/// Puts an instruction by its pieces: its name, and its operands behind a blank.
pub(crate) fn append_statement(
    out: &mut Text,
    image: &Image,
    firsts: &[usize],
    pieces: &[Piece],
) -> Result<(), AllocError>
    requires image { IsImage image.now }
    requires firsts { AreFirstLabels image.now.symbols (length image.now.code + 1) firsts.now }
    requires writable { AllByRecursion (λ p. IsWritable image.now.symbols (spelled_piece p)) pieces.now }
    ensures { OnOk result (out.new ≡ out.old ++ statement_text image.now.symbols (map spelled_piece pieces.now)) }
{
    let Some((name, operands)) = pieces.split_first() else {
        return Ok(());
    };
    append_piece(out, image, firsts, *name)?;
    if operands.is_empty() {
        return Ok(());
    }
    out.append(b" ")?;
    append_pieces(out, image, firsts, operands)
}
