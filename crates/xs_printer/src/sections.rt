//! The sections of a canonical text.
ghost use Rattle.std.specs.Prelude.{ℕ, ◌≡◌, ◌+◌, ◌-◌, ◌<◌, ◌++◌, ◌∷◌, [], length, take, drop, IfOk, IfSome, OnOk, IsTrue};
ghost use Rattle.xs_instructions.specs.Code.{code_start, place_address};
ghost use Rattle.xs_instructions.specs.Instr.{InRange, label_of};
ghost use Rattle.xs_instructions.specs.Image.{IsImage, has_symbol_at, data_start};
ghost use Rattle.xs_instructions.specs.Spelling.{spelling};
ghost use Rattle.source_model.specs.Canonical.{Instruction, Byte, behind_labels, lines_text, code_items, data_items, constant_items, data_room, statement_text};
ghost use Rattle.xs_printer.specs.Firsts.{AreFirstLabels, IsFirstFrom};

use crate::labels::append_labels;
use crate::statement::append_statement;
use decimal_text::append_decimal;
use source_laws::{labels_stand_in_order, labels_stand_in_their_parts};
use std::alloc::AllocError;
use xs_base::Text;
use xs_base::numbers::{CODE_START, MEMORY_START};
use xs_instructions::{Image, Instr, spelling};

/// Puts the text of an instruction: its name, and its operands behind a blank.
pub(crate) fn append_text(
    out: &mut Text,
    image: &Image,
    firsts: &[usize],
    ins: Instr,
) -> Result<(), AllocError>
    requires image { IsImage image.now }
    requires firsts { AreFirstLabels image.now.symbols (length image.now.code + 1) firsts.now }
    requires in_range { InRange ins }
    requires target { IfSome (label_of ins) (λ place. IsTrue (has_symbol_at image.now.symbols (place_address place))) }
    ensures { OnOk result (out.new ≡ out.old ++ statement_text image.now.symbols (spelling ins)) }
{
    labels_stand_in_their_parts();
    append_statement(out, image, firsts, spelling(ins).as_slice())
}

// Puts the line of an instruction.
fn append_instruction(
    out: &mut Text,
    image: &Image,
    firsts: &[usize],
    ins: Instr,
) -> Result<(), AllocError>
    requires image { IsImage image.now }
    requires firsts { AreFirstLabels image.now.symbols (length image.now.code + 1) firsts.now }
    requires in_range { InRange ins }
    requires target { IfSome (label_of ins) (λ place. IsTrue (has_symbol_at image.now.symbols (place_address place))) }
    ensures { OnOk result (out.new ≡ out.old ++ lines_text image.now.symbols (Instruction ins ∷ [])) }
{
    out.append(b"  ")?;
    append_text(out, image, firsts, ins)?;
    out.append(b"\n")
}

/// Puts the lines of the code, with those of its labels. It gives the number of the first label of a byte.
pub(crate) fn append_code(
    out: &mut Text,
    image: &Image,
    firsts: &[usize],
) -> Result<usize, AllocError>
    requires firsts { AreFirstLabels image.now.symbols (length image.now.code + 1) firsts.now }
    ensures lines { OnOk result (out.new ≡ out.old ++ lines_text image.now.symbols (code_items image.now)) }
    ensures next { IfOk result (λ k. IsFirstFrom image.now.symbols data_start k) }
{
    labels_stand_in_order();
    let mut next = 0;
    let mut at = CODE_START;
    for ins in image.code() {
        next = append_labels(out, image, next, at)?;
        append_instruction(out, image, firsts, *ins)?;
        at += 4;
    }
    append_labels(out, image, next, at)
}

// Puts the line of a byte.
fn append_byte(out: &mut Text, image: &Image, byte: u8) -> Result<(), AllocError>
    ensures { OnOk result (out.new ≡ out.old ++ lines_text image.now.symbols (Byte byte ∷ [])) }
{
    out.append(b"  .byte ")?;
    append_decimal(out, u64::from(byte))?;
    out.append(b"\n")
}

// Puts the lines of bytes, each behind its labels. The first stands at `from`, and `first` is the number of its first
// label. It gives the number of the first label past them.
fn append_bytes(
    out: &mut Text,
    image: &Image,
    bytes: &[u8],
    from: u32,
    first: usize,
) -> Result<usize, AllocError>
    requires image { IsImage image.now }
    requires in_data { from + length bytes.now < code_start }
    requires first { IsFirstFrom image.now.symbols from first }
    ensures lines { OnOk result (out.new ≡ out.old ++ lines_text image.now.symbols (behind_labels Byte image.now.symbols 1 from bytes.now)) }
    ensures next { IfOk result (λ k. IsFirstFrom image.now.symbols (from + length bytes.now) k) }
{
    labels_stand_in_order();
    let mut next = first;
    let mut at = from;
    for byte in bytes {
        next = append_labels(out, image, next, at)?;
        append_byte(out, image, *byte)?;
        at += 1;
    }
    Ok(next)
}

/// Puts the lines of the bytes below `cp_at`, with those of their labels. It gives the number of the first label from
/// there on.
pub(crate) fn append_data(
    out: &mut Text,
    image: &Image,
    bytes: &[u8],
    first: usize,
) -> Result<usize, AllocError>
    requires bytes { bytes.now ≡ image.now.bytes }
    requires first { IsFirstFrom image.now.symbols data_start first }
    ensures lines { OnOk result (out.new ≡ out.old ++ lines_text image.now.symbols (data_items image.now)) }
    ensures next { IfOk result (λ k. IsFirstFrom image.now.symbols image.now.cp_at k) }
{
    labels_stand_in_order();
    let room = (image.cp_at() - MEMORY_START) as usize;
    if bytes.len() < room {
        let next = append_bytes(out, image, bytes, MEMORY_START, first)?;
        append_labels(out, image, next, MEMORY_START + bytes.len() as u32)
    } else {
        append_bytes(out, image, &bytes[..room], MEMORY_START, first)
    }
}

/// Puts the lines of the bytes from `cp_at` on, with those of their labels.
pub(crate) fn append_constants(
    out: &mut Text,
    image: &Image,
    bytes: &[u8],
    first: usize,
) -> Result<(), AllocError>
    requires bytes { bytes.now ≡ image.now.bytes }
    requires first { IsFirstFrom image.now.symbols image.now.cp_at first }
    ensures { OnOk result (out.new ≡ out.old ++ lines_text image.now.symbols (constant_items image.now)) }
{
    let cp_at = image.cp_at();
    let room = (cp_at - MEMORY_START) as usize;
    let constants = &bytes[room.min(bytes.len())..];
    let next = append_bytes(out, image, constants, cp_at, first)?;
    append_labels(out, image, next, cp_at + constants.len() as u32)?;
    Ok(())
}
