//! Where a thread is.
ghost use Rattle.std.specs.Prelude.{◌≡◌, ◌≤◌, ◌<◌, ◌++◌, Some, true, false, codes, length, take, drop, option_map, OnOk};
ghost use Rattle.std.specs.List.{AllByRecursion};
ghost use Rattle.xs_instructions.specs.Code.{code_at};
ghost use Rattle.xs_instructions.specs.Image.{Symbol, AreInOrder, symbol_of_pair, symbol_at};
ghost use Rattle.look_model.specs.Places.{is_up_to, last_label, label_text, distance_text, line_at, standing_text, place_text};

use decimal_text::append_decimal;
use line_text::append_hex_word;
use std::alloc::AllocError;
use xs_base::Text;
use xs_base::numbers::CODE_START;
use xs_instructions::{Image, Instr};
use xs_printer::Printer;

/// ` at PC`, and what stands there, where the instructions of an image are of these lines. The error is want of memory.
pub fn append_place(
    out: &mut Text,
    image: &Image,
    printer: &Printer,
    lines: &[u32],
    pc: u32,
) -> Result<(), AllocError>
    requires printer { printer.now ≡ image.now }
    ensures { OnOk result (out.new ≡ out.old ++ place_text lines.now image.now pc) }
{
    out.append(b" at ")?;
    append_hex_word(out, pc)?;
    match image.at(pc) {
        None => append_nothing(out, image, pc),
        Some(ins) => append_standing(out, image, printer, lines, pc, ins),
    }
}

// ` LABEL+D: no instruction`.
fn append_nothing(out: &mut Text, image: &Image, pc: u32) -> Result<(), AllocError>
    ensures { OnOk result (out.new ≡ out.old ++ (label_text pc (last_label pc image.now.symbols) ++ codes ": no instruction")) }
{
    append_last_label(out, image, pc)?;
    out.append(no_instruction())
}

// ` line L LABEL+D: INSTRUCTION`.
fn append_standing(
    out: &mut Text,
    image: &Image,
    printer: &Printer,
    lines: &[u32],
    pc: u32,
    ins: Instr,
) -> Result<(), AllocError>
    requires printer { printer.now ≡ image.now }
    requires stands { Some ins ≡ code_at image.now.code pc }
    ensures { OnOk result (out.new ≡ out.old ++ standing_text lines.now image.now pc (Some ins)) }
{
    out.append(b" line ")?;
    append_decimal(out, u64::from(line_at(lines, pc)))?;
    append_last_label(out, image, pc)?;
    out.append(b": ")?;
    printer.append_at(out, pc)
}

// The line of the instruction at an address.
fn line_at(lines: &[u32], pc: u32) -> u32
    ensures { result ≡ line_at lines.now pc }
{
    let place = pc.saturating_sub(CODE_START) / 4;
    match lines.get(place as usize) {
        None => 0,
        Some(line) => *line,
    }
}

// The last label of the code up to an address, and how far it is.
fn append_last_label(out: &mut Text, image: &Image, pc: u32) -> Result<(), AllocError>
    ensures { OnOk result (out.new ≡ out.old ++ label_text pc (last_label pc image.now.symbols)) }
{
    match last_label(image, pc) {
        None => Ok(()),
        Some((name, at)) => append_label(out, pc, name, at),
    }
}

// The last label of the code up to an address. Labels stand in the order of their addresses, those of the code first, so it is searched for.
fn last_label(image: &Image, pc: u32) -> Option<(&str, u32)>
    ensures { option_map symbol_of_pair result ≡ last_label pc image.now.symbols }
{
    let count = count_up_to(image, pc);
    if count == 0 {
        return None;
    }
    let (_, at) = label(image, count - 1);
    // (of labels at one address the first)
    image.symbol(count_up_to(image, at.saturating_sub(1)))
}

// How many labels stand in the code up to an address: the first ones, so many.
fn count_up_to(image: &Image, pc: u32) -> usize
    ensures within { result ≤ length image.now.symbols }
    ensures order { AreInOrder image.now.symbols }
    ensures front { AllByRecursion (λ (s : Symbol). is_up_to pc s ≡ true) (take result image.now.symbols) }
    ensures rest { AllByRecursion (λ (s : Symbol). is_up_to pc s ≡ false) (drop result image.now.symbols) }
{
    let mut low = 0;
    let mut high = image.symbol_count();
    while low < high {
        let middle = low + (high - low) / 2;
        if is_up_to(pc, label(image, middle)) {
            low = middle + 1;
        } else {
            high = middle;
        }
    }
    low
}

fn is_up_to(pc: u32, label: (&str, u32)) -> bool
    ensures { result ≡ is_up_to pc (symbol_of_pair label.entry) }
{
    let (_, at) = label;
    CODE_START <= at && at <= pc
}

// The label with a number.
fn label(image: &Image, k: usize) -> (&str, u32)
    requires { k < length image.now.symbols }
    ensures { symbol_at k image.now.symbols ≡ Some (symbol_of_pair result) }
{
    image.symbol(k).unwrap()
}

// ` LABEL+D`.
fn append_label(out: &mut Text, pc: u32, name: &str, at: u32) -> Result<(), AllocError>
    ensures { OnOk result (out.new ≡ out.old ++ label_text pc (Some (name.now, at))) }
{
    out.append(b" ")?;
    out.append(name.as_bytes())?;
    append_distance(out, pc.saturating_sub(at))
}

// `+D`.
fn append_distance(out: &mut Text, distance: u32) -> Result<(), AllocError>
    ensures { OnOk result (out.new ≡ out.old ++ distance_text distance) }
{
    if distance == 0 {
        return Ok(());
    }
    out.append(b"+")?;
    append_decimal(out, u64::from(distance))
}

fn no_instruction() -> &'static [u8]
    ensures { result.now ≡ codes ": no instruction" }
{
    b": no instruction"
}
