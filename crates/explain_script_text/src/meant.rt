//! One line more on a faulty line of a script: what is meant.
ghost use Rattle.std.specs.Prelude.{◌≡◌, ◌<◌, ◌++◌, IfSome, OnOk};
ghost use Rattle.explain_frame_model.specs.FrameGifts.{already_line};
ghost use Rattle.explain_frame_model.specs.Script.{bad_line, falls_line, width_line, meant_of};
ghost use Rattle.explain_script_text.specs.Lines.{line_of_kept};

use crate::line_words::second_word;
use crate::script_line::ScriptLine;
use crate::spots::allowed_length;
use crate::texts;
use decimal_text::append_decimal;
use explain_frame_model::{ScriptPin, SlotLine};
use marked_lines::append_bad_byte;
use pin_scripts::PinKind;
use std::alloc::AllocError;
use word_forms::{port_in, script_pin};
use xs_base::{Text, port_width};
use xs_text::all_allowed;

// The first byte that a text may not hold, where there is one. The error is want of memory, here and below.
fn append_bad(out: &mut Text, line: &[u8]) -> Result<(), AllocError>
    ensures { OnOk result (out.new ≡ out.old ++ bad_line line.now) }
{
    if all_allowed(line) {
        return Ok(());
    }
    let b = match line.get(allowed_length(line)) {
        None => 0,
        Some(b) => *b,
    };
    append_bad_byte(out, b)
}

fn append_falls(out: &mut Text, before: Option<SlotLine>) -> Result<(), AllocError>
    ensures { OnOk result (out.new ≡ out.old ++ falls_line before) }
{
    let Some(before) = before else {
        return Ok(());
    };
    out.append(b"line ")?;
    append_decimal(out, u64::from(before.number))?;
    out.append(texts::has_slot())?;
    append_decimal(out, u64::from(before.slot))?;
    out.append(b"\n")
}

// The width of the port that a word names.
fn append_width(out: &mut Text, word: &[u8], pin: Option<ScriptPin>) -> Result<(), AllocError>
    requires { IfSome pin (λ pin. pin.port < 29) }
    ensures { OnOk result (out.new ≡ out.old ++ width_line word.now pin) }
{
    let Some(pin) = pin else {
        return Ok(());
    };
    out.append(b"port ")?;
    out.append(port_in(word))?;
    out.append(texts::has_width())?;
    append_decimal(out, u64::from(port_width(pin.port)))?;
    out.append(b"\n")
}

fn append_already(out: &mut Text, line: Option<u32>) -> Result<(), AllocError>
    ensures { OnOk result (out.new ≡ out.old ++ already_line line) }
{
    let Some(line) = line else {
        return Ok(());
    };
    out.append(b"line ")?;
    append_decimal(out, u64::from(line))?;
    out.append(texts::gives_it_already())
}

/// The line that says what is meant, by the kind of the fault, where there is one.
pub(crate) fn append_meant(out: &mut Text, kind: PinKind, at: &ScriptLine) -> Result<(), AllocError>
    ensures { OnOk result (out.new ≡ out.old ++ meant_of kind (line_of_kept at.now)) }
{
    match kind {
        PinKind::BadLine | PinKind::NoSuchPort => append_bad(out, at.bytes),
        PinKind::SlotFalls => append_falls(out, at.slot_before()),
        PinKind::ValueTooWide => {
            let word = second_word(at.bytes).bytes;
            append_width(out, word, script_pin(word))
        }
        PinKind::NoSuchNode => Ok(()),
        PinKind::PinGivenTwice => append_already(out, at.given_before()),
    }
}
