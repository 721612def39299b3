//! The place of a line of a script at which it is faulty, and what may stand there.
ghost use Rattle.std.specs.Prelude.{◌≡◌, ◌≤◌, ◌<◌, ◌-◌, ◌^◌, length, option_to_list, IfOk, IfSome};
ghost use Rattle.std.specs.List.{prefix_len};
ghost use Rattle.xs_base.specs.Ids.{port_width};
ghost use Rattle.xs_text.specs.Bytes.{is_allowed};
ghost use Rattle.marked_lines.specs.Stops.{spot_of_kept};
ghost use Rattle.explain_frame_model.specs.Script.{form_spot, slot_wants, value_wants, script_spot};
ghost use Rattle.explain_script_text.specs.Lines.{line_of_kept};

use crate::line_words::{first_word, second_word, third_word};
use crate::script_line::ScriptLine;
use explain_frame_model::{ScriptPin, SlotLine};
use explain_model::{FixedWord, Want};
use marked_lines::Spot;
use pin_scripts::PinKind;
use std::alloc::{AllocError, Global};
use word_forms::{script_pin, spot_of_forms};
use xs_text::{all_allowed, is_allowed};

/// How many bytes of a line come before the first that a text may not hold.
pub(crate) fn allowed_length(line: &[u8]) -> usize
    ensures length { result ≡ prefix_len is_allowed line.now }
    ensures within { result ≤ length line.now }
{
    line.iter().take_while(|b| is_allowed(**b)).count()
}

// The error is want of memory, here and below.
fn form_spot(alloc: Global, line: &[u8]) -> Result<Spot, AllocError>
    ensures spot { IfOk result (λ spot. spot_of_kept spot ≡ form_spot line.now) }
    ensures within { IfOk result (λ spot. spot.at ≤ length line.now) }
{
    if !all_allowed(line) {
        return Spot::new(alloc, allowed_length(line), Some(Want::AllowedByte));
    }
    let number = Want::Number(0, u32::MAX);
    spot_of_forms(
        alloc,
        &[number, Want::ScriptPin, number],
        &[[Want::Word(FixedWord::End)].as_slice()],
        line,
    )
}

// A slot that is not below that of the last line before.
fn slot_want(before: Option<SlotLine>) -> Option<Want>
    ensures { option_to_list result ≡ slot_wants before }
{
    match before {
        None => None,
        Some(before) => Some(Want::Number(before.slot, u32::MAX)),
    }
}

// The greatest value that the pins of a port can show.
fn greatest_value(port: u8) -> u32
    requires { port < 29 }
    ensures { result ≡ 2 ^ port_width port - 1 }
{
    match port {
        0..=15 => 1,
        16..=21 => 15,
        22..=25 => 255,
        26 | 27 => 65_535,
        _ => u32::MAX,
    }
}

// A value of as many bits as the port has pins.
fn value_want(pin: Option<ScriptPin>) -> Option<Want>
    requires { IfSome pin (λ pin. pin.port < 29) }
    ensures { option_to_list result ≡ value_wants pin }
{
    match pin {
        None => None,
        Some(pin) => Some(Want::Number(0, greatest_value(pin.port))),
    }
}

impl<'a> ScriptLine<'a> {
    /// The place at which it is faulty, by the kind of its fault, and what may stand there.
    pub(crate) fn spot(&self, alloc: Global, kind: PinKind) -> Result<Spot, AllocError>
        ensures spot { IfOk result (λ spot. spot_of_kept spot ≡ script_spot kind (line_of_kept self.now)) }
        ensures within { IfOk result (λ spot. spot.at ≤ length self.now.bytes.now) }
    {
        match kind {
            PinKind::BadLine | PinKind::NoSuchPort => form_spot(alloc, self.bytes),
            PinKind::SlotFalls => Spot::new(
                alloc,
                first_word(self.bytes).at,
                slot_want(self.slot_before()),
            ),
            PinKind::ValueTooWide => Spot::new(
                alloc,
                third_word(self.bytes).at,
                value_want(script_pin(second_word(self.bytes).bytes)),
            ),
            PinKind::NoSuchNode | PinKind::PinGivenTwice => Spot::new(
                alloc,
                second_word(self.bytes).at,
                None,
            ),
        }
    }
}
