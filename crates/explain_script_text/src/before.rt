//! What the lines before a line of a script give.
ghost use Rattle.std.specs.Prelude.{◌≡◌, ◌≤◌, ◌<◌, ◌+◌, ◌-◌, ◌^◌, None, length, take};
ghost use Rattle.xs_text.specs.Lines.{lines_of};
ghost use Rattle.explain_frame_model.specs.Script.{slot_line, last_slot, is_same, gives, first_giving, slot_pin_of, slot_before, given_before};
ghost use Rattle.explain_script_text.specs.Lines.{line_of_kept};

use crate::line_words::slot_pin;
use crate::script_line::ScriptLine;
use explain_frame_model::{SlotLine, SlotPin};
use xs_text::Lines;

// The slot of a line, or else that of a line before.
fn slot_line(number: u32, line: &[u8], before: Option<SlotLine>) -> Option<SlotLine>
    ensures { result ≡ slot_line number (slot_pin_of line.now) before }
{
    match slot_pin(line) {
        None => before,
        Some(given) => Some(SlotLine {
            number,
            slot: given.slot,
        }),
    }
}

// The last of the first lines of a script, so many, that gives a slot, where the first has a number.
#[tactic(auto, unfolding(explain_frame_model::specs::Script::last_slot))]
fn last_slot(script: &[u8], first: u32, count: u32) -> Option<SlotLine>
    requires { first + length script.now < 2 ^ 32 }
    ensures { result ≡ last_slot first None (take count (lines_of script.now)) }
{
    let mut lines = Lines::new(script);
    let mut before = None;
    while let Some(line) = lines.next_line() {
        if line.number > count {
            return before;
        }
        before = slot_line(
            first + (line.number - 1),
            &script[line.from..line.to],
            before,
        );
    }
    before
}

fn is_same(a: SlotPin, b: SlotPin) -> bool
    ensures { result ≡ is_same a b }
{
    a.slot == b.slot && a.pin.node == b.pin.node && a.pin.port == b.pin.port
}

fn gives(given: SlotPin, line: &[u8]) -> bool
    ensures { result ≡ gives given (slot_pin_of line.now) }
{
    match slot_pin(line) {
        None => false,
        Some(other) => is_same(given, other),
    }
}

// The number of the first of the first lines of a script, so many, that gives a pin in a slot, where the first has a number.
#[tactic(auto, unfolding(explain_frame_model::specs::Script::first_giving))]
fn first_giving(given: SlotPin, script: &[u8], first: u32, count: u32) -> Option<u32>
    requires { first + length script.now < 2 ^ 32 }
    ensures { result ≡ first_giving given first (take count (lines_of script.now)) }
{
    let mut lines = Lines::new(script);
    while let Some(line) = lines.next_line() {
        if line.number > count {
            return None;
        }
        if gives(given, &script[line.from..line.to]) {
            return Some(first + (line.number - 1));
        }
    }
    None
}

impl<'a> ScriptLine<'a> {
    /// The last line before it that gives a slot.
    pub(crate) fn slot_before(&self) -> Option<SlotLine>
        ensures { result ≡ slot_before (line_of_kept self.now) }
    {
        last_slot(self.script, self.first, self.line - 1)
    }

    /// The number of the first line before it that gives the same pin in the same slot.
    pub(crate) fn given_before(&self) -> Option<u32>
        ensures { result ≡ given_before (line_of_kept self.now) }
    {
        let given = slot_pin(self.bytes)?;
        first_giving(given, self.script, self.first, self.line - 1)
    }
}
