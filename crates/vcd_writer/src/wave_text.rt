//! A wave text in the making.
ghost use Rattle.std.specs.Prelude.{◌≡◌, ◌<◌, ◌≤◌, ◌++◌, ◌∷◌, [], drop, OnOk};
ghost use Rattle.wave_model.specs.Lines.{binary, change_line, slot_line, value_text};
ghost use Rattle.wave_model.specs.Waves.{ended, slot_lines, text_of_lines};
ghost use Rattle.vcd_writer.specs.Tells.{Tells};

use crate::named_lines::append_code;
use decimal_text::append_decimal;
use std::alloc::AllocError;
use std::marker::Model;
use wave_model::WaveChange;
use xs_base::{Text, port_width};

/// A wave text up to some change: the lines so far, and the slot under which the next change stands without a slot line. Contracts see a
/// `TextRec` of `Rattle.vcd_writer.specs.Tells`.
#[derive(Drop)]
pub(crate) struct WaveText {
    text: Text,
    slot: u32,
}

impl Model for WaveText {
    ghost use Rattle.vcd_writer.specs.Tells.{TextRec};

    ghost Value = { TextRec };

    ghost view = { λ w. record { text = w.text; slot = w.slot } };
}

impl WaveText {
    /// A text whose last line is that of slot 0.
    pub(crate) fn begun(text: Text) -> WaveText
        ensures { result ≡ record { text = text; slot = 0 } }
    {
        WaveText { text, slot: 0 }
    }

    /// The text so far.
    pub(crate) fn into_text(self) -> Text
        ensures { result ≡ self.text }
    {
        self.text
    }

    /// Puts a change at the end: of a port, 0 to 28, and the node at a position, at most 15. The error is want of memory.
    pub(crate) fn put(&mut self, change: WaveChange) -> Result<(), AllocError>
        requires node { change.node < 16 }
        requires port { change.port < 29 }
        ensures { OnOk result (Tells self.old self.new (change ∷ [])) }
    {
        self.go_to(change.slot)?;
        append_change_line(&mut self.text, change)
    }

    // Puts the line of a slot at the end, unless the last one is of that slot.
    #[inline]
    fn go_to(&mut self, slot: u32) -> Result<(), AllocError>
        ensures text { OnOk result (self.new.text ≡ self.old.text ++ text_of_lines (slot_lines self.old.slot slot)) }
        ensures slot { OnOk result (self.new.slot ≡ slot) }
    {
        if slot == self.slot {
            return Ok(());
        }
        self.slot = slot;
        append_slot_line(&mut self.text, slot)
    }
}

/// Puts the line of a slot at the end of the text. The error is want of memory. See docs/WAVES.md.
pub(crate) fn append_slot_line(out: &mut Text, slot: u32) -> Result<(), AllocError>
    ensures { OnOk result (out.new ≡ out.old ++ ended (slot_line slot)) }
{
    out.append(b"#")?;
    append_decimal(out, u64::from(slot))?;
    out.append(b"\n")
}

fn append_change_line(out: &mut Text, change: WaveChange) -> Result<(), AllocError>
    requires node { change.node < 16 }
    requires port { change.port < 29 }
    ensures { OnOk result (out.new ≡ out.old ++ ended (change_line change)) }
{
    append_value(out, port_width(change.port), change.value)?;
    append_code(out, change.node, change.port)?;
    out.append(b"\n")
}

// What stands before the code, of a value of so many bits.
fn append_value(out: &mut Text, width: u32, value: u32) -> Result<(), AllocError>
    ensures { OnOk result (out.new ≡ out.old ++ value_text width value) }
{
    if width == 1 {
        return append_binary(out, value);
    }
    out.append(b"b")?;
    append_binary(out, value)?;
    out.append(b" ")
}

fn append_binary(out: &mut Text, value: u32) -> Result<(), AllocError>
    ensures { OnOk result (out.new ≡ out.old ++ binary value) }
{
    let mut buffer = [0; 64];
    let first = write_binary(value, &mut buffer);
    out.append(&buffer[first..])
}

// Writes a value in binary so that it ends where the buffer does, and returns where it begins. There is room for more digits than a word has,
// so that no count of them is kept.
#[inline]
fn write_binary(value: u32, buffer: &mut [u8; 64]) -> usize
    ensures first { result ≤ 64 }
    ensures written { drop result buffer.new ≡ binary value }
{
    let mut at = 64;
    let mut left = value;
    while at > 0 {
        at -= 1;
        buffer[at] = b'0' + (left % 2) as u8;
        left /= 2;
        if left == 0 {
            break;
        }
    }
    at
}
