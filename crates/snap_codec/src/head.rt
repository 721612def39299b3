//! The first line and the text of a snapshot.
ghost use Rattle.std.specs.Prelude.{◌≡◌, ◌<◌, ◌^◌, ◌++◌, length, OnOk};
ghost use Rattle.byte_forms.specs.Reading.{Gives};
ghost use Rattle.snap_codec.specs.Snaps.{first_line, head, line, text_field};

use byte_forms::{Fault, Reader, write_word};
use std::alloc::AllocError;
use xs_base::Text;

/// Reads the first line and the system text. The text is one field after its length, and ends where that says.
#[tactic(auto, unfolding(crate::specs::Snaps::head))]
pub(crate) fn read_head<'a>(from: &mut Reader<'a>) -> Result<&'a [u8], Fault>
    ensures value { Gives head (λ text. text.now) from.old result from.new }
{
    read_line(from)?;
    read_text(from)
}

// Reads the first line, which is one field.
#[tactic(auto, unfolding(crate::specs::Snaps::line))]
fn read_line(from: &mut Reader) -> Result<(), Fault>
    ensures value { Gives line (λ _. first_line) from.old result from.new }
{
    let left = from.left();
    let line = from.read_bytes(15)?;
    if line == b"xs1 snapshot 1\n".as_slice() {
        Ok(())
    } else {
        Err(Fault::Wrong(left))
    }
}

// Reads the text after its length.
#[tactic(auto, unfolding(crate::specs::Snaps::text_field))]
fn read_text<'a>(from: &mut Reader<'a>) -> Result<&'a [u8], Fault>
    ensures value { Gives text_field (λ text. text.now) from.old result from.new }
{
    let count = from.read_word()?;
    from.read_bytes(count as usize)
}

/// Writes the first line and the system text. The error is want of memory.
#[tactic(auto, unfolding(crate::specs::Snaps::head))]
pub(crate) fn write_head(out: &mut Text, text: &[u8]) -> Result<(), AllocError>
    requires few { length text.now < 2 ^ 32 }
    ensures value { OnOk result (out.new ≡ out.old ++ head.write text.now) }
{
    out.append(b"xs1 snapshot 1\n")?;
    write_text(out, text)
}

// Writes the text after its length.
#[tactic(auto, unfolding(crate::specs::Snaps::text_field))]
fn write_text(out: &mut Text, text: &[u8]) -> Result<(), AllocError>
    requires few { length text.now < 2 ^ 32 }
    ensures value { OnOk result (out.new ≡ out.old ++ text_field.write text.now) }
{
    write_word(out, text.len() as u32)?;
    out.append(text)
}
