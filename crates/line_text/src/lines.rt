//! The lines of events.
ghost use Rattle.std.specs.Prelude.{◌≡◌, ◌<◌, ◌++◌, OnOk, OnErr};
ghost use Rattle.xs_model.specs.Events.{IsWithinCounts, NamesWhatIsThere};
ghost use Rattle.trace_model.specs.EventLines.{event_line, happening_text, port_name, drive_text, float_text, chan_text, lost_text, trap_text, halt_text};

use crate::numerals::append_hex_word;
use crate::traffic::append_token;
use decimal_text::append_decimal;
use std::alloc::{AllocError, Global};
use xs_base::{Text, Token};
use xs_model::{Event, Happen};

/// Puts the line of an event of this node at the end of the text. Slots, counts, token values and trap numbers are
/// decimal, and the rest is hex. The error is want of memory, and leaves the text as it was. See docs/OUTPUT.md.
pub fn line_of(alloc: Global, node: u8, e: Event, out: &mut Text) -> Result<(), AllocError>
    requires { IsWithinCounts e }
    ensures ok { OnOk result (out.new ≡ out.old ++ event_line node e) }
    ensures err { OnErr result (out.new ≡ out.old) }
{
    // The line is made apart, so that an error in the midst of it leaves `out` as it was.
    let mut line = Text::new(alloc);
    append_line(&mut line, node, e)?;
    out.append(line.bytes())
}

fn append_line(line: &mut Text, node: u8, e: Event) -> Result<(), AllocError>
    requires { IsWithinCounts e }
    ensures { OnOk result (line.new ≡ line.old ++ event_line node e) }
{
    append_decimal(line, u64::from(e.slot))?;
    line.append(b" n")?;
    append_decimal(line, u64::from(node))?;
    append_happening(line, e.what)?;
    line.append(b"\n")
}

fn append_happening(line: &mut Text, what: Happen) -> Result<(), AllocError>
    requires { NamesWhatIsThere what }
    ensures { OnOk result (line.new ≡ line.old ++ happening_text what) }
{
    match what {
        Happen::Drive { port, value } => append_drive(line, port, value),
        Happen::Float { port } => append_float(line, port),
        Happen::Chan { chan, token } => append_chan(line, chan, token),
        Happen::Lost { id } => append_lost(line, id),
        Happen::Trap { thread, et, pc, ed } => append_trap(line, thread, et, pc, ed),
        Happen::Halt { thread } => append_halt(line, thread),
    }
}

fn append_drive(line: &mut Text, port: u8, value: u32) -> Result<(), AllocError>
    requires { port < 29 }
    ensures { OnOk result (line.new ≡ line.old ++ drive_text port value) }
{
    line.append(b" pin ")?;
    append_port_name(line, port)?;
    line.append(b" ")?;
    append_hex_word(line, value)
}

fn append_float(line: &mut Text, port: u8) -> Result<(), AllocError>
    requires { port < 29 }
    ensures { OnOk result (line.new ≡ line.old ++ float_text port) }
{
    line.append(b" pin ")?;
    append_port_name(line, port)?;
    line.append(b" float")
}

fn append_chan(line: &mut Text, chan: u8, token: Token) -> Result<(), AllocError>
    ensures { OnOk result (line.new ≡ line.old ++ chan_text chan token) }
{
    line.append(b" chan ")?;
    append_decimal(line, u64::from(chan))?;
    line.append(b" ")?;
    append_token(line, token)
}

fn append_lost(line: &mut Text, id: u32) -> Result<(), AllocError>
    ensures { OnOk result (line.new ≡ line.old ++ lost_text id) }
{
    line.append(b" lost ")?;
    append_hex_word(line, id)
}

fn append_trap(line: &mut Text, thread: u8, et: u32, pc: u32, ed: u32) -> Result<(), AllocError>
    ensures { OnOk result (line.new ≡ line.old ++ trap_text thread et pc ed) }
{
    line.append(b".t")?;
    append_decimal(line, u64::from(thread))?;
    line.append(b" trap ")?;
    append_decimal(line, u64::from(et))?;
    line.append(b" pc ")?;
    append_hex_word(line, pc)?;
    line.append(b" data ")?;
    append_hex_word(line, ed)
}

fn append_halt(line: &mut Text, thread: u8) -> Result<(), AllocError>
    ensures { OnOk result (line.new ≡ line.old ++ halt_text thread) }
{
    line.append(b".t")?;
    append_decimal(line, u64::from(thread))?;
    line.append(b" halt")
}

/// Puts the name of a port, 0 to 28, at the end of the text: its width, and its letter. The error is want of memory. See docs/PORTS.md.
pub fn append_port_name(line: &mut Text, port: u8) -> Result<(), AllocError>
    requires { port < 29 }
    ensures { OnOk result (line.new ≡ line.old ++ port_name port) }
{
    if port < 16 {
        line.append(&[b'1', b'A' + port])
    } else if port < 22 {
        line.append(&[b'4', b'A' + (port - 16)])
    } else if port < 26 {
        line.append(&[b'8', b'A' + (port - 22)])
    } else if port < 28 {
        line.append(&[b'1', b'6', b'A' + (port - 26)])
    } else {
        line.append(b"32A")
    }
}
