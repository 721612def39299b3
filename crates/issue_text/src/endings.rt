//! How an issue ended, and where the thread goes on.
ghost use Rattle.std.specs.Prelude.{◌≡◌, ◌++◌, codes, decimal, OnOk};
ghost use Rattle.look_model.specs.Resources.{chan_name};
ghost use Rattle.issue_model.specs.Endings.{ending_of_run, ending_of, is_done, ending_text};
ghost use Rattle.issue_model.specs.Endings.{port_text, pause_text, took_text, handler_text, trapped_text, goes_text};

use crate::phrases::{
    and_goes, and_halts, end_of_output, goes_to, pauses_for, takes_an_event, takes_an_interrupt,
    the_divider,
};
use core_step::Choice;
use decimal_text::append_decimal;
use issue_model::Ending;
use line_text::{append_hex_word, append_port_name};
use look_words::{append_chan_name, append_lock_name, append_sync_name, append_timer_name};
use std::alloc::AllocError;
use xs_base::Text;
use xs_base::numbers::PORTS;
use xs_model::{Run, Thread, Wait};

/// How an issue ended, by what the thread took, whether it trapped, and what it does then.
pub(crate) fn ending_of(takes: Option<Choice>, traps: bool, run: Run) -> Ending
    ensures { result ≡ ending_of takes traps run }
{
    match takes {
        Some(choice) => Ending::Took {
            interrupt: choice.interrupt,
        },
        None if traps => Ending::Trapped,
        None => ending_of_run(run),
    }
}

fn ending_of_run(run: Run) -> Ending
    ensures { result ≡ ending_of_run run }
{
    match run {
        Run::Paused(wait) => Ending::Paused(wait),
        Run::Free => Ending::Ended,
        _ => Ending::Done,
    }
}

/// Whether the instruction was done.
pub(crate) fn is_done(ending: Ending) -> bool
    ensures { result ≡ is_done ending }
{
    matches!(ending, Ending::Ended | Ending::Done)
}

/// How an issue ended, in words, of a thread that was this before it and is that after it, on the node with an id. The error is want of
/// memory.
pub(crate) fn append_ending(
    out: &mut Text,
    id: u16,
    before: &Thread,
    after: &Thread,
    ending: Ending,
) -> Result<(), AllocError>
    ensures { OnOk result (out.new ≡ out.old ++ ending_text id before.now after.now ending) }
{
    match ending {
        Ending::Took { interrupt } => append_took(out, interrupt, after.pc),
        Ending::Trapped => append_trapped(out, after),
        Ending::Paused(wait) => {
            out.append(pauses_for())?;
            append_pause(out, id, wait)
        }
        Ending::Ended => out.append(b"; ends"),
        Ending::Done => append_goes(out, before.pc, after.pc),
    }
}

fn append_took(out: &mut Text, interrupt: bool, pc: u32) -> Result<(), AllocError>
    ensures { OnOk result (out.new ≡ out.old ++ took_text interrupt pc) }
{
    if interrupt {
        out.append(takes_an_interrupt())?;
    } else {
        out.append(takes_an_event())?;
    }
    append_hex_word(out, pc)
}

// By which trap, of the thread after it, and where that leads.
fn append_trapped(out: &mut Text, th: &Thread) -> Result<(), AllocError>
    ensures { OnOk result (out.new ≡ out.old ++ trapped_text th.now) }
{
    out.append(b"; traps ")?;
    append_decimal(out, u64::from(th.et))?;
    out.append(b" data ")?;
    append_hex_word(out, th.ed)?;
    append_handler(out, th.run)?;
    append_hex_word(out, th.pc)
}

// Where a trap leads.
fn append_handler(out: &mut Text, run: Run) -> Result<(), AllocError>
    ensures { OnOk result (out.new ≡ out.old ++ handler_text run) }
{
    match run {
        Run::Halted => out.append(and_halts()),
        _ => out.append(and_goes()),
    }
}

// Where it goes on, if that is not the next instruction.
fn append_goes(out: &mut Text, before: u32, after: u32) -> Result<(), AllocError>
    ensures { OnOk result (out.new ≡ out.old ++ goes_text before after) }
{
    if after == before.wrapping_add(4) {
        return Ok(());
    }
    out.append(goes_to())?;
    append_hex_word(out, after)
}

// What a thread waits for.
fn append_pause(out: &mut Text, id: u16, wait: Wait) -> Result<(), AllocError>
    ensures { OnOk result (out.new ≡ out.old ++ pause_text id wait) }
{
    match wait {
        Wait::Room { chan, count } => append_room(out, id, chan, count),
        Wait::Tokens { chan, .. } => append_tokens(out, id, chan),
        Wait::PortFull { port } => {
            out.append(b"data at ")?;
            append_port(out, port)
        }
        Wait::PortEmpty { port } => {
            out.append(b"room at ")?;
            append_port(out, port)
        }
        Wait::PortIdle { port } => {
            out.append(end_of_output())?;
            append_port(out, port)
        }
        Wait::Timer { timer } => append_timer_name(out, timer),
        Wait::Lock { lock } => append_lock_name(out, lock),
        Wait::Slaves { sync } => append_sync_name(out, sync),
        Wait::Choice => out.append(b"an event"),
        Wait::Divider => out.append(the_divider()),
    }
}

// Room for so many tokens at a channel end.
fn append_room(out: &mut Text, id: u16, chan: u8, count: u8) -> Result<(), AllocError>
    ensures { OnOk result (out.new ≡ out.old ++ (codes "room for " ++ (decimal count ++ (codes " at " ++ chan_name id chan)))) }
{
    out.append(b"room for ")?;
    append_decimal(out, u64::from(count))?;
    out.append(b" at ")?;
    append_chan_name(out, id, chan)?;
    Ok(())
}

// `tokens at channel end ID`.
fn append_tokens(out: &mut Text, id: u16, chan: u8) -> Result<(), AllocError>
    ensures { OnOk result (out.new ≡ out.old ++ (codes "tokens at " ++ chan_name id chan)) }
{
    out.append(b"tokens at ")?;
    append_chan_name(out, id, chan)?;
    Ok(())
}

// `port P`.
fn append_port(out: &mut Text, port: u8) -> Result<(), AllocError>
    ensures { OnOk result (out.new ≡ out.old ++ port_text port) }
{
    if port >= PORTS {
        return out.append(b"a port");
    }
    out.append(b"port ")?;
    append_port_name(out, port)
}
