//! The lines of a thread.
ghost use Rattle.std.specs.Prelude.{◌≡◌, ◌<◌, ◌++◌, OnOk, codes};
ghost use Rattle.look_model.specs.Waits.{run_text, run_lines, pause_lines, trap_line, thread_lines, is_free, master_text, sync_of};

use crate::enabled::append_enabled;
use crate::pieces::Piece::{self, Hex, Number, Words};
use crate::pieces::append_pieces;
use crate::seen::sync_of;
use crate::waits::{append_master, append_wait};
use core_step::NodeState;
use look_words::append_place;
use std::alloc::{AllocError, Global};
use sys_plan::NodePlan;
use xs_base::Text;
use xs_model::{Run, Status, Thread, Wait};
use xs_printer::Printer;

/// A node as it was kept before a slot, with the line of its source that each of its instructions comes from.
#[derive(Drop)]
pub(crate) struct Seat<'a> {
    pub(crate) node: &'a NodePlan,
    pub(crate) printer: &'a Printer<'a>,
    pub(crate) lines: &'a [u32],
    pub(crate) slot: u32,
    pub(crate) state: &'a NodeState,
}

/// The line of a thread that is not free, and what it waits for. The error is want of memory.
pub(crate) fn append_thread(
    alloc: Global,
    out: &mut Text,
    seat: &Seat,
    k: u8,
    thread: &Thread,
) -> Result<(), AllocError>
    requires thread { k < 8 }
    requires printer { seat.now.printer.now ≡ seat.now.node.now.image }
    ensures { OnOk result (out.new ≡ out.old
        ++ thread_lines seat.now.node.now seat.now.lines.now seat.now.slot seat.now.state.now k thread.now) }
{
    if is_free(thread.run) {
        return Ok(());
    }
    let node = seat.node;
    append_pieces(
        out,
        &[
            Words(b"n"),
            Number(u64::from(node.number)),
            Words(b"."),
            Piece::Thread(k),
            Words(run_words(thread.run)),
        ],
    )?;
    append_place(out, &node.image, seat.printer, seat.lines, thread.pc)?;
    out.append(b"\n")?;
    append_run_lines(alloc, out, seat, k, thread)
}

// Whether a thread is free.
fn is_free(run: Run) -> bool
    ensures { result ≡ is_free run }
{
    matches!(run, Run::Free)
}

// What it does, in a word.
fn run_words(run: Run) -> &'static [u8]
    ensures { result.now ≡ run_text run }
{
    match run {
        Run::Free => b" free",
        Run::Unstarted => b" unstarted",
        Run::AtSync => b" at sync",
        Run::Going => b" going",
        Run::Paused(_) => b" paused",
        Run::Halted => b" halted",
    }
}

// What it waits for.
fn append_run_lines(
    alloc: Global,
    out: &mut Text,
    seat: &Seat,
    k: u8,
    thread: &Thread,
) -> Result<(), AllocError>
    requires number { k < 8 }
    requires printer { seat.now.printer.now ≡ seat.now.node.now.image }
    ensures { OnOk result (out.new ≡ out.old
        ++ run_lines seat.now.node.now seat.now.lines.now seat.now.slot seat.now.state.now k thread.now thread.now.run) }
{
    match thread.run {
        Run::Unstarted => append_slave(out, b"  waits for the start by", seat.state, k),
        Run::AtSync => append_slave(out, b"  waits for", seat.state, k),
        Run::Paused(wait) => append_pause(
            alloc,
            out,
            seat.node.id,
            seat.slot,
            seat.state,
            k,
            thread.sr,
            wait,
        ),
        Run::Halted => append_trap(out, seat.node, seat.printer, seat.lines, thread),
        Run::Free | Run::Going => Ok(()),
    }
}
// The master that a slave waits for, behind some words.
fn append_slave(out: &mut Text, words: &[u8], state: &NodeState, k: u8) -> Result<(), AllocError>
    requires number { k < 8 }
    ensures { OnOk result (out.new ≡ out.old ++ (words.now ++ (master_text (sync_of state.now k) ++ codes "\n"))) }
{
    out.append(words)?;
    append_master(out, sync_of(&state.syncs, k))?;
    out.append(b"\n")
}

// What a paused thread waits for.
fn append_pause(
    alloc: Global,
    out: &mut Text,
    id: u16,
    slot: u32,
    state: &NodeState,
    k: u8,
    sr: Status,
    wait: Wait,
) -> Result<(), AllocError>
    ensures { OnOk result (out.new ≡ out.old ++ pause_lines id slot state.now k sr wait) }
{
    out.append(b"  waits for ")?;
    append_wait(alloc, out, id, slot, state, wait)?;
    out.append(b"\n")?;
    append_enabled(out, id, slot, state, k, sr)
}

// The trap by which a thread halted.
fn append_trap(
    out: &mut Text,
    node: &NodePlan,
    printer: &Printer,
    lines: &[u32],
    thread: &Thread,
) -> Result<(), AllocError>
    requires printer { printer.now ≡ node.now.image }
    ensures { OnOk result (out.new ≡ out.old ++ trap_line node.now lines.now thread.now) }
{
    append_pieces(
        out,
        &[
            Words(b"  by trap "),
            Number(u64::from(thread.et)),
            Words(b" data "),
            Hex(thread.ed),
        ],
    )?;
    append_place(out, &node.image, printer, lines, thread.spc)?;
    out.append(b"\n")
}
