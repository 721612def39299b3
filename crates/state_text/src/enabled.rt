//! What a thread has enabled.
ghost use Rattle.std.specs.Prelude.{◌≡◌, ◌≤◌, ◌<◌, ◌++◌, OnOk, length};
ghost use Rattle.trace_model.specs.Trace.{by_position};
ghost use Rattle.look_model.specs.Waits.{is_by, is_let_in, let_in_text, gives_text, enabled_lines, chan_tells, all_enabled};
ghost use Rattle.state_text.specs.Kinds.{tells};

use crate::pieces::Piece::{Chan, Number, Words};
use crate::pieces::append_pieces;
use crate::ports::append_input_port;
use crate::resources::{append_timer, input_count};
use bitflags::Flags;
use core_step::NodeState;
use event_unit::EnableState;
use std::alloc::AllocError;
use xs_base::Text;
use xs_model::{EEBLE, IEBLE, Status};

// The status bits by which a thread takes events, and interrupts.
const EVENTS: Status = Status { bits: EEBLE };

const INTERRUPTS: Status = Status { bits: IEBLE };

/// A kind of resources that may give an event.
#[derive(Clone, Copy)]
pub(crate) enum Kind {
    Chans,
    Timers,
    Ports,
}

/// The lines of all that a thread has enabled. The error is want of memory.
pub(crate) fn append_enabled(
    out: &mut Text,
    id: u16,
    slot: u32,
    state: &NodeState,
    k: u8,
    sr: Status,
) -> Result<(), AllocError>
    ensures { OnOk result (out.new ≡ out.old ++ all_enabled id slot state.now k sr) }
{
    append_kind(
        out,
        Kind::Chans,
        id,
        slot,
        state,
        k,
        sr,
        &state.chan_enables,
    )?;
    append_kind(
        out,
        Kind::Timers,
        id,
        slot,
        state,
        k,
        sr,
        &state.timer_enables,
    )?;
    append_kind(
        out,
        Kind::Ports,
        id,
        slot,
        state,
        k,
        sr,
        &state.port_enables,
    )
}

// Those of a kind.
#[tactic(auto, unfolding(trace_model::specs::Trace::by_position))]
fn append_kind(
    out: &mut Text,
    kind: Kind,
    id: u16,
    slot: u32,
    state: &NodeState,
    k: u8,
    sr: Status,
    enables: &[EnableState],
) -> Result<(), AllocError>
    requires few { length enables.now ≤ 256 }
    ensures { OnOk result (out.new ≡ out.old ++ enabled_lines (tells kind id slot state.now) k sr enables.now) }
{
    for n in 0..enables.len() {
        let enable = enables[n];
        if is_by(k, enable) {
            append_line(out, kind, id, slot, state, sr, n as u8, enable)?;
        }
    }
    Ok(())
}

// That of a resource.
fn append_line(
    out: &mut Text,
    kind: Kind,
    id: u16,
    slot: u32,
    state: &NodeState,
    sr: Status,
    n: u8,
    enable: EnableState,
) -> Result<(), AllocError>
    ensures { OnOk result (out.new ≡ out.old ++ (gives_text enable ++ (tells kind id slot state.now n ++ let_in_text (is_let_in sr enable)))) }
{
    out.append(gives(enable))?;
    append_told(out, kind, id, slot, state, n)?;
    out.append(let_in(is_let_in(sr, enable)))
}

// A resource, with what it waits for.
fn append_told(
    out: &mut Text,
    kind: Kind,
    id: u16,
    slot: u32,
    state: &NodeState,
    n: u8,
) -> Result<(), AllocError>
    ensures { OnOk result (out.new ≡ out.old ++ tells kind id slot state.now n) }
{
    match kind {
        Kind::Chans => append_held(out, id, state, n),
        Kind::Timers => append_timer(out, slot, &state.timers, n),
        Kind::Ports => append_input_port(out, &state.clocks, n, &state.ports),
    }
}

// A channel end, and how many tokens it holds.
fn append_held(out: &mut Text, id: u16, state: &NodeState, n: u8) -> Result<(), AllocError>
    ensures { OnOk result (out.new ≡ out.old ++ chan_tells id state.now n) }
{
    append_pieces(
        out,
        &[
            Chan { id, chan: n },
            Words(b": "),
            Number(input_count(&state.chans, n)),
            Words(b" tokens"),
        ],
    )
}

// Whether a thread has enabled a resource.
fn is_by(k: u8, enable: EnableState) -> bool
    ensures { result ≡ is_by k enable.by }
{
    match enable.by {
        None => false,
        Some(other) => other == k,
    }
}

// Whether a thread with this status takes what a resource gives.
fn is_let_in(sr: Status, enable: EnableState) -> bool
    ensures { result ≡ is_let_in sr enable }
{
    if enable.interrupt {
        sr.intersects(INTERRUPTS)
    } else {
        sr.intersects(EVENTS)
    }
}

// What a resource gives where it is ready.
fn gives(enable: EnableState) -> &'static [u8]
    ensures { result.now ≡ gives_text enable }
{
    if enable.interrupt {
        b"  interrupt: "
    } else {
        b"  event: "
    }
}

// The end of its line.
fn let_in(is_in: bool) -> &'static [u8]
    ensures { result.now ≡ let_in_text is_in }
{
    if is_in { b"\n" } else { b", not let in\n" }
}
