//! What a paused thread waits for.
ghost use Rattle.std.specs.Prelude.{◌≡◌, ◌++◌, ◌∷◌, [], OnOk, slice_get, codes, decimal};
ghost use Rattle.xs_model.specs.declared.thread.Wait.TheVariants.{Room, Tokens, PortFull, Lock, Slaves};
ghost use Rattle.look_model.specs.Resources.{output_port_text};
ghost use Rattle.look_model.specs.Waits.{thread_names, missing_text, master_text, divider_slots, wait_text};

use crate::phrases::{all_in, not_in, the_divider};
use crate::pieces::Piece::{self, Chan, Number, Sync, Words};
use crate::pieces::append_pieces;
use crate::ports::{append_input_port, append_output_port};
use crate::resources::{append_timer, input_count, output_count};
use crate::seen::{missing, owner};
use core_step::NodeState;
use decimal_text::append_decimal;
use look_words::append_sync_name;
use std::alloc::{AllocError, Global};
use sync_locks::SyncState;
use xs_base::Text;
use xs_base::numbers::BUFFER_TOKENS;
use xs_model::{DIVISION_SLOTS, Wait};

/// What a paused thread of a node waits for, before a slot. The error is want of memory.
pub(crate) fn append_wait(
    alloc: Global,
    out: &mut Text,
    id: u16,
    slot: u32,
    state: &NodeState,
    wait: Wait,
) -> Result<(), AllocError>
    ensures { OnOk result (out.new ≡ out.old ++ wait_text id slot state.now wait) }
{
    match wait {
        Wait::Room { chan, count } => append_room(out, id, state, chan, count),
        Wait::Tokens { chan, count } => append_tokens(out, id, state, chan, count),
        Wait::PortFull { port } => append_input(out, state, port),
        Wait::PortEmpty { port } => append_output(out, b"room at ", state, port),
        Wait::PortIdle { port } => append_output(out, b"the end of output at ", state, port),
        Wait::Timer { timer } => append_timer(out, slot, &state.timers, timer),
        Wait::Lock { lock } => append_lock(out, state, lock),
        Wait::Slaves { sync } => append_slaves(alloc, out, state, sync),
        Wait::Choice => out.append(b"an event"),
        Wait::Divider => append_divider(out, slot, state.division),
    }
}

// `room for WANTED at channel end ID: taken HELD of 8`.
fn append_room(
    out: &mut Text,
    id: u16,
    state: &NodeState,
    chan: u8,
    count: u8,
) -> Result<(), AllocError>
    ensures { OnOk result (out.new ≡ out.old ++ wait_text id 0 state.now (Room chan count)) }
{
    append_pieces(
        out,
        &[
            Words(b"room for "),
            Number(u64::from(count)),
            Words(b" at "),
            Chan { id, chan },
            Words(b": taken "),
            Number(output_count(&state.chans, chan)),
            Words(b" of "),
            Number(u64::from(BUFFER_TOKENS)),
        ],
    )
}

// `tokens at channel end ID: HELD of WANTED`.
fn append_tokens(
    out: &mut Text,
    id: u16,
    state: &NodeState,
    chan: u8,
    count: u8,
) -> Result<(), AllocError>
    ensures { OnOk result (out.new ≡ out.old ++ wait_text id 0 state.now (Tokens chan count)) }
{
    append_pieces(
        out,
        &[
            Words(b"tokens at "),
            Chan { id, chan },
            Words(b": "),
            Number(input_count(&state.chans, chan)),
            Words(b" of "),
            Number(u64::from(count)),
        ],
    )
}

// Data at a port.
fn append_input(out: &mut Text, state: &NodeState, port: u8) -> Result<(), AllocError>
    ensures { OnOk result (out.new ≡ out.old ++ wait_text 0 0 state.now (PortFull port)) }
{
    out.append(b"data at ")?;
    append_input_port(out, &state.clocks, port, &state.ports)
}

// A port with its output, behind some words.
fn append_output(
    out: &mut Text,
    words: &[u8],
    state: &NodeState,
    port: u8,
) -> Result<(), AllocError>
    ensures { OnOk result (out.new ≡ out.old ++ (words.now ++ output_port_text state.now.clocks port (slice_get state.now.ports port))) }
{
    out.append(words)?;
    append_output_port(out, &state.clocks, port, &state.ports)
}

// A lock, and who owns it.
fn append_lock(out: &mut Text, state: &NodeState, lock: u8) -> Result<(), AllocError>
    ensures { OnOk result (out.new ≡ out.old ++ wait_text 0 0 state.now (Lock lock)) }
{
    let name = Piece::Lock(lock);
    match owner(&state.locks, lock) {
        None => append_pieces(out, &[name, Words(b", which is free")]),
        Some(k) => append_pieces(
            out,
            &[name, Words(b", which "), Piece::Thread(k), Words(b" owns")],
        ),
    }
}

// The slaves of a synchroniser that are not in.
fn append_slaves(
    alloc: Global,
    out: &mut Text,
    state: &NodeState,
    sync: u8,
) -> Result<(), AllocError>
    ensures { OnOk result (out.new ≡ out.old ++ wait_text 0 0 state.now (Slaves sync)) }
{
    append_sync_name(out, sync)?;
    let threads = missing(alloc, &state.threads, &state.syncs, sync)?;
    append_missing(out, &threads)
}

// Those of them that are not in.
fn append_missing(out: &mut Text, threads: &[u8]) -> Result<(), AllocError>
    ensures { OnOk result (out.new ≡ out.old ++ missing_text threads.now) }
{
    if threads.is_empty() {
        return out.append(all_in());
    }
    out.append(not_in())?;
    append_thread_names(out, threads)
}

// The name of each thread behind a blank.
fn append_thread_names(out: &mut Text, threads: &[u8]) -> Result<(), AllocError>
    ensures { OnOk result (out.new ≡ out.old ++ thread_names threads.now) }
{
    for k in threads {
        append_spaced_name(out, *k)?;
    }
    Ok(())
}

// ` tK`.
fn append_spaced_name(out: &mut Text, k: u8) -> Result<(), AllocError>
    ensures { OnOk result (out.new ≡ out.old ++ thread_names (k ∷ [])) }
{
    append_pieces(out, &[Words(b" "), Piece::Thread(k), Words(b"")])
}

/// The master that a slave waits for.
pub(crate) fn append_master(out: &mut Text, sync: Option<(u8, SyncState)>) -> Result<(), AllocError>
    ensures { OnOk result (out.new ≡ out.old ++ master_text sync) }
{
    match sync {
        None => out.append(b" another thread"),
        Some((n, sync)) => append_pieces(
            out,
            &[
                Words(b" "),
                Piece::Thread(sync.master),
                Words(b", the master of "),
                Sync(n),
            ],
        ),
    }
}

// In how many slots the divider is free.
fn append_divider(out: &mut Text, slot: u32, division: Option<u32>) -> Result<(), AllocError>
    ensures { OnOk result (out.new ≡ out.old ++ (codes "the divider, free in " ++ (decimal (divider_slots slot division) ++ codes " slots"))) }
{
    out.append(the_divider())?;
    append_decimal(out, divider_slots(slot, division))?;
    out.append(b" slots")
}

// In how many slots it is free.
fn divider_slots(slot: u32, division: Option<u32>) -> u64
    ensures { result ≡ divider_slots slot division }
{
    match division {
        None => 0,
        Some(division) => {
            (u64::from(division) + u64::from(DIVISION_SLOTS)).saturating_sub(u64::from(slot))
        }
    }
}
