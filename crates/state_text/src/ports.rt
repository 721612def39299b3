//! Ports, with what they wait for.
ghost use Rattle.std.specs.Prelude.{◌≡◌, ◌<◌, ◌++◌, ℕ, List, Option, Some, OnOk, slice_get, codes};
ghost use Rattle.trace_model.specs.EventLines.{port_name};
ghost use Rattle.look_model.specs.Resources.{stopped_text, condition_text, counter_text, data_text};
ghost use Rattle.look_model.specs.Resources.{edges_to_output, edges_to_sample, output_time, sample_time, timed_text, transfer_time};
ghost use Rattle.look_model.specs.Resources.{input_port_text, output_port_text, sample_text};

use crate::phrases::value_not;
use crate::pieces::Piece::{Hex, Number, Words};
use crate::pieces::append_pieces;
use line_text::append_port_name;
use single_port::{Condition, PortState, Transfer};
use std::alloc::AllocError;
use timers_clocks::ClockState;
use xs_base::Text;
use xs_model::Clock;

/// A port, with what it waits for before it takes a sample.
pub(crate) fn append_input_port(
    out: &mut Text,
    clocks: &[ClockState],
    p: u8,
    ports: &[PortState; 29],
) -> Result<(), AllocError>
    ensures { OnOk result (out.new ≡ out.old ++ input_port_text clocks.now p (slice_get ports.now p)) }
{
    match ports.get(p as usize) {
        None => out.append(b"a port"),
        Some(port) => {
            append_front(out, clocks, p, port)?;
            append_sample(out, port)
        }
    }
}

/// A port, with the time that its output waits for.
pub(crate) fn append_output_port(
    out: &mut Text,
    clocks: &[ClockState],
    p: u8,
    ports: &[PortState; 29],
) -> Result<(), AllocError>
    ensures { OnOk result (out.new ≡ out.old ++ output_port_text clocks.now p (slice_get ports.now p)) }
{
    match ports.get(p as usize) {
        None => out.append(b"a port"),
        Some(port) => {
            append_front(out, clocks, p, port)?;
            append_output_time(out, port.counter, transfer_time(&port.tr))
        }
    }
}

// `port P: counter C`, and the clock, before more.
fn append_front(
    out: &mut Text,
    clocks: &[ClockState],
    p: u8,
    port: &PortState,
) -> Result<(), AllocError>
    requires there { p < 29 }
    ensures { OnOk result ((rest : List ℕ) → out.new ++ rest
        ≡ out.old ++ (codes "port " ++ (port_name p ++ (counter_text clocks.now port.now ++ rest)))) }
{
    out.append(b"port ")?;
    append_port_name(out, p)?;
    append_counter(out, clocks, port)?;
    Ok(())
}

// `: counter C`, and the clock, where it is not the reference clock.
fn append_counter(out: &mut Text, clocks: &[ClockState], port: &PortState) -> Result<(), AllocError>
    ensures { OnOk result (out.new ≡ out.old ++ counter_text clocks.now port.now) }
{
    let counter = Number(u64::from(port.counter));
    match port.clock {
        Clock::Reference => append_pieces(out, &[Words(b": counter "), counter]),
        Clock::Block(k) => append_pieces(
            out,
            &[
                Words(b": counter "),
                counter,
                Words(b", clock block "),
                Number(u64::from(k)),
                Words(stopped(clocks, k)),
            ],
        ),
    }
}

// ` stopped`, where the clock block does not run.
fn stopped(clocks: &[ClockState], k: u8) -> &'static [u8]
    ensures { result.now ≡ stopped_text (slice_get clocks.now k) }
{
    match clocks.get(k as usize) {
        Some(clock) if !clock.running => b" stopped",
        _ => b"",
    }
}

// What a port waits for before it takes a sample, and whether it has one.
fn append_sample(out: &mut Text, port: &PortState) -> Result<(), AllocError>
    ensures { OnOk result (out.new ≡ out.old ++ sample_text port.now) }
{
    if port.output {
        return out.append(b", output");
    }
    append_sample_time(out, port.counter, port.time)?;
    append_condition(out, port.condition, port.value)?;
    out.append(data_words(&port.tr))
}

// `, value V` or `, value not V`.
fn append_condition(out: &mut Text, condition: Condition, value: u32) -> Result<(), AllocError>
    ensures { OnOk result (out.new ≡ out.old ++ condition_text condition value) }
{
    match condition {
        Condition::None => Ok(()),
        Condition::Equal => append_pieces(out, &[Words(b", value "), Hex(value)]),
        Condition::NotEqual => append_pieces(out, &[Words(value_not()), Hex(value)]),
    }
}

// `, data there`, where a port has data that waits to be taken.
fn data_words(transfer: &Option<Transfer>) -> &'static [u8]
    ensures { result.now ≡ data_text transfer.now }
{
    match transfer {
        None => b"",
        Some(_) => b", data there",
    }
}

// ---- Times

// The time that an output waits for.
fn transfer_time(transfer: &Option<Transfer>) -> Option<u16>
    ensures { result ≡ transfer_time transfer.now }
{
    match transfer {
        None => None,
        Some(transfer) => transfer.time,
    }
}

// The time at which an input samples.
fn append_sample_time(out: &mut Text, counter: u16, time: Option<u16>) -> Result<(), AllocError>
    ensures { OnOk result (out.new ≡ out.old ++ sample_time counter time) }
{
    match time {
        None => Ok(()),
        Some(time) => append_timed(out, time, edges_to_sample(counter, time)),
    }
}

// That at which an output goes out.
fn append_output_time(out: &mut Text, counter: u16, time: Option<u16>) -> Result<(), AllocError>
    ensures { OnOk result (out.new ≡ out.old ++ output_time counter time) }
{
    match time {
        None => Ok(()),
        Some(time) => append_timed(out, time, edges_to_output(counter, time)),
    }
}

// `, time T in E edges`.
fn append_timed(out: &mut Text, time: u16, edges: u32) -> Result<(), AllocError>
    ensures { OnOk result (out.new ≡ out.old ++ timed_text time edges) }
{
    append_pieces(
        out,
        &[
            Words(b", time "),
            Number(u64::from(time)),
            Words(b" in "),
            Number(u64::from(edges)),
            Words(b" edges"),
        ],
    )
}

// In how many edges the counter stands at a time.
fn edges_to_sample(counter: u16, time: u16) -> u32
    ensures { result ≡ edges_to_sample counter time }
{
    (u32::from(time) + (65_536 - u32::from(counter))) % 65_536
}

// The same where the edge that puts out has counted before.
fn edges_to_output(counter: u16, time: u16) -> u32
    ensures { result ≡ edges_to_output counter time }
{
    (u32::from(time) + (65_535 - u32::from(counter))) % 65_536 + 1
}
