//! `Place`, how far a wave text was read, and where a line leads from there.
ghost use Rattle.std.specs.Prelude.{◌≡◌, ◌<◌, ◌≤◌, [], IsTrue, IfOk, OnErr};
ghost use Rattle.wave_model.specs.Reads.{after_change, after_slot, count_of_pins, is_full, may_change};
ghost use Rattle.vcd_writer.specs.ReadWaves.{empty_wave};
ghost use Rattle.vcd_writer.specs.Takes.{IsEmpty, IsWaveAt, Leads, LeadsTo};

use crate::line_forms::{MOST_WAVE_SLOTS, pin_of_code, slot_in, value_in_text};
use crate::named_lines::{is_same, is_var_line, scope_in};
use crate::read_wave::ReadWave;
use std::alloc::{AllocError, Global};
use wave_model::WaveChange;
use xs_base::port_width;

/// How far a wave text was read.
#[derive(Clone, Copy)]
pub(crate) enum Place {
    /// The first line comes.
    Begin,
    /// The scope of one node more may come, or the end of the definitions.
    Nodes,
    /// Within the scope of the last node: the pin of this port is declared next, and after the last port the scope ends.
    Ports(u8),
    /// All is declared: the line of slot 0 comes.
    Declared,
    /// Under the line of the wave's last slot, where pins from this number on may still change.
    Changes(u32),
}

/// The place to which a line leads, or None where no wave text goes on with it. The error is want of memory. Both leave the wave as it was.
pub(crate) fn place_after(
    alloc: Global,
    wave: &mut ReadWave,
    place: Place,
    line: &[u8],
) -> Result<Option<Place>, AllocError>
    requires { IsWaveAt wave.old place }
    ensures ok { IfOk result (λ next. Leads wave.old place line.now wave.new next) }
    ensures err { OnErr result (wave.new ≡ wave.old) }
{
    match place {
        Place::Begin => Ok(after_begin(line)),
        Place::Nodes => after_nodes(alloc, wave, line),
        Place::Ports(port) => after_ports(alloc, wave, port, line),
        Place::Declared => Ok(after_declared(wave, line)),
        Place::Changes(next) => after_changes(wave, next, line),
    }
}

// At the first line.
#[tactic(auto, unfolding(wave_model::specs::Reads::after_line))]
fn after_begin(line: &[u8]) -> Option<Place>
    ensures { Leads (empty_wave []) Place.Begin line.now (empty_wave []) result }
{
    if is_same(b"$timescale 1 ns $end", line) {
        Some(Place::Nodes)
    } else {
        None
    }
}

// Where a scope or the end of the definitions may come.
#[tactic(auto, unfolding(wave_model::specs::Reads::after_line))]
fn after_nodes(alloc: Global, wave: &mut ReadWave, line: &[u8]) -> Result<Option<Place>, AllocError>
    requires { IsEmpty wave.old }
    ensures ok { IfOk result (λ next. Leads wave.old Place.Nodes line.now wave.new next) }
    ensures err { OnErr result (wave.new ≡ wave.old) }
{
    if is_same(b"$enddefinitions $end", line) {
        return Ok(Some(Place::Declared));
    }
    match scope_in(alloc, wave.nodes(), line)? {
        None => Ok(None),
        Some(number) => {
            wave.push_node(number);
            Ok(Some(Place::Ports(0)))
        }
    }
}

// Within the scope of the last node.
#[tactic(auto, unfolding(wave_model::specs::Reads::after_line))]
fn after_ports(
    alloc: Global,
    wave: &ReadWave,
    port: u8,
    line: &[u8],
) -> Result<Option<Place>, AllocError>
    requires { IsWaveAt wave.now (Place.Ports port) }
    ensures { IfOk result (λ next. Leads wave.now (Place.Ports port) line.now wave.now next) }
{
    if port == 29 {
        let ends = is_same(b"$upscope $end", line);
        return Ok(if ends { Some(Place::Nodes) } else { None });
    }
    let node = (wave.nodes().len() - 1) as u8;
    let declares = is_var_line(alloc, node, port, line)?;
    Ok(if declares {
        Some(Place::Ports(port + 1))
    } else {
        None
    })
}

// Where all is declared.
#[tactic(auto, unfolding(wave_model::specs::Reads::after_line))]
fn after_declared(wave: &ReadWave, line: &[u8]) -> Option<Place>
    requires { IsEmpty wave.now }
    ensures { Leads wave.now Place.Declared line.now wave.now result }
{
    if is_same(b"#0", line) {
        Some(Place::Changes(0))
    } else {
        None
    }
}

// Under the line of a slot.
#[tactic(auto, unfolding(wave_model::specs::Reads::after_line))]
fn after_changes(wave: &mut ReadWave, next: u32, line: &[u8]) -> Result<Option<Place>, AllocError>
    requires { next ≤ 464 }
    ensures ok { IfOk result (λ place. Leads wave.old (Place.Changes next) line.now wave.new place) }
    ensures err { OnErr result (wave.new ≡ wave.old) }
{
    match slot_in(line) {
        Some(slot) => Ok(after_slot(wave, next, slot)),
        None => after_change(wave, next, line),
    }
}

// The line of a slot.
fn after_slot(wave: &mut ReadWave, next: u32, slot: u32) -> Option<Place>
    ensures { LeadsTo wave.old (after_slot wave.old next slot) wave.new result }
{
    if slot > wave.last() && is_full(wave, next) {
        wave.end_in(slot);
        Some(Place::Changes(0))
    } else {
        None
    }
}

// Whether a later slot may follow.
fn is_full(wave: &ReadWave, next: u32) -> bool
    ensures { result ≡ is_full wave.now next }
{
    if wave.last() == 0 {
        next == count_of_pins(wave)
    } else {
        next > 0
    }
}

fn count_of_pins(wave: &ReadWave) -> u32
    ensures value { result ≡ count_of_pins wave.now }
    ensures most { result ≤ 464 }
{
    29 * wave.nodes().len() as u32
}

// The line of a change.
fn after_change(wave: &mut ReadWave, next: u32, line: &[u8]) -> Result<Option<Place>, AllocError>
    ensures ok { IfOk result (λ place. LeadsTo wave.old (after_change wave.old next line.now) wave.new place) }
    ensures err { OnErr result (wave.new ≡ wave.old) }
{
    let (value, code) = line.split_at(line.len().saturating_sub(2));
    let Some(pin) = pin_of_code(code) else {
        return Ok(None);
    };
    let port = (pin % 29) as u8;
    let Some(value) = value_in_text(port_width(port), value) else {
        return Ok(None);
    };
    if !may_change(wave, next, pin) {
        return Ok(None);
    }
    wave.push_change(WaveChange {
        slot: wave.last(),
        node: (pin / 29) as u8,
        port,
        value,
    })?;
    Ok(Some(Place::Changes(pin + 1)))
}

// Whether a pin may change.
fn may_change(wave: &ReadWave, next: u32, pin: u32) -> bool
    ensures value { result ≡ may_change wave.now next pin }
    ensures within { IsTrue result → pin < 464 }
{
    if pin >= count_of_pins(wave) || wave.last() >= MOST_WAVE_SLOTS {
        return false;
    }
    if wave.last() == 0 {
        pin == next
    } else {
        pin >= next
    }
}
