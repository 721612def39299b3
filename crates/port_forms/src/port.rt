//! Ports as bytes.
ghost use Rattle.std.specs.Prelude.{List, ◌≡◌, ◌<◌, ◌++◌, length, OnOk};
ghost use Rattle.xs_base.specs.Numbers.{PortNumber};
ghost use Rattle.xs_base.specs.declared.numbers.TheConstants.{PORTS};
ghost use Rattle.single_port.specs.declared.state.PortState.{PortState};
ghost use Rattle.single_port.specs.States.{IsPortState};
ghost use Rattle.buffered_ports.specs.States.{ArePortStates};
ghost use Rattle.byte_forms.specs.Laws.{Lawful};
ghost use Rattle.byte_forms.specs.Reading.{Gives};
ghost use Rattle.port_forms.specs.Ports.{port, ports, FitsHalves, FitHalves};

use crate::port_parts::{
    read_basics, read_shift, read_tail, read_transfer, read_trigger, read_widths, write_basics,
    write_shift, write_tail, write_transfer, write_trigger, write_widths,
};
use byte_forms::{Fault, Reader};
use single_port::PortState;
use std::alloc::AllocError;
use xs_base::Text;
use xs_base::numbers::PORTS;

/// Reads port `p`, 0 to 28. See docs/SNAPSHOTS.md.
#[tactic(auto, unfolding(crate::specs::Ports::port))]
pub fn read_port(from: &mut Reader, p: u8) -> Result<PortState, Fault>
    requires { p < PORTS }
    ensures value { Gives (port p) (λ x. x) from.old result from.new }
{
    let basics = read_basics(from)?;
    let widths = read_widths(from, p, basics.on)?;
    let trigger = read_trigger(from, basics.on)?;
    let shift = read_shift(from, p, basics.output, widths.tw)?;
    let tr = read_transfer(from, p, basics.on, widths.tw)?;
    let tail = read_tail(from, p, basics.on)?;
    Ok(PortState {
        on: basics.on,
        output: basics.output,
        clock: basics.clock,
        counter: basics.counter,
        buffers: widths.buffers,
        tw: widths.tw,
        want: widths.want,
        value: widths.value,
        condition: trigger.condition,
        time: trigger.time,
        sr: shift.sr,
        count: shift.count,
        tr,
        held: tail.held,
        sample_stamp: tail.sample_stamp,
        stamp: tail.stamp,
        strobe: tail.strobe,
        driven: tail.driven,
    })
}

/// Writes a port, whatever its number is. The error is want of memory. See docs/SNAPSHOTS.md.
pub fn write_port(out: &mut Text, state: &PortState) -> Result<(), AllocError>
    ensures value { (p : PortNumber) → OnOk result (out.new ≡ out.old ++ (port p).write state.now) }
{
    write_basics(out, state)?;
    write_widths(out, state)?;
    write_trigger(out, state)?;
    write_shift(out, state)?;
    write_transfer(out, state.tr)?;
    write_tail(out, state)
}

/// Reads all ports, by number. See docs/SNAPSHOTS.md.
pub fn read_ports(from: &mut Reader) -> Result<[PortState; 29], Fault>
    ensures value { Gives ports (λ x. x) from.old result from.new }
{
    let mut states = [PortState::off(); 29];
    for p in 0..PORTS {
        states[p as usize] = read_port(from, p)?;
    }
    Ok(states)
}

/// Writes all ports, by number. The error is want of memory. See docs/SNAPSHOTS.md.
pub fn write_ports(out: &mut Text, states: &[PortState; 29]) -> Result<(), AllocError>
    ensures value { OnOk result (out.new ≡ out.old ++ ports.write states.now) }
{
    for p in 0..PORTS {
        write_port(out, &states[p as usize])?;
    }
    Ok(())
}

/// What is read of ports was written so and has their form, and what has it and is written is read again. A port has its form exactly where
/// it is one that a snapshot may say. See docs/SNAPSHOTS.md.
pub fn ports_are_lawful()
    ensures port { (p : PortNumber) → Lawful (port p) }
    ensures port_only { (p : PortNumber) (state : PortState) → (port p).Holds state → IsPortState p state }
    ensures port_all { (p : PortNumber) (state : PortState) → IsPortState p state → FitsHalves state → (port p).Holds state }
    ensures ports { Lawful ports }
    ensures only { (states : List PortState) → ports.Holds states → (length states ≡ 29) × ArePortStates states }
    ensures all { (states : List PortState) → length states ≡ 29 → ArePortStates states → FitHalves states → ports.Holds states }
{}
