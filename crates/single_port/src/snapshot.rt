//! What a snapshot keeps of a port, and the port made again of it.
ghost use Rattle.std.specs.Prelude.{◌≡◌, ◌<◌, ◌≤◌, ◌^◌, Option, option_map, length};
ghost use Rattle.xs_base.specs.Ids.{port_width};
ghost use Rattle.xs_base.specs.declared.numbers.TheConstants.{PORTS};
ghost use Rattle.xs_model.specs.Bits.{bits_of, value_of};
ghost use Rattle.single_port.specs.States.{port_state, port_of, off_state, transfer_state, transfer_of, shift_state, shift_word, IsPortState, IsShiftState};

use crate::port::Port;
use crate::state::{Condition, PortState, Transfer};
use crate::transfer::TransferWord;
use port_shift::Shift;
use xs_base::port_width;
use xs_model::Clock;

impl PortState {
    /// That of a port that is off. See docs/SNAPSHOTS.md.
    pub fn off() -> PortState
        ensures { result ≡ off_state }
    {
        PortState {
            on: false,
            output: false,
            clock: Clock::Reference,
            counter: 0,
            buffers: false,
            tw: 0,
            want: 0,
            value: 0,
            condition: Condition::None,
            time: None,
            sr: 0,
            count: 0,
            tr: None,
            held: false,
            sample_stamp: 0,
            stamp: 0,
            strobe: None,
            driven: None,
        }
    }
}

impl Port {
    /// What a snapshot keeps of it: a port of that state is this one again. It takes no memory. See docs/SNAPSHOTS.md.
    pub fn state(&self) -> PortState
        ensures value { result ≡ port_state self.now.port }
        ensures shift { IsShiftState result.output result.tw result.count result.sr }
        ensures again { port_of result ≡ self.now.port }
    {
        PortState {
            on: self.on,
            output: self.output,
            clock: self.clock,
            counter: self.counter,
            buffers: self.buffered,
            tw: self.transfer_width,
            want: self.wanted,
            value: self.value,
            condition: self.condition,
            time: self.time,
            sr: self.shift_state(),
            count: self.shift.bits() as u8,
            tr: self.transfer_state(),
            held: self.held,
            sample_stamp: self.sample_stamp,
            stamp: self.stamp,
            strobe: self.strobe,
            driven: self.driven,
        }
    }

    // The bits of its shift register as a number: in direction input they stand at the top of a transfer.
    fn shift_state(&self) -> u32
        ensures value { result ≡ shift_state self.now.port.output self.now.port.transfer_width (length self.now.port.shift) (value_of self.now.port.shift) }
        ensures is { IsShiftState self.now.port.output self.now.port.transfer_width (length self.now.port.shift) result }
        ensures again { bits_of (length self.now.port.shift) (shift_word self.now.port.output self.now.port.transfer_width (length self.now.port.shift) result) ≡ self.now.port.shift }
    {
        let word = self.shift.word(self.transfer_width);
        if self.output {
            word
        } else {
            let below = self.transfer_width - self.shift.bits();
            (u64::from(word) << below) as u32
        }
    }

    fn transfer_state(&self) -> Option<Transfer>
        ensures value { result ≡ option_map transfer_state self.now.port.transfer }
        ensures again { option_map transfer_of result ≡ self.now.port.transfer }
    {
        match self.transfer {
            None => None,
            Some(t) => Some(Transfer {
                value: t.value,
                bits: t.bits as u8,
                time: t.time,
            }),
        }
    }

    /// Port `p`, 0 to 28, as a snapshot says it is: in direction input too it may drive a value. It takes no memory. See
    /// docs/SNAPSHOTS.md.
    pub fn of_state(p: u8, state: &PortState) -> Port
        requires port { p < PORTS }
        requires facts { IsPortState p state.now }
        ensures { result ≡ record { width = port_width p; port = port_of state.now } }
    {
        Port {
            on: state.on,
            output: state.output,
            clock: state.clock,
            counter: state.counter,
            buffered: state.buffers,
            transfer_width: state.tw,
            wanted: state.want,
            value: state.value,
            condition: state.condition,
            time: state.time,
            shift: shift_of(port_width(p), state),
            transfer: transfer_of(state.tr),
            held: state.held,
            sample_stamp: state.sample_stamp,
            stamp: state.stamp,
            strobe: state.strobe,
            driven: state.driven,
        }
    }

    /// From now on it is port `p`, 0 to 28, as a snapshot says it is. It takes no memory. See docs/SNAPSHOTS.md.
    pub fn set_state(&mut self, p: u8, state: &PortState)
        requires port { p < PORTS }
        requires facts { IsPortState p state.now }
        ensures { self.new ≡ record { width = port_width p; port = port_of state.now } }
    {
        *self = Port::of_state(p, state);
    }
}

// The shift register of a port of this width.
fn shift_of(width: u32, state: &PortState) -> Shift
    requires width { width ≤ 32 }
    requires most { state.now.tw ≤ 32 }
    requires count { state.now.count ≤ state.now.tw }
    requires shift { IsShiftState state.now.output state.now.tw state.now.count state.now.sr }
    ensures { result ≡ record { width = width; bits = bits_of state.now.count (shift_word state.now.output state.now.tw state.now.count state.now.sr) } }
{
    let mut shift = Shift::new(width);
    let count = u32::from(state.count);
    shift.load(shift_word(state), count);
    shift
}

// The bits of the shift register by themselves.
fn shift_word(state: &PortState) -> u32
    requires most { state.now.tw ≤ 32 }
    requires count { state.now.count ≤ state.now.tw }
    requires shift { IsShiftState state.now.output state.now.tw state.now.count state.now.sr }
    ensures value { result ≡ shift_word state.now.output state.now.tw state.now.count state.now.sr }
    ensures fits { result < 2 ^ state.now.count }
{
    if state.output {
        state.sr
    } else {
        let below = state.tw - u32::from(state.count);
        (u64::from(state.sr) >> below) as u32
    }
}

fn transfer_of(tr: Option<Transfer>) -> Option<TransferWord>
    ensures { result ≡ option_map transfer_of tr }
{
    match tr {
        None => None,
        Some(t) => Some(TransferWord {
            value: t.value,
            bits: u32::from(t.bits),
            time: t.time,
        }),
    }
}
