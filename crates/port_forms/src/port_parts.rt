//! The parts of a port as bytes. Where the port is off, all fields have to be 0.
ghost use Rattle.std.specs.Prelude.{true, ◌≡◌, ◌<◌, ◌≤◌, ◌++◌, ◌-◌, ◌%◌, ◌^◌, ◌&&◌, ◌==◌, nat_lt, if◌then◌else◌, OnOk, IfOk};
ghost use Rattle.xs_base.specs.Ids.{port_width};
ghost use Rattle.xs_base.specs.declared.numbers.TheConstants.{PORTS};
ghost use Rattle.xs_model.specs.PortActions.{is_transfer_width};
ghost use Rattle.byte_forms.specs.Forms.{byte, half, word, where_is, any, option};
ghost use Rattle.byte_forms.specs.Reading.{Gives};
ghost use Rattle.port_forms.specs.Ports.{low_byte, are_beats, clock, basics, basics_in, is_tw, widths, widths_in, condition, trigger, trigger_in};
ghost use Rattle.port_forms.specs.Ports.{sr_limit, is_count, shift, shift_in, are_bits, transfer, is_strobe, strobe, tail, tail_in};

use crate::port_fields::{
    byte_limit, limit_of_bits, read_flag_where, read_half_where, read_option_half_where,
    read_option_word_where, word_limit, write_low_byte,
};
use byte_forms::{
    Fault, Reader, write_byte, write_flag, write_half, write_option_half, write_option_word,
    write_word,
};
use single_port::{Clock, Condition, PortState, Transfer};
use std::alloc::AllocError;
use xs_base::numbers::{CLOCK_BLOCKS, PORTS};
use xs_base::{Text, port_width};

/// Whether a port is on, its direction, its clock and its counter.
#[derive(Clone, Copy)]
pub struct Basics {
    pub on: bool,
    pub output: bool,
    pub clock: Clock,
    pub counter: u16,
}

/// Whether a port has buffers, the bits of a transfer, those that are wanted, and the condition's value.
#[derive(Clone, Copy)]
pub struct Widths {
    pub buffers: bool,
    pub tw: u32,
    pub want: u32,
    pub value: u32,
}

/// What a port waits for: its condition, and a time.
#[derive(Clone, Copy)]
pub struct Trigger {
    pub condition: Condition,
    pub time: Option<u16>,
}

/// A shift register as a number, and how many bits it has.
#[derive(Clone, Copy)]
pub struct Shift {
    pub sr: u32,
    pub count: u8,
}

/// Whether the transfer register keeps what it has, the stamps, the strobe, and what the port drives.
#[derive(Clone, Copy)]
pub struct Tail {
    pub held: bool,
    pub sample_stamp: u16,
    pub stamp: u16,
    pub strobe: Option<u8>,
    pub driven: Option<u32>,
}

// ---- On, direction, clock, counter

#[tactic(auto, unfolding(crate::specs::Ports::clock))]
fn read_clock(from: &mut Reader, on: bool) -> Result<Clock, Fault>
    ensures value { Gives (clock on) (λ x. x) from.old result from.new }
{
    let n = from.read_byte_below(byte_limit(on, 1 + CLOCK_BLOCKS))?;
    Ok(if n == 0 {
        Clock::Reference
    } else {
        Clock::Block(n - 1)
    })
}

#[tactic(auto, unfolding(crate::specs::Ports::clock))]
fn write_clock(out: &mut Text, value: Clock) -> Result<(), AllocError>
    ensures value { OnOk result (out.new ≡ out.old ++ (clock true).write value) }
{
    match value {
        Clock::Reference => write_byte(out, 0),
        Clock::Block(k) => write_low_byte(out, 1 + u32::from(k)),
    }
}

/// Reads whether a port is on, its direction, its clock and its counter.
#[tactic(auto, unfolding(crate::specs::Ports::basics))]
pub fn read_basics(from: &mut Reader) -> Result<Basics, Fault>
    ensures value { Gives basics (λ x. x) from.old result from.new }
{
    let on = from.read_flag()?;
    let output = read_flag_where(from, on)?;
    let clock = read_clock(from, on)?;
    let counter = read_half_where(from, on)?;
    Ok(Basics {
        on,
        output,
        clock,
        counter,
    })
}

/// Writes whether a port is on, its direction, its clock and its counter. The error is want of memory.
#[tactic(auto, unfolding(crate::specs::Ports::basics, crate::specs::Ports::clock))]
pub fn write_basics(out: &mut Text, state: &PortState) -> Result<(), AllocError>
    ensures value { OnOk result (out.new ≡ out.old ++ basics.write (basics_in state.now)) }
{
    write_flag(out, state.on)?;
    write_flag(out, state.output)?;
    write_clock(out, state.clock)?;
    write_half(out, state.counter)
}

// ---- Buffers, transfer width, wanted bits, value

// Whether so many bits are whole beats of a width, and no more than these.
fn are_beats(width: u32, most: u32, bits: u32) -> bool
    requires { 0 < width }
    ensures { result ≡ are_beats width most bits }
{
    bits % width == 0 && bits <= most
}

fn is_tw(p: u8, on: bool, buffers: bool, tw: u8) -> bool
    requires { p < PORTS }
    ensures { result ≡ is_tw p on buffers tw }
{
    if on {
        let width = port_width(p);
        is_transfer_width(width, tw) && (buffers || u32::from(tw) == width)
    } else {
        tw == 0
    }
}

fn is_transfer_width(width: u32, tw: u8) -> bool
    requires { 0 < width }
    ensures { result ≡ is_transfer_width width tw }
{
    matches!(tw, 1 | 4 | 8 | 16 | 32) && u32::from(tw) % width == 0
}

fn read_tw(from: &mut Reader, p: u8, on: bool, buffers: bool) -> Result<u32, Fault>
    requires { p < PORTS }
    ensures value { Gives (where_is low_byte (is_tw p on buffers)) (λ x. x) from.old result from.new }
    ensures most { IfOk result (λ tw. tw ≤ 32) }
{
    let left = from.left();
    let tw = from.read_byte()?;
    if is_tw(p, on, buffers, tw) {
        Ok(u32::from(tw))
    } else {
        Err(Fault::Wrong(left))
    }
}

fn read_want(from: &mut Reader, p: u8, tw: u32) -> Result<u32, Fault>
    requires { p < PORTS }
    ensures value { Gives (where_is low_byte (are_beats (port_width p) tw)) (λ x. x) from.old result from.new }
{
    let left = from.left();
    let want = u32::from(from.read_byte()?);
    if are_beats(port_width(p), tw, want) {
        Ok(want)
    } else {
        Err(Fault::Wrong(left))
    }
}

/// Reads whether port `p` has buffers, the bits of a transfer, those that are wanted, and the condition's value.
#[tactic(auto, unfolding(crate::specs::Ports::widths))]
pub fn read_widths(from: &mut Reader, p: u8, on: bool) -> Result<Widths, Fault>
    requires { p < PORTS }
    ensures value { Gives (widths p on) (λ x. x) from.old result from.new }
    ensures most { IfOk result (λ w. w.tw ≤ 32) }
{
    let buffers = read_flag_where(from, on)?;
    let tw = read_tw(from, p, on, buffers)?;
    let want = read_want(from, p, tw)?;
    let value = from.read_word_below(word_limit(on, limit_of_bits(port_width(p))))?;
    Ok(Widths {
        buffers,
        tw,
        want,
        value,
    })
}

/// Writes whether a port has buffers, the bits of a transfer, those that are wanted, and the condition's value. The error is want of memory.
#[tactic(auto, unfolding(crate::specs::Ports::widths))]
pub fn write_widths(out: &mut Text, state: &PortState) -> Result<(), AllocError>
    ensures value { OnOk result (out.new ≡ out.old ++ (widths 0 true).write (widths_in state.now)) }
{
    write_flag(out, state.buffers)?;
    write_low_byte(out, state.tw)?;
    write_low_byte(out, state.want)?;
    write_word(out, state.value)
}

// ---- Condition, time

#[tactic(auto, unfolding(crate::specs::Ports::condition))]
fn read_condition(from: &mut Reader, on: bool) -> Result<Condition, Fault>
    ensures value { Gives (condition on) (λ x. x) from.old result from.new }
{
    let n = from.read_byte_below(byte_limit(on, 3))?;
    Ok(match n {
        0 => Condition::None,
        1 => Condition::Equal,
        _ => Condition::NotEqual,
    })
}

#[tactic(auto, unfolding(crate::specs::Ports::condition))]
fn write_condition(out: &mut Text, value: Condition) -> Result<(), AllocError>
    ensures value { OnOk result (out.new ≡ out.old ++ (condition true).write value) }
{
    write_byte(
        out,
        match value {
            Condition::None => 0,
            Condition::Equal => 1,
            Condition::NotEqual => 2,
        },
    )
}

/// Reads a port's condition and the time of its next transfer.
#[tactic(auto, unfolding(crate::specs::Ports::trigger))]
pub fn read_trigger(from: &mut Reader, on: bool) -> Result<Trigger, Fault>
    ensures value { Gives (trigger on) (λ x. x) from.old result from.new }
{
    let condition = read_condition(from, on)?;
    let time = read_option_half_where(from, on)?;
    Ok(Trigger { condition, time })
}

/// Writes a port's condition and the time of its next transfer. The error is want of memory.
#[tactic(auto, unfolding(crate::specs::Ports::trigger))]
pub fn write_trigger(out: &mut Text, state: &PortState) -> Result<(), AllocError>
    ensures value { OnOk result (out.new ≡ out.old ++ (trigger true).write (trigger_in state.now)) }
{
    write_condition(out, state.condition)?;
    write_option_half(out, state.time)
}

// ---- Shift register

fn sr_limit(output: bool, tw: u32) -> u64
    requires { tw ≤ 32 }
    ensures { result ≡ sr_limit output tw }
{
    limit_of_bits(if output { 32 } else { tw })
}

fn is_count(p: u8, output: bool, tw: u32, sr: u32, count: u8) -> bool
    requires port { p < PORTS }
    requires most { tw ≤ 32 }
    ensures { result ≡ is_count p output tw sr count }
{
    let count = u32::from(count);
    are_beats(port_width(p), tw, count) && holds_count(output, tw, sr, count)
}

fn holds_count(output: bool, tw: u32, sr: u32, count: u32) -> bool
    requires most { tw ≤ 32 }
    requires count { count ≤ tw }
    ensures { result ≡ (if output then nat_lt sr (2 ^ count) else (sr % 2 ^ (tw - count) == 0)) }
{
    if output {
        u64::from(sr) < limit_of_bits(count)
    } else {
        u64::from(sr) % limit_of_bits(tw - count) == 0
    }
}

fn read_count(from: &mut Reader, p: u8, output: bool, tw: u32, sr: u32) -> Result<u8, Fault>
    requires port { p < PORTS }
    requires most { tw ≤ 32 }
    ensures value { Gives (where_is byte (is_count p output tw sr)) (λ x. x) from.old result from.new }
{
    let left = from.left();
    let count = from.read_byte()?;
    if is_count(p, output, tw, sr, count) {
        Ok(count)
    } else {
        Err(Fault::Wrong(left))
    }
}

/// Reads the shift register of port `p`, whose transfers have `tw` bits.
#[tactic(auto, unfolding(crate::specs::Ports::shift))]
pub fn read_shift(from: &mut Reader, p: u8, output: bool, tw: u32) -> Result<Shift, Fault>
    requires port { p < PORTS }
    requires most { tw ≤ 32 }
    ensures value { Gives (shift p output tw) (λ x. x) from.old result from.new }
{
    let sr = from.read_word_below(sr_limit(output, tw))?;
    let count = read_count(from, p, output, tw, sr)?;
    Ok(Shift { sr, count })
}

/// Writes a port's shift register. The error is want of memory.
#[tactic(auto, unfolding(crate::specs::Ports::shift))]
pub fn write_shift(out: &mut Text, state: &PortState) -> Result<(), AllocError>
    ensures value { OnOk result (out.new ≡ out.old ++ (shift 0 true 0).write (shift_in state.now)) }
{
    write_word(out, state.sr)?;
    write_byte(out, state.count)
}

// ---- Transfer register

fn are_bits(p: u8, tw: u32, value: Option<u32>, bits: u8) -> bool
    requires port { p < PORTS }
    requires most { tw ≤ 32 }
    ensures { result ≡ are_bits p tw value bits }
{
    match value {
        None => bits == 0,
        Some(value) => are_bits_of(port_width(p), tw, value, u32::from(bits)),
    }
}

fn are_bits_of(width: u32, tw: u32, value: u32, bits: u32) -> bool
    requires some { 0 < width }
    requires most { tw ≤ 32 }
    ensures { result ≡ (are_beats width tw bits && (nat_lt 0 bits && nat_lt value (2 ^ bits))) }
{
    are_beats(width, tw, bits) && 0 < bits && u64::from(value) < limit_of_bits(bits)
}

fn read_bits(from: &mut Reader, p: u8, tw: u32, value: Option<u32>) -> Result<u8, Fault>
    requires port { p < PORTS }
    requires most { tw ≤ 32 }
    ensures value { Gives (where_is byte (are_bits p tw value)) (λ x. x) from.old result from.new }
{
    let left = from.left();
    let bits = from.read_byte()?;
    if are_bits(p, tw, value, bits) {
        Ok(bits)
    } else {
        Err(Fault::Wrong(left))
    }
}

/// Reads the transfer register of port `p`, whose transfers have `tw` bits.
#[tactic(auto, unfolding(crate::specs::Ports::transfer))]
pub fn read_transfer(from: &mut Reader, p: u8, on: bool, tw: u32) -> Result<Option<Transfer>, Fault>
    requires port { p < PORTS }
    requires most { tw ≤ 32 }
    ensures value { Gives (transfer p on tw) (λ x. x) from.old result from.new }
{
    let value = read_option_word_where(from, on, limit_of_bits(32))?;
    let bits = read_bits(from, p, tw, value)?;
    let time = read_option_half_where(from, value.is_some())?;
    Ok(match value {
        None => None,
        Some(value) => Some(Transfer { value, bits, time }),
    })
}

/// Writes a transfer register. The error is want of memory.
#[tactic(auto, unfolding(crate::specs::Ports::transfer))]
pub fn write_transfer(out: &mut Text, tr: Option<Transfer>) -> Result<(), AllocError>
    ensures value { OnOk result (out.new ≡ out.old ++ (transfer 0 true 0).write tr) }
{
    match tr {
        None => write_transfer_parts(out, None, 0, None),
        Some(t) => write_transfer_parts(out, Some(t.value), t.bits, t.time),
    }
}

fn write_transfer_parts(
    out: &mut Text,
    value: Option<u32>,
    bits: u8,
    time: Option<u16>,
) -> Result<(), AllocError>
    ensures value { OnOk result (out.new ≡ out.old ++ (option word any).write value ++ (byte.write bits ++ (option half any).write time)) }
{
    write_option_word(out, value)?;
    write_byte(out, bits)?;
    write_option_half(out, time)
}

// ---- Held, stamps, strobe, driven value

fn is_strobe(p: u8, on: bool, n: u8) -> bool
    requires { p < PORTS }
    ensures { result ≡ is_strobe p on n }
{
    if on { n <= 16 && n != 1 + p } else { n == 0 }
}

#[tactic(auto, unfolding(crate::specs::Ports::strobe))]
fn read_strobe(from: &mut Reader, p: u8, on: bool) -> Result<Option<u8>, Fault>
    requires { p < PORTS }
    ensures value { Gives (strobe p on) (λ x. x) from.old result from.new }
{
    let left = from.left();
    let n = from.read_byte()?;
    if is_strobe(p, on, n) {
        Ok(if n == 0 { None } else { Some(n - 1) })
    } else {
        Err(Fault::Wrong(left))
    }
}

#[tactic(auto, unfolding(crate::specs::Ports::strobe))]
fn write_strobe(out: &mut Text, value: Option<u8>) -> Result<(), AllocError>
    ensures value { OnOk result (out.new ≡ out.old ++ (strobe 0 true).write value) }
{
    match value {
        None => write_byte(out, 0),
        Some(s) => write_low_byte(out, 1 + u32::from(s)),
    }
}

/// Reads whether port `p` keeps a transfer, its stamps, its strobe and what it drives.
#[tactic(auto, unfolding(crate::specs::Ports::tail))]
pub fn read_tail(from: &mut Reader, p: u8, on: bool) -> Result<Tail, Fault>
    requires { p < PORTS }
    ensures value { Gives (tail p on) (λ x. x) from.old result from.new }
{
    let held = read_flag_where(from, on)?;
    let sample_stamp = read_half_where(from, on)?;
    let stamp = read_half_where(from, on)?;
    let strobe = read_strobe(from, p, on)?;
    let driven = read_option_word_where(from, on, limit_of_bits(port_width(p)))?;
    Ok(Tail {
        held,
        sample_stamp,
        stamp,
        strobe,
        driven,
    })
}

/// Writes whether a port keeps a transfer, its stamps, its strobe and what it drives. The error is want of memory.
#[tactic(auto, unfolding(crate::specs::Ports::tail))]
pub fn write_tail(out: &mut Text, state: &PortState) -> Result<(), AllocError>
    ensures value { OnOk result (out.new ≡ out.old ++ (tail 0 true).write (tail_in state.now)) }
{
    write_flag(out, state.held)?;
    write_half(out, state.sample_stamp)?;
    write_half(out, state.stamp)?;
    write_strobe(out, state.strobe)?;
    write_option_word(out, state.driven)
}
