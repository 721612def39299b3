//! The inputs of the switch as bytes.
ghost use Rattle.std.specs.Prelude.{ℕ, ◌≡◌, ◌<◌, ◌/◌, ◌++◌, Bool, List, IfOk, OnOk};
ghost use Rattle.std.specs.List.{list_any};
ghost use Rattle.net_model.specs.Switch.{is_local_to, is_out_by};
ghost use Rattle.switch_routes.specs.States.{input_of};
ghost use Rattle.switch_routes.specs.declared.state.InputState.{InputState};
ghost use Rattle.byte_forms.specs.Forms.{byte, word, where_is};
ghost use Rattle.byte_forms.specs.Reading.{Gives};
ghost use Rattle.switch_forms.specs.Inputs.{number_of, tag_of, may_be_at, tag_at, may_hold_chan, may_hold_end, is_operand, OperandFits, is_dest, is_net, input_said, fields_of_input, input, inputs};

use byte_forms::{Fault, Reader, write_byte, write_word};
use state_forms::is_chan_id;
use std::alloc::AllocError;
use switch_routes::InputState;
use xs_base::Text;
use xs_base::numbers::{CHAN_ENDS, HEADER_BYTES, LINK_ENDS};

/// What an input is at, as its first byte tells it.
#[derive(Clone, Copy)]
pub(crate) enum Tag {
    Idle,
    Head1,
    Head2,
    Want,
    Local,
    Out,
    Lost,
}

/// Reads the inputs of the switch of a node whose channel ends in use and whose link ends are these. A fault is at the first field that is
/// wrong.
pub fn read_inputs(
    from: &mut Reader,
    used: &[bool; 32],
    there: &[bool; 8],
    states: &mut [InputState; 40],
) -> Result<(), Fault>
    ensures value { Gives (inputs used.now there.now) (λ _. states.new) from.old result from.new }
{
    for at in 0..states.len() {
        states[at] = read_input(from, used, there, &states[..at])?;
    }
    Ok(())
}

/// Writes the inputs of a switch. The error is want of memory.
pub fn write_inputs(out: &mut Text, states: &[InputState]) -> Result<(), AllocError>
    ensures value { OnOk result ((used there : List Bool) → out.new ≡ out.old ++ (inputs used there).write states.now) }
{
    for state in states {
        write_input(out, *state)?;
    }
    Ok(())
}

// Reads the input after those before it.
#[tactic(auto, unfolding(crate::specs::Inputs::input))]
fn read_input(
    from: &mut Reader,
    used: &[bool; 32],
    there: &[bool; 8],
    before: &[InputState],
) -> Result<InputState, Fault>
    ensures value { Gives (input used.now there.now before.now) (λ i. i) from.old result from.new }
{
    let tag = read_tag(from, before.len())?;
    let operand = read_operand(from, used, there, before, tag)?;
    let dest = read_dest(from, tag)?;
    let net = read_net(from, tag)?;
    Ok(input_said(tag, operand, dest, net))
}

// Writes an input.
#[tactic(auto, unfolding(crate::specs::Inputs::input, crate::specs::Inputs::tag_at))]
fn write_input(out: &mut Text, state: InputState) -> Result<(), AllocError>
    ensures value { OnOk result ((used there : List Bool) (before : List InputState) → out.new ≡ out.old ++ (input used there before).write state) }
{
    let (tag, operand, dest, net) = fields_of(state);
    write_byte(out, number_of(tag))?;
    write_word(out, operand)?;
    write_word(out, dest)?;
    write_byte(out, net)
}

#[tactic(auto, unfolding(crate::specs::Inputs::tag_at))]
fn read_tag(from: &mut Reader, place: usize) -> Result<Tag, Fault>
    ensures value { Gives (tag_at place) (λ t. t) from.old result from.new }
{
    let left = from.left();
    let tag = tag_of(from.read_byte_below(7)?);
    if may_be_at(place, tag) {
        Ok(tag)
    } else {
        Err(Fault::Wrong(left))
    }
}

fn read_operand(
    from: &mut Reader,
    used: &[bool; 32],
    there: &[bool; 8],
    before: &[InputState],
    tag: Tag,
) -> Result<u32, Fault>
    ensures value { Gives (where_is word (is_operand used.now there.now before.now tag)) (λ n. n) from.old result from.new }
    ensures fits { IfOk result (OperandFits tag) }
{
    let left = from.left();
    let operand = from.read_word()?;
    if is_operand(used, there, before, tag, operand) {
        Ok(operand)
    } else {
        Err(Fault::Wrong(left))
    }
}

fn read_dest(from: &mut Reader, tag: Tag) -> Result<u32, Fault>
    ensures value { Gives (where_is word (is_dest tag)) (λ n. n) from.old result from.new }
{
    let left = from.left();
    let dest = from.read_word()?;
    if is_dest(tag, dest) {
        Ok(dest)
    } else {
        Err(Fault::Wrong(left))
    }
}

fn read_net(from: &mut Reader, tag: Tag) -> Result<u8, Fault>
    ensures value { Gives (where_is byte (is_net tag)) (λ n. n) from.old result from.new }
{
    let left = from.left();
    let net = from.read_byte()?;
    if is_net(tag, net) {
        Ok(net)
    } else {
        Err(Fault::Wrong(left))
    }
}

fn number_of(tag: Tag) -> u8
    ensures { result ≡ number_of tag }
{
    match tag {
        Tag::Idle => 0,
        Tag::Head1 => 1,
        Tag::Head2 => 2,
        Tag::Want => 3,
        Tag::Local => 4,
        Tag::Out => 5,
        Tag::Lost => 6,
    }
}

fn tag_of(number: u8) -> Tag
    ensures { result ≡ tag_of number }
{
    match number {
        0 => Tag::Idle,
        1 => Tag::Head1,
        2 => Tag::Head2,
        3 => Tag::Want,
        4 => Tag::Local,
        5 => Tag::Out,
        _ => Tag::Lost,
    }
}

// Only link ends take headers.
fn may_be_at(place: usize, tag: Tag) -> bool
    ensures { result ≡ may_be_at place tag }
{
    match tag {
        Tag::Head1 | Tag::Head2 => place < LINK_ENDS as usize,
        _ => true,
    }
}

fn is_operand(
    used: &[bool; 32],
    there: &[bool; 8],
    before: &[InputState],
    tag: Tag,
    operand: u32,
) -> bool
    ensures { result ≡ is_operand used.now there.now before.now tag operand }
{
    match tag {
        Tag::Head1 => operand < 65536 && operand % 256 == 0,
        Tag::Head2 => operand < 65536,
        Tag::Local => may_hold_chan(used, before, operand),
        Tag::Out => may_hold_end(there, before, operand / 256)
            && operand % 256 <= u32::from(HEADER_BYTES),
        _ => operand == 0,
    }
}

fn may_hold_chan(used: &[bool; 32], before: &[InputState], chan: u32) -> bool
    ensures { result ≡ may_hold_chan used.now before.now chan }
{
    chan < u32::from(CHAN_ENDS) && used[chan as usize] && !is_chan_held(before, chan)
}

fn may_hold_end(there: &[bool; 8], before: &[InputState], end: u32) -> bool
    ensures { result ≡ may_hold_end there.now before.now end }
{
    end < u32::from(LINK_ENDS) && there[end as usize] && !is_end_held(before, end)
}

// Whether one of these inputs holds a channel end.
fn is_chan_held(states: &[InputState], chan: u32) -> bool
    ensures { result ≡ list_any (λ s. is_local_to chan (input_of s)) states.now }
{
    states.iter().any(|state| is_local_to(*state, chan))
}

// Whether one of these inputs holds a link end.
fn is_end_held(states: &[InputState], end: u32) -> bool
    ensures { result ≡ list_any (λ s. is_out_by end (input_of s)) states.now }
{
    states.iter().any(|state| is_out_by(*state, end))
}

fn is_local_to(input: InputState, chan: u32) -> bool
    ensures { result ≡ is_local_to chan (input_of input) }
{
    match input {
        InputState::Local { chan: held } => u32::from(held) == chan,
        _ => false,
    }
}

fn is_out_by(input: InputState, end: u32) -> bool
    ensures { result ≡ is_out_by end (input_of input) }
{
    match input {
        InputState::Out { end: held, .. } => u32::from(held) == end,
        _ => false,
    }
}

fn is_dest(tag: Tag, dest: u32) -> bool
    ensures { result ≡ is_dest tag dest }
{
    match tag {
        Tag::Want | Tag::Out => is_chan_id(dest),
        _ => dest == 0,
    }
}

fn is_net(tag: Tag, net: u8) -> bool
    ensures { result ≡ is_net tag net }
{
    match tag {
        Tag::Want => net < 4,
        _ => net == 0,
    }
}

// The input that these fields say.
fn input_said(tag: Tag, operand: u32, dest: u32, net: u8) -> InputState
    requires fits { OperandFits tag operand }
    ensures { result ≡ input_said tag operand dest net }
{
    match tag {
        Tag::Idle => InputState::Idle,
        Tag::Head1 => InputState::Head1 {
            first: high(operand),
        },
        Tag::Head2 => InputState::Head2 {
            first: high(operand),
            second: (operand % 256) as u8,
        },
        Tag::Want => InputState::Want { dest, net },
        Tag::Local => InputState::Local {
            chan: operand as u8,
        },
        Tag::Out => InputState::Out {
            end: high(operand),
            count: (operand % 256) as u8,
            dest,
        },
        Tag::Lost => InputState::Lost,
    }
}

// The high one of two bytes.
fn high(operand: u32) -> u8
    requires { operand < 65536 }
    ensures { result ≡ operand / 256 }
{
    (operand / 256) as u8
}

// The fields that say an input.
fn fields_of(input: InputState) -> (Tag, u32, u32, u8)
    ensures { (result.0, (result.1, (result.2, result.3))) ≡ fields_of_input input }
{
    match input {
        InputState::Idle => (Tag::Idle, 0, 0, 0),
        InputState::Head1 { first } => (Tag::Head1, u32::from(first) * 256, 0, 0),
        InputState::Head2 { first, second } => (
            Tag::Head2,
            u32::from(first) * 256 + u32::from(second),
            0,
            0,
        ),
        InputState::Want { dest, net } => (Tag::Want, 0, dest, net),
        InputState::Local { chan } => (Tag::Local, u32::from(chan), 0, 0),
        InputState::Out { end, count, dest } => (
            Tag::Out,
            u32::from(end) * 256 + u32::from(count),
            dest,
            0,
        ),
        InputState::Lost => (Tag::Lost, 0, 0, 0),
    }
}
