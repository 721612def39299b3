//! Link ends as bytes.
ghost use Rattle.std.specs.Prelude.{ℕ, ◌≡◌, ◌++◌, ◌+◌, Bool, List, OnOk, if◌then◌else◌};
ghost use Rattle.xs_base.specs.declared.numbers.TheConstants.{WINDOW_TOKENS};
ghost use Rattle.byte_forms.specs.Forms.{flag, word, where_is};
ghost use Rattle.byte_forms.specs.Reading.{Gives};
ghost use Rattle.switch_forms.specs.Ends.{is_there, may_have_sent, is_last, link_end, link_ends};

use byte_forms::{Fault, Reader, write_byte, write_flag, write_option_word};
use link_ends::EndState;
use state_forms::{read_buffer, write_buffer};
use std::alloc::AllocError;
use xs_base::Text;
use xs_base::numbers::WINDOW_TOKENS;

/// Reads the link ends of a node, of which the plan has these, in a snapshot of this slot. A fault is at the first field that is wrong.
pub fn read_link_ends(
    from: &mut Reader,
    there: &[bool; 8],
    slot: u32,
    ends: &mut [EndState; 8],
) -> Result<(), Fault>
    ensures value { Gives (link_ends there.now slot) (λ _. ends.new) from.old result from.new }
{
    for end in 0..ends.len() {
        ends[end] = read_link_end(from, there[end], slot)?;
    }
    Ok(())
}

/// Writes the link ends of a node. The error is want of memory.
pub fn write_link_ends(out: &mut Text, ends: &[EndState]) -> Result<(), AllocError>
    ensures value { OnOk result ((there : List Bool) (slot : ℕ) → out.new ≡ out.old ++ (link_ends there slot).write ends.now) }
{
    for end in ends {
        write_link_end(out, end)?;
    }
    Ok(())
}

// Reads a link end, which the plan has or not.
#[tactic(auto, unfolding(crate::specs::Ends::link_end))]
fn read_link_end(from: &mut Reader, there: bool, slot: u32) -> Result<EndState, Fault>
    ensures value { Gives (link_end there slot) (λ e. e) from.old result from.new }
{
    let present = read_present(from, there)?;
    let buffer = read_buffer(from, there)?;
    let window = from.read_byte_below(window_limit(there))?;
    let sent = read_sent(from, there, window)?;
    let last = read_last(from, slot, sent)?;
    Ok(EndState {
        present,
        buffer,
        window,
        last: if sent { Some(last) } else { None },
    })
}

// Writes a link end.
#[tactic(auto, unfolding(crate::specs::Ends::link_end))]
fn write_link_end(out: &mut Text, end: &EndState) -> Result<(), AllocError>
    ensures value { OnOk result ((there : Bool) (slot : ℕ) → out.new ≡ out.old ++ (link_end there slot).write end.now) }
{
    write_flag(out, end.present)?;
    write_buffer(out, &end.buffer)?;
    write_byte(out, end.window)?;
    write_option_word(out, end.last)
}

fn read_present(from: &mut Reader, there: bool) -> Result<bool, Fault>
    ensures value { Gives (where_is flag (is_there there)) (λ p. p) from.old result from.new }
{
    let left = from.left();
    let present = from.read_flag()?;
    if is_there(there, present) {
        Ok(present)
    } else {
        Err(Fault::Wrong(left))
    }
}

fn read_sent(from: &mut Reader, there: bool, window: u8) -> Result<bool, Fault>
    ensures value { Gives (where_is flag (may_have_sent there window)) (λ s. s) from.old result from.new }
{
    let left = from.left();
    let sent = from.read_flag()?;
    if may_have_sent(there, window, sent) {
        Ok(sent)
    } else {
        Err(Fault::Wrong(left))
    }
}

fn read_last(from: &mut Reader, slot: u32, sent: bool) -> Result<u32, Fault>
    ensures value { Gives (where_is word (is_last slot sent)) (λ n. n) from.old result from.new }
{
    let left = from.left();
    let last = from.read_word()?;
    if is_last(slot, sent, last) {
        Ok(last)
    } else {
        Err(Fault::Wrong(left))
    }
}

fn is_there(there: bool, present: bool) -> bool
    ensures { result ≡ is_there there present }
{
    if there { present } else { !present }
}

fn may_have_sent(there: bool, window: u8, sent: bool) -> bool
    ensures { result ≡ may_have_sent there window sent }
{
    if sent { there } else { window == 0 }
}

fn is_last(slot: u32, sent: bool, last: u32) -> bool
    ensures { result ≡ is_last slot sent last }
{
    if sent { last < slot } else { last == 0 }
}

// What the window of a link end has to be below.
fn window_limit(there: bool) -> u8
    ensures { result ≡ (if there then WINDOW_TOKENS + 1 else 1) }
{
    if there { WINDOW_TOKENS as u8 + 1 } else { 1 }
}
