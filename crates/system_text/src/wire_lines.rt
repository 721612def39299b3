//! The line of a wire.
ghost use Rattle.std.specs.Prelude.{◌≡◌, ◌∷◌, codes, nat_le, option_map};
ghost use Rattle.system_model.specs.FrameLines.{pin_name, wire_line};
ghost use Rattle.system_text.specs.Forms.{formed, ranged, or_bad};
ghost use Rattle.system_text.specs.LineWords.{bytes_of};
ghost use Rattle.system_text.specs.WireForms.{capped_pin, pin_of};

use crate::frame_lines::{any_number, before_colon, between, up_to};
use crate::words::Word;
use pin_scripts::port_of;
use system_model::{FrameLine, PinName, SysKind, WireLine};
use xs_instructions::same_name;

// A pin as its name has it, before the range of its node's number is looked at.
#[derive(Clone, Copy)]
pub struct NamedPin {
    node: u32,
    port: u8,
}

// `N:P M:Q delay D` after `wire`, in edition 2 alone.
pub fn wire_line(edition: u8, words: &[Word]) -> Result<FrameLine, SysKind>
    ensures { result ≡ formed (option_map FrameLine.Wire (wire_line edition (codes "wire" ∷ bytes_of words.now))) }
{
    let [a, b, delay_word, delay] = words else {
        return Err(SysKind::BadLine);
    };
    if edition != 2 {
        return Err(SysKind::BadLine);
    }
    if !same_name(b"delay", delay_word.bytes) {
        return Err(SysKind::BadLine);
    }
    let a = pin_name(a.bytes)?;
    let b = pin_name(b.bytes)?;
    let delay = any_number(delay.bytes)?;
    Ok(FrameLine::Wire(WireLine {
        a: pin_in_range(a)?,
        b: pin_in_range(b)?,
        delay: between(delay, 1, 1000)?,
    }))
}

// `N:P`: the pin of port P of the node with the number N.
fn pin_name(word: &[u8]) -> Result<NamedPin, SysKind>
    ensures { result ≡ or_bad (option_map capped_pin (pin_name word.now)) }
{
    let colon = before_colon(word);
    if colon == word.len() {
        return Err(SysKind::BadLine);
    }
    let node = any_number(&word[..colon])?;
    match port_of(&word[colon + 1..]) {
        Some(port) => Ok(NamedPin { node, port }),
        None => Err(SysKind::BadLine),
    }
}

// A pin whose node's number is within its range.
fn pin_in_range(name: NamedPin) -> Result<PinName, SysKind>
    ensures { result ≡ ranged (nat_le name.node 99) (pin_of name) }
{
    Ok(PinName {
        node: up_to(name.node, 99)? as u8,
        port: name.port,
    })
}
