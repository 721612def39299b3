//! Values of words of a frame.
ghost use Rattle.std.specs.Prelude.{◌≡◌, ◌≤◌, length};
ghost use Rattle.pin_scripts.specs.Pins.{before_colon};
ghost use Rattle.explain_frame_model.specs.FrameGifts.{value_of, front_of, back_of, node_of, end_of, port_in};

use pin_scripts::port_of;
use xs_text::number;

/// The number that a word of a frame is, and 4,294,967,295 also where it is no number or a greater one. See docs/SYSTEM_TEXT.md.
pub fn value_of(word: &[u8]) -> u32
    ensures { result ≡ value_of word.now }
{
    match number(word, u32::MAX) {
        Some(value) => value,
        None => u32::MAX,
    }
}

// How many bytes of a word stand before its first colon.
fn before_colon(word: &[u8]) -> usize
    ensures value { result ≡ before_colon word.now }
    ensures within { result ≤ length word.now }
{
    word.iter().take_while(|b| **b != b':').count()
}

// What stands before the colon.
fn front_of(word: &[u8]) -> &[u8]
    ensures { result.now ≡ front_of word.now }
{
    &word[..before_colon(word)]
}

/// What stands in a word behind its first colon, nothing where it has none.
pub fn back_of(word: &[u8]) -> &[u8]
    ensures { result.now ≡ back_of word.now }
{
    let colon = before_colon(word);
    if colon < word.len() {
        &word[colon + 1..]
    } else {
        b""
    }
}

/// The node that `N`, `N:E` or `N:P` names, as `value_of`. See docs/SYSTEM_TEXT.md.
pub fn node_of(word: &[u8]) -> u32
    ensures { result ≡ node_of word.now }
{
    value_of(front_of(word))
}

/// The end that `N:E` names, as `value_of`. See docs/SYSTEM_TEXT.md.
pub fn end_of(word: &[u8]) -> u32
    ensures { result ≡ end_of word.now }
{
    value_of(back_of(word))
}

/// The port that `N:P` names, 0 to 28 in the order of docs/PORTS.md, and 29 where there is no such port.
pub fn port_in(word: &[u8]) -> u8
    ensures { result ≡ port_in word.now }
{
    match port_of(back_of(word)) {
        Some(port) => port,
        None => 29,
    }
}
