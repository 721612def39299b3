//! A line of a pin script by its words.
ghost use Rattle.std.specs.Prelude.{◌≡◌, ◌≤◌, ◌<◌, ◌+◌, ◌∷◌, [], length, drop, IfSome, Some};
ghost use Rattle.std.specs.List.{prefix_len};
ghost use Rattle.std.specs.Char.{is_ascii_digit};
ghost use Rattle.xs_text.specs.Words.{words_of_line};
ghost use Rattle.pin_scripts.specs.Pins.{before_colon, is_one_letter, is_port_shape, pin_form, port_word, says_words, word_number};
ghost use Rattle.pin_scripts.specs.Facts.{HasPort, SaysPort, IfPort};

use crate::port_names::port_of;
use crate::{PinForm, PinSays};
use xs_text::{next_word, number};

// What a line says.
#[tactic(auto, unfolding(crate::specs::Pins::pin_form))]
pub(crate) fn says(line: &[u8]) -> PinSays
    ensures value { result ≡ says_words (words_of_line line.now) }
    ensures port { SaysPort result }
{
    let Some((slot, rest)) = next_word(line) else {
        return PinSays::Blank;
    };
    let Some((pin, rest)) = next_word(rest) else {
        return PinSays::NoForm;
    };
    let Some((value, rest)) = next_word(rest) else {
        return PinSays::NoForm;
    };
    if next_word(rest).is_some() {
        return PinSays::NoForm;
    }
    match form_of(slot, pin, value) {
        Some(form) => PinSays::Form(form),
        None => PinSays::NoForm,
    }
}

// The form of three words.
#[tactic(auto, unfolding(crate::specs::Pins::pin_form))]
fn form_of(slot: &[u8], pin: &[u8], value: &[u8]) -> Option<PinForm>
    ensures value { result ≡ pin_form (slot.now ∷ pin.now ∷ value.now ∷ []) }
    ensures port { IfSome result HasPort }
{
    let slot = word_number(slot)?;
    let colon = before_colon(pin);
    let node = word_number(&pin[..colon])?;
    let port = port_word(after(pin, colon))?;
    let value = word_number(value)?;
    Some(PinForm {
        slot,
        node,
        port,
        value,
    })
}

fn word_number(word: &[u8]) -> Option<u32>
    ensures { result ≡ word_number word.now }
{
    number(word, u32::MAX)
}

// How many bytes of a word stand before its first colon.
fn before_colon(word: &[u8]) -> usize
    ensures value { result ≡ before_colon word.now }
    ensures within { result ≤ length word.now }
{
    word.iter().take_while(|b| **b != b':').count()
}

// The bytes of a word after one of them, the place of which may be past the last.
fn after(word: &[u8], place: usize) -> &[u8]
    requires { place ≤ length word.now }
    ensures { result.now ≡ drop (place + 1) word.now }
{
    if place < word.len() {
        &word[place + 1..]
    } else {
        &word[place..]
    }
}

// The port that a word names. None comes where it has not the shape of a name.
fn port_word(word: &[u8]) -> Option<Option<u8>>
    ensures value { result ≡ port_word word.now }
    ensures port { IfSome result IfPort }
{
    if is_port_shape(word) {
        Some(port_of(word))
    } else {
        None
    }
}

// Whether a name is digits and one letter.
fn is_port_shape(name: &[u8]) -> bool
    ensures { result ≡ is_port_shape name.now }
{
    let digits = count_digits(name);
    digits > 0 && is_one_letter(&name[digits..])
}

// How many digits begin a name.
fn count_digits(name: &[u8]) -> usize
    ensures value { result ≡ prefix_len is_ascii_digit name.now }
    ensures within { result ≤ length name.now }
{
    name.iter().take_while(|b| b.is_ascii_digit()).count()
}

fn is_one_letter(bytes: &[u8]) -> bool
    ensures { result ≡ is_one_letter bytes.now }
{
    match bytes {
        [b] => b.is_ascii_alphabetic(),
        _ => false,
    }
}
