//! Words that name an end or a pin of a node.
ghost use Rattle.std.specs.Prelude.{◌≡◌, ◌≤◌, ◌<◌, length, take, IfSome};
ghost use Rattle.pin_scripts.specs.Pins.{before_colon};
ghost use Rattle.explain_frame_model.specs.Script.{port_in};
ghost use Rattle.explain_frame_model.specs.WordForms.{script_pin};

use explain_frame_model::ScriptPin;
use pin_scripts::port_of;
use xs_text::number;

// How many bytes of a word stand before its first colon.
fn before_colon(word: &[u8]) -> usize
    ensures value { result ≡ before_colon word.now }
    ensures within { result ≤ length word.now }
{
    word.iter().take_while(|b| **b != b':').count()
}

/// The bytes of a word before its first colon.
pub(crate) fn node_in(word: &[u8]) -> &[u8]
    ensures { result.now ≡ take (before_colon word.now) word.now }
{
    &word[..before_colon(word)]
}

/// The bytes of a word behind its first colon, none where it has no colon: of `0:4A` the name of a port. See docs/LOOK.md.
pub fn port_in(word: &[u8]) -> &[u8]
    ensures { result.now ≡ port_in word.now }
{
    let colon = before_colon(word);
    if colon < word.len() {
        &word[colon + 1..]
    } else {
        &word[colon..]
    }
}

/// The pin that `N:PORT` names in a script. None where N is no number of 32 bits, or where no port has the name. See
/// docs/LOOK.md.
pub fn script_pin(word: &[u8]) -> Option<ScriptPin>
    ensures value { result ≡ script_pin word.now }
    ensures port { IfSome result (λ pin. pin.port < 29) }
{
    let node = number(node_in(word), u32::MAX)?;
    let port = port_of(port_in(word))?;
    Some(ScriptPin { node, port })
}
