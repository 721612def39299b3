//! Whether a word may stand at a place of a form.
ghost use Rattle.std.specs.Prelude.{◌≡◌, is_some};
ghost use Rattle.xs_text.specs.Numbers.{number_of};
ghost use Rattle.system_model.specs.FrameLines.{end_name, pin_name};
ghost use Rattle.explain_model.specs.Forms.{is_between};
ghost use Rattle.explain_frame_model.specs.WordForms.{fits_word, is_link_end, is_step_end, is_wire_pin};

use crate::pins::{node_in, port_in, script_pin};
use explain_model::Want;
use marked_lines::word_text;
use pin_scripts::port_of;
use xs_instructions::same_name;
use xs_text::{is_plain_number, number};

fn is_number(least: u32, most: u32, word: &[u8]) -> bool
    ensures { result ≡ is_between least most (number_of word.now) }
{
    match number(word, most) {
        Some(value) => least <= value,
        None => false,
    }
}

// `N:E` with both numbers in range.
#[tactic(auto, using(crate::proofs::Ends::link_end_parts))]
fn is_link_end(word: &[u8]) -> bool
    ensures { result ≡ is_link_end (end_name word.now) }
{
    is_number(0, 99, node_in(word)) && is_number(0, 7, port_in(word))
}

// `N:E` with any number of an end.
#[tactic(auto, using(crate::proofs::Ends::step_end_parts))]
fn is_step_end(word: &[u8]) -> bool
    ensures { result ≡ is_step_end (end_name word.now) }
{
    is_number(0, 99, node_in(word)) && is_plain_number(port_in(word))
}

// `N:P` with a number of the frame.
#[tactic(auto, unfolding(system_model::specs::FrameLines::pin_name))]
fn is_wire_pin(word: &[u8]) -> bool
    ensures { result ≡ is_wire_pin (pin_name word.now) }
{
    is_number(0, 99, node_in(word)) && port_of(port_in(word)).is_some()
}

/// Whether a word may stand at a place of a form: a number in its range, a word letter by letter, or the name of an end or a pin. See docs/LOOK.md.
pub fn fits_word(want: Want, word: &[u8]) -> bool
    ensures { result ≡ fits_word want word.now }
{
    match want {
        Want::Number(least, most) => is_number(least, most, word),
        Want::Word(fixed) => same_name(word_text(fixed), word),
        Want::LinkEnd => is_link_end(word),
        Want::StepEnd => is_step_end(word),
        Want::WirePin => is_wire_pin(word),
        Want::ScriptPin => script_pin(word).is_some(),
        _ => false,
    }
}
