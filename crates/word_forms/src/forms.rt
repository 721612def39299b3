//! How far the words of a line have a form.
ghost use Rattle.std.specs.Prelude.{◌≡◌, ◌≤◌, [], ◌∷◌, Some, length, map, IfOk, OnOk};
ghost use Rattle.explain_model.specs.Words.{words_left, placed_words};
ghost use Rattle.placed_tokens.specs.Words.{word_of};
ghost use Rattle.marked_lines.specs.Stops.{stop_of_kept, spot_of_kept};
ghost use Rattle.explain_frame_model.specs.WordForms.{stop_of_words, with_forms, spot_of_forms};

use crate::fits::fits_word;
use explain_model::Want;
use marked_lines::{Spot, Stop};
use placed_tokens::next_word_at;
use std::alloc::{AllocError, Global};

/// Where the words of a line stop to have a form, from a place on. See docs/LOOK.md.
#[tactic(auto, unfolding(explain_frame_model::specs::WordForms::stop_of_words))]
pub fn stop_of_words(form: &[Want], line: &[u8], behind: usize) -> Stop
    requires { behind ≤ length line.now }
    ensures stop { stop_of_kept result ≡ stop_of_words behind form.now (words_left line.now behind) }
    ensures within { result.at ≤ length line.now }
{
    match form {
        [] => stop_at_the_end(line, behind),
        [want, form @ ..] => match next_word_at(line, behind) {
            None => stop_at(*want, behind, true),
            Some(word) if fits_word(*want, word.bytes) => stop_of_words(form, line, word.end),
            Some(word) => stop_at(*want, word.at, false),
        },
    }
}

// Where something is wanted that does not stand there.
fn stop_at(want: Want, at: usize, all_fit: bool) -> Stop
    ensures { result ≡ record { at = at; all_fit = all_fit; want = Some want } }
{
    Stop {
        at,
        all_fit,
        want: Some(want),
    }
}

// Where a line stops that has a form so far, and of which nothing more may come.
#[tactic(auto, unfolding(explain_frame_model::specs::WordForms::stop_of_words))]
fn stop_at_the_end(line: &[u8], behind: usize) -> Stop
    requires { behind ≤ length line.now }
    ensures stop { stop_of_kept result ≡ stop_of_words behind [] (words_left line.now behind) }
    ensures within { result.at ≤ length line.now }
{
    match next_word_at(line, behind) {
        None => Stop {
            at: behind,
            all_fit: true,
            want: None,
        },
        Some(word) => stop_at(Want::LineEnd, word.at, false),
    }
}

/// The place where those of some forms stop that the words of a line have farthest, and all that may stand there. The error is want of memory. See
/// docs/LOOK.md.
pub fn spot_of_forms(
    alloc: Global,
    first: &[Want],
    others: &[&[Want]],
    line: &[u8],
) -> Result<Spot, AllocError>
    ensures spot { IfOk result (λ spot. spot_of_kept spot ≡ spot_of_forms (first.now ∷ map (λ form. form.now) others.now) (placed_words line.now)) }
    ensures within { IfOk result (λ spot. spot.at ≤ length line.now) }
{
    let mut spot = Spot::of_stop(alloc, stop_of_words(first, line, 0))?;
    add_forms(&mut spot, others, line)?;
    Ok(spot)
}

// Takes these forms into account too.
#[tactic(auto, unfolding(explain_frame_model::specs::WordForms::with_forms))]
fn add_forms(spot: &mut Spot, forms: &[&[Want]], line: &[u8]) -> Result<(), AllocError>
    requires { spot.old.at ≤ length line.now }
    ensures spot { OnOk result (spot_of_kept spot.new ≡ with_forms (map (λ form. form.now) forms.now) (placed_words line.now) (spot_of_kept spot.old)) }
    ensures within { OnOk result (spot.new.at ≤ length line.now) }
{
    match forms {
        [] => Ok(()),
        [form, forms @ ..] => {
            spot.add_stop(stop_of_words(form, line, 0))?;
            add_forms(spot, forms, line)
        }
    }
}
