//! How far a line has a form.
ghost use Rattle.std.specs.Prelude.{◌≡◌, ◌≤◌, [], Some, true, false, length, option_to_list};
ghost use Rattle.explain_model.specs.Forms.{fits, base_of, base_between, want_of, form_after, stop_of};
ghost use Rattle.placed_tokens.specs.Tokens.{placed_left, placed_of};
ghost use Rattle.marked_lines.specs.Stops.{stop_of_kept};

use crate::fits::{fits_number, fits_part};
use explain_model::Want;
use marked_lines::Stop;
use placed_tokens::{Token, next_token};
use source_model::Section;
use xs_instructions::Part;
use xs_text::TokKind;

/// Whether a token may stand at a place of a form.
pub(crate) fn fits(want: Want, token: Token) -> bool
    ensures { result ≡ fits want (placed_of token.entry).token }
{
    match want {
        Want::Operand(part) => fits_part(part, token),
        Want::Offset(_) => fits_part(Part::Short, token) || fits_part(Part::Label, token),
        Want::Number(least, most) => fits_number(least, most, token),
        Want::AnyName => token.kind == TokKind::Name,
        _ => false,
    }
}

// The section that a register stands for.
fn base_of(part: Part) -> Option<Section>
    ensures { result ≡ base_of part }
{
    match part {
        Part::Register(13) => Some(Section::Data),
        Part::Register(12) => Some(Section::Constants),
        _ => None,
    }
}

// The section whose words a place counts, after two other places.
fn base_between(second: Part, last: Part) -> Option<Section>
    ensures { result ≡ base_between second last }
{
    match last {
        Part::Word(13) => base_of(second),
        _ => None,
    }
}

fn want_of(base: Option<Section>, part: Part) -> Want
    ensures { result ≡ want_of base part }
{
    match (base, part) {
        (Some(base), Part::Short) => Want::Offset(base),
        _ => Want::Operand(part),
    }
}

/// Where a line stops to have the form of these parts, which come after two others, from a place on.
#[tactic(auto, unfolding(explain_model::specs::Forms::form_after, explain_model::specs::Forms::stop_of))]
pub(crate) fn stop_of_parts(
    second: Part,
    last: Part,
    parts: &[Part],
    line: &[u8],
    behind: usize,
) -> Stop
    requires { behind ≤ length line.now }
    ensures stop { stop_of_kept result ≡ stop_of behind (form_after second last parts.now) (placed_left line.now behind) }
    ensures within { result.at ≤ length line.now }
{
    match parts {
        [] => stop_at_the_end(line, behind),
        [part, parts @ ..] => {
            let want = want_of(base_between(second, last), *part);
            match next_token(line, behind) {
                None => stop_behind(want, behind),
                Some(token) if fits(want, token) => stop_of_parts(
                    last, *part, parts, line, token.end,
                ),
                Some(token) => stop_at(want, token.at),
            }
        }
    }
}

// Where a line ends that has a form so far.
fn stop_behind(want: Want, behind: usize) -> Stop
    ensures { result ≡ record { at = behind; all_fit = true; want = Some want } }
{
    Stop {
        at: behind,
        all_fit: true,
        want: Some(want),
    }
}

// Where a token does not fit.
fn stop_at(want: Want, at: usize) -> Stop
    ensures { result ≡ record { at = at; all_fit = false; want = Some want } }
{
    Stop {
        at,
        all_fit: false,
        want: Some(want),
    }
}

// Where a line stops that has a form so far, and of which nothing more may come.
#[tactic(auto, unfolding(explain_model::specs::Forms::stop_of))]
fn stop_at_the_end(line: &[u8], behind: usize) -> Stop
    requires { behind ≤ length line.now }
    ensures stop { stop_of_kept result ≡ stop_of behind [] (placed_left line.now behind) }
    ensures within { result.at ≤ length line.now }
{
    match next_token(line, behind) {
        None => Stop {
            at: behind,
            all_fit: true,
            want: None,
        },
        Some(token) => stop_at(Want::LineEnd, token.at),
    }
}

/// Where a line stops to have a form of one place at most.
#[tactic(auto, unfolding(explain_model::specs::Forms::stop_of))]
pub(crate) fn stop_of_one(want: Option<Want>, line: &[u8], behind: usize) -> Stop
    requires { behind ≤ length line.now }
    ensures stop { stop_of_kept result ≡ stop_of behind (option_to_list want) (placed_left line.now behind) }
    ensures within { result.at ≤ length line.now }
{
    let Some(want) = want else {
        return stop_at_the_end(line, behind);
    };
    match next_token(line, behind) {
        None => stop_behind(want, behind),
        Some(token) if fits(want, token) => stop_at_the_end(line, token.end),
        Some(token) => stop_at(want, token.at),
    }
}
