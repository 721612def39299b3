//! Directives: what may come behind the name of each.
ghost use Rattle.std.specs.Prelude.{◌≡◌, ◌≤◌, length, option_map, true};
ghost use Rattle.source_model.specs.Values.{ValueNext};
ghost use Rattle.explain_model.specs.Values.{is_plain_value, next_want, next_after, values_end, values_stop, bytes_form, directive_form, directive_stop};
ghost use Rattle.placed_tokens.specs.Tokens.{placed_left, placed_of};
ghost use Rattle.marked_lines.specs.Stops.{stop_of_kept};
ghost use Rattle.explain_text.specs.Values.{next_of_kept, form_of_kept};

use crate::fits::fits_number;
use crate::forms::stop_of_one;
use crate::numbers::{greatest_negative, greatest_value};
use explain_model::Want;
use marked_lines::Stop;
use placed_tokens::{Token, next_token};
use source_model::Width;
use xs_instructions::{is_reserved, same_name};
use xs_text::TokKind;

// What may come next in a list of values.
#[derive(Clone, Copy)]
enum Next {
    Value,
    Digits,
    Comma,
}

// What comes behind the name of a directive.
#[derive(Clone, Copy)]
enum DirectiveForm {
    Nothing,
    One(Want),
    Values(Width),
}

// Whether a token is a value without a sign.
fn is_plain_value(width: Width, token: Token) -> bool
    ensures { result ≡ is_plain_value token.entry.kind width (placed_of token.entry).token }
{
    match token.kind {
        TokKind::Name => width == Width::Word && !is_reserved(token.bytes),
        TokKind::Number => fits_number(0, greatest_value(width), token),
        TokKind::Mark | TokKind::Stray => false,
    }
}

fn next_want(next: Next, width: Width) -> Want
    ensures { result ≡ next_want (next_of_kept next) width }
{
    match next {
        Next::Value => Want::Value(width),
        Next::Digits => Want::Number(0, greatest_negative(width)),
        Next::Comma => Want::CommaOrEnd,
    }
}

// What may come behind a token, None where it may not stand there.
fn next_after(next: Next, width: Width, token: Token) -> Option<Next>
    ensures { option_map next_of_kept result ≡ next_after (next_of_kept next) width (placed_of token.entry).token }
{
    match next {
        Next::Value if same_name(b"-", token.bytes) => Some(Next::Digits),
        Next::Value => is_plain_value(width, token).then_some(Next::Comma),
        Next::Digits => fits_number(0, greatest_negative(width), token).then_some(Next::Comma),
        Next::Comma => same_name(b",", token.bytes).then_some(Next::Value),
    }
}

// Where a list of values stops that ends the line.
fn values_end(next: Next, width: Width, behind: usize) -> Stop
    ensures { stop_of_kept result ≡ record { at = behind; all_fit = true; want = values_end (next_of_kept next) width } }
{
    match next {
        Next::Comma => Stop {
            at: behind,
            all_fit: true,
            want: None,
        },
        _ => Stop {
            at: behind,
            all_fit: true,
            want: Some(next_want(next, width)),
        },
    }
}

// Where a list of values stops.
#[tactic(auto, unfolding(explain_model::specs::Values::values_stop))]
fn values_stop(width: Width, line: &[u8], behind: usize) -> Stop
    requires { behind ≤ length line.now }
    ensures stop { stop_of_kept result ≡ values_stop behind ValueNext width (placed_left line.now behind) }
    ensures within { result.at ≤ length line.now }
{
    let mut behind = behind;
    let mut next = Next::Value;
    while let Some(token) = next_token(line, behind) {
        let Some(after) = next_after(next, width, token) else {
            return Stop {
                at: token.at,
                all_fit: false,
                want: Some(next_want(next, width)),
            };
        };
        next = after;
        behind = token.end;
    }
    values_end(next, width, behind)
}

// None where there is no such directive.
fn bytes_form(name: &[u8]) -> Option<DirectiveForm>
    ensures { option_map form_of_kept result ≡ bytes_form name.now }
{
    if same_name(b".word", name) {
        Some(DirectiveForm::Values(Width::Word))
    } else if same_name(b".short", name) {
        Some(DirectiveForm::Values(Width::Short))
    } else if same_name(b".byte", name) {
        Some(DirectiveForm::Values(Width::Byte))
    } else if same_name(b".space", name) {
        Some(DirectiveForm::One(Want::Number(0, 65_536)))
    } else {
        None
    }
}

fn directive_form(name: &[u8]) -> Option<DirectiveForm>
    ensures { option_map form_of_kept result ≡ directive_form name.now }
{
    if same_name(b".text", name) {
        Some(DirectiveForm::Nothing)
    } else if same_name(b".globl", name) {
        Some(DirectiveForm::One(Want::AnyName))
    } else if same_name(b".align", name) {
        Some(DirectiveForm::One(Want::Number(1, 1_024)))
    } else if same_name(b".data", name) {
        Some(DirectiveForm::Nothing)
    } else if same_name(b".cp", name) {
        Some(DirectiveForm::Nothing)
    } else {
        bytes_form(name)
    }
}

/// Where what comes behind the name of a directive stops.
pub(crate) fn directive_stop(name: &[u8], line: &[u8], behind: usize) -> Stop
    requires { behind ≤ length line.now }
    ensures stop { stop_of_kept result ≡ directive_stop behind (placed_left line.now behind) (directive_form name.now) }
    ensures within { result.at ≤ length line.now }
{
    match directive_form(name) {
        None => Stop {
            at: behind,
            all_fit: true,
            want: None,
        },
        Some(DirectiveForm::Nothing) => stop_of_one(None, line, behind),
        Some(DirectiveForm::One(want)) => stop_of_one(Some(want), line, behind),
        Some(DirectiveForm::Values(width)) => values_stop(width, line, behind),
    }
}
