//! The labels that a statement names.
ghost use Rattle.std.specs.Prelude.{◌≡◌, ◌≤◌, [], length, option_map, IfSome};
ghost use Rattle.source_model.specs.Operands.{base_named, base_after};
ghost use Rattle.explain_model.specs.Spots.{use_want, is_asked, first_use};
ghost use Rattle.placed_tokens.specs.Tokens.{placed_left};
ghost use Rattle.explain_text.specs.Found.{use_of_kept};

use crate::fits::fits_part;
use explain_model::Want;
use placed_tokens::{Token, next_token};
use source_model::{Section, Width};
use xs_instructions::{Part, Symbols};

/// A name among what comes behind a statement's name, and what may stand there.
#[derive(Clone, Copy)]
pub(crate) struct Use<'a> {
    pub(crate) label: Token<'a>,
    pub(crate) want: Want,
}

// The section that a base register stands for.
fn base_named(name: &[u8]) -> Option<Section>
    ensures { result ≡ base_named name.now }
{
    match name {
        b"dp" => Some(Section::Data),
        b"cp" => Some(Section::Constants),
        _ => None,
    }
}

// The same after two tokens.
fn base_after(second: &[u8], last: &[u8]) -> Option<Section>
    ensures { result ≡ base_after second.now last.now }
{
    match last {
        b"[" => base_named(second),
        _ => None,
    }
}

fn use_want(of_directive: bool, base: Option<Section>) -> Want
    ensures { result ≡ use_want of_directive base }
{
    if of_directive {
        return Want::Value(Width::Word);
    }
    match base {
        None => Want::Operand(Part::Label),
        Some(base) => Want::Offset(base),
    }
}

// Whether a name is none of some labels; where no labels are asked about, any name will do.
fn is_asked(labels: Option<&Symbols>, name: &[u8]) -> bool
    ensures { result ≡ is_asked (option_map (λ s. s.now.labels) labels.entry) name.now }
{
    match labels {
        None => true,
        Some(labels) => labels.address(name).is_none(),
    }
}

/// The first label that a statement names from a place on, and that is none of some labels, where such are given.
#[tactic(auto, unfolding(explain_model::specs::Spots::first_use))]
pub(crate) fn first_use<'a>(
    labels: Option<&Symbols>,
    of_directive: bool,
    line: &'a [u8],
    behind: usize,
) -> Option<Use<'a>>
    requires { behind ≤ length line.now }
    ensures found { option_map use_of_kept result ≡ first_use (option_map (λ s. s.now.labels) labels.entry) of_directive [] [] (placed_left line.now behind) }
    ensures within { IfSome result (λ found. found.label.end ≤ length line.now) }
{
    let mut second: &[u8] = b"";
    let mut last: &[u8] = b"";
    let mut behind = behind;
    while let Some(token) = next_token(line, behind) {
        if fits_part(Part::Label, token) && is_asked(labels, token.bytes) {
            return Some(Use {
                label: token,
                want: use_want(of_directive, base_after(second, last)),
            });
        }
        second = last;
        last = token.bytes;
        behind = token.end;
    }
    None
}
