//! What may be wrong with the values of a `.word`.
ghost use Rattle.std.specs.Prelude.{◌≡◌, ◌≤◌, ◌++◌, [], length, option_map, OnOk};
ghost use Rattle.warning_model.specs.Source.{is_channel_end, has_id, doubt_of_number, doubt_of_value, warnings_of_values};
ghost use Rattle.placed_tokens.specs.Tokens.{placed_left, placed_of};
ghost use Rattle.warning_text.specs.Kept.{doubt_of, site_of};

use crate::warning::{Doubt, Site, Warnings};
use placed_tokens::{Token, next_token};
use std::alloc::AllocError;
use sys_plan::NodePlan;
use xs_instructions::same_name;
use xs_text::{TokKind, source_number};

// Whether a word is the identifier of a channel end.
fn is_channel_end(value: u32) -> bool
    ensures { result ≡ is_channel_end value }
{
    value % 256 == 2 && value / 256 % 256 < 32
}

fn has_id(nodes: &[NodePlan], id: u32) -> bool
    ensures { result ≡ has_id nodes.now id }
{
    nodes.iter().any(|node| u32::from(node.id) == id)
}

fn doubt_of_number<'a>(nodes: &[NodePlan], number: Option<u32>) -> Option<Doubt<'a>>
    ensures { option_map doubt_of result ≡ doubt_of_number nodes.now number }
{
    let value = number?;
    if is_channel_end(value) && !has_id(nodes, value / 65_536) {
        return Some(Doubt::NoSuchId(value));
    }
    None
}

// Of a token after another one.
fn doubt_of_value<'a>(nodes: &[NodePlan], before: &[u8], token: Token) -> Option<Doubt<'a>>
    ensures { option_map doubt_of result ≡ doubt_of_value nodes.now before.now (placed_of token.entry).token }
{
    if token.kind == TokKind::Number && !same_name(b"-", before) {
        doubt_of_number(nodes, source_number(token.bytes, u32::MAX))
    } else {
        None
    }
}

/// Of the tokens of a line from a place on. The error is want of memory.
#[tactic(auto, unfolding(warning_model::specs::Source::warnings_of_values))]
pub(crate) fn add_values<'a>(
    warnings: &mut Warnings<'a>,
    site: Site<'a>,
    nodes: &[NodePlan],
    behind: usize,
) -> Result<(), AllocError>
    requires { behind ≤ length site.bytes.now }
    ensures { OnOk result (warnings.new ≡ warnings.old ++ warnings_of_values (site_of site.entry) nodes.now [] (placed_left site.entry.bytes.now behind)) }
{
    let mut before: &[u8] = b"";
    let mut at = behind;
    while let Some(token) = next_token(site.bytes, at) {
        warnings.add(site, doubt_of_value(nodes, before, token))?;
        before = token.bytes;
        at = token.end;
    }
    Ok(())
}
