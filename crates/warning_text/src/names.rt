//! What all lines of a source have: the names that they name, the last instruction, and whether there is a `setd`.
ghost use Rattle.std.specs.Prelude.{◌≡◌, ◌≤◌, ◌<◌, ◌^◌, length, drop, IfOk, OnOk};
ghost use Rattle.xs_text.specs.Lines.{lines_of};
ghost use Rattle.xs_text.specs.Tokens.{HasForm};
ghost use Rattle.warning_model.specs.Named.{naming, name_of_line, operands_of, note_name, note_names, named_in, is_named, last_instruction, has_setd};
ghost use Rattle.warning_model.specs.Warnings.{lines_to_end};
ghost use Rattle.placed_tokens.specs.Tokens.{placed_left, placed_of};

use crate::source_lines::SourceLines;
use crate::statement::{is_instruction, statement_of};
use placed_tokens::{Token, next_token};
use std::alloc::{AllocError, Global};
use xs_instructions::{Symbols, same_name};
use xs_text::TokKind;

// A name more, if the token is one. The error is want of memory, here and below.
fn note_name(alloc: Global, names: &mut Symbols, token: Token) -> Result<(), AllocError>
    requires { HasForm (placed_of token).token }
    ensures { OnOk result (names.new.labels ≡ note_name (placed_of token.entry) names.old.labels) }
{
    match token.kind {
        TokKind::Name => {
            names.define(alloc, token.bytes, 0)?;
            Ok(())
        }
        _ => Ok(()),
    }
}

// All that is left of a line.
#[tactic(auto, unfolding(warning_model::specs::Named::note_names))]
fn note_names(
    alloc: Global,
    names: &mut Symbols,
    line: &[u8],
    behind: usize,
) -> Result<(), AllocError>
    requires { behind ≤ length line.now }
    ensures { OnOk result (names.new.labels ≡ note_names (placed_left line.now behind) names.old.labels) }
{
    let mut at = behind;
    while let Some(token) = next_token(line, at) {
        note_name(alloc, names, token)?;
        at = token.end;
    }
    Ok(())
}

// The place behind one token.
fn behind_one(line: &[u8], at: usize) -> usize
    requires { at ≤ length line.now }
    ensures rest { placed_left line.now result ≡ drop 1 (placed_left line.now at) }
    ensures within { result ≤ length line.now }
{
    match next_token(line, at) {
        None => at,
        Some(token) => token.end,
    }
}

// What a line names.
#[tactic(auto, unfolding(warning_model::specs::Named::note_names))]
fn note_line(alloc: Global, names: &mut Symbols, line: &[u8]) -> Result<(), AllocError>
    ensures { OnOk result (names.new.labels ≡ note_names (naming (name_of_line line.now) (operands_of line.now)) names.old.labels) }
{
    let statement = statement_of(line);
    if same_name(b"getr", statement.name) {
        Ok(())
    } else if same_name(b"getst", statement.name) {
        note_names(alloc, names, line, behind_one(line, statement.end))
    } else {
        note_names(alloc, names, line, statement.end)
    }
}

/// The names that the lines of a source name.
#[tactic(auto, unfolding(warning_model::specs::Named::note_named))]
pub(crate) fn named_in(alloc: Global, source: &[u8]) -> Result<Symbols, AllocError>
    requires { length source.now < 2 ^ 32 }
    ensures { IfOk result (λ names. names.labels ≡ named_in (lines_to_end (lines_of source.now))) }
{
    let mut names = Symbols::of_source(alloc, source);
    let mut lines = SourceLines::new(source);
    while let Some((_, line)) = lines.next_line() {
        note_line(alloc, &mut names, line)?;
    }
    Ok(names)
}

/// Whether a name is one of these.
pub(crate) fn is_named(names: &Symbols, name: &[u8]) -> bool
    ensures { result ≡ is_named names.now.labels name.now }
{
    names.address(name).is_some()
}

/// The number of the last line that has an instruction, from 1, and 0 where none has.
#[tactic(auto, unfolding(warning_model::specs::Named::last_from))]
pub(crate) fn last_instruction(source: &[u8]) -> u32
    requires { length source.now < 2 ^ 32 }
    ensures { result ≡ last_instruction (lines_to_end (lines_of source.now)) }
{
    let mut last = 0;
    let mut lines = SourceLines::new(source);
    while let Some((number, line)) = lines.next_line() {
        if is_instruction(statement_of(line).name) {
            last = number;
        }
    }
    last
}

/// Whether a line has a `setd`.
#[tactic(auto, unfolding(warning_model::specs::Named::has_setd))]
pub(crate) fn has_setd(source: &[u8]) -> bool
    requires { length source.now < 2 ^ 32 }
    ensures { result ≡ has_setd (lines_to_end (lines_of source.now)) }
{
    let mut lines = SourceLines::new(source);
    while let Some((_, line)) = lines.next_line() {
        if same_name(b"setd", statement_of(line).name) {
            return true;
        }
    }
    false
}
