//! `Statement`, what comes behind the labels of a line.
ghost use Rattle.std.specs.Prelude.{◌≡◌, ◌≤◌, length};
ghost use Rattle.warning_model.specs.Named.{name_of_line, operands_of, is_instruction, leaves, gets};
ghost use Rattle.placed_tokens.specs.Tokens.{placed_left};

use placed_tokens::{behind_labels, next_token};
use xs_instructions::same_name;

/// A statement: its name, which is empty where there is none, and the place behind it.
#[derive(Clone, Copy)]
pub(crate) struct Statement<'a> {
    pub(crate) name: &'a [u8],
    pub(crate) end: usize,
}

/// The statement of a line.
pub(crate) fn statement_of(line: &[u8]) -> Statement<'_>
    ensures name { result.name.now ≡ name_of_line line.now }
    ensures operands { placed_left line.now result.end ≡ operands_of line.now }
    ensures within { result.end ≤ length line.now }
{
    let behind = behind_labels(line);
    match next_token(line, behind) {
        None => Statement {
            name: b"",
            end: behind,
        },
        Some(token) => Statement {
            name: token.bytes,
            end: token.end,
        },
    }
}

/// Whether a statement with this name is an instruction, in a source that is accepted: a directive begins with a dot.
pub(crate) fn is_instruction(name: &[u8]) -> bool
    ensures { result ≡ is_instruction name.now }
{
    match name {
        [] => false,
        [b, ..] => *b != b'.',
    }
}

/// Whether a thread does not go on with the next instruction behind one with this name.
pub(crate) fn leaves(name: &[u8]) -> bool
    ensures { result ≡ leaves name.now }
{
    same_name(b"bu", name)
        || same_name(b"bru", name)
        || same_name(b"bau", name)
        || same_name(b"retsp", name)
        || same_name(b"kret", name)
        || same_name(b"freet", name)
        || same_name(b"waiteu", name)
        || same_name(b"ssync", name)
}

/// Whether an instruction with this name gets a resource into the register behind its name.
pub(crate) fn gets(name: &[u8]) -> bool
    ensures { result ≡ gets name.now }
{
    same_name(b"getr", name) || same_name(b"getst", name)
}
