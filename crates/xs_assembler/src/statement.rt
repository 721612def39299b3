ghost use Rattle.std.specs.Prelude.{◌≡◌, option_and_then, option_copied};
ghost use Rattle.source_model.specs.Statement.{is_nothing, is_lone_name, lone_number, shaped, zeros, aligned, bytes_directive, directive, instruction, not_zero, statement, valued};
ghost use Rattle.xs_text.specs.Numbers.{at_most, source_number_of};
ghost use Rattle.xs_text.specs.Tokens.{tokens_of};
ghost use Rattle.source_model.specs.Operands.{operands_of};
ghost use Rattle.source_model.specs.Values.{listed_values};
ghost use Rattle.xs_assembler.specs.Statements.{says_of, statement_of};

use crate::operands::find_row;
use crate::tokens::first_token;
use crate::values::{ValueList, count_values};
use source_model::{Home, Width};
use xs_instructions::{Row, known, same_name};
use xs_text::{TokKind, source_number};

// What a statement says. It keeps the text of operands and values, not what they are read as: those may be many.
#[derive(Clone, Copy)]
pub enum Says<'a> {
    // Nothing that adds to a section.
    NoEffect,
    // An instruction whose name no row has.
    Unknown,
    Misshapen,
    // A row, and the text after its name.
    Instruction(Row, &'a [u8]),
    Values(ValueList<'a>),
    // So many zero bytes; None is a number out of range, here and below.
    Zeros(Option<u32>),
    // Up to a multiple of the number.
    Align(Option<u32>),
}

// A statement, and where it may stand.
#[derive(Clone, Copy)]
pub struct Statement<'a> {
    pub home: Home,
    pub says: Says<'a>,
}

// Whether no token is left.
fn is_nothing(rest: &[u8]) -> bool
    ensures { result ≡ is_nothing (tokens_of rest.now) }
{
    first_token(rest).is_none()
}

fn is_lone_name(rest: &[u8]) -> bool
    ensures { result ≡ is_lone_name (tokens_of rest.now) }
{
    match first_token(rest) {
        Some((name, rest)) => name.kind == TokKind::Name && is_nothing(rest),
        None => false,
    }
}

// The digits of a number that stands alone.
fn lone_number(rest: &[u8]) -> Option<&[u8]>
    ensures { option_copied result ≡ lone_number (tokens_of rest.now) }
{
    let Some((number, rest)) = first_token(rest) else {
        return None;
    };
    if number.kind == TokKind::Number && is_nothing(rest) {
        Some(number.bytes)
    } else {
        None
    }
}

// A directive without effect, if it has its shape.
fn no_effect<'a>(home: Home, is_shaped: bool) -> Statement<'a>
    ensures { statement_of result ≡ record { home = home; says = shaped is_shaped } }
{
    if is_shaped {
        Statement {
            home,
            says: Says::NoEffect,
        }
    } else {
        Statement {
            home,
            says: Says::Misshapen,
        }
    }
}

// `.space`: at most 65,536.
fn zeros<'a>(rest: &[u8]) -> Says<'a>
    ensures { says_of result ≡ zeros (lone_number (tokens_of rest.now)) }
{
    match lone_number(rest) {
        Some(digits) => Says::Zeros(source_number(digits, 65_536)),
        None => Says::Misshapen,
    }
}

// `.align`: 1 to 1,024.
fn aligned<'a>(rest: &[u8]) -> Says<'a>
    ensures { says_of result ≡ aligned (lone_number (tokens_of rest.now)) }
{
    match lone_number(rest) {
        Some(digits) => Says::Align(unit(digits)),
        None => Says::Misshapen,
    }
}

fn unit(digits: &[u8]) -> Option<u32>
    ensures { result ≡ option_and_then not_zero (at_most 1024 (source_number_of digits.now)) }
{
    match source_number(digits, 1_024) {
        Some(0) => None,
        number => number,
    }
}

// The values of a directive.
fn valued(width: Width, text: &[u8]) -> Says<'_>
    ensures { says_of result ≡ valued width (listed_values width (tokens_of text.now)) }
{
    match count_values(width, text) {
        Some(count) => Says::Values(ValueList { width, count, text }),
        None => Says::Misshapen,
    }
}

// The statement of a directive of bytes, and of one that there is not.
fn read_bytes_directive<'a>(name: &[u8], rest: &'a [u8]) -> Statement<'a>
    ensures { statement_of result ≡ bytes_directive name.now (tokens_of rest.now) }
{
    let home = Home::InBytes;
    if same_name(b".word", name) {
        let says = valued(Width::Word, rest);
        Statement { home, says }
    } else if same_name(b".short", name) {
        let says = valued(Width::Short, rest);
        Statement { home, says }
    } else if same_name(b".byte", name) {
        let says = valued(Width::Byte, rest);
        Statement { home, says }
    } else if same_name(b".space", name) {
        let says = zeros(rest);
        Statement { home, says }
    } else {
        Statement {
            home: Home::Nowhere,
            says: Says::NoEffect,
        }
    }
}

// A directive's statement.
fn read_directive<'a>(name: &[u8], rest: &'a [u8]) -> Statement<'a>
    ensures { statement_of result ≡ directive name.now (tokens_of rest.now) }
{
    if same_name(b".text", name) {
        no_effect(Home::InText, is_nothing(rest))
    } else if same_name(b".globl", name) {
        no_effect(Home::InText, is_lone_name(rest))
    } else if same_name(b".align", name) {
        let says = aligned(rest);
        Statement {
            home: Home::Anywhere,
            says,
        }
    } else if same_name(b".data", name) {
        no_effect(Home::BeginsData, is_nothing(rest))
    } else if same_name(b".cp", name) {
        no_effect(Home::BeginsConstants, is_nothing(rest))
    } else {
        read_bytes_directive(name, rest)
    }
}

// An instruction by its name and the text after it. Most names are known, so that is asked only where no row is found.
fn read_instruction<'a>(name: &[u8], rest: &'a [u8]) -> Says<'a>
    ensures { says_of result ≡ instruction name.now (operands_of (tokens_of rest.now)) }
{
    match find_row(name, rest) {
        Some(row) => Says::Instruction(row, rest),
        None if known(name) => Says::Misshapen,
        None => Says::Unknown,
    }
}

// What comes after the labels.
pub fn read_statement(text: &[u8]) -> Statement<'_>
    ensures { statement_of result ≡ statement (tokens_of text.now) }
{
    let Some((first, rest)) = first_token(text) else {
        return Statement {
            home: Home::Anywhere,
            says: Says::NoEffect,
        };
    };
    if first.kind != TokKind::Name {
        return Statement {
            home: Home::Anywhere,
            says: Says::Misshapen,
        };
    }
    if first.bytes.first() == Some(&b'.') {
        return read_directive(first.bytes, rest);
    }
    Statement {
        home: Home::InText,
        says: read_instruction(first.bytes, rest),
    }
}
