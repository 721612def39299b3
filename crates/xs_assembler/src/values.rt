ghost use Rattle.std.specs.Prelude.{◌≡◌, ◌+◌, ◌<◌, ◌≤◌, None, Some, length, IfSome, MatchOption, option_map};
ghost use Rattle.source_model.specs.Each.{put_first};
ghost use Rattle.source_model.specs.Values.{width_bytes, greatest_value, greatest_negative, negated, label_value, plain_value, signed_value, values_from, ValueNext, CommaNext, listed_values};
ghost use Rattle.xs_text.specs.Tokens.{tokens_of};
ghost use Rattle.xs_assembler.specs.Parts.{read_amount};
ghost use Rattle.xs_assembler.specs.Values.{left_length, values_left};

use crate::amount::Amount;
use crate::tokens::{ReadToken, first_token};
use source_model::Width;
use xs_instructions::{is_reserved, same_name};
use xs_text::{TokKind, source_number};

// Values of a directive, in the text after its name.
#[derive(Clone, Copy)]
pub struct ValueList<'a> {
    pub width: Width,
    pub count: u64,
    pub text: &'a [u8],
    ghost counted: { option_map length (listed_values width (tokens_of text.now)) ≡ Some count },
}

// The bytes of a value.
pub fn width_bytes(width: Width) -> u64
    ensures value { result ≡ width_bytes width }
    ensures small { result ≤ 4 }
{
    match width {
        Width::Byte => 1,
        Width::Short => 2,
        Width::Word => 4,
    }
}

// The greatest number without a sign.
fn greatest_value(width: Width) -> u32
    ensures { result ≡ greatest_value width }
{
    match width {
        Width::Byte => 255,
        Width::Short => 65_535,
        Width::Word => 4_294_967_295,
    }
}

// The greatest number that may have a sign.
fn greatest_negative(width: Width) -> u32
    ensures { result ≡ greatest_negative width }
{
    match width {
        Width::Byte => 128,
        Width::Short => 32_768,
        Width::Word => 2_147_483_648,
    }
}

// A number below zero, as a word.
fn negated(n: u32) -> u32
    ensures { result ≡ negated n }
{
    n.wrapping_neg()
}

// A value without a sign, or None where the token is none.
fn plain_value<'a>(piece: ReadToken<'a>, width: Width) -> Option<Amount<'a>>
    ensures { option_map read_amount result ≡ plain_value piece.entry.kind width piece.entry.bytes.now }
{
    match piece.kind {
        TokKind::Number => Some(Amount::Known(source_number(piece.bytes, greatest_value(width)))),
        TokKind::Name => label_value(piece.bytes, width),
        TokKind::Mark | TokKind::Stray => None,
    }
}

// A label's address, as `.word` alone may have it.
fn label_value<'a>(name: &'a [u8], width: Width) -> Option<Amount<'a>>
    ensures { option_map read_amount result ≡ label_value width name.now }
{
    match width {
        Width::Word => {
            if is_reserved(name) {
                return None;
            }
            Some(Amount::Address(name))
        }
        Width::Byte | Width::Short => None,
    }
}

// A value after a sign, or None where the token is none.
fn signed_value<'a>(piece: ReadToken<'a>, width: Width) -> Option<Amount<'a>>
    ensures { option_map read_amount result ≡ signed_value piece.entry.kind width piece.entry.bytes.now }
{
    match piece.kind {
        TokKind::Number => {
            let number = source_number(piece.bytes, greatest_negative(width));
            Some(Amount::Known(number.map(negated)))
        }
        TokKind::Name | TokKind::Mark | TokKind::Stray => None,
    }
}

// The value at the front, with a sign or none, and what is left then. None where there is none.
#[tactic(auto, unfolding(source_model::specs::Values::values_from))]
fn first_value(width: Width, list: &[u8]) -> Option<(Amount<'_>, &[u8])>
    ensures value { MatchOption result (values_from ValueNext width (tokens_of list.now) ≡ None) (λ v. values_from ValueNext width (tokens_of list.now) ≡ put_first (Some (read_amount v.0)) (values_from CommaNext width (tokens_of v.1.now))) }
    ensures shorter { IfSome result (λ v. length (tokens_of v.1.now) < length (tokens_of list.now)) }
{
    let Some((first, rest)) = first_token(list) else {
        return None;
    };
    if !same_name(b"-", first.bytes) {
        return match plain_value(first, width) {
            Some(value) => Some((value, rest)),
            None => None,
        };
    }
    let Some((digits, rest)) = first_token(rest) else {
        return None;
    };
    match signed_value(digits, width) {
        Some(value) => Some((value, rest)),
        None => None,
    }
}

// The first value of a list, and the list after its comma, if there is one. None where no value or something else than
// a comma comes.
#[tactic(auto, unfolding(source_model::specs::Values::values_from))]
pub fn next_value(width: Width, list: &[u8]) -> Option<(Amount<'_>, Option<&[u8]>)>
    ensures value { MatchOption result (listed_values width (tokens_of list.now) ≡ None) (λ v. listed_values width (tokens_of list.now) ≡ put_first (Some (read_amount v.0)) (values_left width v.1)) }
    ensures shorter { IfSome result (λ v. left_length v.1 < 1 + length (tokens_of list.now)) }
{
    let Some((value, rest)) = first_value(width, list) else {
        return None;
    };
    match first_token(rest) {
        None => Some((value, None)),
        Some((comma, rest)) if same_name(b",", comma.bytes) => Some((value, Some(rest))),
        Some(_) => None,
    }
}

// How many values a list has: one or more with commas between. None where the shape is another.
pub fn count_values(width: Width, list: &[u8]) -> Option<u64>
    ensures { result ≡ option_map length (listed_values width (tokens_of list.now)) }
{
    let mut count = 0;
    let mut left = Some(list);
    while let Some(text) = left {
        let Some((_, rest)) = next_value(width, text) else {
            return None;
        };
        count += 1;
        left = rest;
    }
    Some(count)
}
