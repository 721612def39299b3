ghost use Rattle.std.specs.Prelude.{◌≡◌, ◌+◌, ◌<◌, ◌≤◌, ◌↔◌, ◌∷◌, [], length, take, drop, IsNone, IfSome, IsTrue};
ghost use Rattle.std.specs.List.{slice_range, prefix_len, list_all};
ghost use Rattle.std.specs.Char.{is_ascii_digit, is_ascii_hexdigit, is_ascii_alphanumeric};
ghost use Rattle.xs_text.specs.Bytes.{all_blank, is_blank, is_name_byte};
ghost use Rattle.xs_text.specs.Tokens.{tokens_of, token_of, token_in, tail_length, begins_comment, kind_of, is_name, is_number, is_run, is_based, is_binary_digit, is_mark, is_mark_byte, HasForm, BeginsAsName};

use crate::byte_tests::{is_blank, is_name_byte, is_name_start};
use crate::line_reader::Line;

/// What a token is.
#[derive(Clone, Copy, PartialEq, Eq, Debug)]
pub enum TokKind {
    /// A letter, `.` or `_`, and then letters, digits, `.`, `_` and `$`.
    Name,
    /// Decimal digits, or `0x` and hex digits, or `0b` and binary digits.
    Number,
    /// One of the bytes `,`, `:`, `[`, `]` and `-`.
    Mark,
    /// A malformed number as `12ab`, or one byte that begins no other token.
    Stray,
}

/// A token. Its bytes are `text[from..to]`.
#[derive(Clone, Copy)]
pub struct Tok {
    pub kind: TokKind,
    pub from: usize,
    pub to: usize,
}

/// Whether the bytes as a whole are a name.
pub fn is_name(bytes: &[u8]) -> bool
    ensures { result ≡ is_name bytes.now }
{
    !bytes.is_empty() && is_name_start(bytes[0]) && all_name_bytes(&bytes[1..])
}

/// Whether the bytes as a whole are a number: decimal digits, or `0x` and one or more hex digits, or
/// `0b` and one or more binary digits.
pub fn is_number(bytes: &[u8]) -> bool
    ensures { result ≡ is_number bytes.now }
{
    is_decimal(bytes) || is_hex(bytes) || is_binary(bytes)
}

fn all_name_bytes(bytes: &[u8]) -> bool
    ensures { result ≡ list_all is_name_byte bytes.now }
{
    bytes.iter().all(|b| is_name_byte(*b))
}

fn all_digits(bytes: &[u8]) -> bool
    ensures { result ≡ list_all is_ascii_digit bytes.now }
{
    bytes.iter().all(|b| b.is_ascii_digit())
}

fn all_hex_digits(bytes: &[u8]) -> bool
    ensures { result ≡ list_all is_ascii_hexdigit bytes.now }
{
    bytes.iter().all(|b| b.is_ascii_hexdigit())
}

fn all_binary_digits(bytes: &[u8]) -> bool
    ensures { result ≡ list_all is_binary_digit bytes.now }
{
    bytes.iter().all(|b| *b == b'0' || *b == b'1')
}

/// Whether the bytes are one or more decimal digits and nothing else.
pub fn is_decimal(bytes: &[u8]) -> bool
    ensures { result ≡ is_run is_ascii_digit bytes.now }
{
    !bytes.is_empty() && all_digits(bytes)
}

pub fn is_hex(bytes: &[u8]) -> bool
    ensures { result ≡ is_based 120 is_ascii_hexdigit bytes.now }
{
    bytes.len() > 2 && bytes[0] == b'0' && bytes[1] == b'x' && all_hex_digits(&bytes[2..])
}

pub fn is_binary(bytes: &[u8]) -> bool
    ensures { result ≡ is_based 98 is_binary_digit bytes.now }
{
    bytes.len() > 2 && bytes[0] == b'0' && bytes[1] == b'b' && all_binary_digits(&bytes[2..])
}

// Whether the byte is `,`, `:`, `[`, `]` or `-`.
fn is_mark_byte(b: u8) -> bool
    ensures { result ≡ is_mark_byte b }
{
    b == b',' || b == b':' || b == b'[' || b == b']' || b == b'-'
}

fn is_mark(bytes: &[u8]) -> bool
    ensures { result ≡ is_mark bytes.now }
{
    bytes.len() == 1 && is_mark_byte(bytes[0])
}

// What the bytes of one token make. The first byte of a name tells it, so no other is read again.
fn kind_of(bytes: &[u8]) -> TokKind
    requires some { 0 < length bytes.now }
    requires whole { BeginsAsName bytes.now → IsTrue (is_name bytes.now) }
    ensures { result ≡ kind_of bytes.now }
{
    if is_name_start(bytes[0]) {
        TokKind::Name
    } else if is_number(bytes) {
        TokKind::Number
    } else if is_mark(bytes) {
        TokKind::Mark
    } else {
        TokKind::Stray
    }
}

// How many bytes the blanks at the front are.
pub fn blank_length(bytes: &[u8]) -> usize
    ensures length { result ≡ prefix_len is_blank bytes.now }
    ensures within { result ≤ length bytes.now }
{
    bytes.iter().take_while(|b| is_blank(**b)).count()
}

// How many bytes at the front may go on a name.
fn name_length(bytes: &[u8]) -> usize
    ensures { result ≡ prefix_len is_name_byte bytes.now }
{
    bytes.iter().take_while(|b| is_name_byte(**b)).count()
}

// How many bytes at the front may go on a number: letters and digits.
fn digits_length(bytes: &[u8]) -> usize
    ensures { result ≡ prefix_len is_ascii_alphanumeric bytes.now }
{
    bytes
        .iter()
        .take_while(|b| b.is_ascii_alphanumeric())
        .count()
}

// How many bytes the token has that begins with `first`, past that one.
fn tail_length(first: u8, rest: &[u8]) -> usize
    ensures { result ≡ tail_length first rest.now }
{
    if is_name_start(first) {
        name_length(rest)
    } else if first.is_ascii_digit() {
        digits_length(rest)
    } else {
        0
    }
}

pub fn begins_comment(first: u8, rest: &[u8]) -> bool
    ensures { result ≡ begins_comment first rest.now }
{
    first == b'#' || (first == b'/' && !rest.is_empty() && rest[0] == b'/')
}

// How many bytes the token has that stands first, with no blank before it: none where the bytes end
// or a comment begins.
fn token_length(bytes: &[u8]) -> usize
    requires { prefix_len is_blank bytes.now ≡ 0 }
    ensures within { result ≤ length bytes.now }
    ensures none { result ≡ 0 → tokens_of bytes.now ≡ [] }
    ensures whole { BeginsAsName bytes.now → IsTrue (is_name (take result bytes.now)) }
    ensures some { 0 < result → tokens_of bytes.now ≡ token_of (take result bytes.now) ∷ tokens_of (drop result bytes.now) }
{
    if bytes.is_empty() {
        return 0;
    }
    let rest = &bytes[1..];
    if begins_comment(bytes[0], rest) {
        return 0;
    }
    1 + tail_length(bytes[0], rest)
}

/// The first token of the line's bytes from `at` on, or None where only blanks and a comment are left.
pub fn next_tok(text: &[u8], line: Line, at: usize) -> Option<Tok>
    requires in_text { line.to ≤ length text.now }
    requires from { line.from ≤ at }
    requires to { at ≤ line.to }

    ensures none { IsNone result ↔ (tokens_of (slice_range text.now at line.to) ≡ []) }
    ensures token { IfSome result (λ tok. tokens_of (slice_range text.now at line.to) ≡ token_in text.now tok ∷ tokens_of (slice_range text.now tok.to line.to)) }
    ensures well_formed { IfSome result (λ tok. HasForm (token_in text.now tok)) }
    ensures begins { IfSome result (λ tok. at ≤ tok.from) }
    ensures past_blanks { IfSome result (λ tok. IsTrue (all_blank (slice_range text.now at tok.from))) }
    ensures not_empty { IfSome result (λ tok. tok.from < tok.to) }
    ensures in_line { IfSome result (λ tok. tok.to ≤ line.to) }
{
    let left = &text[at..line.to];
    let blanks = blank_length(left);
    let word = &left[blanks..];
    let length = token_length(word);
    if length == 0 {
        return None;
    }
    let from = at + blanks;
    Some(Tok {
        kind: kind_of(&word[..length]),
        from,
        to: from + length,
    })
}
