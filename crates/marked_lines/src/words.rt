//! Pieces of what is written: as bytes of texts, which are proved sooner than long literals of bytes.
ghost use Rattle.std.specs.Prelude.{◌≡◌, ◌<◌, [], codes, get_or};
ghost use Rattle.xs_instructions.specs.Words.{fixed_text, register_names};
ghost use Rattle.explain_model.specs.Wants.{ports_text};

pub(crate) fn any_register() -> &'static [u8]
    ensures { result.now ≡ codes "r0 to r11, cp, dp, sp or lr" }
{
    "r0 to r11, cp, dp, sp or lr".as_bytes()
}

pub(crate) fn width() -> &'static [u8]
    ensures { result.now ≡ codes "a number of bits, 1 to 8, 16, 24 or 32" }
{
    "a number of bits, 1 to 8, 16, 24 or 32".as_bytes()
}

pub(crate) fn short() -> &'static [u8]
    ensures { result.now ≡ codes "a number, 0 to 65535" }
{
    "a number, 0 to 65535".as_bytes()
}

pub(crate) fn first_instruction() -> &'static [u8]
    ensures { result.now ≡ codes "the first instruction" }
{
    "the first instruction".as_bytes()
}

pub(crate) fn first_of_data() -> &'static [u8]
    ensures { result.now ≡ codes "the first byte of .data" }
{
    "the first byte of .data".as_bytes()
}

pub(crate) fn first_of_constants() -> &'static [u8]
    ensures { result.now ≡ codes "the first byte of .cp" }
{
    "the first byte of .cp".as_bytes()
}

pub(crate) fn byte_value() -> &'static [u8]
    ensures { result.now ≡ codes "a number, -128 to 255" }
{
    "a number, -128 to 255".as_bytes()
}

pub(crate) fn short_value() -> &'static [u8]
    ensures { result.now ≡ codes "a number, -32768 to 65535" }
{
    "a number, -32768 to 65535".as_bytes()
}

pub(crate) fn word_value() -> &'static [u8]
    ensures { result.now ≡ codes "a number, -2147483648 to 4294967295; a label" }
{
    "a number, -2147483648 to 4294967295; a label".as_bytes()
}

pub(crate) fn text_statement() -> &'static [u8]
    ensures { result.now ≡ codes "an instruction; `.text`; `.globl`; `.align`; `.data`; `.cp`; a label with a colon behind it" }
{
    "an instruction; `.text`; `.globl`; `.align`; `.data`; `.cp`; a label with a colon behind it".as_bytes()
}

pub(crate) fn data_statement() -> &'static [u8]
    ensures { result.now ≡ codes "`.word`; `.short`; `.byte`; `.space`; `.align`; `.cp`; a label with a colon behind it" }
{
    "`.word`; `.short`; `.byte`; `.space`; `.align`; `.cp`; a label with a colon behind it".as_bytes()
}

pub(crate) fn constant_statement() -> &'static [u8]
    ensures { result.now ≡ codes "`.word`; `.short`; `.byte`; `.space`; `.align`; a label with a colon behind it" }
{
    "`.word`; `.short`; `.byte`; `.space`; `.align`; a label with a colon behind it".as_bytes()
}

pub(crate) fn offset() -> &'static [u8]
    ensures { result.now ≡ codes "a number, 0 to 65535; a label that stands 0 to 65535 whole words behind " }
{
    "a number, 0 to 65535; a label that stands 0 to 65535 whole words behind ".as_bytes()
}

pub(crate) fn comma_or_end() -> &'static [u8]
    ensures { result.now ≡ codes "`,`; the end of the line" }
{
    "`,`; the end of the line".as_bytes()
}

pub(crate) fn line_end() -> &'static [u8]
    ensures { result.now ≡ codes "the end of the line" }
{
    "the end of the line".as_bytes()
}

pub(crate) fn new_label() -> &'static [u8]
    ensures { result.now ≡ codes "a name that is no label yet" }
{
    "a name that is no label yet".as_bytes()
}

pub(crate) fn free_name() -> &'static [u8]
    ensures { result.now ≡ codes "a name that the language does not keep" }
{
    "a name that the language does not keep".as_bytes()
}

pub(crate) fn allowed_byte() -> &'static [u8]
    ensures { result.now ≡ codes "tab; the characters from space to ~" }
{
    "tab; the characters from space to ~".as_bytes()
}

pub(crate) fn link_end() -> &'static [u8]
    ensures { result.now ≡ codes "N:E with N 0 to 99 and E 0 to 7" }
{
    "N:E with N 0 to 99 and E 0 to 7".as_bytes()
}

pub(crate) fn step_end() -> &'static [u8]
    ensures { result.now ≡ codes "N:E with N 0 to 99 and E a number" }
{
    "N:E with N 0 to 99 and E a number".as_bytes()
}

pub(crate) fn wire_pin() -> &'static [u8]
    ensures { result.now ≡ codes "N:P with N 0 to 99 and P one of " }
{
    "N:P with N 0 to 99 and P one of ".as_bytes()
}

pub(crate) fn script_pin() -> &'static [u8]
    ensures { result.now ≡ codes "N:P with N a number and P one of " }
{
    "N:P with N a number and P one of ".as_bytes()
}

pub(crate) fn ports() -> &'static [u8]
    ensures { result.now ≡ ports_text }
{
    "1A to 1P, 4A to 4F, 8A to 8D, 16A, 16B or 32A".as_bytes()
}

pub(crate) fn accepted_here() -> &'static [u8]
    ensures { result.now ≡ codes "accepted here: " }
{
    "accepted here: ".as_bytes()
}

pub(crate) fn may_not_stand() -> &'static [u8]
    ensures { result.now ≡ codes " may not stand in a text, nor in a comment\n" }
{
    " may not stand in a text, nor in a comment\n".as_bytes()
}

pub(crate) fn near_none() -> &'static [u8]
    ensures { result.now ≡ codes "; near: none\n" }
{
    "; near: none\n".as_bytes()
}

pub(crate) fn one_edit() -> &'static [u8]
    ensures { result.now ≡ codes " (one edit away)" }
{
    " (one edit away)".as_bytes()
}

pub(crate) fn case_counts() -> &'static [u8]
    ensures { result.now ≡ codes " (case counts)" }
{
    " (case counts)".as_bytes()
}

pub(crate) fn begins_alike() -> &'static [u8]
    ensures { result.now ≡ codes " (begins alike)" }
{
    " (begins alike)".as_bytes()
}

/// The name of a register by its number: 0 to 11 for r0 to r11, then cp, dp, sp and lr; none of any other number.
pub(crate) fn register_name(number: u8) -> &'static [u8]
    ensures { result.now ≡ get_or register_names number [] }
{
    match number {
        0 => b"r0",
        1 => b"r1",
        2 => b"r2",
        3 => b"r3",
        4 => b"r4",
        5 => b"r5",
        6 => b"r6",
        7 => b"r7",
        8 => b"r8",
        9 => b"r9",
        10 => b"r10",
        11 => b"r11",
        12 => b"cp",
        13 => b"dp",
        14 => b"sp",
        15 => b"lr",
        _ => b"",
    }
}

/// A fixed word or mark by its number, none of any other number.
pub(crate) fn fixed_text(number: u8) -> &'static [u8]
    ensures { result.now ≡ fixed_text number }
{
    match number {
        0 => b"res",
        1 => b"t",
        2 => b"pc",
        3 => b"kep",
        4 => b"ksp",
        5 => b"ed",
        6 => b"et",
        7 => b"id",
        8 => b"spc",
        9 => b"ssr",
        10 => b"sed",
        11 => b",",
        12 => b":",
        13 => b"[",
        14 => b"]",
        15 => b"-",
        _ => b"",
    }
}
