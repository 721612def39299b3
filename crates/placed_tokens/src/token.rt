//! `Token`, a token of a line with its place.
ghost use Rattle.std.specs.Prelude.{◌≡◌, ◌+◌, length};

use xs_text::TokKind;

/// A token, the place of its first byte in its line, and the place behind its last.
#[derive(Clone, Copy)]
pub struct Token<'a> {
    pub at: usize,
    pub end: usize,
    pub kind: TokKind,
    pub bytes: &'a [u8],
    ghost spans: { end ≡ at + length bytes.now },
}
