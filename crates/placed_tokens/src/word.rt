//! `Word`, a word of a line with its place.
ghost use Rattle.std.specs.Prelude.{◌≡◌, ◌+◌, length};

/// A word, the place of its first byte in its line, counted from 0, and the place behind its last. See docs/LOOK.md.
#[derive(Clone, Copy)]
pub struct Word<'a> {
    pub at: usize,
    pub end: usize,
    pub bytes: &'a [u8],
    ghost spans: { end ≡ at + length bytes.now },
}
