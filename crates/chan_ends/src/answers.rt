//! What calls on channel ends answer.

/// A channel end that is not in use, or an identifier that is no channel end's.
#[derive(Clone, Copy, PartialEq, Eq, Debug)]
pub struct Bad;

/// What became of a token for an output buffer.
#[derive(Clone, Copy, PartialEq, Eq, Debug)]
pub enum Put {
    /// It is in the buffer.
    Done,
    /// 8 tokens are there: it has to wait.
    Full,
    /// The channel end is not in use, or has no destination.
    Bad,
}

/// What was taken from an input buffer.
#[derive(Clone, Copy, PartialEq, Eq, Debug)]
pub enum Take {
    /// The word that was taken.
    Got(u32),
    /// Too few tokens are there: it has to wait.
    Wait,
    /// The channel end is not in use, or tokens of another kind are first.
    Bad,
}
