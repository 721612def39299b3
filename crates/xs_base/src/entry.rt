use crate::token::Token;

/// What leads from node to node carries: a directed link a token, or a credit for one that came the other way; a wire the level that its
/// first port drives from a slot on, 0 where it drives none. See docs/LINKS.md and docs/WIRES.md.
#[derive(Clone, Copy, PartialEq, Eq, Debug)]
pub enum What {
    Token(Token),
    Credit,
    Level(u32),
}

/// What was sent on a directed link or a wire, and in which slot.
#[derive(Clone, Copy, PartialEq, Eq, Debug)]
pub struct Entry {
    pub slot: u32,
    pub what: What,
}
