//! A line of ranks.

/// A rank line: the rank of the directed link that leaves a link end of a node.
#[derive(Clone, Copy, PartialEq, Eq, Debug)]
pub struct RankLine {
    /// Lines count from 1.
    pub line: u32,
    /// The number of the node, 0 to 99.
    pub node: u8,
    /// The link end, 0 to 7.
    pub end: u8,
    pub rank: u16,
}

/// What a line before the system text says.
#[derive(Clone, Copy, PartialEq, Eq, Debug)]
pub enum RankSays {
    /// It has no words.
    Blank,
    /// It is `system`: the system text begins after it.
    System,
    /// It gives a rank.
    Rank(RankLine),
    /// It has no form.
    NoForm,
}
