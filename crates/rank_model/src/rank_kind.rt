//! Why ranks are refused.

/// Why ranks are refused. See docs/ROUTES.md.
#[derive(Clone, Copy, PartialEq, Eq, Debug)]
pub enum RankKind {
    /// K1: a line is no rank line, or the line `system` is missing.
    BadLine,
    /// K2: a rank of a link end that no link has.
    NoSuchLinkEnd,
    /// K3: a second rank of a link end.
    GivenTwice,
    /// K4: a link end of a link has no rank.
    RankMissing,
}
