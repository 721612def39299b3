//! What ranks come to.

/// What the ranks of a system come to. See docs/ROUTES.md.
#[derive(Clone, Copy, PartialEq, Eq, Debug)]
pub enum Verdict {
    /// From each node a link leads on towards each other node, in each network, and ranks rise along the way.
    Yes,
    /// From the node with the number `from` no link of network `net` leads on towards the node with the number `to`.
    NoWay { from: u8, to: u8, net: u8 },
    /// What is for the id `dest`, which may be that of no node, may go on from the directed link `first` to the directed link `second`, whose
    /// rank is not above. Directed links are named by number.
    NoRank { first: u32, second: u32, dest: u16 },
}
