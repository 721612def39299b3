//! `Starts`, for which nodes threads are asked for.

/// For which nodes of a plan the start of a thread is tried.
pub trait Starts {
    /// Whether it is tried for the node at a position. Where it is not, the node is run as where the start was refused.
    fn tries(&self, node: u8) -> bool;
}

/// It is tried for each node.
#[derive(Clone, Copy)]
pub struct EachNode;

impl Starts for EachNode {
    fn tries(&self, _node: u8) -> bool {
        true
    }
}
