//! Why a wave text is refused.

/// Why a wave text is refused. See docs/WAVES.md.
#[derive(Clone, Copy, PartialEq, Eq, Debug)]
pub enum WaveKind {
    /// V1: no wave text goes on with this line, or the text ends before it.
    BadLine,
    /// V2: the wave has no such node.
    NoSuchNode,
}
