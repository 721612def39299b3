//! `Way`, how the nodes of a system were run.

/// How the nodes of a system were run. What they became is the same by each way. See docs/LOOKAHEAD.md.
#[derive(Clone, Copy, Debug, PartialEq, Eq)]
pub enum Way {
    /// Each node on a worker of its own, as far ahead as what it has seen of its links and wires lets it.
    Workers,
    /// All nodes together, over slots in which nothing happens at any of them at once.
    Serial,
    /// The nodes in turn, round by round, each as far ahead as what it has seen of its links and wires lets it.
    Rounds,
}
