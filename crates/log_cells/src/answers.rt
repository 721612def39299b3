//! What the calls answer that wait for nobody.
use link_logs::Got;

/// What a publish that waits for nobody came to.
#[derive(Clone, Copy, PartialEq, Eq, Debug)]
pub enum Sent {
    /// All is published.
    Done,
    /// The other end had the turn. Nothing is changed.
    Busy,
    /// Memory was wanting. Nothing is changed.
    Memory,
}

/// What a look that waits for nobody gave.
#[derive(Drop)]
pub enum TryGot {
    /// What the log gave.
    Got(Got),
    /// The other end had the turn. Nothing was looked at.
    Busy,
}
