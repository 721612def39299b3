//! What `chart` of `xs1_look` writes: definitions, and what a thread does in a slot. See docs/LOOK.md.
#![tactic(auto)]

/// How many slots a block of a chart has at most.
pub const BLOCK_SLOTS: u32 = 100;

/// How many slots are charted at most.
pub const MOST_CHARTED: u32 = 10_000;

/// How many columns of a line say what it shows.
pub const NAME_COLUMNS: u32 = 16;

/// How many rows a node has: its threads, its link ends, and its channel ends, as those that receive and as those that send.
pub const ROWS: u32 = 80;

/// What a thread does in a slot. See docs/LOOK.md.
#[derive(Clone, Copy)]
pub enum Mark {
    /// It issues, and the instruction is done.
    Done,
    /// It issues, and pauses.
    Pauses,
    /// It issues, and traps.
    Traps,
    /// It takes an event.
    TakesEvent,
    /// It takes an interrupt.
    TakesInterrupt,
    /// It may issue, and another thread is picked.
    Ready,
    /// It goes, and its last issue is fewer than four slots back.
    Between,
    /// It is paused for tokens at a channel end.
    Tokens,
    /// It is paused for room at a channel end.
    Room,
    /// It is paused at a port.
    Port,
    /// It is paused for a timer.
    Timer,
    /// It is paused for a lock.
    Lock,
    /// It is paused for the slaves of a synchroniser.
    Slaves,
    /// It is paused for the divider.
    Divider,
    /// It waits for an event or an interrupt, and nothing else.
    Choice,
    /// It is at sync.
    AtSync,
    Unstarted,
    Halted,
    Free,
}
