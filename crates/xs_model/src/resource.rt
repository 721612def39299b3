/// What of a core an identifier names, its number within its kind. See docs/THREADS.md, docs/LINKS.md, docs/TIME.md and
/// docs/PORTS.md.
#[derive(Clone, Copy)]
pub enum Resource {
    /// A port, 0 to 28.
    Port { port: u8 },
    /// A timer, 0 to 9.
    Timer { timer: u8 },
    /// A channel end, 0 to 31.
    Chan { chan: u8 },
    /// A synchroniser, 0 to 6.
    Sync { sync: u8 },
    /// A thread, 0 to 7.
    Thread { thread: u8 },
    /// A lock, 0 to 3.
    Lock { lock: u8 },
    /// A clock block, 0 to 5.
    Clock { clock: u8 },
}

/// Of what a core has, what may give events and interrupts, by its number. See docs/EVENTS.md.
#[derive(Clone, Copy)]
pub enum Res {
    /// A channel end, 0 to 31.
    Chan(u8),
    /// A timer, 0 to 9.
    Timer(u8),
    /// A port, 0 to 28.
    Port(u8),
}
