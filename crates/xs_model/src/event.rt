use xs_base::Token;

/// What happens on a node and is told in the trace.
#[derive(Clone, Copy)]
pub enum Happen {
    /// A port drives its pins with a new value.
    Drive {
        port: u8,
        value: u32,
    },
    /// A port lets go of its pins.
    Float {
        port: u8,
    },
    /// A token is put into a channel end's input buffer.
    Chan {
        chan: u8,
        token: Token,
    },
    /// A packet has no way to its destination, which is the resource identifier.
    Lost {
        id: u32,
    },
    /// A thread traps: the trap's number, the value that spc took, and the trap's data.
    Trap {
        thread: u8,
        et: u32,
        pc: u32,
        ed: u32,
    },
    /// A thread halts, since no code stands where its trap leads.
    Halt {
        thread: u8,
    },
}

/// What happened, and in which slot.
#[derive(Clone, Copy)]
pub struct Event {
    pub slot: u32,
    pub what: Happen,
}

impl Default for Event {
    /// What stands in a place that holds no event.
    fn default() -> Event {
        Event {
            slot: 0,
            what: Happen::Halt { thread: 0 },
        }
    }
}
