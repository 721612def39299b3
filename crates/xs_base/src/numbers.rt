//! The machine's numbers, each in one place: sizes, counts, kinds and rooms. Definitions import them. See
//! docs/MACHINE.md.

/// The address of the memory's first byte.
pub const MEMORY_START: u32 = 0x0001_0000;

/// How many bytes the memory has.
pub const MEMORY_BYTES: u32 = 65_536;

/// The address of the first instruction.
pub const CODE_START: u32 = 0x0004_0000;

/// How many threads a core has.
pub const THREADS: u8 = 8;

/// How many channel ends a core has.
pub const CHAN_ENDS: u8 = 32;

/// How many timers a core has.
pub const TIMERS: u8 = 10;

/// How many clock blocks a core has.
pub const CLOCK_BLOCKS: u8 = 6;

/// How many synchronisers a core has.
pub const SYNCHRONISERS: u8 = 7;

/// How many locks a core has.
pub const LOCKS: u8 = 4;

/// How many link ends a node may have.
pub const LINK_ENDS: u8 = 8;

/// How many inputs a switch has: one for each link end, then one for each channel end.
pub const INPUTS: u8 = 40;

/// How many ports a core has.
pub const PORTS: u8 = 29;

/// How many tokens fit into each buffer of a channel end, and into a link end's buffer.
pub const BUFFER_TOKENS: u8 = 8;

/// How many of the tokens that a link end sent may be without a credit.
pub const WINDOW_TOKENS: u32 = 8;

/// How many header bytes go out before a packet's tokens.
pub const HEADER_BYTES: u8 = 3;

/// The control token that ends a packet.
pub const END: u8 = 1;

/// The control token that ends a packet and is not delivered.
pub const PAUSE: u8 = 2;

/// The kind of timers among the resources, as `getr` and identifiers name it; the other kinds likewise.
pub const TIMER_KIND: u8 = 1;

pub const CHAN_END_KIND: u8 = 2;

pub const SYNCHRONISER_KIND: u8 = 3;

pub const THREAD_KIND: u8 = 4;

pub const LOCK_KIND: u8 = 5;

pub const CLOCK_BLOCK_KIND: u8 = 6;

/// How many events the switch may make in a slot: one for each input.
pub const SWITCH_EVENTS: usize = 40;

/// How many events an issue may make.
pub const ISSUE_EVENTS: usize = 2;

/// For how many events of one slot of a node there is room.
pub const EVENT_ROOM: usize = 112;

/// Of these, how many may stand there before the switch makes its own.
pub const EVENTS_BEFORE_SWITCH: usize = 72;
