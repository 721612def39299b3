//! The numbers of the modes that `setc` takes. See docs/TIME.md, docs/EVENTS.md and docs/PORTS.md.

/// A port or a clock block is turned off.
pub const OFF: u32 = 0x0;

/// A port or a clock block is turned on.
pub const ON: u32 = 0x8;

/// A timer or a port has no condition.
pub const NO_CONDITION: u32 = 0x1;

/// A timer has the condition that its time is after its value.
pub const AFTER: u32 = 0x9;

/// A port has the condition that its pins show its value.
pub const EQUAL: u32 = 0x11;

/// A port has the condition that its pins show another value.
pub const NOT_EQUAL: u32 = 0x19;

/// A channel end, a timer or a port gives events.
pub const EVENT: u32 = 0x2;

/// A channel end, a timer or a port gives interrupts.
pub const INTERRUPT: u32 = 0xA;

/// A clock block stops.
pub const STOP: u32 = 0x7;

/// A clock block starts.
pub const START: u32 = 0xF;

/// A port's registers are emptied, it has neither time nor condition, and nothing is held.
pub const CLEAR: u32 = 0x17;

/// A port has no buffers.
pub const NO_BUFFERS: u32 = 0x2007;

/// A port has buffers.
pub const BUFFERS: u32 = 0x200F;
