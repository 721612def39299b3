//! The numbers of the traps, by the names that the architecture gives them. See docs/MACHINE.md.

/// No code stands at the thread's pc.
pub const ILLEGAL_PC: u32 = 2;

/// An identifier that names nothing of the row's kinds that is in use on the node, or what its resource refuses: for example
/// a missing destination, another token than the one that is wanted, a mode of another kind.
pub const ILLEGAL_RESOURCE: u32 = 4;

/// A load or a store at an address outside the memory, or at no multiple of its size.
pub const LOAD_STORE: u32 = 5;

/// A division by 0, or one whose result no word holds.
pub const ARITHMETIC: u32 = 7;

/// A call of the exception handler by the program.
pub const ECALL: u32 = 8;

/// The thread would wait where another one waits.
pub const RESOURCE_DEPENDENCY: u32 = 9;

/// A kernel call by the program.
pub const KERNEL_CALL: u32 = 15;
