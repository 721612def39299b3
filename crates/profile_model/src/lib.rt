//! What `profile` of `xs1_look` writes: definitions, and what it counts. See docs/LOOK.md.
#![tactic(auto)]

/// The characters by which a chart shows that a thread issues.
pub const ISSUES: [u8; 5] = [b'X', b'P', b'T', b'E', b'I'];

/// That by which it shows that a thread issues, and pauses.
pub const PAUSES: [u8; 1] = [b'P'];

/// Those by which it shows that a thread waits: is paused, or at sync.
pub const WAITS: [u8; 9] = [b'i', b'o', b'p', b't', b'l', b's', b'd', b'e', b'm'];

/// All characters by which a chart shows what a thread does, in the order in which they are told.
pub const KINDS: [u8; 19] = [
    b'X', b'P', b'T', b'E', b'I', b'r', b'.', b'i', b'o', b'p', b't', b'l', b's', b'd', b'e', b'm',
    b'u', b'h', b'-',
];
