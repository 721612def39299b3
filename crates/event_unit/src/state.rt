//! What a snapshot keeps of what a resource gives.

/// What a snapshot keeps of what a channel end, a timer or a port gives where it is ready: the vector, the address of its handler;
/// the environment, which the handler finds in ed; whether it gives interrupts, or else events; and the thread that enabled it, 0
/// to 7, if one did. See docs/SNAPSHOTS.md.
#[derive(Clone, Copy)]
pub struct EnableState {
    pub vector: u32,
    pub env: u32,
    pub interrupt: bool,
    pub by: Option<u8>,
}
