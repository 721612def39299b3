//! `ChanState`, what a snapshot keeps of a channel end.

use arrayvec::ArrayVec;
use xs_base::Token;

/// What a snapshot keeps of a channel end. See docs/SNAPSHOTS.md.
#[derive(Default, Drop)]
pub struct ChanState {
    /// Whether it is in use.
    pub used: bool,
    /// The network that its packets take, 0 to 3.
    pub net: u8,
    /// The identifier of the channel end that it sends to, whose low byte is 2, or none.
    pub dest: Option<u32>,
    /// The tokens that wait to leave, at most 8, the oldest first: none where it has no destination.
    pub output: ArrayVec<Token, 8>,
    /// The tokens that arrived and wait for the program, at most 8, the oldest first.
    pub input: ArrayVec<Token, 8>,
}
