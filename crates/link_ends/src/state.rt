//! `EndState`, what a snapshot keeps of a link end.

use arrayvec::ArrayVec;
use xs_base::Token;

/// What a snapshot keeps of a link end: all 0 where it is not there. See docs/SNAPSHOTS.md.
#[derive(Default, Drop)]
pub struct EndState {
    /// Whether the node has this link end.
    pub present: bool,
    /// The tokens that wait, at most 8, the oldest first.
    pub buffer: ArrayVec<Token, 8>,
    /// How many of the tokens sent are without a credit, 0 to 8: none where it never sent.
    pub window: u8,
    /// The slot in which it sent its last token, or never.
    pub last: Option<u32>,
}
