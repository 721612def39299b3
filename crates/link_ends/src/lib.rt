//! Link ends: the tokens that wait at one, and whether it may send. A link end keeps counts where the definition
//! counts lists of slots. See docs/LINKS.md.
#![tactic(auto)]

ghost use Rattle.std.specs.Prelude.{◌≡◌, ◌-◌, ◌+◌, ◌<◌, ◌≤◌, ◌↔◌, ℕ, true, Some, None, [], ◌∷◌, ◌++◌, length, drop, All, MatchOption};
ghost use Rattle.xs_base.specs.declared.numbers.TheConstants.{BUFFER_TOKENS};
ghost use Rattle.xs_model.specs.Record.{LinkRec};
ghost use Rattle.net_model.specs.Links.{fresh_link, token_arrives, credit_arrives, may_send, gap_is_over};
ghost use Rattle.link_ends.specs.Counts.{CountsOf, fresh_counts, can_send};
ghost use Rattle.link_ends.specs.States.{end_state, counts_of, end_of, IsEndState};

mod state;

use arrayvec::ArrayVec;
pub use state::EndState;
use std::marker::Model;
use xs_base::Token;
use xs_base::numbers::WINDOW_TOKENS;

/// One of a node's link ends: the tokens that wait in its buffer, at most 8, and what it needs to know of those that
/// it sent. Contracts see it as an `EndCounts`, and say which link records it stands for. See docs/LINKS.md.
#[derive(Drop)]
pub struct LinkEnd {
    // In slots, from one token sent to the next.
    gap: u32,
    buffer: ArrayVec<Token, 8>,
    // How many of the tokens sent are without a credit.
    outstanding: u32,
    last_sent: Option<u32>,
}

impl Model for LinkEnd {
    ghost use Rattle.std.specs.Prelude.{◌≡◌, ◌≤◌, None};
    ghost use Rattle.xs_base.specs.declared.numbers.TheConstants.{BUFFER_TOKENS, WINDOW_TOKENS};
    ghost use Rattle.arrayvec.specs.ArrayVec.{array_vec_len};
    ghost use Rattle.link_ends.specs.Counts.{EndCounts};

    ghost Value = { EndCounts };

    ghost view = { λ end. record { gap = end.gap; buffer = end.buffer.items; outstanding = end.outstanding; last_sent = end.last_sent } };

    ghost invariant = { λ end. (array_vec_len end.buffer ≤ BUFFER_TOKENS) × (end.outstanding ≤ WINDOW_TOKENS) × (1 ≤ end.gap)
        × (end.last_sent ≡ None → end.outstanding ≡ 0) };
}

impl LinkEnd {
    /// A link end that nothing came to and that never sent. `gap`, at least 1, is how many slots after a token the
    /// next one may be sent. See docs/LINKS.md.
    pub fn new(gap: u32) -> LinkEnd
        requires { 1 ≤ gap }
        ensures empty { result ≡ fresh_counts gap }
        ensures stands { CountsOf result fresh_link }
    {
        LinkEnd {
            gap,
            buffer: ArrayVec::new(),
            outstanding: 0,
            last_sent: None,
        }
    }

    /// A token arrives: it is put into the buffer, and dropped where 8 wait there. See docs/LINKS.md.
    pub fn arrive(&mut self, t: Token)
        ensures kept { length self.old.buffer < BUFFER_TOKENS → self.new ≡ record self.old { buffer = self.old.buffer ++ t ∷ [] } }
        ensures dropped { length self.old.buffer ≡ BUFFER_TOKENS → self.new ≡ self.old }
        ensures fits { length self.new.buffer ≤ BUFFER_TOKENS }
        ensures gap { self.new.gap ≡ self.old.gap }
        ensures last_sent { self.new.last_sent ≡ self.old.last_sent }
        ensures stands { (link : LinkRec) → CountsOf self.old link → CountsOf self.new (token_arrives (Some t) link) }
    {
        if !self.buffer.is_full() {
            self.buffer.push(t);
        }
    }

    /// A credit arrives: it is counted, and dropped where each token sent has its credit. See docs/LINKS.md.
    pub fn credit(&mut self)
        ensures counted { self.new ≡ record self.old { outstanding = self.old.outstanding - 1 } }
        ensures stands { (link : LinkRec) (slot : ℕ) → CountsOf self.old link → CountsOf self.new (credit_arrives slot true link) }
    {
        if self.outstanding > 0 {
            self.outstanding -= 1;
        }
    }

    /// Whether a token may be sent in a slot: fewer than 8 tokens sent are without a credit, and the last was sent a
    /// gap ago or longer, or never. It agrees with the link record where no credit was counted after the slot. See
    /// docs/LINKS.md.
    pub fn can_send(&self, slot: u32) -> bool
        ensures value { result ≡ can_send self.now slot }
        ensures stands { (link : LinkRec) → CountsOf self.now link → All (λ s. s ≤ slot) link.credited → result ≡ may_send self.now.gap slot link }
    {
        self.outstanding < WINDOW_TOKENS && gap_is_over(self.gap, slot, self.last_sent)
    }

    /// Notes that a token is sent in a slot in which it may be, as `can_send` says. See docs/LINKS.md.
    pub fn sent(&mut self, slot: u32)
        requires { can_send self.old slot ≡ true }
        ensures noted { self.new ≡ record self.old { outstanding = self.old.outstanding + 1; last_sent = Some slot } }
        ensures stands { (link : LinkRec) → CountsOf self.old link → CountsOf self.new (record link { sent = link.sent ++ slot ∷ [] }) }
    {
        self.outstanding += 1;
        self.last_sent = Some(slot);
    }

    /// The token that waits longest: `None` exactly where none waits. See docs/LINKS.md.
    pub fn first(&self) -> Option<Token>
        ensures none { result ≡ None ↔ self.now.buffer ≡ [] }
        ensures cases { MatchOption result (self.now.buffer ≡ []) (λ t. self.now.buffer ≡ t ∷ drop 1 self.now.buffer) }
    {
        match self.buffer.as_slice() {
            [] => None,
            [token, ..] => Some(*token),
        }
    }

    /// Takes the token that waits longest out of the buffer: `None` exactly where none waits. See docs/LINKS.md.
    pub fn pop(&mut self) -> Option<Token>
        ensures none { result ≡ None ↔ self.old.buffer ≡ [] }
        ensures cases { MatchOption result (self.old.buffer ≡ []) (λ t. self.old.buffer ≡ t ∷ self.new.buffer) }
        ensures rest { self.new ≡ record self.old { buffer = drop 1 self.old.buffer } }
        ensures stands { (link : LinkRec) → CountsOf self.old link → CountsOf self.new (record link { buffer = drop 1 link.buffer }) }
    {
        if self.buffer.is_empty() {
            None
        } else {
            Some(self.buffer.remove(0))
        }
    }

    /// What a snapshot keeps of it. It takes no memory. See docs/SNAPSHOTS.md.
    pub fn state(&self) -> EndState
        ensures value { result ≡ end_state self.now }
        ensures facts { IsEndState result }
        ensures stands { CountsOf self.now (end_of result) }
    {
        EndState {
            present: true,
            buffer: copy_of(&self.buffer),
            window: self.outstanding as u8,
            last: self.last_sent,
        }
    }

    /// The link end with this gap, at least 1, that a snapshot says. It takes no memory. See docs/SNAPSHOTS.md.
    pub fn of_state(gap: u32, end: &EndState) -> LinkEnd
        requires gap { 1 ≤ gap }
        requires present { end.now.present ≡ true }
        requires facts { IsEndState end.now }
        ensures value { result ≡ counts_of gap end.now }
        ensures stands { CountsOf result (end_of end.now) }
    {
        LinkEnd {
            gap,
            buffer: copy_of(&end.buffer),
            outstanding: u32::from(end.window),
            last_sent: end.last,
        }
    }
}

impl Default for LinkEnd {
    ghost is_default = { λ end. end ≡ fresh_counts 1 };

    fn default() -> LinkEnd {
        LinkEnd::new(1)
    }
}

/// Whether a slot is at least a gap after the last one, or there was none.
#[inline]
fn gap_is_over(gap: u32, slot: u32, last: Option<u32>) -> bool
    ensures { result ≡ gap_is_over gap slot last }
{
    match last {
        Some(last) => u64::from(last) + u64::from(gap) <= u64::from(slot),
        None => true,
    }
}

// A buffer with the same tokens.
fn copy_of(tokens: &ArrayVec<Token, 8>) -> ArrayVec<Token, 8>
    ensures { result ≡ tokens.now }
{
    let mut copy = ArrayVec::new();
    let _ = copy.try_extend_from_slice(tokens.as_slice());
    copy
}
