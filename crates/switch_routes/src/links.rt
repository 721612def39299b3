//! `Links`, the row of a node's link ends.
ghost use Rattle.std.specs.Prelude.{ℕ, ◌≡◌, ◌≢◌, ◌<◌, ◌≤◌, true, false, is_some, Some, None, Option, IsNone, List, [], ◌∷◌, drop, length, map, slice_set, slice_index_or, MatchOption};
ghost use Rattle.std.specs.Borrow.{sem};
ghost use Rattle.std.specs.List.{list_any, AllByRecursion};
ghost use Rattle.xs_base.specs.declared.numbers.TheConstants.{LINK_ENDS};
ghost use Rattle.xs_model.specs.Masks.{in_mask};
ghost use Rattle.xs_model.specs.Record.{LinkRec};
ghost use Rattle.net_model.specs.Links.{links_after_arrivals, link_after_arrivals, token_arrives, credit_arrives};
ghost use Rattle.net_model.specs.Switch.{Routes, sent_in, end_may_send};
ghost use Rattle.link_ends.specs.Counts.{EndCounts, CountsOf};
ghost use Rattle.link_ends.specs.States.{IsEndState};
ghost use Rattle.switch_routes.specs.Rows.{no_ends, counts_at, AllCountsOf, end_gaps, CreditedBy, SentBy, buffer_of, may_send_by, without_first};
ghost use Rattle.switch_routes.specs.Rest.{AreMarked, has_waiting};
ghost use Rattle.switch_routes.specs.Lends.{LendsEnd};
ghost use Rattle.switch_routes.specs.States.{place_state, link_of};

use arrayvec::ArrayVec;
use bit_masks::{lowest, without};
use link_ends::{EndState, LinkEnd};
use std::marker::Model;
use xs_base::Token;
use xs_base::numbers::LINK_ENDS;
use xs_model::Arrivals;

/// A node's link ends, numbered 0 to 7, each of which is there or not. Contracts see it as a list of 8 optional
/// `EndCounts`. See docs/LINKS.md.
#[derive(Drop)]
pub struct Links {
    // Where a link end is not there, some other one stands in its place.
    ends: ArrayVec<LinkEnd, 8>,
    present: [bool; 8],
    // No token waits at a link end whose bit is clear: bit 0 is that of link end 0.
    waiting: u8,
}

impl Model for Links {
    ghost use Rattle.std.specs.Prelude.{Option, List};
    ghost use Rattle.link_ends.specs.Counts.{EndCounts};

    ghost Value = { List (Option EndCounts) };

    ghost use Rattle.switch_routes.specs.Inside.{ends_in, AreEnds};

    ghost view = { λ row. ends_in row.present row.ends.items };

    ghost invariant = { λ row. AreEnds row.present row.ends.items row.waiting };
}

impl Links {
    /// No link end is there.
    pub fn new() -> Links
        ensures value { result ≡ no_ends }
    {
        let ends: [LinkEnd; 8] = Default::default();
        Links {
            ends: ArrayVec::from(ends),
            present: [false; 8],
            waiting: 0,
        }
    }

    /// Puts a link end in its place, 0 to 7, instead of one that was there.
    pub fn set(&mut self, end: u8, link: LinkEnd)
        requires within { end < LINK_ENDS }
        ensures value { self.new ≡ slice_set self.old end (Some link) }
    {
        self.waiting = noted(self.waiting, end, &link);
        self.ends.as_mut_slice()[end as usize] = link;
        self.present[end as usize] = true;
    }

    /// The link end with a number: `None` exactly where the node has no such link end. Any number may be asked for, and
    /// no node has a link end from 8 on.
    pub fn end(&mut self, end: u8) -> Option<&mut LinkEnd>
        ensures* writes_back { sem 𝓛 (LendsEnd self.entry end result) }
        ensures none_past { LINK_ENDS ≤ end → IsNone result }
        ensures cases { MatchOption result (counts_at self.old end ≡ None) (λ link. counts_at self.old end ≡ Some link.now) }
        ensures count { length self.old ≡ LINK_ENDS }
    {
        if self.present.get(end as usize).copied().unwrap_or(false) {
            self.waiting = with_mark(self.waiting, end);
            self.ends.get_mut(end as usize)
        } else {
            None
        }
    }

    /// What arrives in a slot at each link end: the token, then the credit. For a link end that is not there it is
    /// dropped. See docs/LINKS.md.
    pub fn arrivals(&mut self, arrivals: &Arrivals)
        ensures stands { (slot : ℕ) (links : List (Option LinkRec)) → AllCountsOf self.old links →
            AllCountsOf self.new (links_after_arrivals slot arrivals.now.tokens arrivals.now.credits 0 links) }
        ensures credited { (slot : ℕ) (links : List (Option LinkRec)) → CreditedBy slot links →
            CreditedBy slot (links_after_arrivals slot arrivals.now.tokens arrivals.now.credits 0 links) }
        ensures gaps { end_gaps self.new ≡ end_gaps self.old }
        ensures sent { (slot : ℕ) → SentBy slot self.old → SentBy slot self.new }
    {
        for end in 0..LINK_ENDS {
            self.arrive(
                end,
                arrivals.tokens[end as usize],
                arrivals.credits[end as usize],
            );
        }
    }

    // What arrives in a slot at one link end.
    fn arrive(&mut self, end: u8, token: Option<Token>, credit: bool)
        requires within { end < LINK_ENDS }
        ensures stands { (slot : ℕ) (links : List (Option LinkRec)) → AllCountsOf self.old links →
            AllCountsOf self.new (slice_set links end (link_after_arrivals slot token credit (slice_index_or links end None))) }
        ensures gaps { end_gaps self.new ≡ end_gaps self.old }
        ensures sent { (slot : ℕ) → SentBy slot self.old → SentBy slot self.new }
        ensures count { length self.new ≡ LINK_ENDS }
    {
        let waiting = self.waiting;
        if let Some(link) = self.end(end) {
            receive(link, token);
            count(link, credit);
            if token.is_none() {
                self.waiting = waiting;
            }
        }
    }

    /// The token that waits longest at a link end, 0 to 7: `None` exactly where none waits.
    pub(crate) fn first(&self, end: u8) -> Option<Token>
        requires within { end < LINK_ENDS }
        ensures cases { MatchOption result (buffer_of (counts_at self.now end) ≡ [])
            (λ t. buffer_of (counts_at self.now end) ≡ t ∷ drop 1 (buffer_of (counts_at self.now end))) }
    {
        let link = &self.ends.as_slice()[end as usize];
        if self.present[end as usize] {
            link.first()
        } else {
            None
        }
    }

    /// The link ends at which tokens may wait: none waits where a bit is clear. Bit 0 is that of link end 0.
    pub(crate) fn waiting(&self) -> u8
        ensures marked { AreMarked result self.now }
    {
        self.waiting
    }

    /// Whether a token waits at some link end. Where none may, that is seen at once.
    pub(crate) fn some_wait(&self) -> bool
        ensures value { result ≡ list_any has_waiting self.now }
    {
        let mut left = u32::from(self.waiting);
        while left != 0 {
            let end = lowest(left);
            if self.first(end).is_some() {
                return true;
            }
            left = without(left, end);
        }
        false
    }

    /// Takes the token that waits longest out of a link end's buffer, where one waits.
    pub(crate) fn pop(&mut self, end: u8)
        requires within { end < LINK_ENDS }
        ensures value { self.new ≡ slice_set self.old end (without_first (counts_at self.old end)) }
        ensures gaps { end_gaps self.new ≡ end_gaps self.old }
        ensures sent { (slot : ℕ) → SentBy slot self.old → SentBy slot self.new }
    {
        if let Some(link) = self.end(end) {
            let _ = link.pop();
            if link.first().is_none() {
                self.waiting = without_mark(self.waiting, end);
            }
        }
    }

    /// Whether a link end is there and may send in a slot.
    pub(crate) fn can_send(&self, end: u8, slot: u32) -> bool
        requires within { end < LINK_ENDS }
        ensures value { result ≡ may_send_by slot (counts_at self.now end) }
        ensures stands { (routes : Routes) (links : List (Option LinkRec)) → routes.gaps ≡ end_gaps self.now → AllCountsOf self.now links →
            CreditedBy slot links → result ≡ end_may_send routes slot end (slice_index_or links end None) }
    {
        let link = &self.ends.as_slice()[end as usize];
        self.present[end as usize] && link.can_send(slot)
    }

    /// Notes that a link end sends a token in a slot in which it may.
    pub(crate) fn sent(&mut self, end: u8, slot: u32)
        requires within { end < LINK_ENDS }
        requires allowed { may_send_by slot (counts_at self.old end) ≡ true }
        ensures stands { (links : List (Option LinkRec)) → AllCountsOf self.old links →
            AllCountsOf self.new (slice_set links end (sent_in slot (slice_index_or links end None))) }
        ensures gaps { end_gaps self.new ≡ end_gaps self.old }
        ensures sent { SentBy slot self.old → SentBy slot self.new }
    {
        let waiting = self.waiting;
        if let Some(link) = self.end(end) {
            link.sent(slot);
            self.waiting = waiting;
        }
    }

    /// What a snapshot keeps of each link end, by number: all 0 for one that is not there. It takes no memory. See docs/SNAPSHOTS.md.
    pub fn state(&self) -> [EndState; 8]
        ensures value { result ≡ map place_state self.now }
        ensures facts { AllByRecursion IsEndState result }
        ensures stands { AllCountsOf self.now (map link_of result) }
    {
        let mut states: [EndState; 8] = Default::default();
        for end in 0..LINK_ENDS {
            states[end as usize] = self.state_at(end);
        }
        states
    }

    // What a snapshot keeps of one link end.
    fn state_at(&self, end: u8) -> EndState
        requires within { end < LINK_ENDS }
        ensures value { result ≡ place_state (counts_at self.now end) }
        ensures facts { IsEndState result }
        ensures count { length self.now ≡ LINK_ENDS }
    {
        let link = &self.ends.as_slice()[end as usize];
        if self.present[end as usize] {
            link.state()
        } else {
            EndState::default()
        }
    }
}

// The mask of link ends at which tokens wait, with this one in place of what was there.
fn noted(mask: u8, end: u8, link: &LinkEnd) -> u8
    requires within { end < LINK_ENDS }
    ensures { (row : List (Option EndCounts)) → AreMarked mask row → AreMarked result (slice_set row end (Some link.now)) }
{
    if link.first().is_some() {
        with_mark(mask, end)
    } else {
        without_mark(mask, end)
    }
}

// The mask with a link end, 0 to 7, in it as well.
fn with_mark(mask: u8, end: u8) -> u8
    requires within { end < LINK_ENDS }
    ensures added { in_mask result end ≡ true }
    ensures others { (e : ℕ) → e ≢ end → in_mask result e ≡ in_mask mask e }
{
    mask | (1 << end)
}

// The mask without a link end, 0 to 7.
fn without_mark(mask: u8, end: u8) -> u8
    requires within { end < LINK_ENDS }
    ensures others { (e : ℕ) → e < LINK_ENDS → e ≢ end → in_mask result e ≡ in_mask mask e }
{
    mask & !(1 << end)
}

// A token arrives at a link end, if one does.
fn receive(link: &mut LinkEnd, token: Option<Token>)
    ensures stands { (rec : LinkRec) → CountsOf link.old rec → CountsOf link.new (token_arrives token rec) }
    ensures none { is_some token ≡ false → link.new.buffer ≡ link.old.buffer }
    ensures gap { link.new.gap ≡ link.old.gap }
    ensures last_sent { link.new.last_sent ≡ link.old.last_sent }
{
    if let Some(token) = token {
        link.arrive(token);
    }
}

// A credit arrives at a link end, if one does.
fn count(link: &mut LinkEnd, credit: bool)
    ensures stands { (rec : LinkRec) (slot : ℕ) → CountsOf link.old rec → CountsOf link.new (credit_arrives slot credit rec) }
    ensures buffer { link.new.buffer ≡ link.old.buffer }
    ensures gap { link.new.gap ≡ link.old.gap }
    ensures last_sent { link.new.last_sent ≡ link.old.last_sent }
{
    if credit {
        link.credit();
    }
}
