//! `ChanEnds`, the channel ends of a core.
ghost use Rattle.std.specs.Prelude.{ℕ, ◌≡◌, ◌<◌, ◌↔◌, true, false, Some, None, [], ◌∷◌, ◌++◌, drop, length, map, replicate, slice_get, slice_set, IsOk, OnOk, OnErr, IfSome, IsTrue, IsFalse};
ghost use Rattle.std.specs.List.{list_any, AllByRecursion};
ghost use Rattle.xs_base.specs.declared.numbers.TheConstants.{CHAN_ENDS};
ghost use Rattle.xs_model.specs.Record.{unused_chan};
ghost use Rattle.xs_model.specs.Masks.{in_mask};
ghost use Rattle.xs_model.specs.Waits.{has_room, has_tokens};
ghost use Rattle.net_model.specs.Chans.{Got, Refused, free_chan, put_away, freed_chan, found_at, put_token, put_word, take_word, take_byte, take_ctrl, check_token, look, look_word, take_dest, take_net};
ghost use Rattle.chan_ends.specs.Ends.{chan_at, has_output, with_got, with_freed, chans_after};
ghost use Rattle.chan_ends.specs.States.{chan_state, chan_of, IsChanState};
ghost use Rattle.xs_model.specs.Choices.{chan_is_ready};
ghost use Rattle.chan_ends.specs.Answers.{put_answer, take_answer};

use crate::answers::{Bad, Put, Take};
use crate::chan_end::ChanEnd;
use crate::marks::Marks;
use crate::state::ChanState;
use std::marker::Model;
use xs_base::Token;
use xs_base::numbers::{BUFFER_TOKENS, CHAN_ENDS};

/// A core's 32 channel ends, numbered from 0: each is in use or not, may have a destination, sends by one of the networks 0 to 3, and has
/// an output and an input buffer of 8 tokens. Contracts see them as the list of their `ChanRec`s. See docs/LINKS.md.
#[derive(Drop)]
pub struct ChanEnds {
    ends: [ChanEnd; 32],
    marks: Marks,
}

impl Model for ChanEnds {
    ghost use Rattle.std.specs.Prelude.{◌≡◌, List, length};
    ghost use Rattle.xs_model.specs.Record.{ChanRec};

    ghost Value = { List ChanRec };

    ghost view = { λ core. core.ends };

    ghost use Rattle.chan_ends.specs.Ends.{IsMask, has_output};
    ghost use Rattle.xs_model.specs.Choices.{chan_is_ready};

    ghost invariant = { λ core. (length core.ends ≡ 32) × IsMask has_output core.marks.sending core.ends × IsMask chan_is_ready core.marks.ready core.ends };
}

impl ChanEnds {
    /// The channel ends at the start: on every node none is in use.
    pub fn new(_node: u16) -> ChanEnds
        ensures unused { result ≡ replicate 32 unused_chan }
    {
        ChanEnds {
            ends: Default::default(),
            marks: Marks::default(),
        }
    }

    /// What a snapshot keeps of each channel end, by number. It takes no memory. See docs/SNAPSHOTS.md.
    pub fn state(&self) -> [ChanState; 32]
        ensures value { result ≡ map chan_state self.now }
        ensures facts { AllByRecursion IsChanState result }
    {
        let mut states: [ChanState; 32] = Default::default();
        for c in 0..CHAN_ENDS {
            states[c as usize] = self.ends[c as usize].state();
        }
        states
    }

    /// The channel ends that a snapshot says, by number. It takes no memory. See docs/SNAPSHOTS.md.
    pub fn of_state(node: u16, chans: &[ChanState; 32]) -> ChanEnds
        requires facts { AllByRecursion IsChanState chans.now }
        ensures value { result ≡ map chan_of chans.now }
    {
        let mut ends = ChanEnds::new(node);
        for c in 0..CHAN_ENDS {
            ends.set(c, ChanEnd::of_state(&chans[c as usize]));
        }
        ends
    }

    // Puts a channel end in place of what was there.
    fn set(&mut self, c: u8, end: ChanEnd)
        requires { c < CHAN_ENDS }
        ensures { self.new ≡ slice_set self.old c end }
    {
        self.marks.note(c, &end);
        self.ends[c as usize] = end;
    }

    /// Gets the channel end with the lowest number that is not in use: it is in use then, of network 0, and its destination and buffers are as they were,
    /// which is none and empty but where a state said otherwise (`of_state`). `None` comes exactly where all 32 are in use. See docs/LINKS.md.
    pub fn alloc(&mut self) -> Option<u8>
        ensures lowest { result ≡ free_chan self.old 0 }
        ensures got { self.new ≡ with_got self.old (free_chan self.old 0) }
        ensures within { IfSome result (λ c. c < CHAN_ENDS) }
        ensures none { result ≡ None ↔ ((c : ℕ) → c < CHAN_ENDS → (chan_at self.old c).used ≡ true) }
    {
        let free = first_free(&self.ends);
        if let Some(c) = free {
            let end = &mut self.ends[c as usize];
            end.get();
            self.marks.note(c, end);
        }
        free
    }

    /// Frees channel end `c`, 0 to 31: it is not in use then, and has no destination; it keeps its network until it is got again. `held` says that the switch is
    /// at work with it. `Bad` comes exactly where it is not in use, a buffer is not empty or `held` is true, and then
    /// nothing changes. See docs/LINKS.md.
    pub fn free(&mut self, c: u8, held: bool) -> Result<(), Bad>
        requires { c < CHAN_ENDS }
        ensures ok { OnOk result (freed_chan held (chan_at self.old c) ≡ Some (put_away (chan_at self.old c))) }
        ensures err { OnErr result (freed_chan held (chan_at self.old c) ≡ None) }
        ensures after { self.new ≡ with_freed self.old c (freed_chan held (chan_at self.old c)) }
        ensures allowed { IsOk result ↔ (((chan_at self.old c).used ≡ true) × ((chan_at self.old c).output ≡ []) × ((chan_at self.old c).input ≡ []) × (held ≡ false)) }
        ensures unchanged { OnErr result (self.new ≡ self.old) }
    {
        let end = &mut self.ends[c as usize];
        let answer = end.free(held);
        self.marks.note(c, end);
        answer
    }

    /// Whether channel end `c`, 0 to 31, is in use.
    pub fn used(&self, c: u8) -> bool
        requires { c < CHAN_ENDS }
        ensures value { result ≡ (chan_at self.now c).used }
    {
        self.ends[c as usize].used()
    }

    /// The network that packets of channel end `c`, 0 to 31, take. It takes no memory.
    pub fn net(&self, c: u8) -> u8
        requires { c < CHAN_ENDS }
        ensures value { result ≡ (chan_at self.now c).net }
    {
        self.ends[c as usize].net()
    }

    /// The destination of channel end `c`, 0 to 31: `None` exactly where it has none.
    pub fn dest(&self, c: u8) -> Option<u32>
        requires { c < CHAN_ENDS }
        ensures value { result ≡ (chan_at self.now c).dest }
    {
        self.ends[c as usize].dest()
    }

    /// Gives channel end `c`, 0 to 31, the identifier of a channel end as its destination. `Bad` comes exactly where
    /// it is not in use or the identifier's low byte is not 2, and then nothing changes. See docs/LINKS.md.
    pub fn set_dest(&mut self, c: u8, id: u32) -> Result<(), Bad>
        requires { c < CHAN_ENDS }
        ensures ok { OnOk result (found_at (take_dest id) (chan_at self.old c) ≡ Got (record (chan_at self.old c) { dest = Some id }) 0) }
        ensures err { OnErr result (found_at (take_dest id) (chan_at self.old c) ≡ Refused) }
        ensures after { self.new ≡ chans_after self.old c (found_at (take_dest id) (chan_at self.old c)) }
    {
        let end = &mut self.ends[c as usize];
        let answer = end.set_dest(id);
        self.marks.note(c, end);
        answer
    }

    /// Gives channel end `c`, 0 to 31, a network for the packets that it begins from now on. `Bad` comes exactly where it is
    /// not in use or the network is above 3, and then nothing changes. It takes no memory. See docs/LINKS.md.
    pub fn set_net(&mut self, c: u8, n: u32) -> Result<(), Bad>
        requires { c < CHAN_ENDS }
        ensures ok { OnOk result (found_at (take_net n) (chan_at self.old c) ≡ Got (record (chan_at self.old c) { net = n }) 0) }
        ensures err { OnErr result (found_at (take_net n) (chan_at self.old c) ≡ Refused) }
        ensures after { self.new ≡ chans_after self.old c (found_at (take_net n) (chan_at self.old c)) }
        ensures allowed { IsOk result ↔ (((chan_at self.old c).used ≡ true) × (n < 4)) }
        ensures unchanged { OnErr result (self.new ≡ self.old) }
    {
        let end = &mut self.ends[c as usize];
        let answer = end.set_net(n);
        self.marks.note(c, end);
        answer
    }

    /// Puts a token at the end of the output buffer of channel end `c`, 0 to 31. `Bad` comes exactly where it is not
    /// in use or has no destination, and `Full` exactly where it has one and 8 tokens are there; then nothing
    /// changes. See docs/LINKS.md.
    pub fn put(&mut self, c: u8, t: Token) -> Put
        requires { c < CHAN_ENDS }
        ensures answer { result ≡ put_answer (found_at (put_token t) (chan_at self.old c)) }
        ensures after { self.new ≡ chans_after self.old c (found_at (put_token t) (chan_at self.old c)) }
    {
        let end = &mut self.ends[c as usize];
        let answer = end.put(t);
        self.marks.note(c, end);
        answer
    }

    /// Puts a word at the end of the output buffer of channel end `c`, 0 to 31, as four data bytes, the most significant
    /// first. `Bad` comes exactly where it is not in use or has no destination, and `Full` exactly where it has one and
    /// more than 4 tokens are there; then nothing changes. See docs/LINKS.md.
    pub fn put_word(&mut self, c: u8, w: u32) -> Put
        requires { c < CHAN_ENDS }
        ensures answer { result ≡ put_answer (found_at (put_word w) (chan_at self.old c)) }
        ensures after { self.new ≡ chans_after self.old c (found_at (put_word w) (chan_at self.old c)) }
    {
        let end = &mut self.ends[c as usize];
        let answer = end.put_word(w);
        self.marks.note(c, end);
        answer
    }

    /// Takes four data bytes from the front of the input buffer of channel end `c`, 0 to 31, and answers `Got` with the
    /// word of which the first is the most significant byte. `Bad` comes exactly where it is not in use or one of the
    /// first four tokens is a control token, and `Wait` exactly where it is in use, and fewer than four tokens are
    /// there and all are data bytes; then nothing changes. See docs/LINKS.md.
    pub fn take_word(&mut self, c: u8) -> Take
        requires { c < CHAN_ENDS }
        ensures answer { result ≡ take_answer (found_at take_word (chan_at self.old c)) }
        ensures after { self.new ≡ chans_after self.old c (found_at take_word (chan_at self.old c)) }
    {
        let end = &mut self.ends[c as usize];
        let answer = end.take_word();
        self.marks.note(c, end);
        answer
    }

    /// Takes a data byte from the front of the input buffer of channel end `c`, 0 to 31, and answers `Got` with its value,
    /// 0 to 255. `Wait` comes exactly where it is in use and no token is there, and `Bad` exactly where it is not in use
    /// or a control token is first; then nothing changes. See docs/LINKS.md.
    pub fn take_byte(&mut self, c: u8) -> Take
        requires { c < CHAN_ENDS }
        ensures answer { result ≡ take_answer (found_at take_byte (chan_at self.old c)) }
        ensures after { self.new ≡ chans_after self.old c (found_at take_byte (chan_at self.old c)) }
    {
        let end = &mut self.ends[c as usize];
        let answer = end.take_byte();
        self.marks.note(c, end);
        answer
    }

    /// Takes a control token from the front of the input buffer of channel end `c`, 0 to 31, and answers `Got` with its
    /// value, 0 to 255. `Wait` comes exactly where it is in use and no token is there, and `Bad` exactly where it is not
    /// in use or a data byte is first; then nothing changes. See docs/LINKS.md.
    pub fn take_ctrl(&mut self, c: u8) -> Take
        requires { c < CHAN_ENDS }
        ensures answer { result ≡ take_answer (found_at take_ctrl (chan_at self.old c)) }
        ensures after { self.new ≡ chans_after self.old c (found_at take_ctrl (chan_at self.old c)) }
    {
        let end = &mut self.ends[c as usize];
        let answer = end.take_ctrl();
        self.marks.note(c, end);
        answer
    }

    /// Takes the control token of value `v` from the front of the input buffer of channel end `c`, 0 to 31, and
    /// answers `Got(v)`. `Wait` comes exactly where it is in use and no token is there, and `Bad` exactly where it
    /// is not in use or another token is first; then nothing changes. See docs/LINKS.md.
    pub fn check(&mut self, c: u8, v: u32) -> Take
        requires { c < CHAN_ENDS }
        ensures answer { result ≡ take_answer (found_at (check_token v) (chan_at self.old c)) }
        ensures after { self.new ≡ chans_after self.old c (found_at (check_token v) (chan_at self.old c)) }
    {
        let end = &mut self.ends[c as usize];
        let answer = end.check(v);
        self.marks.note(c, end);
        answer
    }

    /// Looks at the first token of the input buffer of channel end `c`, 0 to 31, and takes none: `Got(1)` where it is a
    /// control token, and `Got(0)` where it is a data byte. `Wait` comes exactly where it is in use and no token is
    /// there, and `Bad` exactly where it is not in use. Nothing changes. See docs/LINKS.md.
    pub fn look(&mut self, c: u8) -> Take
        requires { c < CHAN_ENDS }
        ensures answer { result ≡ take_answer (found_at look (chan_at self.old c)) }
        ensures after { self.new ≡ chans_after self.old c (found_at look (chan_at self.old c)) }
    {
        self.ends[c as usize].look()
    }

    /// Looks at the first four tokens of the input buffer of channel end `c`, 0 to 31, and takes none: `Got` with the
    /// place, 1 to 4, of the first control token among them, and `Got(0)` where all four are data bytes. `Wait` comes
    /// exactly where it is in use, and fewer than four tokens are there and all are data bytes, and `Bad` exactly where
    /// it is not in use. Nothing changes. See docs/LINKS.md.
    pub fn look_word(&mut self, c: u8) -> Take
        requires { c < CHAN_ENDS }
        ensures answer { result ≡ take_answer (found_at look_word (chan_at self.old c)) }
        ensures after { self.new ≡ chans_after self.old c (found_at look_word (chan_at self.old c)) }
    {
        self.ends[c as usize].look_word()
    }

    /// The channel ends with a token in their output buffer: bit `c` is that of channel end `c`, 0 to 31.
    pub fn sending(&self) -> u32
        ensures value { (c : ℕ) → c < CHAN_ENDS → in_mask result c ≡ has_output (chan_at self.now c) }
    {
        self.marks.sending
    }

    /// Whether a token waits in the output buffer of some channel end.
    pub fn is_sending(&self) -> bool
        ensures value { result ≡ list_any has_output self.now }
    {
        self.marks.sending != 0
    }

    /// The channel ends with a token in their input buffer: bit `c` is that of channel end `c`, 0 to 31.
    pub fn ready(&self) -> u32
        ensures value { (c : ℕ) → c < CHAN_ENDS → in_mask result c ≡ chan_is_ready (chan_at self.now c) }
        ensures count { length self.now ≡ CHAN_ENDS }
    {
        self.marks.ready
    }

    /// Whether `count` tokens still fit into the output buffer of channel end `c`, which holds 8. With a `c` of 32 or
    /// more it speaks of an empty buffer. See docs/LINKS.md.
    pub fn has_room(&self, c: u8, count: u8) -> bool
        ensures value { result ≡ has_room count (chan_at self.now c).output }
    {
        if c < CHAN_ENDS {
            self.ends[c as usize].has_room(count)
        } else {
            count <= BUFFER_TOKENS
        }
    }

    /// Whether `count` tokens are in the input buffer of channel end `c`, or a control token is among the first
    /// `count`. With a `c` of 32 or more it speaks of an empty buffer. See docs/LINKS.md.
    pub fn has_tokens(&self, c: u8, count: u8) -> bool
        ensures value { result ≡ has_tokens count (chan_at self.now c).input }
    {
        if c < CHAN_ENDS {
            self.ends[c as usize].has_tokens(count)
        } else {
            count == 0
        }
    }

    /// The token that waits longest in the output buffer of channel end `c`, 0 to 31: `None` exactly where none is
    /// there.
    pub fn first_out(&self, c: u8) -> Option<Token>
        requires { c < CHAN_ENDS }
        ensures value { result ≡ slice_get (chan_at self.now c).output 0 }
    {
        self.ends[c as usize].first_out()
    }

    /// Takes the token that waits longest from the output buffer of channel end `c`, 0 to 31: `None` exactly where
    /// none is there.
    pub fn pop_out(&mut self, c: u8) -> Option<Token>
        requires { c < CHAN_ENDS }
        ensures token { result ≡ slice_get (chan_at self.old c).output 0 }
        ensures rest { self.new ≡ slice_set self.old c (record (chan_at self.old c) { output = drop 1 (chan_at self.old c).output }) }
    {
        let end = &mut self.ends[c as usize];
        let answer = end.pop_out();
        self.marks.note(c, end);
        answer
    }

    /// The token that waits longest in the input buffer of channel end `c`, 0 to 31: `None` exactly where none is
    /// there.
    pub fn first_in(&self, c: u8) -> Option<Token>
        requires { c < CHAN_ENDS }
        ensures value { result ≡ slice_get (chan_at self.now c).input 0 }
    {
        self.ends[c as usize].first_in()
    }

    /// Puts a token at the end of the input buffer of channel end `c`, 0 to 31: `false` exactly where 8 tokens are
    /// there, and then nothing changes. See docs/LINKS.md.
    pub fn push_in(&mut self, c: u8, t: Token) -> bool
        requires { c < CHAN_ENDS }
        ensures room { result ≡ has_room 1 (chan_at self.old c).input }
        ensures pushed { IsTrue result → self.new ≡ slice_set self.old c (record (chan_at self.old c) { input = (chan_at self.old c).input ++ t ∷ [] }) }
        ensures unchanged { IsFalse result → self.new ≡ self.old }
    {
        let end = &mut self.ends[c as usize];
        let answer = end.push_in(t);
        self.marks.note(c, end);
        answer
    }
}

/// The lowest channel end that is not in use.
fn first_free(ends: &[ChanEnd; 32]) -> Option<u8>
    ensures lowest { result ≡ free_chan ends.now 0 }
    ensures within { IfSome result (λ c. c < CHAN_ENDS) }
{
    for c in 0..CHAN_ENDS {
        if !ends[c as usize].used() {
            return Some(c);
        }
    }
    None
}
