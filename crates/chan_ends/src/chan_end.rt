//! `ChanEnd`, one channel end.
ghost use Rattle.std.specs.Prelude.{◌≡◌, ◌↔◌, ◌<◌, ◌||◌, true, false, nat_lt, if◌then◌else◌, Some, None, [], ◌∷◌, ◌++◌, length, take, drop, slice_get, IsOk, OnOk, OnErr, IsTrue, IsFalse};
ghost use Rattle.std.specs.List.{list_any};
ghost use Rattle.xs_model.specs.Waits.{has_room, has_tokens, is_control};
ghost use Rattle.net_model.specs.Chans.{Got, Refused, put_in_use, put_away, freed_chan, found_at, chan_after, take_dest, take_net, put_tokens, put_token, bytes_of_word, put_word};
ghost use Rattle.net_model.specs.Chans.{joined, take_word, take_byte, take_ctrl, check_token, look, control_place, look_word};
ghost use Rattle.chan_ends.specs.Ends.{has_output, chan_where_freed};
ghost use Rattle.chan_ends.specs.States.{chan_state, chan_of, IsChan, IsChanState};
ghost use Rattle.xs_model.specs.Choices.{chan_is_ready};
ghost use Rattle.chan_ends.specs.Answers.{put_answer, take_answer};
ghost use Rattle.chan_ends.specs.declared.answers.Take.TheVariants as taken;

use crate::answers::{Bad, Put, Take};
use crate::state::ChanState;
use arrayvec::ArrayVec;
use std::marker::Model;
use xs_base::Token;
use xs_base::numbers::{BUFFER_TOKENS, CHAN_END_KIND};

// The networks are 0 to 3.
const NETWORKS: u32 = 4;

/// A channel end. Contracts see it as a `ChanRec` of `Rattle.xs_model.specs.Record`.
#[derive(Drop)]
pub(crate) struct ChanEnd {
    used: bool,
    // The network that its packets take, 0 to 3.
    net: u8,
    dest: Option<u32>,
    output: ArrayVec<Token, 8>,
    input: ArrayVec<Token, 8>,
}

impl Model for ChanEnd {
    ghost use Rattle.xs_model.specs.Record.{ChanRec};

    ghost Value = { ChanRec };

    ghost view = { λ end. record { used = end.used; net = end.net; dest = end.dest; output = end.output.items; input = end.input.items } };

    ghost use Rattle.chan_ends.specs.States.{IsChan};

    ghost invariant = { λ end. IsChan (record { used = end.used; net = end.net; dest = end.dest; output = end.output.items; input = end.input.items }) };
}

impl Default for ChanEnd {
    ghost use Rattle.std.specs.Prelude.{◌≡◌};
    ghost use Rattle.xs_model.specs.Record.{unused_chan};

    ghost is_default = { λ end. end ≡ unused_chan };

    fn default() -> Self {
        ChanEnd {
            used: false,
            net: 0,
            dest: None,
            output: ArrayVec::new(),
            input: ArrayVec::new(),
        }
    }
}

impl ChanEnd {
    /// Puts it in use, with network 0; its destination and its buffers stay.
    pub(crate) fn get(&mut self)
        ensures { self.new ≡ put_in_use self.old }
    {
        self.used = true;
        self.net = 0;
    }

    /// Puts it out of use, with no destination; its network stays. It is refused exactly where it is not in use, a buffer is not empty, or the
    /// switch is at work with it.
    pub(crate) fn free(&mut self, held: bool) -> Result<(), Bad>
        ensures ok { OnOk result (freed_chan held self.old ≡ Some (put_away self.old)) }
        ensures err { OnErr result (freed_chan held self.old ≡ None) }
        ensures after { self.new ≡ chan_where_freed self.old (freed_chan held self.old) }
        ensures allowed { IsOk result ↔ ((self.old.used ≡ true) × (self.old.output ≡ []) × (self.old.input ≡ []) × (held ≡ false)) }
        ensures unchanged { OnErr result (self.new ≡ self.old) }
    {
        if !self.used || !self.output.is_empty() || !self.input.is_empty() || held {
            return Err(Bad);
        }
        let net = self.net;
        *self = ChanEnd::default();
        self.net = net;
        Ok(())
    }

    pub(crate) fn used(&self) -> bool
        ensures { result ≡ self.now.used }
    {
        self.used
    }

    pub(crate) fn net(&self) -> u8
        ensures { result ≡ self.now.net }
    {
        self.net
    }

    pub(crate) fn dest(&self) -> Option<u32>
        ensures { result ≡ self.now.dest }
    {
        self.dest
    }

    /// The token that waits longest in the output buffer.
    pub(crate) fn first_out(&self) -> Option<Token>
        ensures { result ≡ slice_get self.now.output 0 }
    {
        first_of(&self.output)
    }

    /// The token that waits longest in the input buffer.
    pub(crate) fn first_in(&self) -> Option<Token>
        ensures { result ≡ slice_get self.now.input 0 }
    {
        first_of(&self.input)
    }

    /// Gives it a destination: refused exactly where it is not in use or the identifier is no channel end's.
    pub(crate) fn set_dest(&mut self, id: u32) -> Result<(), Bad>
        ensures ok { OnOk result (found_at (take_dest id) self.old ≡ Got (record self.old { dest = Some id }) 0) }
        ensures err { OnErr result (found_at (take_dest id) self.old ≡ Refused) }
        ensures after { self.new ≡ chan_after self.old (found_at (take_dest id) self.old) }
    {
        if !self.used || id % 256 != u32::from(CHAN_END_KIND) {
            return Err(Bad);
        }
        self.dest = Some(id);
        Ok(())
    }

    /// Gives it a network: refused exactly where it is not in use or there is no such network.
    pub(crate) fn set_net(&mut self, n: u32) -> Result<(), Bad>
        ensures ok { OnOk result (found_at (take_net n) self.old ≡ Got (record self.old { net = n }) 0) }
        ensures err { OnErr result (found_at (take_net n) self.old ≡ Refused) }
        ensures after { self.new ≡ chan_after self.old (found_at (take_net n) self.old) }
        ensures allowed { IsOk result ↔ ((self.old.used ≡ true) × (n < 4)) }
        ensures unchanged { OnErr result (self.new ≡ self.old) }
    {
        if !self.used || n >= NETWORKS {
            return Err(Bad);
        }
        self.net = n as u8;
        Ok(())
    }

    /// Puts a token at the end of the output buffer.
    pub(crate) fn put(&mut self, t: Token) -> Put
        ensures answer { result ≡ put_answer (found_at (put_token t) self.old) }
        ensures after { self.new ≡ chan_after self.old (found_at (put_token t) self.old) }
    {
        self.put_tokens(&[t])
    }

    /// Puts a word at the end of the output buffer.
    pub(crate) fn put_word(&mut self, w: u32) -> Put
        ensures answer { result ≡ put_answer (found_at (put_word w) self.old) }
        ensures after { self.new ≡ chan_after self.old (found_at (put_word w) self.old) }
    {
        self.put_tokens(&bytes_of_word(w))
    }

    // Puts tokens at the end of the output buffer, all or none.
    fn put_tokens(&mut self, tokens: &[Token]) -> Put
        ensures answer { result ≡ put_answer (found_at (put_tokens tokens.now) self.old) }
        ensures after { self.new ≡ chan_after self.old (found_at (put_tokens tokens.now) self.old) }
    {
        if !self.used || self.dest.is_none() {
            return Put::Bad;
        }
        match self.output.try_extend_from_slice(tokens) {
            Ok(()) => Put::Done,
            Err(_) => Put::Full,
        }
    }

    /// Takes four data bytes from the front of the input buffer, as a word.
    pub(crate) fn take_word(&mut self) -> Take
        ensures answer { result ≡ take_answer (found_at take_word self.old) }
        ensures after { self.new ≡ chan_after self.old (found_at take_word self.old) }
    {
        if !self.used {
            return Take::Bad;
        }
        match first_word(self.input.as_slice()) {
            Some(word) => {
                drop(self.input.drain(..4));
                Take::Got(word)
            }
            None if control_place(self.input.as_slice()) > 0 => Take::Bad,
            None => Take::Wait,
        }
    }

    /// Takes a data byte from the front of the input buffer.
    pub(crate) fn take_byte(&mut self) -> Take
        ensures answer { result ≡ take_answer (found_at take_byte self.old) }
        ensures after { self.new ≡ chan_after self.old (found_at take_byte self.old) }
    {
        if !self.used {
            return Take::Bad;
        }
        match first_of(&self.input) {
            None => Take::Wait,
            Some(Token::Byte(value)) => self.take_first(value),
            Some(Token::Ctrl(_)) => Take::Bad,
        }
    }

    /// Takes a control token from the front of the input buffer.
    pub(crate) fn take_ctrl(&mut self) -> Take
        ensures answer { result ≡ take_answer (found_at take_ctrl self.old) }
        ensures after { self.new ≡ chan_after self.old (found_at take_ctrl self.old) }
    {
        if !self.used {
            return Take::Bad;
        }
        match first_of(&self.input) {
            None => Take::Wait,
            Some(Token::Ctrl(value)) => self.take_first(value),
            Some(Token::Byte(_)) => Take::Bad,
        }
    }

    /// Takes the control token of a value from the front of the input buffer.
    pub(crate) fn check(&mut self, v: u32) -> Take
        ensures answer { result ≡ take_answer (found_at (check_token v) self.old) }
        ensures after { self.new ≡ chan_after self.old (found_at (check_token v) self.old) }
    {
        if !self.used {
            return Take::Bad;
        }
        match first_of(&self.input) {
            None => Take::Wait,
            Some(Token::Ctrl(value)) if u32::from(value) == v => self.take_first(value),
            Some(_) => Take::Bad,
        }
    }

    // Takes the first token of the input buffer, which is there and has this value.
    fn take_first(&mut self, value: u8) -> Take
        requires { 0 < length self.old.input }
        ensures answer { result ≡ taken.Got value }
        ensures after { self.new ≡ record self.old { input = drop 1 self.old.input } }
    {
        self.input.remove(0);
        Take::Got(u32::from(value))
    }

    /// Whether the first token of the input buffer is a control token.
    pub(crate) fn look(&self) -> Take
        ensures answer { result ≡ take_answer (found_at look self.now) }
        ensures same { chan_after self.now (found_at look self.now) ≡ self.now }
    {
        if !self.used {
            return Take::Bad;
        }
        match first_of(&self.input) {
            None => Take::Wait,
            Some(Token::Ctrl(_)) => Take::Got(1),
            Some(Token::Byte(_)) => Take::Got(0),
        }
    }

    /// The place of the first control token among the first four of the input buffer.
    pub(crate) fn look_word(&self) -> Take
        ensures answer { result ≡ take_answer (found_at look_word self.now) }
        ensures same { chan_after self.now (found_at look_word self.now) ≡ self.now }
    {
        if !self.used {
            return Take::Bad;
        }
        let place = control_place(self.input.as_slice());
        if place > 0 || self.input.len() >= 4 {
            Take::Got(place)
        } else {
            Take::Wait
        }
    }

    /// Whether a token waits in the output buffer.
    pub(crate) fn has_output(&self) -> bool
        ensures { result ≡ has_output self.now }
    {
        !self.output.is_empty()
    }

    /// Whether a token waits in the input buffer.
    pub(crate) fn has_input(&self) -> bool
        ensures { result ≡ chan_is_ready self.now }
    {
        !self.input.is_empty()
    }

    /// Whether so many tokens still fit into the output buffer.
    pub(crate) fn has_room(&self, count: u8) -> bool
        ensures { result ≡ has_room count self.now.output }
    {
        self.output.len() + usize::from(count) <= usize::from(BUFFER_TOKENS)
    }

    /// Whether so many tokens are in the input buffer, or a control token is among the first so many.
    pub(crate) fn has_tokens(&self, count: u8) -> bool
        ensures { result ≡ has_tokens count self.now.input }
    {
        has_tokens(self.input.as_slice(), count)
    }

    /// Takes the token that waits longest from the output buffer.
    pub(crate) fn pop_out(&mut self) -> Option<Token>
        ensures token { result ≡ slice_get self.old.output 0 }
        ensures rest { self.new ≡ record self.old { output = drop 1 self.old.output } }
    {
        self.output.pop_at(0)
    }

    /// Puts a token at the end of the input buffer, where it has room.
    pub(crate) fn push_in(&mut self, t: Token) -> bool
        ensures room { result ≡ has_room 1 self.old.input }
        ensures pushed { IsTrue result → self.new ≡ record self.old { input = self.old.input ++ t ∷ [] } }
        ensures unchanged { IsFalse result → self.new ≡ self.old }
    {
        if self.input.is_full() {
            return false;
        }
        self.input.push(t);
        true
    }

    /// What a snapshot keeps of it.
    pub(crate) fn state(&self) -> ChanState
        ensures value { result ≡ chan_state self.now }
        ensures facts { IsChan self.now }
    {
        ChanState {
            used: self.used,
            net: self.net,
            dest: self.dest,
            output: copy_of(&self.output),
            input: copy_of(&self.input),
        }
    }

    /// The channel end that a state says.
    pub(crate) fn of_state(state: &ChanState) -> ChanEnd
        requires facts { IsChanState state.now }
        ensures value { result ≡ chan_of state.now }
    {
        ChanEnd {
            used: state.used,
            net: state.net,
            dest: state.dest,
            output: copy_of(&state.output),
            input: copy_of(&state.input),
        }
    }
}

/// Whether so many tokens are there, or a control token is among the first so many.
fn has_tokens(tokens: &[Token], count: u8) -> bool
    ensures { result ≡ has_tokens count tokens.now }
{
    let count = usize::from(count);
    tokens.len() >= count || any_control(tokens)
}

// Whether a control token is among them.
fn any_control(tokens: &[Token]) -> bool
    ensures { result ≡ list_any is_control tokens.now }
{
    for token in tokens {
        if is_control(token) {
            return true;
        }
    }
    false
}

fn is_control(token: &Token) -> bool
    ensures { result ≡ is_control token.now }
{
    matches!(token, Token::Ctrl(_))
}

/// A word as four data bytes, the most significant first.
fn bytes_of_word(w: u32) -> [Token; 4]
    ensures { result ≡ bytes_of_word w }
{
    let [a, b, c, d] = w.to_be_bytes();
    [
        Token::Byte(a),
        Token::Byte(b),
        Token::Byte(c),
        Token::Byte(d),
    ]
}

/// The word that the first four tokens are, the most significant byte first: `None` where they are no four data bytes.
fn first_word(tokens: &[Token]) -> Option<u32>
    ensures { result ≡ (if list_any is_control (take 4 tokens.now) || nat_lt (length tokens.now) 4 then None else Some (joined 0 (take 4 tokens.now))) }
{
    match tokens {
        [
            Token::Byte(a),
            Token::Byte(b),
            Token::Byte(c),
            Token::Byte(d),
            ..
        ] => { Some(u32::from_be_bytes([*a, *b, *c, *d])) }
        _ => None,
    }
}

/// The place, 1 to 4, of the first control token among the first four tokens; 0 where there is none.
fn control_place(tokens: &[Token]) -> u32
    ensures place { result ≡ control_place 1 (take 4 tokens.now) }
    ensures any { list_any is_control (take 4 tokens.now) ≡ nat_lt 0 result }
{
    match tokens {
        [Token::Ctrl(_), ..] => 1,
        [_, Token::Ctrl(_), ..] => 2,
        [_, _, Token::Ctrl(_), ..] => 3,
        [_, _, _, Token::Ctrl(_), ..] => 4,
        _ => 0,
    }
}

/// The token that waits longest in a buffer.
fn first_of(tokens: &ArrayVec<Token, 8>) -> Option<Token>
    ensures { result ≡ slice_get tokens.now.items 0 }
{
    match tokens.as_slice().first() {
        Some(first) => Some(*first),
        None => None,
    }
}

// A buffer with the same tokens.
fn copy_of(tokens: &ArrayVec<Token, 8>) -> ArrayVec<Token, 8>
    ensures { result ≡ tokens.now }
{
    let mut copy = ArrayVec::new();
    let _ = copy.try_extend_from_slice(tokens.as_slice());
    copy
}
