//! `Work`, the switch at work in a slot, and the moves that its rules are made of.
ghost use Rattle.std.specs.Prelude.{ℕ, ◌≡◌, ◌<◌, true, [], ◌∷◌, ◌++◌, drop, MatchOption, IsTrue, IsFalse};
ghost use Rattle.xs_base.specs.declared.numbers.TheConstants.{INPUTS, LINK_ENDS, CHAN_ENDS};
ghost use Rattle.xs_model.specs.Waits.{has_room};
ghost use Rattle.xs_model.specs.AtWork.{it_happens};
ghost use Rattle.xs_model.specs.Events.{NamesWhatIsThere};
ghost use Rattle.net_model.specs.Switch.{take_first, put_into, send, to_state, after_token, ends_packet};
ghost use Rattle.chan_ends.specs.Ends.{chan_at};
ghost use Rattle.switch_routes.specs.Inputs.{state_of, InputFits};
ghost use Rattle.switch_routes.specs.Rows.{counts_at, may_send_by, waiting_in};
ghost use Rattle.switch_routes.specs.Work.{GoesBy, HasRoom};

use crate::inputs::{Input, Inputs};
use crate::links::Links;
use crate::ways::Ways;
use chan_ends::ChanEnds;
use trace_lines::Emissions;
use xs_base::Token;
use xs_base::numbers::{END, LINK_ENDS, PAUSE};
use xs_model::{Event, Happen};

/// The switch at work in a slot: all that its rules read and change.
#[derive(Drop)]
pub(crate) struct Work<'a> {
    pub(crate) ways: Ways,
    pub(crate) slot: u32,
    pub(crate) inputs: &'a mut Inputs,
    pub(crate) chans: &'a mut ChanEnds,
    pub(crate) links: &'a mut Links,
    pub(crate) out: &'a mut Emissions,
}

impl Work<'_> {
    /// The token that waits longest at an input: `None` exactly where none waits.
    pub(crate) fn first_waiting(&self, input: u8) -> Option<Token>
        requires within { input < INPUTS }
        ensures cases { MatchOption result (waiting_in self.now.chans.now self.now.links.now input ≡ [])
            (λ t. waiting_in self.now.chans.now self.now.links.now input ≡ t ∷ drop 1 (waiting_in self.now.chans.now self.now.links.now input)) }
    {
        if input < LINK_ENDS {
            self.links.first(input)
        } else {
            self.chans.first_out(input - LINK_ENDS)
        }
    }

    /// Takes the token that waits longest at an input. Where it leaves a link end's buffer, a credit leaves by that end.
    pub(crate) fn take_first(&mut self, input: u8)
        requires within { input < INPUTS }
        ensures goes { GoesBy 0 (λ begun. take_first input) self.old self.new }
        ensures may_send { (slot e : ℕ) → may_send_by slot (counts_at self.new.links.now e) ≡ may_send_by slot (counts_at self.old.links.now e) }
    {
        if input < LINK_ENDS {
            self.links.pop(input);
            self.out.set_credit(input);
        } else {
            let _ = self.chans.pop_out(input - LINK_ENDS);
        }
    }

    /// Puts a token into a channel end's input buffer, where it has room.
    pub(crate) fn put_into(&mut self, chan: u8, token: Token) -> bool
        requires within { chan < CHAN_ENDS }
        ensures room { result ≡ has_room 1 (chan_at self.old.chans.now chan).input }
        ensures put { IsTrue result → GoesBy 0 (λ begun. put_into chan token) self.old self.new }
        ensures unchanged { IsFalse result → GoesBy 0 (λ begun m. m) self.old self.new }
    {
        self.chans.push_in(chan, token)
    }

    /// A token leaves by a link end that may send in this slot.
    pub(crate) fn send(&mut self, end: u8, token: Token)
        requires within { end < LINK_ENDS }
        requires allowed { may_send_by self.old.slot (counts_at self.old.links.now end) ≡ true }
        ensures { GoesBy 0 (λ begun. send begun.slot end token) self.old self.new }
    {
        self.links.sent(end, self.slot);
        self.out.set_token(end, token);
    }

    /// Tells what happens.
    pub(crate) fn tell(&mut self, what: Happen)
        requires room { HasRoom self.old }
        requires within { NamesWhatIsThere what }
        ensures { GoesBy 1 (λ begun. it_happens what) self.old self.new }
    {
        let slot = self.slot;
        self.out.add_event(Event { slot, what });
    }

    /// Puts an input into a state.
    pub(crate) fn set(&mut self, input: u8, state: Input)
        requires within { input < INPUTS }
        requires fits { InputFits state }
        ensures { GoesBy 0 (λ begun. to_state input (state_of state)) self.old self.new }
    {
        self.inputs.set(input, state);
    }

    /// Puts an input into its state after a token of its packet: END and PAUSE end the packet.
    pub(crate) fn after_token(&mut self, input: u8, state: Input, token: Token)
        requires within { input < INPUTS }
        requires fits { InputFits state }
        ensures { GoesBy 0 (λ begun. after_token input (state_of state) token) self.old self.new }
    {
        let after = if ends_packet(token) {
            Input::Idle
        } else {
            state
        };
        self.set(input, after);
    }
}

// Whether a token ends its packet.
fn ends_packet(token: Token) -> bool
    ensures value { result ≡ ends_packet token }
{
    match token {
        Token::Byte(_) => false,
        Token::Ctrl(value) => value == END || value == PAUSE,
    }
}
