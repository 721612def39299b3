//! Rules 2, 4, 5 and 6 of the switch: what one input does in a slot with the tokens that wait there.
ghost use Rattle.std.specs.Prelude.{◌≡◌, ◌<◌, ◌≤◌, ◌+◌, true};
ghost use Rattle.xs_base.specs.declared.numbers.TheConstants.{INPUTS, LINK_ENDS, CHAN_ENDS, HEADER_BYTES};
ghost use Rattle.xs_base.specs.declared.token.Token.TheVariants.{Byte};
ghost use Rattle.xs_model.specs.Record.{Out};
ghost use Rattle.net_model.specs.Switch.{local_step, deliver, lost_step, head_step, after_header, loses, out_step, out_token, waiting_at, header_byte, is_pause, to_state, send};
ghost use Rattle.switch_routes.specs.Inputs.{state_of, InputFits};
ghost use Rattle.switch_routes.specs.Rows.{counts_at, may_send_by};
ghost use Rattle.switch_routes.specs.Work.{GoesBy, HasRoom};

use crate::inputs::Input;
use crate::work::Work;
use xs_base::Token;
use xs_base::numbers::{HEADER_BYTES, PAUSE};
use xs_model::{Dest, Happen};

/// A link end that an input holds, the count of header bytes that went out, 0 to 3, and its packet's destination.
#[derive(Clone, Copy)]
pub(crate) struct Held {
    pub(crate) end: u8,
    pub(crate) headers: u8,
    pub(crate) dest: Dest,
}

impl Work<'_> {
    /// A link end's input that is idle or in a header takes the token that waits. A control token is dropped.
    pub(crate) fn head_step(&mut self, input: u8, state: Input)
        requires link_end { input < LINK_ENDS }
        requires fits { InputFits state }
        ensures { GoesBy 0 (λ begun m. head_step begun.routes input (state_of state) (waiting_at m.rec input) m) self.old self.new }
    {
        if let Some(token) = self.first_waiting(input) {
            self.take_first(input);
            match token {
                Token::Byte(byte) => {
                    let net = self.ways.net_of_end(input);
                    self.set(input, after_header(state, byte, net));
                }
                Token::Ctrl(_) => {}
            }
        }
    }

    /// An input that holds channel end `chan`, 0 to 31: the token that waits goes there.
    pub(crate) fn local_step(&mut self, input: u8, chan: u8)
        requires input { input < INPUTS }
        requires chan { chan < CHAN_ENDS }
        requires room { HasRoom self.old }
        ensures { GoesBy 1 (λ begun m. local_step input chan (waiting_at m.rec input) m) self.old self.new }
    {
        if let Some(token) = self.first_waiting(input) {
            self.deliver(input, chan, token);
        }
    }

    // A token goes into a channel end's input buffer, where it has room. PAUSE is dropped.
    fn deliver(&mut self, input: u8, chan: u8, token: Token)
        requires input { input < INPUTS }
        requires chan { chan < CHAN_ENDS }
        requires room { HasRoom self.old }
        ensures { GoesBy 1 (λ begun. deliver input chan token) self.old self.new }
    {
        if is_pause(token) {
            self.take_first(input);
            self.after_token(input, Input::Local { chan }, token);
        } else if self.put_into(chan, token) {
            self.take_first(input);
            self.tell(Happen::Chan { chan, token });
            self.after_token(input, Input::Local { chan }, token);
        }
    }

    /// An input that holds a link end: where it may send, first the header bytes go out, then the tokens that wait.
    pub(crate) fn out_step(&mut self, input: u8, held: Held)
        requires input { input < INPUTS }
        requires end { held.end < LINK_ENDS }
        requires headers { held.headers ≤ HEADER_BYTES }
        ensures { GoesBy 0 (λ begun. out_step begun.routes begun.slot input held.end held.headers held.dest) self.old self.new }
    {
        if !self.links.can_send(held.end, self.slot) {
            return;
        }
        if held.headers < HEADER_BYTES {
            self.out_header(input, held);
        } else {
            self.out_token(input, held);
        }
    }

    // The next header byte goes out.
    fn out_header(&mut self, input: u8, held: Held)
        requires input { input < INPUTS }
        requires end { held.end < LINK_ENDS }
        requires headers { held.headers < HEADER_BYTES }
        requires allowed { may_send_by self.old.slot (counts_at self.old.links.now held.end) ≡ true }
        ensures { GoesBy 0 (λ begun m. to_state input (Out held.end (held.headers + 1) held.dest)
            (send begun.slot held.end (Byte (header_byte held.dest held.headers)) m)) self.old self.new }
    {
        let byte = header_byte(held.dest, held.headers);
        self.send(held.end, Token::Byte(byte));
        let state = Input::Out {
            end: held.end,
            headers: held.headers + 1,
            dest: held.dest,
        };
        self.set(input, state);
    }

    // The first token that waits goes out, if one does.
    fn out_token(&mut self, input: u8, held: Held)
        requires input { input < INPUTS }
        requires end { held.end < LINK_ENDS }
        requires headers { held.headers ≤ HEADER_BYTES }
        requires allowed { may_send_by self.old.slot (counts_at self.old.links.now held.end) ≡ true }
        ensures { GoesBy 0 (λ begun m. out_token begun.slot input held.end held.headers held.dest (waiting_at m.rec input) m) self.old self.new }
    {
        if let Some(token) = self.first_waiting(input) {
            self.take_first(input);
            self.send(held.end, token);
            let state = Input::Out {
                end: held.end,
                headers: held.headers,
                dest: held.dest,
            };
            self.after_token(input, state, token);
        }
    }

    /// An input whose packet is lost drops the token that waits.
    pub(crate) fn lost_step(&mut self, input: u8)
        requires input { input < INPUTS }
        ensures { GoesBy 0 (λ begun m. lost_step input (waiting_at m.rec input) m) self.old self.new }
    {
        if let Some(token) = self.first_waiting(input) {
            self.take_first(input);
            self.after_token(input, Input::Lost, token);
        }
    }

    /// A packet that has no way is lost.
    pub(crate) fn lose(&mut self, input: u8, dest: Dest)
        requires input { input < INPUTS }
        requires room { HasRoom self.old }
        ensures { GoesBy 1 (λ begun. loses input dest) self.old self.new }
    {
        self.set(input, Input::Lost);
        self.tell(Happen::Lost { id: dest.id() });
    }
}

// The state of a link end, whose link has this network, after one more header byte.
fn after_header(state: Input, byte: u8, net: u8) -> Input
    requires fits { InputFits state }
    ensures value { state_of result ≡ after_header net (state_of state) byte }
    ensures fits { InputFits result }
{
    match state {
        Input::Idle => Input::Head1 { high: byte },
        Input::Head1 { high } => Input::Head2 { high, low: byte },
        Input::Head2 { high, low } => Input::Want {
            dest: Dest {
                node: u16::from(high) * 256 + u16::from(low),
                chan: byte,
            },
            net,
        },
        other => other,
    }
}

// Whether a token is PAUSE.
fn is_pause(token: Token) -> bool
    ensures value { result ≡ is_pause token }
{
    match token {
        Token::Byte(_) => false,
        Token::Ctrl(value) => value == PAUSE,
    }
}

// The header byte with this number: the high and the low byte of the node's id, and the channel end's number.
fn header_byte(dest: Dest, headers: u8) -> u8
    requires headers { headers < HEADER_BYTES }
    ensures value { result ≡ header_byte dest headers }
{
    match headers {
        0 => (dest.node / 256) as u8,
        1 => (dest.node % 256) as u8,
        _ => dest.chan,
    }
}
