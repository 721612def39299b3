//! Rules 1 and 3 of the switch: how a packet begins, and where it goes on. And the step of an input.
ghost use Rattle.std.specs.Prelude.{◌≡◌, ◌<◌, ◌≤◌, ◌||◌, ◌&&◌, ◌==◌, not, nat_lt, IfSome, IsTrue};
ghost use Rattle.std.specs.Int.{bit_at};
ghost use Rattle.xs_base.specs.declared.numbers.TheConstants.{INPUTS, LINK_ENDS, CHAN_ENDS};
ghost use Rattle.xs_model.specs.Record.{NodeRec, Idle, chan_of};
ghost use Rattle.net_model.specs.Ways.{Here, Behind};
ghost use Rattle.net_model.specs.Switch.{want_step, want_way, free_end, end_is_held, packet_step, start_packet, link_head_step, step_at, input_step, waiting_at, chan_of_input};
ghost use Rattle.chan_ends.specs.Ends.{chan_at};
ghost use Rattle.switch_routes.specs.Inputs.{state_of, InputFits};
ghost use Rattle.switch_routes.specs.Work.{GoesBy, HasRoom};

use crate::inputs::{Input, Inputs};
use crate::steps::Held;
use crate::ways::Way;
use crate::work::Work;
use bit_masks::has_bit;
use chan_ends::ChanEnds;
use xs_base::numbers::{CHAN_ENDS, LINK_ENDS};
use xs_model::Dest;

impl Work<'_> {
    /// The step of an input, by its state.
    pub(crate) fn step(&mut self, input: u8)
        requires input { input < INPUTS }
        requires room { HasRoom self.old }
        ensures { GoesBy 1 (λ begun. input_step begun.routes begun.slot input) self.old self.new }
    {
        let state = self.inputs.state(input);
        match state {
            Input::Idle => self.idle_step(input),
            Input::Head1 { .. } => self.link_head_step(input, state),
            Input::Head2 { .. } => self.link_head_step(input, state),
            Input::Want { dest, net } => self.want_step(input, dest, net),
            Input::Local { chan } => self.local_step(input, chan),
            Input::Out { end, headers, dest } => self.out_step(input, Held { end, headers, dest }),
            Input::Lost => self.lost_step(input),
        }
    }

    // An idle input: a link end's takes a header byte, a channel end's begins a packet.
    fn idle_step(&mut self, input: u8)
        requires input { input < INPUTS }
        requires room { HasRoom self.old }
        ensures { GoesBy 1 (λ begun. step_at begun.routes begun.slot input Idle) self.old self.new }
    {
        if input < LINK_ENDS {
            self.head_step(input, Input::Idle);
        } else {
            self.packet_step(input);
        }
    }

    // Only a link end takes header bytes.
    fn link_head_step(&mut self, input: u8, state: Input)
        requires input { input < INPUTS }
        requires fits { InputFits state }
        ensures { GoesBy 0 (λ begun. link_head_step begun.routes input (state_of state)) self.old self.new }
    {
        if input < LINK_ENDS {
            self.head_step(input, state);
        }
    }

    // A channel end with tokens that wait begins a packet.
    fn packet_step(&mut self, input: u8)
        requires input { input < INPUTS }
        requires chan_end { LINK_ENDS ≤ input }
        requires room { HasRoom self.old }
        ensures { GoesBy 1 (λ begun m. packet_step (want_step begun.routes begun.slot input) input (waiting_at m.rec input) m) self.old self.new }
    {
        if let Some(_) = self.first_waiting(input) {
            self.start_packet(input);
        }
    }

    // A packet to the channel end's destination begins, if it has one, by its network.
    fn start_packet(&mut self, input: u8)
        requires input { input < INPUTS }
        requires chan_end { LINK_ENDS ≤ input }
        requires room { HasRoom self.old }
        ensures { GoesBy 1 (λ begun m. start_packet (want_step begun.routes begun.slot input) input (chan_of m.rec.core (chan_of_input input)).net
            (chan_of m.rec.core (chan_of_input input)).dest m) self.old self.new }
    {
        if let Some(id) = self.chans.dest(input - LINK_ENDS) {
            let dest = Dest::of_id(id);
            let net = self.chans.net(input - LINK_ENDS);
            self.set(input, Input::Want { dest, net });
            self.want_step(input, dest, net);
        }
    }

    // An input that wants to go on to a destination by a network.
    fn want_step(&mut self, input: u8, dest: Dest, net: u8)
        requires input { input < INPUTS }
        requires room { HasRoom self.old }
        ensures { GoesBy 1 (λ begun. want_step begun.routes begun.slot input dest net) self.old self.new }
    {
        match self.ways.way_to(dest.node, net) {
            Way::Here => self.want_chan(input, dest),
            Way::Behind { ends } => self.want_end(input, dest, ends),
        }
    }

    // To a channel end of this node: it is held from now on, unless another input holds it.
    fn want_chan(&mut self, input: u8, dest: Dest)
        requires input { input < INPUTS }
        requires room { HasRoom self.old }
        ensures { GoesBy 1 (λ begun. want_way begun.routes begun.slot input dest Here) self.old self.new }
    {
        let chan = dest.chan;
        if !is_in_use(chan, self.chans) {
            self.lose(input, dest);
        } else if !self.inputs.chan_is_held(chan) {
            self.set(input, Input::Local { chan });
            self.local_step(input, chan);
        }
    }

    // To another node, behind some of the link ends in a mask: the lowest that is free is held from now on.
    fn want_end(&mut self, input: u8, dest: Dest, mask: u8)
        requires input { input < INPUTS }
        requires room { HasRoom self.old }
        ensures { GoesBy 1 (λ begun. want_way begun.routes begun.slot input dest (Behind mask)) self.old self.new }
    {
        if mask == 0 {
            self.lose(input, dest);
        } else if let Some(end) = free_end(mask, self.inputs) {
            let headers = 0;
            self.set(input, Input::Out { end, headers, dest });
            self.out_step(input, Held { end, headers, dest });
        }
    }
}

// Whether a channel end is there and in use.
fn is_in_use(chan: u8, chans: &ChanEnds) -> bool
    ensures value { (not (nat_lt chan CHAN_ENDS) || not (chan_at chans.now chan).used) ≡ not result }
    ensures within { IsTrue result → chan < CHAN_ENDS }
{
    chan < CHAN_ENDS && chans.used(chan)
}

// The lowest link end in a mask that no input holds.
fn free_end(mask: u8, inputs: &Inputs) -> Option<u8>
    ensures value { (rec : NodeRec) → inputs.now ≡ rec.inputs → result ≡ free_end rec mask 0 LINK_ENDS }
    ensures within { IfSome result (λ end. end < LINK_ENDS) }
{
    for end in 0..LINK_ENDS {
        if is_free(mask, end, inputs) {
            return Some(end);
        }
    }
    None
}

// Whether a link end is in a mask, and no input holds it.
fn is_free(mask: u8, end: u8, inputs: &Inputs) -> bool
    requires within { end < LINK_ENDS }
    ensures value { (rec : NodeRec) → inputs.now ≡ rec.inputs → result ≡ ((bit_at mask end == 1) && not (end_is_held rec end)) }
{
    has_bit(u32::from(mask), end) && !inputs.end_is_held(end)
}
