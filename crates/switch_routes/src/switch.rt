//! `Switch`, the switch of a node.
ghost use Rattle.std.specs.Prelude.{◌≡◌, ◌<◌, ◌≤◌, ◌+◌, List, map, length, IsTrue};
ghost use Rattle.xs_base.specs.Numbers.{Slot};
ghost use Rattle.xs_base.specs.declared.numbers.TheConstants.{CHAN_ENDS, SWITCH_EVENTS, EVENTS_BEFORE_SWITCH};
ghost use Rattle.xs_model.specs.declared.event.Event.{Event};
ghost use Rattle.xs_model.specs.Record.{NodeRec};
ghost use Rattle.xs_model.specs.AtWork.{AtWork};
ghost use Rattle.net_model.specs.Switch.{moves, chan_is_busy};
ghost use Rattle.quiet_model.specs.Still.{network_is_still};
ghost use Rattle.switch_routes.specs.Rows.{AllCountsOf, SentBy, end_gaps};
ghost use Rattle.switch_routes.specs.Switch.{StandsIn, idle_switch, known_routes, with_parts, emitted_after};
ghost use Rattle.switch_routes.specs.Work.{GoesBy};
ghost use Rattle.switch_routes.specs.States.{input_state, switch_by, AreInputStates};

use crate::able::able;
use crate::inputs::{Input, Inputs};
use crate::links::Links;
use crate::state::InputState;
use crate::ways::Ways;
use crate::work::Work;
use bit_masks::wide::{lowest, without};
use chan_ends::ChanEnds;
use std::marker::Model;
use trace_lines::Emissions;
use xs_base::numbers::LINK_ENDS;

/// The switch of a node: it takes tokens from link ends and channel ends, and gives them on to channel ends and link
/// ends. Contracts see it as a `SwitchRec` of `Rattle.switch_routes.specs.Switch`. See docs/LINKS.md.
#[derive(Drop)]
pub struct Switch {
    ways: Ways,
    inputs: Inputs,
}

impl Model for Switch {
    ghost use Rattle.switch_routes.specs.Switch.{SwitchRec};

    ghost Value = { SwitchRec };

    ghost use Rattle.switch_routes.specs.InsideSwitch.{switch_of};

    ghost view = { switch_of };
}

impl Switch {
    /// The switch of the node with this id, where every input is idle. `ways` has for each bit of an id, from the
    /// lowest, the link ends that lead to the ids that differ in it as the highest bit: bit 0 for link end 0. `nets` has for each
    /// link end the network of its link.
    pub fn new(node: u16, ways: [u8; 16], nets: [u8; 8]) -> Switch
        ensures value { result ≡ idle_switch node ways nets }
    {
        Switch {
            ways: Ways::new(node, ways, nets),
            inputs: Inputs::new(),
        }
    }

    /// What a snapshot keeps of each input: those of link ends 0 to 7, then those of channel ends 0 to 31. It takes no memory. See
    /// docs/SNAPSHOTS.md.
    pub fn state(&self) -> [InputState; 40]
        ensures value { result ≡ map input_state self.now.inputs }
    {
        self.inputs.states()
    }

    /// The switch of the node with this id, these ways and these networks of link ends, as `new` has them, whose inputs a snapshot
    /// says. Only those of link ends are in a header. It takes no memory. See docs/SNAPSHOTS.md.
    pub fn of_state(node: u16, ways: [u8; 16], nets: [u8; 8], inputs: &[InputState; 40]) -> Switch
        requires facts { AreInputStates inputs.now }
        ensures value { result ≡ switch_by node ways nets inputs.now }
    {
        Switch {
            ways: Ways::new(node, ways, nets),
            inputs: Inputs::of_states(inputs),
        }
    }

    /// One step of each of the 40 inputs in a slot, in their order. What happens is put after the events of `out`, and
    /// so are the tokens and the credits that leave by the link ends. See docs/LINKS.md.
    pub fn moves(&mut self, chans: &mut ChanEnds, links: &mut Links, slot: u32, out: &mut Emissions)
        requires room { length out.old.events ≤ EVENTS_BEFORE_SWITCH }

        ensures stands { (before : List Event) (m : AtWork) →
            StandsIn slot self.old chans.old links.old m.rec → out.old ≡ emitted_after before slot m →
            StandsIn slot self.new chans.new links.new (moves (known_routes self.old links.old) slot m).rec }
        ensures emitted { (before : List Event) (m : AtWork) →
            StandsIn slot self.old chans.old links.old m.rec → out.old ≡ emitted_after before slot m →
            out.new ≡ emitted_after before slot (moves (known_routes self.old links.old) slot m) }
        ensures rest { (before : List Event) (m : AtWork) →
            StandsIn slot self.old chans.old links.old m.rec → out.old ≡ emitted_after before slot m →
            (moves (known_routes self.old links.old) slot m).rec
            ≡ with_parts m.rec self.new.inputs chans.new (moves (known_routes self.old links.old) slot m).rec.links }
        ensures id { self.new.id ≡ self.old.id }
        ensures ways { self.new.ways ≡ self.old.ways }
        ensures nets { self.new.nets ≡ self.old.nets }
        ensures gaps { end_gaps links.new ≡ end_gaps links.old }
        ensures sent { SentBy slot links.old → SentBy slot links.new }
        ensures events { length out.new.events ≤ length out.old.events + SWITCH_EVENTS }
    {
        let mut work = Work {
            ways: self.ways,
            slot,
            inputs: &mut self.inputs,
            chans,
            links,
            out,
        };
        work.steps();
    }

    /// Whether the network is still: no token waits in the output buffer of a channel end or at a link end, and no input looks
    /// for a way or sends a header. `moves` then changes nothing, and gives nothing, in any slot. See docs/LINKS.md.
    pub fn still(&self, chans: &ChanEnds, links: &Links) -> bool
        ensures value { (rec : NodeRec) → self.now.inputs ≡ rec.inputs → chans.now ≡ rec.core.chans → AllCountsOf links.now rec.links →
            result ≡ network_is_still rec.core.chans rec.links rec.inputs }
        ensures rests { IsTrue result → (slot : Slot) (m : AtWork) → StandsIn slot self.now chans.now links.now m.rec →
            moves (known_routes self.now links.now) slot m ≡ m }
    {
        if chans.is_sending() {
            return false;
        }
        !links.some_wait() && !self.inputs.some_alone()
    }

    /// Whether channel end `c`, 0 to 31, is at work: its own input is not idle, or some input holds it.
    pub fn held(&self, c: u8) -> bool
        requires within { c < CHAN_ENDS }
        ensures value { (rec : NodeRec) → self.now.inputs ≡ rec.inputs → result ≡ chan_is_busy rec c }
    {
        match self.inputs.state(LINK_ENDS + c) {
            Input::Idle => self.inputs.chan_is_held(c),
            _ => true,
        }
    }
}

impl Work<'_> {
    // The steps of all inputs. Those that cannot act are passed over.
    fn steps(&mut self)
        requires room { length self.old.out.now.events ≤ EVENTS_BEFORE_SWITCH }
        ensures { GoesBy SWITCH_EVENTS (λ begun. moves begun.routes begun.slot) self.old self.new }
    {
        let mut left = able(self.inputs, self.chans, self.links);
        while left != 0 {
            let input = lowest(left);
            self.step(input);
            left = without(left, input);
        }
    }
}
