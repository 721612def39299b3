//! `Network`, the link ends and the switch of a node.
ghost use Rattle.std.specs.Prelude.{ℕ, ◌≡◌, ◌≤◌, ◌+◌, false, List, Option, length, map, slice_index_or, None, IsTrue};
ghost use Rattle.std.specs.List.{AllByRecursion};
ghost use Rattle.xs_base.specs.declared.numbers.TheConstants.{EVENTS_BEFORE_SWITCH, LINK_ENDS, SWITCH_EVENTS};
ghost use Rattle.xs_model.specs.AtWork.{AtWork};
ghost use Rattle.xs_model.specs.Record.{LinkRec, NodeRec};
ghost use Rattle.net_model.specs.Links.{links_after_arrivals};
ghost use Rattle.quiet_model.specs.Still.{network_is_still};
ghost use Rattle.switch_routes.specs.Rows.{AllCountsOf, CreditedBy, SentBy, end_gaps};
ghost use Rattle.link_ends.specs.States.{IsEndState};
ghost use Rattle.switch_routes.specs.States.{input_state, place_state, AreInputStates};
ghost use Rattle.core_step.specs.Core.{NothingArrives};
ghost use Rattle.core_step.specs.Network.{NetworkStands, Brings, routes_of, counts_with_gap, first_network, EndsHaveGaps, row_by, network_by};

use processor::{Holders, Processor};
use std::marker::Model;
use switch_routes::{EndState, InputState, LinkEnd, Links, Switch};
use trace_lines::Emissions;
use xs_base::Token;
use xs_base::numbers::LINK_ENDS;
use xs_model::Arrivals;

/// A node's link ends and its switch. Contracts see a `NetworkRec` of `Rattle.core_step.specs.Network`.
#[derive(Drop)]
pub(crate) struct Network {
    links: Links,
    switch: Switch,
}

impl Model for Network {
    ghost use Rattle.core_step.specs.Network.{NetworkRec};

    ghost Value = { NetworkRec };

    ghost view = { λ n. record { switch = n.switch; links = n.links } };
}

impl Network {
    /// The network of the node with this id as it starts. `nets` has for each link end the network of its link, and `gaps`
    /// its gap in slots, 0 where there is none.
    pub(crate) fn new(id: u16, ways: [u8; 16], nets: [u8; 8], gaps: &[u32; 8]) -> Network
        ensures { result ≡ first_network id ways nets gaps.now }
    {
        Network {
            links: links_with(gaps),
            switch: Switch::new(id, ways, nets),
        }
    }

    /// The network of the node with this id, with ways, networks and gaps as `new` has them, whose inputs and link ends a
    /// snapshot says.
    pub(crate) fn of_state(
        id: u16,
        ways: [u8; 16],
        nets: [u8; 8],
        gaps: &[u32; 8],
        inputs: &[InputState; 40],
        ends: &[EndState; 8],
    ) -> Network
        requires inputs { AreInputStates inputs.now }
        requires ends { AllByRecursion IsEndState ends.now }
        requires gaps { EndsHaveGaps gaps.now ends.now }
        ensures value { result ≡ network_by id ways nets gaps.now inputs.now ends.now }
        ensures count { length ends.now ≡ LINK_ENDS }
    {
        Network {
            links: links_of(gaps, ends),
            switch: Switch::of_state(id, ways, nets, inputs),
        }
    }

    /// What a snapshot keeps of the inputs of the switch.
    pub(crate) fn inputs(&self) -> [InputState; 40]
        ensures { result ≡ map input_state self.now.switch.inputs }
    {
        self.switch.state()
    }

    /// What a snapshot keeps of the link ends.
    pub(crate) fn ends(&self) -> [EndState; 8]
        ensures { result ≡ map place_state self.now.links }
    {
        self.links.state()
    }

    /// What arrives by the link ends in a slot, if anything does, and then the switch, which works with the units' channel
    /// ends. It is not asked where the network is still.
    pub(crate) fn bring(
        &mut self,
        units: &mut Processor,
        arrives: bool,
        slot: u32,
        arrivals: &Arrivals,
        out: &mut Emissions,
    )
        requires arrives { arrives ≡ false → NothingArrives arrivals.now }
        requires room { length out.old.events ≤ EVENTS_BEFORE_SWITCH }

        ensures brings { (m : AtWork) → NetworkStands slot self.old units.old.chans out.old m → Brings slot arrivals.now (routes_of self.old) self.new units.new.chans out.new m }
        ensures units { units.new ≡ record units.old { chans = units.new.chans } }
        ensures routes { routes_of self.new ≡ routes_of self.old }
        ensures sent { SentBy slot self.old.links → SentBy slot self.new.links }
        ensures events { length out.new.events ≤ length out.old.events + SWITCH_EVENTS }
    {
        take_in(&mut self.links, arrives, arrivals);
        if self.switch.still(units.chans(), &self.links) {
            return;
        }
        self.switch
            .moves(units.chans_mut(), &mut self.links, slot, out);
    }

    /// Whether the network is still, with the units' channel ends: no token waits to go anywhere, and no input of the switch acts
    /// though none waits.
    pub(crate) fn still(&self, units: &Processor) -> bool
        ensures value { (rec : NodeRec) → units.now ≡ rec.core → self.now.switch.inputs ≡ rec.inputs → AllCountsOf self.now.links rec.links →
            result ≡ network_is_still rec.core.chans rec.links rec.inputs }
    {
        self.switch.still(units.chans(), &self.links)
    }
}

impl Holders for Network {
    ghost use Rattle.net_model.specs.Switch.{is_busy_among};

    ghost busy = { λ n c. is_busy_among n.switch.inputs c };

    fn is_busy(&self, c: u8) -> bool {
        self.switch.held(c)
    }
}

// The link ends with these gaps in slots, by number; a gap of 0 says that there is none.
fn links_with(gaps: &[u32; 8]) -> Links
    ensures { result ≡ map counts_with_gap gaps.now }
{
    let mut links = Links::new();
    for end in 0..LINK_ENDS {
        let gap = gaps[end as usize];
        if gap > 0 {
            links.set(end, LinkEnd::new(gap));
        }
    }
    links
}

// The link ends with these gaps that a snapshot says, by number.
fn links_of(gaps: &[u32; 8], ends: &[EndState; 8]) -> Links
    requires ends { AllByRecursion IsEndState ends.now }
    requires gaps { EndsHaveGaps gaps.now ends.now }
    ensures value { result ≡ row_by gaps.now ends.now }
    ensures count { length ends.now ≡ LINK_ENDS }
{
    let mut links = Links::new();
    for end in 0..LINK_ENDS {
        let state = &ends[end as usize];
        if state.present {
            links.set(end, LinkEnd::of_state(gaps[end as usize], state));
        }
    }
    links
}

// What arrives by the link ends, if anything does.
fn take_in(links: &mut Links, arrives: bool, arrivals: &Arrivals)
    requires { arrives ≡ false → NothingArrives arrivals.now }
    ensures stands { (slot : ℕ) (rec : List (Option LinkRec)) → AllCountsOf links.old rec →
        AllCountsOf links.new (links_after_arrivals slot arrivals.now.tokens arrivals.now.credits 0 rec) }
    ensures credited { (slot : ℕ) (rec : List (Option LinkRec)) → CreditedBy slot rec →
        CreditedBy slot (links_after_arrivals slot arrivals.now.tokens arrivals.now.credits 0 rec) }
    ensures gaps { end_gaps links.new ≡ end_gaps links.old }
    ensures sent { (slot : ℕ) → SentBy slot links.old → SentBy slot links.new }
{
    if arrives {
        links.arrivals(arrivals);
    }
}

/// Whether no token and no credit arrives by any link end.
pub(crate) fn nothing_arrives(arrivals: &Arrivals) -> bool
    ensures { IsTrue result → NothingArrives arrivals.now }
{
    are_none(&arrivals.tokens) && are_false(&arrivals.credits)
}

// Here and below no loop ends early: to look at all link ends at once is quicker than a branch for each.
fn are_none(tokens: &[Option<Token>; 8]) -> bool
    ensures { IsTrue result → (end : ℕ) → slice_index_or tokens.now end None ≡ None }
{
    let mut some = false;
    for end in 0..8usize {
        some |= tokens[end].is_some();
    }
    !some
}

fn are_false(credits: &[bool; 8]) -> bool
    ensures { IsTrue result → (end : ℕ) → slice_index_or credits.now end false ≡ false }
{
    let mut some = false;
    for end in 0..8usize {
        some |= credits[end];
    }
    !some
}
