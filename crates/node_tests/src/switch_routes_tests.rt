//! Nodes whose switches move tokens, slot by slot.
ghost use Rattle.std.specs.Prelude.{◌<◌};

use chan_ends::{ChanEnds, Put};
use switch_routes::{LinkEnd, Links, Switch, Token};
use trace_lines::Emissions;
use xs_base::chan_id;
use xs_model::{Arrivals, Happen};

const END: Token = Token::Ctrl(1);

const SLOTS: u8 = 40;

const DELAY: u8 = 5;

// A node whose channel end 0 is in use, with link end 0.
#[derive(Drop)]
struct Node {
    switch: Switch,
    chans: ChanEnds,
    links: Links,
    out: Emissions,
    // What left by link end 0 in each slot, and what was put into channel end 0.
    tokens: [Option<Token>; 40],
    credits: [bool; 40],
    delivered: [Option<Token>; 40],
}

impl Node {
    fn new(id: u16) -> Node {
        let mut links = Links::new();
        links.set(0, LinkEnd::new(4));
        let mut chans = ChanEnds::new(id);
        let _ = chans.alloc();
        let mut ways = [0; 16];
        ways[0] = 1;
        Node {
            switch: Switch::new(id, ways, [0; 8]),
            chans,
            links,
            out: Emissions::new(),
            tokens: [None; 40],
            credits: [false; 40],
            delivered: [None; 40],
        }
    }

    // A slot, in which this comes to link end 0.
    fn slot(&mut self, slot: u8, token: Option<Token>, credit: bool)
        requires { slot < 40 }
    {
        let mut arrivals = Arrivals {
            tokens: [None; 8],
            credits: [false; 8],
        };
        arrivals.tokens[0] = token;
        arrivals.credits[0] = credit;
        self.links.arrivals(&arrivals);
        self.out.clear();
        self.switch.moves(
            &mut self.chans,
            &mut self.links,
            u32::from(slot),
            &mut self.out,
        );
        self.tokens[slot as usize] = self.out.token(0);
        self.credits[slot as usize] = self.out.credit(0);
        for event in self.out.events() {
            if let Happen::Chan { chan: 0, token } = event.what {
                self.delivered[slot as usize] = Some(token);
            }
        }
    }
}

// The worked timeline of two nodes with one link: a delay of 5 slots and a gap of 4.
#[test]
fn a_packet_from_node_to_node(rt: HostRuntime) {
    let mut first = Node::new(0);
    let mut second = Node::new(1);
    for slot in 0..SLOTS {
        if slot < DELAY {
            first.slot(slot, None, false);
            second.slot(slot, None, false);
        } else {
            let then = (slot - DELAY) as usize;
            first.slot(slot, second.tokens[then], second.credits[then]);
            second.slot(slot, first.tokens[then], first.credits[then]);
        }
        if slot == 12 {
            let set = first.chans.set_dest(0, chan_id(1, 0));
            assert!(rt; set == Ok(()) && first.chans.put(0, END) == Put::Done);
        }
        assert!(rt;
            first.switch.held(0) == (13..25).contains(&slot),
            "slot {slot}"
        );
    }
    let mut tokens = [None; 40];
    tokens[13] = Some(Token::Byte(0));
    tokens[17] = Some(Token::Byte(1));
    tokens[21] = Some(Token::Byte(0));
    tokens[25] = Some(END);
    let mut credits = [false; 40];
    credits[18] = true;
    credits[22] = true;
    credits[26] = true;
    credits[30] = true;
    let mut delivered = [None; 40];
    delivered[30] = Some(END);
    assert!(rt;
        first.tokens == tokens && second.credits == credits && second.delivered == delivered
    );
    for end in 0..=255u8 {
        assert!(rt;
            first.links.end(end).is_some() == (end == 0),
            "link end {end}"
        );
    }
}

// Node 0 with channel ends 0 to 3 in use, and with link ends 2, 3 and 5, which lead to node 1.
#[derive(Drop)]
struct Hub {
    switch: Switch,
    chans: ChanEnds,
    links: Links,
    out: Emissions,
}

impl Hub {
    fn new() -> Hub {
        Hub::with_nets([0; 8])
    }

    // The networks of its link ends are these.
    fn with_nets(nets: [u8; 8]) -> Hub {
        let mut chans = ChanEnds::new(0);
        for _ in 0..4u8 {
            let _ = chans.alloc();
        }
        let mut links = Links::new();
        links.set(2, LinkEnd::new(4));
        links.set(3, LinkEnd::new(4));
        links.set(5, LinkEnd::new(4));
        let mut ways = [0; 16];
        ways[0] = 0b0010_1100;
        Hub {
            switch: Switch::new(0, ways, nets),
            chans,
            links,
            out: Emissions::new(),
        }
    }

    // A program sends a token by channel end `c` to the one with this identifier.
    fn send(&mut self, c: u8, dest: u32, token: Token)
        requires { c < 4 }
    {
        let _ = self.chans.set_dest(c, dest);
        let _ = self.chans.put(c, token);
    }

    // A slot: the tokens that were put into channel end 2, of which there are at most three.
    fn slot(&mut self, slot: u32) -> [Option<Token>; 3] {
        self.out.clear();
        self.switch
            .moves(&mut self.chans, &mut self.links, slot, &mut self.out);
        let mut tokens = [None; 3];
        let mut count = 0;
        for event in self.out.events() {
            if let Happen::Chan { chan: 2, token } = event.what {
                if count < 3 {
                    tokens[count] = Some(token);
                    count += 1;
                }
            }
        }
        tokens
    }
}

#[test]
fn the_lowest_free_link_end_is_taken(rt: HostRuntime) {
    let mut hub = Hub::new();
    for c in 0..4u8 {
        hub.send(c, chan_id(1, c), Token::Byte(7));
    }
    let _ = hub.slot(0);
    let first = Some(Token::Byte(0));
    let tokens = [
        hub.out.token(2),
        hub.out.token(3),
        hub.out.token(4),
        hub.out.token(5),
    ];
    // The fourth packet waits for a link end.
    assert!(rt; tokens == [first, first, None, first] && hub.switch.held(3));
    hub.send(1, chan_id(1, 1), END);
    for slot in 1..17u32 {
        let _ = hub.slot(slot);
    }
    // In slot 16 the second packet's last token went out, and in the same slot link end 3 is held for the fourth, whose
    // header has to wait for the gap.
    let last = hub.out.token(3);
    for slot in 17..21u32 {
        let _ = hub.slot(slot);
    }
    assert!(rt; last == Some(END) && hub.out.token(3) == first);
}

// Link end 5 is of network 2, and link ends 2 and 3 of network 1.
const NETS: [u8; 8] = [0, 0, 1, 1, 0, 2, 0, 3];

#[test]
fn a_packet_goes_by_its_network(rt: HostRuntime) {
    let mut hub = Hub::with_nets(NETS);
    let set = [
        hub.chans.set_net(0, 2),
        hub.chans.set_net(1, 1),
        hub.chans.set_net(2, 1),
        hub.chans.set_net(3, 2),
    ];
    for c in 0..4u8 {
        hub.send(c, chan_id(1, c), Token::Byte(7));
    }
    let _ = hub.slot(0);
    let first = Some(Token::Byte(0));
    let tokens = [hub.out.token(2), hub.out.token(3), hub.out.token(5)];
    // The fourth packet waits for link end 5, also where its channel end is of another network by now.
    let set_late = (hub.chans.set_net(3, 1), hub.switch.held(3));
    hub.send(0, chan_id(1, 0), END);
    hub.send(1, chan_id(1, 1), END);
    for slot in 1..17u32 {
        let _ = hub.slot(slot);
    }
    for slot in 17..21u32 {
        let _ = hub.slot(slot);
    }
    let next = [hub.out.token(2), hub.out.token(3), hub.out.token(5)];
    assert!(rt;
        set == [Ok(()); 4]
            && tokens == [first; 3]
            && set_late == (Ok(()), true)
            && next == [None, None, first]
    );
}

#[test]
fn a_packet_of_a_network_with_no_way_is_lost(rt: HostRuntime) {
    let mut hub = Hub::with_nets(NETS);
    let set = (hub.chans.set_net(0, 3), hub.chans.set_net(1, 3));
    hub.send(0, chan_id(1, 9), END);
    hub.send(1, chan_id(0, 2), END);
    hub.send(3, chan_id(1, 8), END);
    // Channel end 0 is of network 3 and channel end 3 of network 0, by which no link end leads to node 1. That of the own node
    // is found by any network.
    let moved = hub.slot(0);
    let mut lost = [0; 2];
    let mut count = 0;
    for event in hub.out.events() {
        if let Happen::Lost { id } = event.what {
            if count < 2 {
                lost[count] = id;
                count += 1;
            }
        }
    }
    assert!(rt;
        set == (Ok(()), Ok(()))
            && moved == [Some(END), None, None]
            && lost == [chan_id(1, 9), chan_id(1, 8)]
    );
}

#[test]
fn what_one_input_gives_up_a_later_one_holds_in_the_same_slot(rt: HostRuntime) {
    let mut hub = Hub::new();
    hub.send(0, chan_id(0, 2), END);
    hub.send(1, chan_id(0, 2), Token::Byte(5));
    hub.send(3, chan_id(0, 2), Token::Byte(6));
    let moved = hub.slot(0);
    assert!(rt; moved == [Some(END), Some(Token::Byte(5)), None]);
    assert!(rt; !hub.switch.held(0) && hub.switch.held(1) && hub.switch.held(2));
    // Channel end 2 is held on, though no token waits at channel end 1.
    let moved = hub.slot(1);
    let is_held = hub.switch.held(2);
    hub.send(1, chan_id(0, 2), Token::Ctrl(2));
    // PAUSE frees it, and is not put into it.
    let paused = hub.slot(2);
    assert!(rt;
        moved == [None; 3]
            && is_held
            && paused == [Some(Token::Byte(6)), None, None]
            && !hub.switch.held(1)
    );
    hub.send(3, chan_id(0, 2), END);
    assert!(rt; hub.slot(3) == [Some(END), None, None] && !hub.switch.held(2));
}

#[test]
fn two_senders_take_turns_by_packet(rt: HostRuntime) {
    let mut hub = Hub::new();
    for value in 1..3u8 {
        hub.send(0, chan_id(0, 2), Token::Byte(value));
        hub.send(0, chan_id(0, 2), END);
        hub.send(1, chan_id(0, 2), Token::Byte(10 * value));
        hub.send(1, chan_id(0, 2), END);
    }
    let wanted = [
        [Some(Token::Byte(1)), None, None],
        [Some(END), Some(Token::Byte(10)), None],
        [Some(END), None, None],
        [Some(Token::Byte(2)), None, None],
        [Some(END), Some(Token::Byte(20)), None],
        [Some(END), None, None],
        [None, None, None],
    ];
    for slot in 0..7u32 {
        assert!(rt; hub.slot(slot) == wanted[slot as usize], "in slot {slot}");
    }
}

#[test]
fn a_channel_end_above_31_is_none(rt: HostRuntime) {
    let mut hub = Hub::new();
    hub.send(0, chan_id(0, 34), END);
    let moved = hub.slot(0);
    let lost = match hub.out.events() {
        [event] => match event.what {
            Happen::Lost { id } => id,
            _ => 0,
        },
        _ => 0,
    };
    assert!(rt; moved == [None; 3] && lost == chan_id(0, 34));
}

#[test]
fn a_switch_is_still_while_nothing_waits(rt: HostRuntime) {
    let mut node = Node::new(0);
    let first = node.switch.still(&node.chans, &node.links);
    let _ = node.chans.set_dest(0, chan_id(1, 0));
    let _ = node.chans.put(0, END);
    let waits = node.switch.still(&node.chans, &node.links);
    for slot in 0..SLOTS {
        node.slot(slot, None, false);
    }
    assert!(rt; first && !waits && node.switch.still(&node.chans, &node.links));
}
