//! The way from a node to a destination.
ghost use Rattle.std.specs.Prelude.{ℕ, ◌≡◌, ◌<◌, ◌==◌, Bool, if◌then◌else◌, IfSome, slice_index};
ghost use Rattle.std.specs.Int.{bit_at};
ghost use Rattle.xs_base.specs.declared.numbers.TheConstants.{LINK_ENDS};
ghost use Rattle.net_model.specs.Ways.{first_difference, ends_of_net, way_to};
ghost use Rattle.switch_routes.specs.Ways.{way_of};
ghost use Rattle.switch_routes.specs.Known.{known_ways};

use std::marker::Model;

/// The ways from the node with this id: for each bit of an id the link ends that lead on, as a mask, and for each link end the
/// network of its link. Contracts see it as a `KnownWays` of `Rattle.switch_routes.specs.Known`.
#[derive(Clone, Copy)]
pub(crate) struct Ways {
    id: u16,
    ends: [u8; 16],
    nets: [u8; 8],
    // For each of the networks 0 to 3 its link ends, as a mask.
    of_nets: [u8; 4],
}

impl Model for Ways {
    ghost use Rattle.switch_routes.specs.Known.{KnownWays, masks_of};
    ghost use Rattle.std.specs.Prelude.{◌≡◌};
    ghost use Rattle.std.proofs.Common.{sym};

    ghost Value = { KnownWays };

    ghost view = { λ ways. record { id = ways.id; ends = ways.ends; nets = ways.nets } };

    ghost invariant = { λ ways. ways.of_nets ≡ masks_of ways.nets };

    ghost inverse = { λ ways. record { id = ways.id; ends = ways.ends; nets = ways.nets; of_nets = masks_of ways.nets } };

    ghost inverse_ok = { λ ways are i. record { id = ways.id; ends = ways.ends; nets = ways.nets; of_nets = sym are i } };
}

/// Where a node lies.
#[derive(Clone, Copy)]
pub(crate) enum Way {
    /// It is the node itself.
    Here,
    /// Behind one of these link ends, as a mask.
    Behind { ends: u8 },
}

impl Ways {
    /// What a node with this id, these ways and these networks of link ends knows.
    pub(crate) fn new(id: u16, ends: [u8; 16], nets: [u8; 8]) -> Ways
        ensures value { result ≡ known_ways id ends nets }
    {
        Ways {
            id,
            ends,
            nets,
            of_nets: [
                ends_of_net(&nets, 0),
                ends_of_net(&nets, 1),
                ends_of_net(&nets, 2),
                ends_of_net(&nets, 3),
            ],
        }
    }

    /// The network of the link of a link end, 0 to 7.
    pub(crate) fn net_of_end(&self, end: u8) -> u8
        requires within { end < LINK_ENDS }
        ensures value { result ≡ slice_index self.now.nets end }
    {
        self.nets[end as usize]
    }

    /// Where the node with an id lies for a packet of a network: the highest bit in which the id differs from the node's own
    /// says it, and the link ends are those of the network.
    pub(crate) fn way_to(&self, node: u16, net: u8) -> Way
        ensures value { way_of result ≡ way_to self.now.id self.now.ends self.now.nets net node }
    {
        match first_difference(self.id, node) {
            None => Way::Here,
            Some(bit) => Way::Behind {
                ends: self.ends[bit as usize] & self.of_net(net),
            },
        }
    }

    // The link ends of a network, as a mask. Those of the networks that there are stand ready.
    fn of_net(&self, net: u8) -> u8
        ensures value { result ≡ ends_of_net self.now.nets net }
    {
        if net < 4 {
            self.of_nets[net as usize]
        } else {
            ends_of_net(&self.nets, net)
        }
    }
}

// The link ends of a network, as a mask, by the networks of all link ends.
fn ends_of_net(nets: &[u8; 8], net: u8) -> u8
    ensures value { result ≡ ends_of_net nets.now net }
{
    let mut ends = 0;
    for end in (0..8u8).rev() {
        ends = 2 * ends + one_if(nets[end as usize] == net);
    }
    ends
}

// 1 where it is so, else 0.
fn one_if(it_is: bool) -> u8
    ensures value { result ≡ (if it_is then 1 else 0) }
{
    if it_is { 1 } else { 0 }
}

// The highest bit in which two ids differ.
fn first_difference(a: u16, b: u16) -> Option<u8>
    ensures value { result ≡ first_difference 16 a b }
    ensures within { IfSome result (λ bit. bit < 16) }
{
    for bit in (0..16u8).rev() {
        if bit_at(a, bit) != bit_at(b, bit) {
            return Some(bit);
        }
    }
    None
}

// A bit of an id.
fn bit_at(id: u16, bit: u8) -> u16
    requires within { bit < 16 }
    ensures value { result ≡ bit_at id bit }
{
    (id >> bit) & 1
}
