//! Laws of packets: what a link carries are whole packets, and the inputs of switches are where they end. See docs/ROUTES.md.
#![tactic(auto)]

ghost use Rattle.packet_laws.specs.Flow.{SwitchesKeepTokens, SwitchesWork};
ghost use Rattle.packet_laws.specs.Whole.{PacketsAreWhole};

/// For every plan, before every slot and for each directed link: the tokens that it has carried are packets one after the other, each with the
/// header of a destination for whose id the link is on the way, and the last one may be cut. At most one input holds the link end by which
/// they leave: then the last packet is that input's, and as many of its header bytes have gone out as the input counts; where none holds it, no
/// packet is cut. At the far end, the tokens that were taken are the first of them, and those that wait come next. The input there is where the
/// taken ones end: idle between packets; within a header with its bytes; and within a packet it wants to go to the packet's destination in the
/// link's network, holds the channel end with the destination's number, holds a link end on the way to the destination in that network, or
/// has lost the packet. It does nothing. See docs/ROUTES.md.
pub fn packets_are_whole()
    ensures { PacketsAreWhole }
{}

/// In one step of an input of a switch, what leaves the input's buffer is nothing or its first token, and a token that is taken goes to exactly
/// one place: it leaves by the link end that the input holds, or goes to the end of the input buffer of the channel end that the input
/// holds; or nowhere, if it comes within a header at a link end, is of a lost packet, or is PAUSE at a channel end. Nothing else
/// moves but the three header bytes of the packet's destination, which leave first. An input takes hold only of what no input holds, and
/// lets it go with END or PAUSE alone; no other input's step changes that, so that no two inputs hold the same. So nothing that goes through a
/// switch is lost, doubled, reordered or mixed with another packet. It holds of a node at work as a slot's steps find and leave it, where as
/// the slot begins no two inputs hold the same, channel ends that are held are in use, and link ends that are there have gaps. It does nothing.
/// See docs/LINKS.md.
pub fn switches_keep_tokens()
    ensures step { SwitchesKeepTokens }
    ensures slot { SwitchesWork }
{}
