//! Laws of links: what a slot does at a link end, what of its record a step depends on, and that a link loses, doubles and reorders
//! nothing. See docs/LINKS.md.
#![tactic(auto)]

ghost use Rattle.link_laws.specs.LinkSlot.{SlotAtLinkEnd};
ghost use Rattle.link_laws.specs.Travel.{WindowIsKept, FitsWhereItArrives, KeepsItsOrder};
ghost use Rattle.link_laws.specs.Windows.{EachHasALink, ItsLinksAreAlike, StepGoesByWindows, StepStaysBefore, RunGoesByWindows, RunStaysBefore};

/// In a slot of a node at most the first token leaves a link end's buffer, and a credit leaves by the link end exactly then;
/// at most one token is sent by it, and only where it may be; and both are noted. It does nothing. See docs/LINKS.md.
pub fn slot_at_a_link_end()
    ensures slot { SlotAtLinkEnd }
{}

/// A node's step depends on a link end's record through three things alone: the tokens that wait in its buffer, how many of the
/// tokens that it sent are without a credit, and the slot in which it sent the last one. Two nodes that are the same but for their
/// link ends, which agree in these, give the same to the outside in a slot in which the same comes to them, and agree again after
/// it; and so in any number of slots. This holds where every slot that their link ends keep is before the slot; it is then before the
/// next one after it. So a link end may be kept by these three, without its lists of slots: for whatever they are, with a last
/// slot before this one, or with none and no token without a credit, there is a link end with them and with such slots, and all
/// that have them are alike. It does nothing. See docs/LINKS.md.
pub fn steps_go_by_windows()
    ensures step { StepGoesByWindows }
    ensures step_stays_before { StepStaysBefore }
    ensures run { RunGoesByWindows }
    ensures run_stays_before { RunStaysBefore }
    ensures kept { EachHasALink }
    ensures kept_alike { ItsLinksAreAlike }
{}

/// For every plan, before every slot and for each directed link: the tokens that were sent and have no credit yet are those in
/// flight, those in the receiver's buffer, and those whose credit is in flight, and never more than 8; so what arrives has
/// room, and a credit arrives only for a token that has none yet. The tokens in the receiver's buffer, and then those in flight,
/// are the last of those that were sent, in order: a link loses, doubles and reorders nothing. It does nothing. See docs/LINKS.md.
pub fn links_lose_nothing()
    ensures window { WindowIsKept }
    ensures arrivals { FitsWhereItArrives }
    ensures order { KeepsItsOrder }
{}
