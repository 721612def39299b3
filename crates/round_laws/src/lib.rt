//! Rounds of a run: how far all nodes are when in each round every node runs as far as it may by what the others had run after the
//! round before; and their laws. See docs/LOOKAHEAD.md.
#![tactic(auto)]

ghost use Rattle.round_laws.specs.Laws.{ClocksStartAtZero, ClocksGoByRounds, NoRoundFalls, ClocksStayWithin, RoundGoesOn, RoundsGoOn};
ghost use Rattle.round_laws.specs.Laws.{RoundsByDelay, RoundsWithoutArcs, NoRoundsForNoSlots, RoundsWithinSlots, LeastDelayIsLeast};
ghost use Rattle.round_laws.specs.Laws.{TestIsOfEach, AllFromThenOn, NotAllBefore, MoreWhereNotAll, NoneIfAllAtStart, CountIfFirst};
ghost use Rattle.round_laws.specs.Laws.{RoundRunsBelow, RoundMayRun, RoundRunsTo, HorizonSeesRound};

/// The clock of a node after some rounds is 0 before the first, and after a round more the least of the limit and, over the arcs that
/// come to the node, of links and of wires, the sender's clock and the delay. A round lets no clock fall, and none passes the limit. It
/// takes the least clock further by the least delay of all links and wires at least, or to the limit; so after any rounds every clock is
/// at least that many least delays, or the limit. It does nothing. See docs/LOOKAHEAD.md.
pub fn round_clocks_rise()
    ensures start { ClocksStartAtZero }
    ensures round { ClocksGoByRounds }
    ensures none_falls { NoRoundFalls }
    ensures within { ClocksStayWithin }
    ensures goes_on { RoundGoesOn }
    ensures go_on { RoundsGoOn }
{}

/// A run takes at most as many rounds as its slots over the least delay of all links and wires, rounded up; with neither at most one, and
/// none where it has no slots. It never takes more than it has slots. The least delay is one of the delays, and none is below it. It does
/// nothing. See docs/LOOKAHEAD.md.
pub fn rounds_are_few()
    ensures by_delay { RoundsByDelay }
    ensures without_arcs { RoundsWithoutArcs }
    ensures no_slots { NoRoundsForNoSlots }
    ensures within { RoundsWithinSlots }
    ensures least { LeastDelayIsLeast }
{}

/// The number of rounds is the first after which all nodes are at the limit: before it not all are, and from it on all are. So who
/// goes round by round and stops as soon as all are at the limit has counted it. It does nothing.
pub fn rounds_by_first()
    ensures each { TestIsOfEach }
    ensures from_then_on { AllFromThenOn }
    ensures not_before { NotAllBefore }
    ensures more { MoreWhereNotAll }
    ensures at_start { NoneIfAllAtStart }
    ensures first { CountIfFirst }
{}

/// A node that sees, of each arc that comes to it, what the sender had run after some rounds may run exactly the slots below its clock
/// after one round more, and runs to that. It does nothing.
pub fn nodes_run_to_round_clocks()
    ensures bound { RoundRunsBelow }
    ensures may_run { RoundMayRun }
    ensures runs_to { RoundRunsTo }
    ensures horizon { HorizonSeesRound }
{}
