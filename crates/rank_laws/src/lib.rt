//! What ranks say of a plan whose verdict is `Yes`: packets arrive, and held routes never run in a circle. See docs/ROUTES.md.
#![tactic(auto)]

ghost use Rattle.rank_laws.specs.Held.{HeldRiseWhereYes};
ghost use Rattle.rank_laws.specs.Walks.{WalksArriveWhereYes};

/// Where the verdict is `Yes`, every walk from any node towards the id of any node, in any network of the plan and by any choice among the
/// links of the way on, arrives, after at most as many hops as there are directed links, and after fewer than there are nodes: none comes
/// back to a node where it has been. Towards an id that no node has a walk is as short. It does nothing. See docs/ROUTES.md.
pub fn walks_arrive()
    ensures arrive { WalksArriveWhereYes }
{}

/// Where the verdict is `Yes`, in every run and before every slot: where the input at which a directed link ends holds the link end by which
/// another leaves, or waits for it, the other has a higher rank. So no row of directed links, each of which holds the next one or waits for
/// it, comes back to where it began. That a run never stands still is not said. It does nothing. See docs/ROUTES.md.
pub fn held_routes_rise()
    ensures rise { HeldRiseWhereYes }
{}
