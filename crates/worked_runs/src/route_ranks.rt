ghost use Rattle.worked_runs.specs.RouteRanks.{WorkedNext, WorkedNoWay, WorkedGoesOn, WorkedVerdicts, WorkedChecks};

/// A law: the definitions give what was worked out by hand for the ranks of three nodes in a line, whose two links are of two networks or
/// of one. It does nothing. See docs/ROUTES.md.
pub fn worked_route_ranks()
    ensures next { WorkedNext }
    ensures no_way { WorkedNoWay }
    ensures goes_on { WorkedGoesOn }
    ensures verdicts { WorkedVerdicts }
    ensures checks { WorkedChecks }
{}
