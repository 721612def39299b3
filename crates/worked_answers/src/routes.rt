ghost use Rattle.worked_answers.specs.Routes.{WorkedRanks, WorkedRoutesForm, WorkedVerdicts};

/// A law: the definitions give what was worked out by hand for `routes`. It does nothing. See docs/ROUTES.md.
pub fn worked_routes()
    ensures form { WorkedRoutesForm }
    ensures verdicts { WorkedVerdicts }
    ensures ranks { WorkedRanks }
{}
