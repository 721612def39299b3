ghost use Rattle.worked_machine.specs.Routes.{WorkedRoutes};

/// A law: the definitions give what was worked out by hand for routes over several link ends: which one a packet takes, a
/// router with packets both ways, and packets that are lost. It does nothing.
pub fn worked_routes()
    ensures { WorkedRoutes }
{}
