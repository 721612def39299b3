ghost use Rattle.worked_machine.specs.Time.{WorkedTime};

/// A law: the definitions give what was worked out by hand of what timers show, when their condition holds, and the edges of
/// clocks. It does nothing.
pub fn worked_time()
    ensures { WorkedTime }
{}
