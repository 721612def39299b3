ghost use Rattle.worked_texts.specs.Scripts.{WorkedRefusals, WorkedOrder, WorkedScripts, WorkedLevels};

/// A law: the definitions give what was worked out by hand for pin scripts that are refused, for those that are accepted, and
/// for what pins show. It does nothing.
pub fn worked_scripts()
    ensures refusals { WorkedRefusals }
    ensures order { WorkedOrder }
    ensures scripts { WorkedScripts }
    ensures levels { WorkedLevels }
{}
