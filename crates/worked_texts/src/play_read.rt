ghost use Rattle.worked_texts.specs.PlayRead.{WorkedSchedules, WorkedPlayRefusals};

/// A law: the definitions give what was worked out by hand for system texts with a schedule. It does nothing.
pub fn worked_play_read()
    ensures systems { WorkedSchedules }
    ensures refusals { WorkedPlayRefusals }
{}
