ghost use Rattle.worked_answers.specs.Plays.{WorkedPlays};

/// A law: the definitions give what was worked out by hand for `play`. It does nothing.
pub fn worked_plays()
    ensures { WorkedPlays }
{}
