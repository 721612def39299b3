ghost use Rattle.worked_answers.specs.Programs.{WorkedPrograms, WorkedCalls};

/// A law: the definitions give what was worked out by hand for programs of one thread, and for one that calls itself. It does
/// nothing.
pub fn worked_programs()
    ensures programs { WorkedPrograms }
    ensures calls { WorkedCalls }
{}
