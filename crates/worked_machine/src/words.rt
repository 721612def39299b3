ghost use Rattle.worked_machine.specs.Words.{WorkedWords};

/// A law: the definitions give what was worked out by hand for the rows on words. It does nothing.
pub fn worked_words()
    ensures { WorkedWords }
{}
