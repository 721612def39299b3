ghost use Rattle.worked_machine.specs.Tokens.{WorkedTokens};

/// A law: the definitions give what was worked out by hand for the rows that put words and tokens into a channel end, take
/// them and look at them. It does nothing.
pub fn worked_tokens()
    ensures { WorkedTokens }
{}
