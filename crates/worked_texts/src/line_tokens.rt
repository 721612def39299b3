ghost use Rattle.worked_texts.specs.LineTokens.{LineExamples, TokenExamples};

/// A law: the definitions give what was worked out by hand for lines and tokens. It does nothing.
pub fn worked_line_tokens()
    ensures lines { LineExamples }
    ensures tokens { TokenExamples }
{}
