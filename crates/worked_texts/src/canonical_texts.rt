ghost use Rattle.worked_texts.specs.CanonicalTexts.{WorkedCanonicalTexts, WorkedSpellings, WorkedRewriting};

/// A law: the definitions give what was worked out by hand for canonical texts. It does nothing. See docs/OUTPUT.md.
pub fn worked_canonical_texts()
    ensures texts { WorkedCanonicalTexts }
    ensures spellings { WorkedSpellings }
    ensures rewriting { WorkedRewriting }
{}
