ghost use Rattle.worked_texts.specs.CutTexts.{WorkedCuts};

/// A law: the definitions give what was worked out by hand for a system text that is cut. It does nothing.
pub fn worked_cut_texts()
    ensures { WorkedCuts }
{}
