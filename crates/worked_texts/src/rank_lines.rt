ghost use Rattle.worked_texts.specs.RankLines.{WorkedRankLines, WorkedRankTexts};

/// A law: the definitions give what was worked out by hand for lines of ranks, and for texts of them. It does nothing. See docs/ROUTES.md.
pub fn worked_rank_lines()
    ensures lines { WorkedRankLines }
    ensures texts { WorkedRankTexts }
{}
