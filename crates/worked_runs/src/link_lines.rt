ghost use Rattle.worked_runs.specs.LinkLines.{WorkedLinks};

/// A law: the definitions give what was worked out by hand for the lines of links. It does nothing.
pub fn worked_link_lines()
    ensures { WorkedLinks }
{}
