//! Laws on what `chart` of `xs1_look` writes. See docs/LOOK.md.
#![tactic(auto)]

ghost use Rattle.chart_laws.specs.Capitals.{CapitalsAreIssues};

/// A thread has a capital exactly in the slots in which it issues. It does nothing.
pub fn capitals_are_issues()
    ensures { CapitalsAreIssues }
{}
