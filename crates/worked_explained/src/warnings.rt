//! Sources that are accepted.
ghost use Rattle.worked_explained.specs.Warnings.{SourcesWarnedOf};

/// What is warned of in sources of a system without other nodes. It does nothing. See docs/LOOK.md.
pub fn worked_warnings()
    ensures warned { SourcesWarnedOf }
{}
