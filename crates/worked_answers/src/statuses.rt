ghost use Rattle.worked_answers.specs.Statuses.{WorkedStatuses};

/// A law: the statuses have these numbers, as shells and scripts see them. It does nothing. See docs/OUTPUT.md.
pub fn worked_statuses()
    ensures { WorkedStatuses }
{}
