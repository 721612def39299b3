//! Laws of schedules.
ghost use Rattle.ahead_limits.specs.Kept.{StepsKeepBounds, NoStepFalls, SchedulesKeepBounds};

/// After any steps of any plan, in a run of so many slots: no node has run past the end of the run, nor past what is seen of a link or wire
/// that comes to it and the delay; no more is seen of one than is published, and no more is published than the node has run that
/// it leaves; and no step lets a number fall. It does nothing. See docs/LOOKAHEAD.md.
pub fn schedules_keep_their_bounds()
    ensures step { StepsKeepBounds }
    ensures none_falls { NoStepFalls }
    ensures all { SchedulesKeepBounds }
{}
