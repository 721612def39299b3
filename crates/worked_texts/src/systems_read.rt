ghost use Rattle.worked_texts.specs.SystemsRead.{WorkedRefusals, WorkedPlans, WorkedLength};

/// A law: the definitions give what was worked out by hand for system texts: the refusals of frames, the plans of those that
/// are accepted, and how long an input may be. It does nothing.
pub fn worked_systems_read()
    ensures refusals { WorkedRefusals }
    ensures systems { WorkedPlans }
    ensures length { WorkedLength }
{}
