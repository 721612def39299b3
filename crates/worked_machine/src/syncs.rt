ghost use Rattle.worked_machine.specs.Syncs.{WorkedSyncs};

/// A law: the definitions give what was worked out by hand for the rows on synchronisers, and for a small program that gets
/// one. It does nothing.
pub fn worked_syncs()
    ensures { WorkedSyncs }
{}
