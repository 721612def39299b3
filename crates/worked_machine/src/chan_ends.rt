ghost use Rattle.worked_machine.specs.ChanEnds.{WorkedChans};

/// A law: the definitions give what was worked out by hand of what programs find at a channel end. It does nothing.
pub fn worked_chan_ends()
    ensures { WorkedChans }
{}
