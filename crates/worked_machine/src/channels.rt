ghost use Rattle.worked_machine.specs.Channels.{WorkedChannels};

/// A law: the definitions give what was worked out by hand for slots with channel ends and a link end. It does nothing.
pub fn worked_channels()
    ensures { WorkedChannels }
{}
