ghost use Rattle.worked_runs.specs.Receiver.{ReceiverAlone};

/// A law: the definitions give what was worked out by hand for a node that is stepped alone. It does nothing.
pub fn worked_receiver()
    ensures alone { ReceiverAlone }
{}
