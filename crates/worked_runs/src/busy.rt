ghost use Rattle.worked_runs.specs.BusySlots.{BusySlots, StillNodes, NextTransfers};

/// A law: the definitions give what was worked out by hand of busy slots. It does nothing.
pub fn worked_busy_slots()
    ensures slots { BusySlots }
    ensures still { StillNodes }
    ensures transfers { NextTransfers }
{}
