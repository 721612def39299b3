ghost use Rattle.worked_runs.specs.WireRuns.{WireDelays, WireBeforeScript, WhatWiresAreTold, SampledByWire, TwoWiresFromOnePin, ThereAndBack, WireLoop};

/// A law: the definitions give what was worked out by hand for runs of two nodes and a wire with several delays, of pins of which a
/// script tells too, of ports that drive and let go, of levels that are sampled and that strobe, of two wires from a pin, there and
/// back, and in a loop. It does nothing.
pub fn worked_wire_runs()
    ensures delays { WireDelays }
    ensures script { WireBeforeScript }
    ensures told { WhatWiresAreTold }
    ensures sampled { SampledByWire }
    ensures two { TwoWiresFromOnePin }
    ensures back { ThereAndBack }
    ensures in_loop { WireLoop }
{}
