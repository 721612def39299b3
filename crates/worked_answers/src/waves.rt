ghost use Rattle.worked_answers.specs.Waves.{WorkedPinsOf, WorkedWaveForms, WorkedWaves};

/// A law: the definitions give what was worked out by hand for `wave SLOTS` and `pinsof N`. It does nothing. See docs/WAVES.md.
pub fn worked_waves()
    ensures forms { WorkedWaveForms }
    ensures waves { WorkedWaves }
    ensures pins { WorkedPinsOf }
{}
