//! That the wave of a run tells the levels of the serial machine. See docs/WAVES.md.
#![tactic(auto)]

ghost use Rattle.level_laws.specs.Laws.{RunsAreWaves, WaveTextsAreRead, WavesTellLevels, LevelsAreShown};

/// Of every plan, the wave of a run of at most 1,000,000 slots is a wave, and its text is read as it. It does nothing.
pub fn runs_are_waves()
    ensures waves { RunsAreWaves }
    ensures read { WaveTextsAreRead }
{
    wave_laws::written_waves_are_read();
}

/// What is read back of the wave of a run, of every pin and at every slot of the run, is the level that the pin shows at the end of that slot in
/// the serial machine: what its port drives then, and else what comes to it by a wire or from the script. It does nothing.
pub fn waves_tell_levels()
    ensures told { WavesTellLevels }
    ensures shown { LevelsAreShown }
{}
