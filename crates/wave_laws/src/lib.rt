//! That a wave is read back from its text, and that nothing else is a wave text. See docs/WAVES.md.
#![tactic(auto)]

ghost use Rattle.wave_laws.specs.Laws.{WrittenWavesAreRead, LinesOfWavesAreRead, ReadTextsAreWritten, ReadWavesAreWaves, RefusedLinesAreFirst};

/// The text of every wave is read as that wave, and so is each text that has its lines, however they end. It does nothing.
pub fn written_waves_are_read()
    ensures read { WrittenWavesAreRead }
    ensures lines { LinesOfWavesAreRead }
{}

/// What is read of a text is a wave, and the lines of the text are those of that wave. So a text is a wave text exactly where its lines are
/// those of a wave. It does nothing.
pub fn wave_texts_are_written()
    ensures waves { ReadWavesAreWaves }
    ensures lines { ReadTextsAreWritten }
{}

/// A text is refused at the first line with which no wave text goes on, which may be the one after its last. It does nothing.
pub fn refused_lines_are_first()
    ensures refused { RefusedLinesAreFirst }
{}
