//! A law of the forms `wave` and `pinsof`: what the one writes the other reads. See docs/WAVES.md.
#![tactic(auto)]

ghost use Rattle.replay_laws.specs.Replays.{WavesAreReadAgain};

use level_laws::{runs_are_waves, waves_tell_levels};
use script_laws::scripts_of_waves_give_levels;

/// Where `wave SLOTS` writes a text for a system and that text is not too long, `pinsof N` takes it for every node N of the system and
/// writes a script that every system takes that has the node; and what this makes a pin show at each slot of the run is the level that the pin
/// shows after that slot in the serial machine. The plan has what every plan has that is read. It does nothing. See docs/WAVES.md.
pub fn waves_are_read_again()
    ensures again { WavesAreReadAgain }
{
    runs_are_waves();
    waves_tell_levels();
    scripts_of_waves_give_levels();
}
