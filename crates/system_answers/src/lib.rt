//! What every form answers to a system text that is refused, whichever program asks; of one that is accepted the form has the plan. See
//! docs/OUTPUT.md.
#![tactic(auto)]

ghost use Rattle.system_answers.specs.Taken.{TakenStandsForAll};

mod on_system;
mod refusals;

pub use on_system::{Reading, read};
pub use refusals::frame_line;

/// Of a system text its first 4,194,305 bytes are enough: they stand for what the whole text stands for. See docs/SYSTEM_TEXT.md.
pub fn taken_stands_for_all()
    ensures { TakenStandsForAll }
{}
