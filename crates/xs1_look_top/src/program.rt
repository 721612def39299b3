//! What words ask of this program, and what is answered to them.
ghost use Rattle.xs1_look_top.specs.Asked.{asked_of};

use program_calls::Program;

/// This program: its words, and what it answers.
pub struct Look;

impl Program for Look {
    ghost asked = { asked_of };
}
