//! What words ask of this program, and what is answered to them.
ghost use Rattle.xs1_top.specs.Asked.{asked_of};

use program_calls::Program;

/// This program: its words, and what it answers.
pub struct Xs1;

impl Program for Xs1 {
    ghost asked = { asked_of };
}
