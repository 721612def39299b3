//! The call of a program whose words choose a form: what is asked for of the input is read, and what is answered to it is written. It is said
//! of any program: what its words ask, and what is answered to them, is what the program's own `Program` says. See docs/OUTPUT.md.
#![tactic(auto)]

ghost use Rattle.std.specs.Prelude.{List, ℕ};
ghost use Rattle.program_calls.specs.Asked.{Asked};
ghost use Rattle.program_calls.specs.Counted.{ReadsAreCounted};

mod call;
mod input;
mod output;

pub use call::{refuse, respond};

/// A program, of which contracts know what its words ask and what is answered to them.
pub trait Program {
    /// What words ask, without the program's name, and what is answered.
    ghost asked: { List (List ℕ) → Asked };
}

/// A source that counts its reads was read at most as often as reads were made at most.
pub fn reads_are_counted()
    ensures { ReadsAreCounted }
{}
