//! What a row is refused.
ghost use Rattle.std.specs.Prelude.{◌≡◌, ◌<◌};
ghost use Rattle.xs_base.specs.declared.numbers.TheConstants.{THREADS};
ghost use Rattle.xs_model.specs.declared.traps.TheConstants.{ILLEGAL_RESOURCE};
ghost use Rattle.step_model.specs.Effect.{allowed_where, goes_on, goes_on_with};
ghost use Rattle.core_units.specs.Units.{Ends};

use crate::units::Units;
use xs_model::Outcome;
use xs_model::traps::ILLEGAL_RESOURCE;

/// The word names nothing that is in use and of the row's kinds, or its resource refuses the row.
#[inline]
pub fn illegal(name: u32) -> Outcome
    ensures { result ≡ Outcome.Trap ILLEGAL_RESOURCE name }
{
    Outcome::Trap {
        et: ILLEGAL_RESOURCE,
        ed: name,
    }
}

impl Units {
    /// Thread k goes on where its row was done, and else it is refused what the word `name` names.
    #[inline]
    pub fn end(&mut self, k: u8, name: u32, done: bool) -> Outcome
        requires { k < THREADS }
        ensures { Ends result self.old self.new (allowed_where done name (goes_on self.old k)) }
    {
        if !done {
            return illegal(name);
        }
        self.go_on(k);
        Outcome::Done
    }

    /// Thread k goes on with a word in register d where the resource is in use, and else it is refused it.
    #[inline]
    pub fn tell(&mut self, k: u8, d: u8, name: u32, used: bool, word: u32) -> Outcome
        requires thread { k < THREADS }
        requires target { d < 12 }
        ensures { Ends result self.old self.new (allowed_where used name (goes_on_with self.old k d word)) }
    {
        if !used {
            return illegal(name);
        }
        self.go_on_with(k, d, word);
        Outcome::Done
    }
}
