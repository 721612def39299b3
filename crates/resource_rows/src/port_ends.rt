//! How a row at a port ends.
ghost use Rattle.std.specs.Prelude.{◌≡◌, ◌<◌, Some, [], ◌∷◌};
ghost use Rattle.xs_base.specs.declared.numbers.TheConstants.{PORTS};
ghost use Rattle.xs_model.specs.Events.{NamesWhatIsThere};
ghost use Rattle.xs_model.specs.Ports.{pin_happens};
ghost use Rattle.core_units.specs.Ending.{IsEnding};
ghost use Rattle.resource_rows.specs.Ends.{ended_done, ended_pause};

use core_units::Ending;
use xs_model::{Happen, Outcome, PinChange, Wait};

/// Its row at a port, 0 to 28, is done, by which the port's pins change, if they do.
pub(crate) fn done(port: u8, change: Option<PinChange>) -> Ending
    requires { port < PORTS }
    ensures value { result ≡ ended_done (pin_happens port change) }
    ensures within { IsEnding result }
{
    match change {
        None => Ending::Quietly(Outcome::Done),
        Some(change) => Ending::Done(happening(port, change)),
    }
}

/// Its thread has to wait at a port, by which the port's pins change, if they do.
pub(crate) fn pause(port: u8, wait: Wait, change: Option<PinChange>) -> Ending
    requires { port < PORTS }
    ensures value { result ≡ ended_pause wait (pin_happens port change) }
    ensures within { IsEnding result }
{
    match change {
        None => Ending::Quietly(Outcome::Pause(wait)),
        Some(change) => Ending::Pause(wait, happening(port, change)),
    }
}

// The change of a port's pins as what happens.
fn happening(port: u8, change: PinChange) -> Happen
    requires { port < PORTS }
    ensures value { pin_happens port (Some change) ≡ result ∷ [] }
    ensures within { NamesWhatIsThere result }
{
    match change {
        PinChange::Drive(value) => Happen::Drive { port, value },
        PinChange::Float => Happen::Float { port },
    }
}
