//! The inputs that can act in a slot, as a mask: bit i is that of input i.
ghost use Rattle.std.specs.Prelude.{ℕ, ◌≡◌, ◌<◌, ◌≤◌, false};
ghost use Rattle.xs_base.specs.declared.numbers.TheConstants.{INPUTS};
ghost use Rattle.xs_model.specs.Masks.{in_mask};
ghost use Rattle.switch_routes.specs.Rest.{IsStill};

use crate::inputs::Inputs;
use crate::links::Links;
use chan_ends::ChanEnds;

/// The inputs that can act: those that act alone, and those at which a token may wait. What one input does in a slot makes
/// no other input able, since it leaves the states of the others and the tokens that wait at them.
pub(crate) fn able(inputs: &Inputs, chans: &ChanEnds, links: &Links) -> u64
    ensures still { (i : ℕ) → i < INPUTS → in_mask result i ≡ false → IsStill inputs.now chans.now links.now i }
    ensures above { (i : ℕ) → INPUTS ≤ i → i < 64 → in_mask result i ≡ false }
{
    let waiting = u64::from(chans.sending()) * 256 + u64::from(links.waiting());
    inputs.alone() | waiting
}
