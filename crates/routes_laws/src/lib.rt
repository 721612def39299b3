//! A law of the form `routes`: what its answer `routes yes` says. See docs/ROUTES.md.
#![tactic(auto)]

ghost use Rattle.routes_laws.specs.Yes.{YesIsACertificate};

use rank_laws::{held_routes_rise, walks_arrive};

/// Where `routes yes` is answered to the word `routes`, the input has ranks and then a system text that stands for a plan, and of this plan both
/// laws hold: every walk arrives, and before every slot of a run the ranks of links that are held or waited for rise. The plan has what every
/// plan has that is read. It does nothing. See docs/ROUTES.md.
pub fn yes_is_a_certificate()
    ensures yes { YesIsACertificate }
{
    walks_arrive();
    held_routes_rise();
}
