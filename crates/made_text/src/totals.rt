//! What all links and all nodes of a run come to together. The sums have 128 bits, which no run fills.
ghost use Rattle.std.specs.Prelude.{◌≡◌, ◌<◌, ◌^◌, List, length};
ghost use Rattle.xs_model.specs.declared.event.Event.{Event};
ghost use Rattle.trace_lines.specs.Kept.{Keeps};
ghost use Rattle.serial_model.specs.Serial.{serial};
ghost use Rattle.load_model.specs.Made.{all_credits, all_events, all_tokens};

use finished_runs::FinishedRun;
use locality_laws::links_tell_ahead;
use sys_plan::Plan;
use trace_lines::NodeEvents;

/// How many tokens, and how many credits, were sent on all directed links.
pub(crate) fn all_sent(plan: &Plan, finished: &FinishedRun) -> (u128, u128)
    requires plan { finished.now.plan ≡ plan.now }
    ensures tokens { result.0 ≡ all_tokens plan.now (serial plan.now finished.now.limit) }
    ensures credits { result.1 ≡ all_credits plan.now (serial plan.now finished.now.limit) }
{
    links_tell_ahead();
    let links = 2 * plan.links().len() as u32;
    let mut tokens: u128 = 0;
    let mut credits: u128 = 0;
    for link in 0..links {
        let sent = finished.totals(link);
        tokens += u128::from(sent.0);
        credits += u128::from(sent.1);
    }
    (tokens, credits)
}

/// How many events there were on all nodes, those too that are not kept.
pub(crate) fn all_events(plan: &Plan, finished: &FinishedRun) -> u128
    requires plan { finished.now.plan ≡ plan.now }
    ensures events { result ≡ all_events plan.now (serial plan.now finished.now.limit) }
{
    let nodes = plan.nodes().len();
    let mut events: u128 = 0;
    for node in 0..nodes {
        events += count_of(finished.events(node as u8));
    }
    events
}

// How many events a node had of which these are kept.
fn count_of(events: &NodeEvents) -> u128
    ensures count { (all : List Event) → Keeps events.now all → result ≡ length all }
    ensures most { result < 2 ^ 65 }
{
    events.events().len() as u128 + u128::from(events.more())
}
