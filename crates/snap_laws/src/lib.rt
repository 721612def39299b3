//! What holds of each snapshot that a run saves: a law, which does nothing. See docs/SNAPSHOTS.md.
#![tactic(auto)]

ghost use Rattle.snap_laws.specs.Saved.{SavedIsRead, SavedGoesOn};

use range_laws::{nodes_are_runnable, numbers_of_runs_fit, saved_runs_are_whole};
use saved_laws::{
    saved_counts_are_small, saved_links_may_be_kept, saved_nodes_may_be_kept,
    saved_parts_are_those_of_the_run, saved_wires_may_be_kept,
};
use snap_codec::snaps_are_lawful;
use snap_sizes::snaps_are_short;
use state_bridge::nodes_have_the_form;
use sys_plan::Plan;

/// Of every plan, of every text that stands for it and before every slot below 2^32: the bytes of what a run saves are read as it; and what is
/// written of a run that goes on from it is the trace of the whole run, but for the lines of the events before that slot. It does nothing.
pub fn saved_runs_are_snapshots(plan: &Plan)
    ensures read { SavedIsRead plan.now }
    ensures goes_on { SavedGoesOn plan.now }
{
    plan.keeps();
    nodes_are_runnable(plan.nodes());
    numbers_of_runs_fit();
    saved_runs_are_whole();
    saved_parts_are_those_of_the_run();
    saved_counts_are_small();
    saved_nodes_may_be_kept();
    saved_links_may_be_kept();
    saved_wires_may_be_kept();
    nodes_have_the_form();
    snaps_are_lawful();
    snaps_are_short();
}
