//! The numbers of every node of a run keep the ranges of the machine, whatever program runs. See docs/SNAPSHOTS.md.
#![tactic(auto)]

ghost use Rattle.range_laws.specs.Ranges.{NumbersOfRunsFit, RunsCarryBytes, RunsHaveByteDests, SavedRunsMayGoOn, SavedRunsGoOn};

mod runnable;

pub use runnable::nodes_are_runnable;

/// Of every plan whose nodes have images, and before every slot of the serial machine, each number in each node is in the range of its type:
/// registers and levels are words, the memory's bytes and tokens are bytes, times and counters have 16 bits. So the tokens that its links
/// carry are bytes, and the numbers of channel ends to which inputs of switches lead. It does nothing. See docs/SNAPSHOTS.md.
pub fn numbers_of_runs_fit()
    ensures numbers { NumbersOfRunsFit }
    ensures tokens { RunsCarryBytes }
    ensures dests { RunsHaveByteDests }
{
    state_laws::nodes_of_runs_may_be_kept();
}

/// So what a snapshot keeps of such a run, before every slot, is what a run may go on from; and what is written of a run that goes on from it
/// is the trace of the whole run, but for the lines of the events before that slot. It does nothing. See docs/SNAPSHOTS.md.
pub fn saved_runs_are_whole()
    ensures system { SavedRunsMayGoOn }
    ensures rest { SavedRunsGoOn }
{
    numbers_of_runs_fit();
    saved_laws::saved_systems_may_go_on();
    rest_laws::rest_is_the_trace_from_there();
}
