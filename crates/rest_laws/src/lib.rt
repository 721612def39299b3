//! What is written of a run that goes on from a snapshot. See docs/SNAPSHOTS.md.
#![tactic(auto)]

ghost use Rattle.rest_laws.specs.Rest.{NodesAreSaid, SaidRestIsTrace, RestIsTrace};

/// What a snapshot says of the nodes of a run is alike what they are: for every plan whose code has its operands in their ranges, before
/// every slot of the serial machine. The numbers of channel ends that inputs of switches keep are bytes. It does nothing. See
/// docs/SNAPSHOTS.md.
pub fn snapshots_say_nodes_alike()
    ensures said { NodesAreSaid }
{
    state_laws::nodes_of_runs_may_be_kept();
    state_laws::nodes_may_be_kept();
}

/// What is written of a run that goes on from what a snapshot keeps of the serial machine before a slot is the trace of the whole run, but
/// for the lines of the events before that slot: of every plan where a snapshot says the nodes alike, and so of every plan whose code has
/// its operands in their ranges, where the numbers of channel ends that inputs of switches keep are bytes. It does nothing. See
/// docs/SNAPSHOTS.md.
pub fn rest_is_the_trace_from_there()
    ensures said { SaidRestIsTrace }
    ensures every { RestIsTrace }
{
    state_laws::nodes_of_runs_may_be_kept();
    state_laws::nodes_may_be_kept();
}
