//! A law of switches in runs: what a switch keeps of its tokens, it keeps in every run. See docs/LINKS.md.
#![tactic(auto)]

ghost use Rattle.switch_laws.specs.Runs.{SwitchesOfRunsWork};

use packet_laws::switches_keep_tokens;
use state_laws::nodes_of_runs_may_be_kept;

/// Of every node of every plan, before every slot of the serial machine, is true what `switches_keep_tokens` of packet_laws asks for: so the steps
/// of its inputs in that slot, each where those before it leave the node, keep tokens as it says. The operands of the nodes' code are in their
/// ranges, as those of every image are. It does nothing. See docs/LINKS.md.
pub fn switches_of_runs_work()
    ensures run { SwitchesOfRunsWork }
{
    switches_keep_tokens();
    nodes_of_runs_may_be_kept();
}
