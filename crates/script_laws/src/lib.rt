//! That the pin scripts of a wave are accepted, and give the levels that the wave tells. See docs/WAVES.md.
#![tactic(auto)]

ghost use Rattle.script_laws.specs.Laws.{ScriptsAreTaken, ScriptsGiveLevels};

/// The script that a wave gives a node is accepted for every system that has this node, and it is a line for each change of the node. What it
/// makes a pin show in a slot is what is read back of the wave. It does nothing.
pub fn scripts_of_waves_give_levels()
    ensures taken { ScriptsAreTaken }
    ensures levels { ScriptsGiveLevels }
{}
