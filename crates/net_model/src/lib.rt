//! Links, channel ends and the switch: definitions alone. See docs/LINKS.md.
#![tactic(auto)]

ghost use Rattle.net_model.specs.Quiet.{QuietSwitch};

/// Where nothing waits and no channel end is in use, the switch does nothing.
pub fn quiet_switch()
    ensures { QuietSwitch }
{}
