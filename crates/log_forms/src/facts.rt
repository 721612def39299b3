//! What holds of the forms.
ghost use Rattle.std.specs.Prelude.{ℕ, Option, ◌<◌, ◌≤◌, ◌^◌};
ghost use Rattle.byte_forms.specs.Laws.{Lawful};
ghost use Rattle.log_forms.specs.InFlight.{IsLinkLog, IsWireLog};
ghost use Rattle.snap_parts.specs.Parts.{LogRec};
ghost use Rattle.log_forms.specs.Logs.{link_log, wire_log};
ghost use Rattle.log_forms.specs.Windows.{EndsRec};

/// What is read of a log was written of it, and what is written is read again.
pub fn logs_are_lawful()
    ensures link { (slot delay : ℕ) (ends : Option EndsRec) → Lawful (link_log slot delay ends) }
    ensures wire { (slot delay width : ℕ) → Lawful (wire_log slot delay width) }
{}

/// The forms have the logs of which the facts hold, and no others.
pub fn logs_have_facts()
    ensures link { (slot delay : ℕ) (ends : Option EndsRec) (log : LogRec) → (link_log slot delay ends).Holds log → IsLinkLog slot delay ends log }
    ensures wire { (slot delay width : ℕ) (log : LogRec) → (wire_log slot delay width).Holds log → IsWireLog slot delay width log }
    ensures link_again { (slot delay : ℕ) (ends : Option EndsRec) (log : LogRec) → slot < 2 ^ 32 → IsLinkLog slot delay ends log → (link_log slot delay ends).Holds log }
    ensures wire_again { (slot delay width : ℕ) (log : LogRec) → slot < 2 ^ 32 → 2 ^ width ≤ 2 ^ 32 → IsWireLog slot delay width log → (wire_log slot delay width).Holds log }
{}
