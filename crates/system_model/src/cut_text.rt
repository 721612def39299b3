//! A law on system texts that are cut.
ghost use Rattle.std.specs.Prelude.{ℕ, ◌≡◌, List};
ghost use Rattle.sys_plan.specs.Plan.{PlanRec};
ghost use Rattle.system_model.specs.declared.SysKind.{SysKind};
ghost use Rattle.system_model.specs.CutText.{IsCutInside};
ghost use Rattle.system_model.specs.System as stands;
ghost use Rattle.system_model.specs.System.{system_of};

/// A law: a text that stands for a plan, cut inside a source or the script, is refused as one with a section that is not
/// ended, at the line that begins that section. See docs/SYSTEM_TEXT.md. It does nothing.
pub fn cut_texts_are_refused()
    ensures cut { (text part : List ℕ) (plan : PlanRec) (line : ℕ) → system_of text ≡ stands.Plan plan → IsCutInside text part line →
        system_of part ≡ stands.Frame line SysKind.SectionNotEnded }
{}
