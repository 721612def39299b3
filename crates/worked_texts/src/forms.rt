ghost use Rattle.worked_texts.specs.Forms.{WorkedForms};

/// A law: the table gives each row the name and the places that its printed form shows. It does nothing. See
/// docs/INSTRUCTIONS.md.
pub fn worked_forms()
    ensures printed { WorkedForms }
{}
