//! A law on the refusals of a frame.
ghost use Rattle.std.specs.Prelude.{ℕ, ◌≡◌, ◌⊎◌, true, false, List};
ghost use Rattle.system_model.specs.declared.SysKind.{SysKind};
ghost use Rattle.system_model.specs.Frame.{Given, framed, Refused, Whole, have_no_words};
ghost use Rattle.system_model.specs.FirstFault.{IsFirstFrameFault, HasNoFrameFault, decided_at_the_end};

/// A law: a text in which no line has words is refused at line 1. Any other is refused for the least line that has a
/// fault, with the first kind in the order of which that line has a fault. Where no line has a fault the end of the text
/// decides: what refuses it there is a section without an end, or a node without a source. See docs/SYSTEM_TEXT.md. It
/// does nothing.
pub fn least_faulty_line_decides()
    ensures wordless { (ls : List (List ℕ)) → have_no_words ls ≡ true → framed ls ≡ Refused 1 SysKind.FirstLine }
    ensures refused { (ls : List (List ℕ)) (line : ℕ) (kind : SysKind) → have_no_words ls ≡ false → framed ls ≡ Refused line kind →
        IsFirstFrameFault ls line kind ⊎ (HasNoFrameFault ls × (decided_at_the_end ls ≡ Refused line kind)) }
    ensures faulty { (ls : List (List ℕ)) (line : ℕ) (kind : SysKind) → have_no_words ls ≡ false → IsFirstFrameFault ls line kind → framed ls ≡ Refused line kind }
    ensures taken { (ls : List (List ℕ)) (given : Given) → framed ls ≡ Whole given → HasNoFrameFault ls × (decided_at_the_end ls ≡ Whole given) }
    ensures faultless { (ls : List (List ℕ)) → have_no_words ls ≡ false → HasNoFrameFault ls → framed ls ≡ decided_at_the_end ls }
{}
