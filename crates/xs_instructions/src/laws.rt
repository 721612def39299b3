ghost use Rattle.std.specs.Prelude.{◌≡◌, ℕ, List, Some, IfSome};
ghost use Rattle.xs_instructions.specs.declared.instr.Instr.{Instr};
ghost use Rattle.xs_instructions.specs.Rows.{name_of, parts_of};
ghost use Rattle.xs_instructions.specs.Operands.{row_of, values_of};
ghost use Rattle.xs_instructions.specs.Instr.{InRange, label_of, labelled, value_parts};
ghost use Rattle.xs_instructions.specs.declared.rows.Row.{Row};
ghost use Rattle.xs_instructions.specs.Find.{find, build};
ghost use Rattle.xs_instructions.specs.Spelling.{shapes};

/// What an instruction is written as is read as this instruction: its row's name and the shapes of its form find its
/// row, and its values build it. See docs/INSTRUCTIONS.md.
#[tactic(auto, using(crate::proofs::Finds::find_back, crate::proofs::Made::build_back))]
pub fn written_is_read()
    ensures found { (ins : Instr) → InRange ins → find (name_of (row_of ins)) (shapes (parts_of (row_of ins)) (values_of ins)) ≡ Some (row_of ins) }
    ensures built_again { (ins : Instr) → InRange ins → build (row_of ins) (values_of ins) ≡ Some ins }
{}

/// What a row builds of values is in range, of this row and of these values; and the place that an instruction names is
/// the value at its row's label. See docs/INSTRUCTIONS.md.
#[tactic(auto, using(crate::proofs::Made::built_facts, crate::proofs::Labels::label_labelled))]
pub fn built_is_of_its_row()
    ensures built { (r : Row) (values : List ℕ) → IfSome (build r values) (λ ins. InRange ins × (row_of ins ≡ r) × (values_of ins ≡ values)) }
    ensures label { (ins : Instr) → label_of ins ≡ labelled (value_parts (row_of ins)) (values_of ins) }
{}
