ghost use Rattle.std.specs.Prelude.{◌≡◌};
ghost use Rattle.xs_instructions.specs.Words.{same_name};
ghost use Rattle.xs_instructions.specs.Rows.{name_of};
ghost use Rattle.xs_instructions.specs.Find.{shape_fits, have_form, is_of_row, first_row, find, known};
ghost use Rattle.std.specs.List.{list_any};

use crate::rows::{Part, ROWS, Row};
use crate::shape::Shape;
use crate::symbols::same_name;

/// The row of a line, by its name and the shapes of its operand tokens in order, marks included. A register has to be
/// of its place's class, and a number may have any value. None comes exactly where no row has this name with these
/// shapes. See docs/INSTRUCTIONS.md.
#[tactic(auto, unfolding(crate::specs::Find::find))]
pub fn find(name: &[u8], shapes: &[Shape]) -> Option<Row>
    ensures value { result ≡ find name.now shapes.now }
{
    first_row(&ROWS, name, shapes)
}

/// Whether some row has the name. See docs/INSTRUCTIONS.md.
#[tactic(auto, unfolding(crate::specs::Find::known))]
pub fn known(name: &[u8]) -> bool
    ensures value { result ≡ known name.now }
{
    some_row_has(&ROWS, name)
}

// The first of the rows with this name and these shapes.
fn first_row(rows: &[Row], name: &[u8], shapes: &[Shape]) -> Option<Row>
    ensures { result ≡ first_row rows.now name.now shapes.now }
{
    for row in rows {
        if is_of_row(*row, name, shapes) {
            return Some(*row);
        }
    }
    None
}

fn some_row_has(rows: &[Row], name: &[u8]) -> bool
    ensures { result ≡ list_any (λ r. same_name (name_of r) name.now) rows.now }
{
    for row in rows {
        if same_name(row.name().as_bytes(), name) {
            return true;
        }
    }
    false
}

fn is_of_row(row: Row, name: &[u8], shapes: &[Shape]) -> bool
    ensures { result ≡ is_of_row row name.now shapes.now }
{
    same_name(row.name().as_bytes(), name) && have_form(row.parts(), shapes)
}

// Whether the shapes of a line's operands have the form.
fn have_form(parts: &[Part], shapes: &[Shape]) -> bool
    ensures { result ≡ have_form parts.now shapes.now }
{
    match parts {
        [] => shapes.is_empty(),
        [part, parts @ ..] => match shapes {
            [] => false,
            [shape, shapes @ ..] => shape_fits(*part, *shape) && have_form(parts, shapes),
        },
    }
}

// Whether what is written may stand at a part.
fn shape_fits(part: Part, shape: Shape) -> bool
    ensures { result ≡ shape_fits part shape }
{
    match (part, shape) {
        (Part::Common, Shape::Reg(n)) => n < 12,
        (Part::AnyRegister, Shape::Reg(n)) => n < 16,
        (Part::Register(r), Shape::Reg(n)) => r == n,
        (Part::Small | Part::Width | Part::Short | Part::Exactly(_), Shape::Num) => true,
        (Part::Label, Shape::Label) => true,
        (Part::Word(k), Shape::Word(n)) => k == n,
        _ => false,
    }
}
