//! The forms of an instruction: those of the rows with its name.
ghost use Rattle.std.specs.Prelude.{◌≡◌, ◌≤◌, List, [], ◌∷◌, length, IfOk, OnOk};
ghost use Rattle.xs_instructions.specs.declared.rows.TheConstants.{ROWS};
ghost use Rattle.xs_instructions.specs.declared.rows.Row.{Row};
ghost use Rattle.explain_model.specs.Forms.{with_rows};
ghost use Rattle.explain_model.specs.Spots.{spot_at};
ghost use Rattle.placed_tokens.specs.Tokens.{placed_left};
ghost use Rattle.marked_lines.specs.Stops.{spot_of_kept};

use crate::forms::stop_of_parts;
use marked_lines::Spot;
use std::alloc::{AllocError, Global};
use xs_instructions::{Part, ROWS, Row, same_name};

/// Where the forms of an instruction stop that go farthest, by its name and what comes behind it. The error is want of memory, here and below.
pub(crate) fn rows_spot(
    alloc: Global,
    name: &[u8],
    line: &[u8],
    behind: usize,
) -> Result<Spot, AllocError>
    requires { behind ≤ length line.now }
    ensures spot { IfOk result (λ spot. spot_of_kept spot ≡ with_rows ROWS name.now behind (placed_left line.now behind) (spot_at behind [])) }
    ensures within { IfOk result (λ spot. spot.at ≤ length line.now) }
{
    let mut spot = Spot::new(alloc, behind, None)?;
    add_rows(&ROWS, name, line, behind, &mut spot)?;
    Ok(spot)
}

// Takes the forms of these rows into account that have the name.
#[tactic(auto, unfolding(explain_model::specs::Forms::with_rows))]
fn add_rows(
    rows: &[Row],
    name: &[u8],
    line: &[u8],
    behind: usize,
    spot: &mut Spot,
) -> Result<(), AllocError>
    requires behind { behind ≤ length line.now }
    requires within { spot.old.at ≤ length line.now }
    ensures spot { OnOk result (spot_of_kept spot.new ≡ with_rows rows.now name.now behind (placed_left line.now behind) (spot_of_kept spot.old)) }
    ensures within { OnOk result (spot.new.at ≤ length line.now) }
{
    for row in rows {
        add_row(*row, name, line, behind, spot)?;
    }
    Ok(())
}

// The same of one row.
#[tactic(auto, unfolding(explain_model::specs::Forms::with_rows))]
fn add_row(
    row: Row,
    name: &[u8],
    line: &[u8],
    behind: usize,
    spot: &mut Spot,
) -> Result<(), AllocError>
    requires behind { behind ≤ length line.now }
    requires within { spot.old.at ≤ length line.now }
    ensures spot { (rest : List Row) → OnOk result (with_rows rest name.now behind (placed_left line.now behind) (spot_of_kept spot.new) ≡ with_rows (row ∷ rest) name.now behind (placed_left line.now behind) (spot_of_kept spot.old)) }
    ensures within { OnOk result (spot.new.at ≤ length line.now) }
{
    if same_name(row.name().as_bytes(), name) {
        spot.add_stop(stop_of_parts(Part::Common, Part::Common, row.parts(), line, behind))?;
    }
    Ok(())
}
