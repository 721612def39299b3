ghost use Rattle.std.specs.Prelude.{◌≡◌, ◌<◌, ◌^◌};
ghost use Rattle.source_model.specs.Layout.{bytes_length};
ghost use Rattle.source_model.specs.Layout.{Sofar as SomeLines};
ghost use Rattle.source_model.specs.Statement.{Line};
ghost use Rattle.source_model.specs.Source.{fault_of_line, is_unknown, is_misshapen};
ghost use Rattle.xs_assembler.specs.Findings.{AreFindings};
ghost use Rattle.xs_assembler.specs.Statements.{says_of};

use crate::layouts::{bytes_length, may_stand};
use crate::statement::{Says, Statement};
use source_model::{AsmKind, Layout, Section};

// At most so many instructions.
const MOST_CODE: u64 = 16_384;

// At most so many bytes.
const MOST_BYTES: u64 = 65_536;

// What the second pass found out about a line without a bad byte, and what the lines are by then.
#[derive(Clone, Copy)]
pub struct Findings<'a> {
    // The section in which the line stands.
    pub section: Section,
    // Whether a label of it was defined before.
    pub label_twice: bool,
    // Whether a label of it is a reserved name.
    pub label_reserved: bool,
    pub statement: Statement<'a>,
    pub out_of_range: bool,
    // Whether no line defines a name of the statement, if no value is out of range.
    pub label_missing: bool,
    // The layout after it.
    pub after: Layout,
}

// The first kind of which the line has a fault.
pub fn fault_of_line(found: Findings) -> Option<AsmKind>
    requires bytes { found.after.data_bytes < 2 ^ 62 }
    requires constants { found.after.constant_bytes < 2 ^ 62 }
    ensures { (whole before : SomeLines) (line : Line) → AreFindings whole before line found.entry → result ≡ fault_of_line whole before line }
{
    let says = found.statement.says;
    if found.label_twice {
        Some(AsmKind::LabelTwice)
    } else if !may_stand(found.section, found.statement.home) {
        Some(AsmKind::DirectiveNotAllowed)
    } else if is_unknown(says) {
        Some(AsmKind::UnknownName)
    } else if found.label_reserved || is_misshapen(says) {
        Some(AsmKind::WrongOperands)
    } else if found.out_of_range {
        Some(AsmKind::NumberOutOfRange)
    } else if found.label_missing {
        Some(AsmKind::LabelMissing)
    } else if found.after.instructions > MOST_CODE {
        Some(AsmKind::TooManyInstructions)
    } else if bytes_length(found.after) > MOST_BYTES {
        Some(AsmKind::TooManyBytes)
    } else {
        None
    }
}

fn is_unknown(says: Says) -> bool
    ensures { result ≡ is_unknown (says_of says.entry) }
{
    matches!(says, Says::Unknown)
}

fn is_misshapen(says: Says) -> bool
    ensures { result ≡ is_misshapen (says_of says.entry) }
{
    matches!(says, Says::Misshapen)
}
