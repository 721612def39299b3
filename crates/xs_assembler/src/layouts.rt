ghost use Rattle.std.specs.Prelude.{◌≡◌, ◌+◌, ◌<◌, ◌≤◌, ◌^◌};
ghost use Rattle.source_model.specs.Layout.{nothing_yet, section_length, here, may_stand, padding, added, longer, section_after, moved, round_up_to_word, section_start, bytes_length};
ghost use Rattle.xs_assembler.specs.Statements.{says_of, statement_of};

use crate::statement::{Says, Statement};
use crate::values::width_bytes;
use source_model::{Home, Layout, Place, Section};
use xs_base::numbers::{CODE_START, MEMORY_START};

// No lines yet.
pub fn no_lines() -> Layout
    ensures { result ≡ nothing_yet.layout }
{
    Layout {
        section: Section::Text,
        instructions: 0,
        data_bytes: 0,
        constant_bytes: 0,
    }
}

// The length of a section, in instructions or in bytes.
pub fn section_length(layout: Layout, section: Section) -> u64
    ensures { result ≡ section_length layout section }
{
    match section {
        Section::Text => layout.instructions,
        Section::Data => layout.data_bytes,
        Section::Constants => layout.constant_bytes,
    }
}

// Where the next instruction or byte comes.
pub fn here(layout: Layout) -> Place
    ensures { result ≡ here layout }
{
    Place {
        section: layout.section,
        offset: section_length(layout, layout.section),
    }
}

// Whether a statement may stand in a section.
pub fn may_stand(section: Section, home: Home) -> bool
    ensures { result ≡ may_stand section home }
{
    match home {
        Home::Anywhere => true,
        Home::InText | Home::BeginsData => section == Section::Text,
        Home::InBytes => section != Section::Text,
        Home::BeginsConstants => section != Section::Constants,
        Home::Nowhere => false,
    }
}

// How much is to come before a multiple of the unit. No source gives the unit 0.
pub fn padding(long: u64, unit: u32) -> u64
    ensures value { result ≡ padding long unit }
    ensures small { result < 2 ^ 32 }
{
    if unit == 0 {
        return 0;
    }
    let unit = u64::from(unit);
    (unit - long % unit) % unit
}

// How much a statement adds to a section of some length.
fn added(long: u64, says: &Says) -> u64
    requires { added long (says_of says.now) < 2 ^ 64 }
    ensures { result ≡ added long (says_of says.now) }
{
    match says {
        Says::Instruction(_, _) => 1,
        Says::Values(list) => width_bytes(list.width) * list.count,
        Says::Zeros(Some(count)) => u64::from(*count),
        Says::Align(Some(unit)) => padding(long, *unit),
        Says::Zeros(None) | Says::Align(None) => 0,
        Says::NoEffect | Says::Unknown | Says::Misshapen => 0,
    }
}

// The section that comes after a statement.
fn section_after(section: Section, home: Home) -> Section
    ensures { result ≡ section_after section home }
{
    match home {
        Home::BeginsData => Section::Data,
        Home::BeginsConstants => Section::Constants,
        _ => section,
    }
}

// The layout with the section that it is in so much longer.
fn longer(layout: Layout, more: u64) -> Layout
    requires { section_length layout layout.section + more < 2 ^ 64 }
    ensures { result ≡ longer layout more }
{
    let mut layout = layout;
    match layout.section {
        Section::Text => layout.instructions += more,
        Section::Data => layout.data_bytes += more,
        Section::Constants => layout.constant_bytes += more,
    }
    layout
}

// The layout after a statement.
pub fn moved(layout: Layout, statement: &Statement) -> Layout
    requires { section_length layout layout.section + added (section_length layout layout.section) (says_of statement.now.says) < 2 ^ 64 }
    ensures { result ≡ moved layout (statement_of statement.now) }
{
    if !may_stand(layout.section, statement.home) {
        return layout;
    }
    let more = added(section_length(layout, layout.section), &statement.says);
    let mut after = longer(layout, more);
    after.section = section_after(layout.section, statement.home);
    after
}

// The first multiple of 4 that is not below.
pub fn round_up_to_word(n: u64) -> u64
    requires { n < 2 ^ 62 }
    ensures { result ≡ round_up_to_word n }
{
    (n + 3) / 4 * 4
}

// Where a section begins.
pub fn section_start(whole: Layout, section: Section) -> u64
    requires { whole.data_bytes < 2 ^ 62 }
    ensures value { result ≡ section_start whole section }
    ensures small { result < 2 ^ 63 }
{
    match section {
        Section::Text => u64::from(CODE_START),
        Section::Data => u64::from(MEMORY_START),
        Section::Constants => u64::from(MEMORY_START) + round_up_to_word(whole.data_bytes),
    }
}

// The bytes of both sections together.
pub fn bytes_length(layout: Layout) -> u64
    requires bytes { layout.data_bytes < 2 ^ 62 }
    requires constants { layout.constant_bytes < 2 ^ 62 }
    ensures { result ≡ bytes_length layout.data_bytes layout.constant_bytes }
{
    if layout.constant_bytes == 0 {
        layout.data_bytes
    } else {
        round_up_to_word(layout.data_bytes) + layout.constant_bytes
    }
}
