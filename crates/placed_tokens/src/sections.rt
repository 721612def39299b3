//! The section in which a line stands.
ghost use Rattle.std.specs.Prelude.{◌≡◌, ◌<◌, ◌^◌, [], length, take};
ghost use Rattle.xs_text.specs.Lines.{lines_of};
ghost use Rattle.source_model.specs.Statement.{directive, bytes_directive};
ghost use Rattle.source_model.specs.Layout.{may_stand, section_after};
ghost use Rattle.explain_model.specs.Sections.{named_home, home_of_line, section_after_line, section_of};

use crate::tokens::{behind_labels, next_token};
use source_model::{Home, Section};
use xs_instructions::same_name;
use xs_text::{Lines, TokKind, all_allowed};

// Where a directive of bytes may stand.
fn bytes_home(name: &[u8]) -> Home
    ensures { result ≡ (bytes_directive name.now []).home }
{
    if same_name(b".word", name) {
        Home::InBytes
    } else if same_name(b".short", name) {
        Home::InBytes
    } else if same_name(b".byte", name) {
        Home::InBytes
    } else if same_name(b".space", name) {
        Home::InBytes
    } else {
        Home::Nowhere
    }
}

// Where a directive may stand.
fn directive_home(name: &[u8]) -> Home
    ensures { result ≡ (directive name.now []).home }
{
    if same_name(b".text", name) {
        Home::InText
    } else if same_name(b".globl", name) {
        Home::InText
    } else if same_name(b".align", name) {
        Home::Anywhere
    } else if same_name(b".data", name) {
        Home::BeginsData
    } else if same_name(b".cp", name) {
        Home::BeginsConstants
    } else {
        bytes_home(name)
    }
}

// Where a statement with this name may stand.
fn named_home(name: &[u8]) -> Home
    ensures { result ≡ named_home name.now }
{
    match name {
        [b'.', ..] => directive_home(name),
        _ => Home::InText,
    }
}

/// Where the statement of a line of a source may stand. See docs/ASSEMBLY.md.
pub fn home_of(line: &[u8]) -> Home
    ensures { result ≡ home_of_line line.now }
{
    match next_token(line, behind_labels(line)) {
        Some(token) if token.kind == TokKind::Name => named_home(token.bytes),
        _ => Home::Anywhere,
    }
}

fn may_stand(section: Section, home: Home) -> bool
    ensures { result ≡ may_stand section home }
{
    match home {
        Home::Anywhere => true,
        Home::InText | Home::BeginsData => section == Section::Text,
        Home::InBytes => section != Section::Text,
        Home::BeginsConstants => section != Section::Constants,
        Home::Nowhere => false,
    }
}

fn section_after(section: Section, home: Home) -> Section
    ensures { result ≡ section_after section home }
{
    match home {
        Home::BeginsData => Section::Data,
        Home::BeginsConstants => Section::Constants,
        _ => section,
    }
}

/// The section after a line of a source, where it stood in one. See docs/LOOK.md.
pub fn section_after_line(section: Section, line: &[u8]) -> Section
    ensures { result ≡ section_after_line section line.now }
{
    if !all_allowed(line) {
        return section;
    }
    let home = home_of(line);
    if may_stand(section, home) {
        section_after(section, home)
    } else {
        section
    }
}

/// The section after the first lines of a source, so many: the code where it has none. See docs/LOOK.md.
#[tactic(auto, unfolding(explain_model::specs::Sections::section_after_lines))]
pub fn section_of(source: &[u8], count: u32) -> Section
    requires { length source.now < 2 ^ 32 }
    ensures { result ≡ section_of (take count (lines_of source.now)) }
{
    let mut lines = Lines::new(source);
    let mut section = Section::Text;
    while let Some(line) = lines.next_line() {
        if line.number > count {
            return section;
        }
        section = section_after_line(section, &source[line.from..line.to]);
    }
    section
}
