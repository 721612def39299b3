//! What may be wrong in the lines of the frame.
ghost use Rattle.std.specs.Prelude.{◌≡◌, ◌<◌, ◌^◌, ◌++◌, false, length, OnOk};
ghost use Rattle.xs_text.specs.Lines.{lines_of};
ghost use Rattle.xs_text.specs.Words.{words_of_line};
ghost use Rattle.warning_model.specs.Ways.{warnings_of_words};
ghost use Rattle.warning_model.specs.Warnings.{site_of_frame, warnings_of_frame};

use crate::sections::begins_section;
use crate::warning::{Site, Warnings};
use crate::ways::add_words;
use frame_lines::is_end;
use std::alloc::{AllocError, Global};
use sys_plan::Plan;
use xs_text::Lines;

// Of a line outside of the sections. The error is want of memory, here and below.
fn add_line<'a>(
    alloc: Global,
    warnings: &mut Warnings<'a>,
    plan: &Plan,
    number: u32,
    line: &'a [u8],
) -> Result<(), AllocError>
    ensures { OnOk result (warnings.new ≡ warnings.old ++ warnings_of_words plan.now (site_of_frame number line.now) (words_of_line line.now)) }
{
    let site = Site {
        source: None,
        number,
        bytes: line,
    };
    add_words(alloc, warnings, site, plan)
}

/// Of the lines of the frame outside of the sections.
#[tactic(auto, unfolding(warning_model::specs::Warnings::warnings_of_frame))]
pub(crate) fn add_frame<'a>(
    alloc: Global,
    warnings: &mut Warnings<'a>,
    plan: &Plan,
    text: &'a [u8],
) -> Result<(), AllocError>
    requires { length text.now < 2 ^ 32 }
    ensures { OnOk result (warnings.new ≡ warnings.old ++ warnings_of_frame plan.now 1 false (lines_of text.now)) }
{
    let mut lines = Lines::new(text);
    let mut inside = false;
    while let Some(line) = lines.next_line() {
        let bytes = &text[line.from..line.to];
        if inside {
            inside = !is_end(bytes);
        } else {
            add_line(alloc, warnings, plan, line.number, bytes)?;
            inside = begins_section(bytes);
        }
    }
    Ok(())
}
