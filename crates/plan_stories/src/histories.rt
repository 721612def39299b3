//! Logs of a plan's arcs have the histories of the serial machine. See docs/LOOKAHEAD.md.
ghost use Rattle.std.specs.Prelude.{◌≡◌};
ghost use Rattle.serial_model.specs.Serial.{history};
ghost use Rattle.link_logs.specs.Entries.{tokens_in, credits_in};
ghost use Rattle.plan_stories.specs.Histories.{StoriesAreHistories};

use crate::story::PlanStory;
use link_logs::Log;
use xs_base::Entry;

/// For every plan and each of its arcs: what its story tells of some slots, one after the other, is the history of the link over
/// these slots in the serial machine. It does nothing.
pub fn stories_are_histories()
    ensures histories { StoriesAreHistories }
{}

/// The entries of a log, in the order in which they were sent: the history of its arc in the serial machine, from the log's base
/// on, up to which it was read, and before the slot up to which it is published. It takes no memory.
pub fn history_in(log: &Log<PlanStory>) -> &[Entry]
    ensures value { result.now ≡ log.now.entries }
    ensures history { result.now ≡ history log.now.run log.now.number log.now.base log.now.published }
{
    stories_are_histories();
    log.entries()
}

/// How many tokens, or levels of a wire, and how many credits the arc of a log carried: those of its history in the serial machine, from
/// slot 0 on and before the slot up to which the log is published, read or not. It takes no memory.
pub fn totals_in(log: &Log<PlanStory>) -> (u64, u64)
    ensures tokens { result.0 ≡ tokens_in (history log.now.run log.now.number 0 log.now.published) }
    ensures credits { result.1 ≡ credits_in (history log.now.run log.now.number 0 log.now.published) }
{
    stories_are_histories();
    log.totals()
}
