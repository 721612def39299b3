//! How many tokens, or levels of a wire, and credits a history has.
ghost use Rattle.std.specs.Prelude.{◌≡◌};
ghost use Rattle.trace_model.specs.Trace.{tokens_sent, credits_sent};

use xs_base::{Entry, What};

/// How many tokens, or levels of a wire, and how many credits, a history has.
pub(crate) fn count_sent(history: &[Entry]) -> (u64, u64)
    ensures tokens { result.0 ≡ tokens_sent history.now }
    ensures credits { result.1 ≡ credits_sent history.now }
{
    let mut tokens = 0;
    let mut credits = 0;
    for e in history {
        match e.what {
            What::Token(_) | What::Level(_) => tokens += 1,
            What::Credit => credits += 1,
        }
    }
    (tokens, credits)
}
