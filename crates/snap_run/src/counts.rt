//! How much of a history was sent from a slot on.
ghost use Rattle.std.specs.Prelude.{◌≡◌, ◌<◌, ◌^◌};
ghost use Rattle.trace_model.specs.Trace.{tokens_sent, credits_sent};
ghost use Rattle.snap_model.specs.Rest.{sent_from};

use xs_base::{Entry, What};

/// How many tokens, or levels of a wire, and how many credits of a history were sent in a slot or after it.
pub(crate) fn count_from(history: &[Entry], slot: u32) -> (u64, u64)
    ensures tokens { result.0 ≡ tokens_sent (sent_from slot history.now) }
    ensures credits { result.1 ≡ credits_sent (sent_from slot history.now) }
    ensures few_tokens { result.0 < 2 ^ 63 }
    ensures few_credits { result.1 < 2 ^ 63 }
{
    let mut tokens = 0;
    let mut credits = 0;
    for e in history {
        if slot <= e.slot {
            match e.what {
                What::Token(_) | What::Level(_) => tokens += 1,
                What::Credit => credits += 1,
            }
        }
    }
    (tokens, credits)
}
