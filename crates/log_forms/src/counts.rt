//! `Counts`, how many tokens and credits are among entries.
ghost use Rattle.std.specs.Prelude.{◌≡◌, ◌<◌, ◌^◌};
ghost use Rattle.log_forms.specs.Entries.{counts_of, counts_with};

use xs_base::{Entry, What};

/// How many of some entries are tokens, and how many are credits.
#[derive(Clone, Copy)]
pub(crate) struct Counts {
    pub(crate) tokens: usize,
    pub(crate) credits: usize,
}

impl Counts {
    /// Those of no entries.
    pub(crate) fn none() -> Counts
        ensures value { result ≡ record { tokens = 0; credits = 0 } }
    {
        Counts {
            tokens: 0,
            credits: 0,
        }
    }

    /// Those of entries.
    pub(crate) fn of(entries: &[Entry]) -> Counts
        ensures value { result ≡ counts_of entries.now }
    {
        let mut counts = Counts::none();
        for e in entries {
            match e.what {
                What::Token(_) => counts.tokens += 1,
                What::Credit => counts.credits += 1,
                What::Level(_) => {}
            }
        }
        counts
    }

    /// These with one more of a kind, which is a token or a credit.
    pub(crate) fn with(self, kind: u8) -> Counts
        requires tokens { self.tokens < 2 ^ 63 }
        requires credits { self.credits < 2 ^ 63 }
        ensures value { result ≡ counts_with self kind }
    {
        if kind == 2 {
            Counts {
                tokens: self.tokens,
                credits: self.credits + 1,
            }
        } else {
            Counts {
                tokens: self.tokens + 1,
                credits: self.credits,
            }
        }
    }
}
