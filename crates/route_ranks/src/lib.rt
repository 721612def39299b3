//! Route ranks, a certificate that packets arrive: the ranks that stand before a system text are read, and what they come to is told. See docs/ROUTES.md.
#![tactic(auto)]

mod check;
mod line_checks;
mod no_rank;
mod no_way;
mod rank_error;
mod rank_words;
mod ranks;
mod reader;
mod ways;

pub use check::check_ranks;
pub use rank_error::RankError;
pub use rank_model::{RankKind, RankLine, Verdict};
pub use ranks::Ranks;
pub use reader::read_ranks;
pub use ways::{first_difference, leads};
