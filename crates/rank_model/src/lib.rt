//! Route ranks, a certificate that packets arrive: definitions alone, with the plain types that they speak of. See docs/ROUTES.md.
#![tactic(auto)]

mod rank_kind;
mod rank_line;
mod verdict;

pub use rank_kind::RankKind;
pub use rank_line::{RankLine, RankSays};
pub use verdict::Verdict;
