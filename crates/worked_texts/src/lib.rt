//! Facts of texts that were worked out by hand, which the definitions give: lines and tokens, the printed form of each row of the
//! instruction table, sources, canonical texts, pin scripts, systems and ranks. Nothing stands on this crate.
#![tactic(auto)]

mod canonical_texts;
mod cut_texts;
mod forms;
mod line_tokens;
mod pins_read;
mod play_read;
mod rank_lines;
mod scripts;
mod source_lines;
mod systems_read;
mod wires_read;

pub use canonical_texts::worked_canonical_texts;
pub use cut_texts::worked_cut_texts;
pub use forms::worked_forms;
pub use line_tokens::worked_line_tokens;
pub use pins_read::worked_pins_read;
pub use play_read::worked_play_read;
pub use rank_lines::worked_rank_lines;
pub use scripts::worked_scripts;
pub use source_lines::worked_source_lines;
pub use systems_read::worked_systems_read;
pub use wires_read::worked_wires_read;
