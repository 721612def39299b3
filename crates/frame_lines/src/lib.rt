//! The lines of a frame that stand before a line of a system text: what they begin and give, and this in words. See docs/LOOK.md.
#![tactic(auto)]

mod before;
mod earlier_line;
mod gifts;
mod numbers;
mod openings;
mod values;
mod words;

pub use before::{Before, edition_of, read_before};
pub use earlier_line::EarlierLine;
pub use gifts::{count_givers, giver, is_given};
pub use numbers::{append_already, append_ends, append_nodes, append_system_nodes};
pub use openings::{Opening, is_end, opening_of};
pub use values::{back_of, end_of, node_of, port_in, value_of};
