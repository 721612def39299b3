//! The program's one call: the words choose a form, which answers to the input, and the answer is written. See
//! docs/OUTPUT.md.
#![tactic(auto)]

mod call;
mod check;
mod counted;
mod make;
mod pins;
mod play;
mod program;
mod refusals;
mod resume;
mod routes;
mod run;
mod save;
mod wave;
mod words;

pub use answer_model::Status;
pub use call::{top, top_plain};
pub use counted::top_counted;
