//! Waves as value change dumps: that of a run is written, and the pin script that a wave text gives a node is read from it. See docs/WAVES.md.
#![tactic(auto)]

mod changes;
mod declared;
mod line_forms;
mod named_lines;
mod pins;
mod place;
mod read_wave;
mod reader;
mod run_wave;
mod wave_error;
mod wave_text;

pub use pins::pins_of;
pub use run_wave::wave;
pub use wave_error::WaveError;
pub use wave_model::{WaveChange, WaveKind};
