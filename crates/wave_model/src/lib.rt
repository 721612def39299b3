//! Waves, the levels of all pins over a run, as a value change dump: definitions alone, with the plain types that they speak of. See
//! docs/WAVES.md.
#![tactic(auto)]

mod change;
mod wave_kind;

pub use change::WaveChange;
pub use wave_kind::WaveKind;
