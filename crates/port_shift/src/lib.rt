//! The shift register of a port: bits that leave, or come in, a beat at a time. See docs/PORTS.md.
#![tactic(auto)]

mod shift;

pub use shift::Shift;
