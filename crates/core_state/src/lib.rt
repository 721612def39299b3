//! A thread's registers, status and run, and how an instruction ends: the plain values that the units of a core work on. Their
//! definitions stand in xs_model. See docs/MACHINE.md.
#![tactic(auto)]

pub use xs_model::{Entry0, Outcome, Run, Status, Thread, Wait};
