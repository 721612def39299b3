//! What calls on timers and clock blocks answer.

/// A timer or a clock block with which a program may not do this.
#[derive(Clone, Copy, PartialEq, Eq, Debug)]
pub struct Bad;
