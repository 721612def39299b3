//! How the issue of an instruction ends.
use xs_model::{Happen, Outcome, Wait};

/// How the issue of an instruction ends, and what happens by it: only rows on ports tell something.
#[derive(Clone, Copy)]
pub enum Ending {
    /// Nothing happens by it.
    Quietly(Outcome),
    /// It is done, and this happens.
    Done(Happen),
    /// Its thread has to wait, and this happens.
    Pause(Wait, Happen),
}
