//! Gates that see who passes.
use std::sync::atomic::{AtomicU64, Ordering};
use xs_edge::Gate;

/// A gate that keeps the numbers of those that passed: two digits for each, which are 10 more than the number.
#[derive(Drop)]
pub struct Passed {
    numbers: AtomicU64,
}

impl Passed {
    /// A gate that none has passed.
    pub fn new() -> Passed {
        Passed {
            numbers: AtomicU64::new(0),
        }
    }

    /// The digits so far.
    pub fn digits(&self) -> u64 {
        self.numbers.load(Ordering::SeqCst)
    }
}

impl Gate for Passed {
    fn pass(&self, worker: u32) {
        let number = u64::from(worker).wrapping_add(10);
        let before = self.numbers.load(Ordering::SeqCst);
        let after = before.wrapping_mul(100).wrapping_add(number);
        self.numbers.store(after, Ordering::SeqCst);
    }
}
