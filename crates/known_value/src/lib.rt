//! A value that only proofs read. It takes no memory, and its methods do nothing at run time.
#![tactic(auto)]

ghost use Rattle.std.specs.Prelude.{◌≡◌};
ghost use Rattle.std.specs.Borrow.{ftrue};

use std::marker::{Model, PhantomData};

/// What was once seen of a `T`: a clause reads it as `value`.
#[derive(Drop)]
pub struct Known<T> {
    of: PhantomData<T>,
    pub ghost value: { T } by { T.code },
}

impl<T> Model for Known<T> {
    ghost also_owns = { λ _. ftrue };
}

// It owns nothing.
unsafe impl<T: Send> Send for Known<T> {}

impl<T> Known<T> {
    /// Keeps what a value is now.
    pub fn of(value: &T) -> Known<T>
        ensures { result.value ≡ value.now }
    {
        Known { of: PhantomData }
    }
}
