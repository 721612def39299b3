//! What calls on synchronisers and locks answer.

/// A synchroniser or lock with which the thread may not do this.
#[derive(Clone, Copy, PartialEq, Eq, Debug)]
pub struct Bad;

/// What a thread finds that would own a lock.
#[derive(Clone, Copy, PartialEq, Eq, Debug)]
pub enum Claim {
    /// The thread owns it now.
    Got,
    /// Another thread owns it: it has to wait.
    Held,
    /// It is not in use, or the thread owns it already.
    Bad,
}
