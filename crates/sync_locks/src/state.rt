//! What a snapshot keeps of a synchroniser and of a lock.

/// What a snapshot keeps of a synchroniser: whether it is in use, its master, 0 to 7, and its slaves, bit k for thread k. One that
/// is not in use has the master 0 and no slaves. See docs/SNAPSHOTS.md.
#[derive(Clone, Copy)]
pub struct SyncState {
    pub used: bool,
    pub master: u8,
    pub slaves: u8,
}

/// What a snapshot keeps of a lock: whether it is in use, and its owner, 0 to 7, if it has one. One that is not in use may have an
/// owner too. See docs/SNAPSHOTS.md.
#[derive(Clone, Copy)]
pub struct LockState {
    pub used: bool,
    pub owner: Option<u8>,
}
