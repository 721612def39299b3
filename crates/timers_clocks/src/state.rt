//! What a snapshot keeps of a timer and of a clock block.

/// What a snapshot keeps of a timer: whether it is in use, whether it has the condition that the time is after its value, and
/// that value, a time. One that is not in use may have the condition and any value. See docs/SNAPSHOTS.md.
#[derive(Clone, Copy)]
pub struct TimerState {
    pub used: bool,
    pub after: bool,
    pub value: u32,
}

/// What a snapshot keeps of a clock block: whether it is on, whether it runs, and its divider, 0 to 255. One that is off may run
/// and may have any divider. See docs/SNAPSHOTS.md.
#[derive(Clone, Copy)]
pub struct ClockState {
    pub on: bool,
    pub running: bool,
    pub div: u8,
}
