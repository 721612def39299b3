/// How a port changes what it drives its pins with. See docs/PORTS.md.
#[derive(Clone, Copy)]
pub enum PinChange {
    /// It drives them with this value, below 2^width, which is new.
    Drive(u32),
    /// It lets go of them.
    Float,
}
