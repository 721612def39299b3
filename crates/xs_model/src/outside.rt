use xs_base::Token;

/// What comes to a node in one slot, by link end: at most one token and at most one credit.
#[derive(Clone, Copy)]
pub struct Arrivals {
    pub tokens: [Option<Token>; 8],
    pub credits: [bool; 8],
}

/// What the pins of a node's ports show in one slot where no port drives them, by port number: 0 to 15 are 1A to
/// 1P, 16 to 21 are 4A to 4F, 22 to 25 are 8A to 8D, then 16A, 16B and 32A.
#[derive(Clone, Copy)]
pub struct PinView {
    pub level: [u32; 29],
}
