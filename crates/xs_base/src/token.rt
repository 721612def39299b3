/// What channel ends and links carry: a data byte, or a control token such as END (1), PAUSE (2), ACK (3) or
/// NACK (4). Other control values are passed on as they are. See docs/MACHINE.md.
#[derive(Clone, Copy, PartialEq, Eq, Debug)]
pub enum Token {
    Byte(u8),
    Ctrl(u8),
}

impl Default for Token {
    /// What stands in a place of a buffer that holds no token.
    fn default() -> Token {
        Token::Byte(0)
    }
}
