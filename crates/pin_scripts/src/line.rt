/// A line of a pin script: from this slot on the pin of a port, 0 to 28, of the node with this number shows this value,
/// which has at most as many bits as the port has pins. See docs/PINS.md.
#[derive(Clone, Copy)]
pub struct PinLine {
    pub slot: u32,
    pub node: u8,
    pub port: u8,
    pub value: u32,
}

/// A change of a pin: from this slot on it shows this value.
#[derive(Clone, Copy)]
pub struct Change {
    pub slot: u32,
    pub value: u32,
}

/// A line `SLOT N:PORT VALUE` as it is written: the number of a node, which need not be there, and the port of a name,
/// 0 to 28, where a port has that name.
#[derive(Clone, Copy)]
pub struct PinForm {
    pub slot: u32,
    pub node: u32,
    pub port: Option<u8>,
    pub value: u32,
}

/// What a line of a pin script says.
#[derive(Clone, Copy)]
pub enum PinSays {
    /// It has no words.
    Blank,
    /// It has words, and not the form.
    NoForm,
    /// It has the form.
    Form(PinForm),
}
