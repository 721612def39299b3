//! Pin scripts: what drives the pins of a system's nodes from outside. See docs/PINS.md.
#![tactic(auto)]

mod changes;
mod form;
mod kept_script;
mod line;
mod node_changes;
mod pin_error;
mod port_names;
mod reader;
mod script;

pub use line::{Change, PinForm, PinLine, PinSays};
pub use pin_error::{PinError, PinKind};
pub use port_names::port_of;
pub use reader::read_pins;
pub use script::Script;
