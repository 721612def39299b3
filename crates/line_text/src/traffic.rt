//! What travels on links, the link ends by which it goes, and the pins that wires join.
ghost use Rattle.std.specs.Prelude.{◌≡◌, ◌<◌, ◌++◌, OnOk};
ghost use Rattle.trace_model.specs.EventLines.{token_text};
ghost use Rattle.trace_model.specs.Trace.{link_end_text, pin_text};

use crate::lines::append_port_name;
use decimal_text::append_decimal;
use std::alloc::AllocError;
use xs_base::{Text, Token};

/// Puts a token at the end of the text: `dt V` or `ct V`. The error is want of memory. See docs/OUTPUT.md.
pub fn append_token(out: &mut Text, token: Token) -> Result<(), AllocError>
    ensures { OnOk result (out.new ≡ out.old ++ token_text token) }
{
    match token {
        Token::Byte(b) => {
            out.append(b"dt ")?;
            append_decimal(out, u64::from(b))
        }
        Token::Ctrl(c) => {
            out.append(b"ct ")?;
            append_decimal(out, u64::from(c))
        }
    }
}

/// Puts a link end of the node with this number at the end of the text: `N:E`. The error is want of memory. See
/// docs/OUTPUT.md.
pub fn append_link_end(out: &mut Text, node: u8, end: u8) -> Result<(), AllocError>
    ensures { OnOk result (out.new ≡ out.old ++ link_end_text node end) }
{
    append_decimal(out, u64::from(node))?;
    out.append(b":")?;
    append_decimal(out, u64::from(end))
}

/// Puts the pin of a port, 0 to 28, of the node with this number at the end of the text: `N:P`. The error is want of memory. See
/// docs/OUTPUT.md.
pub fn append_pin(out: &mut Text, node: u8, port: u8) -> Result<(), AllocError>
    requires { port < 29 }
    ensures { OnOk result (out.new ≡ out.old ++ pin_text node port) }
{
    append_decimal(out, u64::from(node))?;
    out.append(b":")?;
    append_port_name(out, port)
}
