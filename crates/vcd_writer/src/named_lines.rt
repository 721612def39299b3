//! The lines of a wave text that name its nodes and their pins, as they are written and as they are looked for.
ghost use Rattle.std.specs.Prelude.{◌≡◌, ◌<◌, ◌++◌, bytes_eq, OnOk, IfOk};
ghost use Rattle.xs_base.specs.Ids.{port_width};
ghost use Rattle.wave_model.specs.Lines.{code_of, pin_number, scope_line, var_line};
ghost use Rattle.wave_model.specs.Reads.{least_number, scope_in};

use decimal_text::append_decimal;
use line_text::append_port_name;
use std::alloc::{AllocError, Global};
use xs_base::{Text, port_width};

/// How many nodes a wave may have.
pub(crate) const MOST_NODES: usize = 16;

/// Whether a line is the one that is expected.
pub(crate) fn is_same(expected: &[u8], line: &[u8]) -> bool
    ensures { result ≡ bytes_eq expected.now line.now }
{
    expected == line
}

/// The node whose scope a line begins, if it may come after these.
pub(crate) fn scope_in(alloc: Global, nodes: &[u8], line: &[u8]) -> Result<Option<u8>, AllocError>
    ensures { IfOk result (λ found. found ≡ scope_in nodes.now line.now) }
{
    if nodes.len() == MOST_NODES {
        return Ok(None);
    }
    for number in least_number(nodes)..100u16 {
        if is_scope_line(alloc, number as u8, line)? {
            return Ok(Some(number as u8));
        }
    }
    Ok(None)
}

// The least number that a further node may have.
fn least_number(nodes: &[u8]) -> u16
    ensures { result ≡ least_number nodes.now }
{
    if nodes.is_empty() {
        0
    } else {
        u16::from(nodes[nodes.len() - 1]) + 1
    }
}

// Whether a line begins the scope of the node with a number.
fn is_scope_line(alloc: Global, number: u8, line: &[u8]) -> Result<bool, AllocError>
    ensures { IfOk result (λ is. is ≡ bytes_eq (scope_line number) line.now) }
{
    let mut expected = Text::new(alloc);
    append_scope_line(&mut expected, number)?;
    Ok(is_same(expected.bytes(), line))
}

/// Puts the line that begins the scope of the node with a number at the end of the text, without its end. The error is want of memory. See
/// docs/WAVES.md.
pub(crate) fn append_scope_line(out: &mut Text, number: u8) -> Result<(), AllocError>
    ensures { OnOk result (out.new ≡ out.old ++ scope_line number) }
{
    out.append(b"$scope module n")?;
    append_decimal(out, u64::from(number))?;
    out.append(b" $end")
}

/// Whether a line declares the pin of a port of the node at a position.
pub(crate) fn is_var_line(
    alloc: Global,
    node: u8,
    port: u8,
    line: &[u8],
) -> Result<bool, AllocError>
    requires node { node < 16 }
    requires port { port < 29 }
    ensures { IfOk result (λ is. is ≡ bytes_eq (var_line node port) line.now) }
{
    let mut expected = Text::new(alloc);
    append_var_line(&mut expected, node, port)?;
    Ok(is_same(expected.bytes(), line))
}

/// Puts the line that declares the pin of a port of the node at a position at the end of the text, without its end. The error is want of
/// memory. See docs/WAVES.md.
pub(crate) fn append_var_line(out: &mut Text, node: u8, port: u8) -> Result<(), AllocError>
    requires node { node < 16 }
    requires port { port < 29 }
    ensures { OnOk result (out.new ≡ out.old ++ var_line node port) }
{
    out.append(b"$var wire ")?;
    append_decimal(out, u64::from(port_width(port)))?;
    out.append(b" ")?;
    append_code(out, node, port)?;
    out.append(b" ")?;
    append_port_name(out, port)?;
    out.append(b" $end")
}

/// Puts the code of the pin of a port, 0 to 28, of the node at a position, at most 15, at the end of the text. The error is want of memory. See
/// docs/WAVES.md.
#[inline]
pub(crate) fn append_code(out: &mut Text, node: u8, port: u8) -> Result<(), AllocError>
    requires node { node < 16 }
    requires port { port < 29 }
    ensures { OnOk result (out.new ≡ out.old ++ code_of (pin_number node port)) }
{
    let pin = 29 * u16::from(node) + u16::from(port);
    out.append(&[33 + (pin / 90) as u8, 33 + (pin % 90) as u8])
}
