//! The lines that declare the pins of nodes.
ghost use Rattle.std.specs.Prelude.{◌≡◌, ◌<◌, ◌++◌, ◌∷◌, [], OnOk};
ghost use Rattle.sys_plan.specs.Plan.{node_numbers};
ghost use Rattle.wave_model.specs.Lines.{first_line, end_of_definitions, node_lines, nodes_lines, scope_line, var_line};
ghost use Rattle.wave_model.specs.Waves.{ended, text_of_lines};

use crate::named_lines::{append_scope_line, append_var_line};
use std::alloc::AllocError;
use sys_plan::Plan;
use xs_base::Text;
use xs_base::numbers::PORTS;

/// Puts what declares all pins of a plan at the end of the text: the first line, a scope for each node, and the end of the definitions. The
/// error is want of memory. See docs/WAVES.md.
pub(crate) fn append_declarations(out: &mut Text, plan: &Plan) -> Result<(), AllocError>
    ensures { OnOk result (out.new ≡ out.old ++ text_of_lines (first_line ∷ (nodes_lines 0 (node_numbers plan.now) ++ end_of_definitions ∷ []))) }
{
    out.append(b"$timescale 1 ns $end\n")?;
    append_nodes(out, plan)?;
    out.append(b"$enddefinitions $end\n")
}

// The scopes of all nodes, by position.
fn append_nodes(out: &mut Text, plan: &Plan) -> Result<(), AllocError>
    ensures { OnOk result (out.new ≡ out.old ++ text_of_lines (nodes_lines 0 (node_numbers plan.now))) }
{
    let nodes = plan.nodes();
    for node in 0..nodes.len() {
        append_node(out, node as u8, nodes[node].number)?;
    }
    Ok(())
}

// The scope of the node at a position, with this number.
fn append_node(out: &mut Text, node: u8, number: u8) -> Result<(), AllocError>
    requires { node < 16 }
    ensures { OnOk result (out.new ≡ out.old ++ text_of_lines (node_lines node number)) }
{
    append_scope(out, number)?;
    for port in 0..PORTS {
        append_var(out, node, port)?;
    }
    out.append(b"$upscope $end\n")
}

fn append_scope(out: &mut Text, number: u8) -> Result<(), AllocError>
    ensures { OnOk result (out.new ≡ out.old ++ ended (scope_line number)) }
{
    append_scope_line(out, number)?;
    out.append(b"\n")
}

fn append_var(out: &mut Text, node: u8, port: u8) -> Result<(), AllocError>
    requires node { node < 16 }
    requires port { port < 29 }
    ensures { OnOk result (out.new ≡ out.old ++ ended (var_line node port)) }
{
    append_var_line(out, node, port)?;
    out.append(b"\n")
}
