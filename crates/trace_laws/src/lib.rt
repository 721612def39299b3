//! What a reader of a trace may rely on: laws about the definitions of the trace. See docs/OUTPUT.md.
#![tactic(auto)]

ghost use Rattle.trace_laws.specs.Order.{SlotsNeverFall, NodeByNode, OwnOrder};

/// For every plan and number of slots, the events of a trace stand by slot, and those of one slot node by node; and of
/// each node they are what is kept of its events, in the order in which they happened. It does nothing.
pub fn trace_is_in_order()
    ensures by_slot { SlotsNeverFall }
    ensures by_node { NodeByNode }
    ensures own_order { OwnOrder }
{}
