//! `Inlets`, what comes to a node and has not arrived yet. See docs/LOOKAHEAD.md.
ghost use Rattle.std.specs.Prelude.{◌≡◌, [], length, IfErr, OnOk, OnErr};
ghost use Rattle.node_runners.specs.Ends.{IsThere, heard_at};

use crate::link_inlets::LinkInlets;
use crate::wire_inlets::WireInlets;
use std::alloc::Global;
use xs_base::Batch;
use xs_base::numbers::LINK_ENDS;

/// What was seen of the arcs that come to the ends of a node, and has not arrived yet: at link ends, and from end 8 on by wires.
#[derive(Drop)]
pub(crate) struct Inlets {
    pub(crate) links: LinkInlets,
    pub(crate) wires: WireInlets,
}

impl Inlets {
    /// Puts what was seen of the arc that comes to an end after what waits there, and keeps the buffer. The error is want of memory: it
    /// changes nothing, and has the batch.
    pub(crate) fn append(&mut self, end: u8, batch: Batch) -> Result<(), Batch>
        requires there { IsThere end (length self.old.links.ends) (length self.old.wires) }
        ensures ok { OnOk result (self.new ≡ heard_at end batch.entries self.old) }
        ensures err { OnErr result (self.new ≡ self.old) }
        ensures batch { IfErr result (λ b. b.entries ≡ batch.entries) }
    {
        if end < LINK_ENDS {
            self.links.append(end, batch)
        } else {
            self.wires.append(end - LINK_ENDS, batch)
        }
    }

    /// A batch with no entries, and the buffer of the one that came last to an end, unless that was given away. It takes no memory.
    pub(crate) fn taken(&mut self, alloc: Global, end: u8) -> Batch
        ensures empty { result.entries ≡ [] }
        ensures same { self.new ≡ self.old }
    {
        if end < LINK_ENDS {
            self.links.taken(alloc, end)
        } else {
            self.wires.taken(alloc, end - LINK_ENDS)
        }
    }
}
