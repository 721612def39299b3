//! What is written of a run that went on from a snapshot.
use crate::went_on::RunOn;
use core_step::Core;
use std::alloc::{AllocError, Global};
use trace_lines::NodeEvents;
use trace_text::EndedRun;

impl<'a> EndedRun for RunOn<'a> {
    ghost use Rattle.snap_run.specs.RunsOn.{end_of_run};

    ghost plan = { λ run. run.plan };

    ghost slots = { λ run. run.slots };

    ghost end = { end_of_run };

    fn limit(&self) -> u32 {
        self.slots()
    }

    fn core(&self, node: u8) -> &Core {
        self.node(node)
    }

    fn more(&self, node: u8) -> u64 {
        self.left_out(node)
    }

    fn totals(&self, link: u32) -> (u64, u64) {
        self.sent(link)
    }

    fn into_events(self, alloc: Global) -> Result<Vec<NodeEvents>, AllocError> {
        self.kept(alloc)
    }
}
