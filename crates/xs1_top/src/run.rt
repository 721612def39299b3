//! The forms `run SLOTS` and `run SLOTS free`, by workers in threads, `run SLOTS serial`, all nodes together, and `run SLOTS rounds`, round
//! by round.
ghost use Rattle.std.specs.Prelude.{◌≡◌, IfOk};
ghost use Rattle.answer_model.specs.RunForm.{run_answer};
ghost use Rattle.trace_model.specs.Trace.{trace_text};

use answer_model::{Answer, Status};
use run_drive::{DriveError, drive_free, drive_rounds, drive_serial};
use std::alloc::{AllocError, Global};
use std::sync::{Arc, Wait};
use std::thread::Threads;
use sys_plan::Plan;
use system_answers::{Reading, read};
use trace_text::trace;
use xs_base::Text;
use xs_edge::Gate;

/// Runs the system of the input for so many slots by workers in threads, which pass the gate, and answers with its trace. It may never
/// return, since workers wait for each other. The error is want of memory. See docs/OUTPUT.md.
pub fn answer_freely<R: Threads + Wait + Sync, G: Gate>(
    rt: &R,
    alloc: Global,
    slots: u32,
    input: &[u8],
    gate: &G,
) -> Result<Answer, AllocError>
    ensures { IfOk result (λ answer. answer ≡ run_answer slots input.now) }
{
    match read(alloc, input)? {
        Reading::System(plan) => Ok(Answer {
            text: free_trace(rt, alloc, plan, slots, gate)?,
            status: Status::Done,
        }),
        Reading::Refused(answer) => Ok(answer),
    }
}

/// Runs the system of the input for so many slots, all nodes together, and answers with its trace. The error is want of memory. See
/// docs/OUTPUT.md.
pub fn answer_serially(alloc: Global, slots: u32, input: &[u8]) -> Result<Answer, AllocError>
    ensures { IfOk result (λ answer. answer ≡ run_answer slots input.now) }
{
    match read(alloc, input)? {
        Reading::System(plan) => Ok(Answer {
            text: serial_trace(alloc, plan, slots)?,
            status: Status::Done,
        }),
        Reading::Refused(answer) => Ok(answer),
    }
}

/// Runs the system of the input for so many slots, round by round, and answers with its trace. In each round every node passes the gate and
/// runs as far as it may, in a thread where one can be made. It waits for nobody, and returns. The error is want of memory. See
/// docs/OUTPUT.md.
pub fn answer_in_rounds<R: Threads + Sync, G: Gate>(
    rt: &R,
    alloc: Global,
    slots: u32,
    input: &[u8],
    gate: &G,
) -> Result<Answer, AllocError>
    ensures { IfOk result (λ answer. answer ≡ run_answer slots input.now) }
{
    match read(alloc, input)? {
        Reading::System(plan) => Ok(Answer {
            text: rounds_trace(rt, alloc, plan, slots, gate)?,
            status: Status::Done,
        }),
        Reading::Refused(answer) => Ok(answer),
    }
}

// Runs a plan for so many slots by workers in threads, and gives its trace. The error is want of memory.
fn free_trace<R: Threads + Wait + Sync, G: Gate>(
    rt: &R,
    alloc: Global,
    plan: Plan,
    slots: u32,
    gate: &G,
) -> Result<Text, AllocError>
    ensures { IfOk result (λ t. t ≡ trace_text plan slots) }
{
    let plan = Arc::new(alloc, plan)?;
    match drive_free(rt, alloc, &plan, slots, gate) {
        Ok(finished) => trace(alloc, &plan, finished.into_run()),
        Err(DriveError::Memory) => Err(AllocError),
    }
}

// Runs a plan for so many slots, all nodes together, and gives its trace. The error is want of memory.
fn serial_trace(alloc: Global, plan: Plan, slots: u32) -> Result<Text, AllocError>
    ensures { IfOk result (λ t. t ≡ trace_text plan slots) }
{
    let plan = Arc::new(alloc, plan)?;
    match drive_serial(alloc, &plan, slots) {
        Ok(finished) => trace(alloc, &plan, finished.into_run()),
        Err(DriveError::Memory) => Err(AllocError),
    }
}

// Runs a plan for so many slots, round by round, and gives its trace. The error is want of memory.
fn rounds_trace<R: Threads + Sync, G: Gate>(
    rt: &R,
    alloc: Global,
    plan: Plan,
    slots: u32,
    gate: &G,
) -> Result<Text, AllocError>
    ensures { IfOk result (λ t. t ≡ trace_text plan slots) }
{
    let plan = Arc::new(alloc, plan)?;
    match drive_rounds(rt, alloc, &plan, slots, gate) {
        Ok(finished) => trace(alloc, &plan, finished.into_run()),
        Err(DriveError::Memory) => Err(AllocError),
    }
}
