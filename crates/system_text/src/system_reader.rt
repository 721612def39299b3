ghost use Rattle.std.specs.Prelude.{◌≡◌, ℕ, IfOk, List};
ghost use Rattle.pin_scripts.specs.declared.pin_error.PinKind.{PinKind};
ghost use Rattle.source_model.specs.declared.AsmKind.{AsmKind};
ghost use Rattle.sys_plan.specs.Plan.{PlanRec};
ghost use Rattle.system_model.specs.declared.SysKind.{SysKind};
ghost use Rattle.system_model.specs.declared.SysKind.TheVariants.{SectionNotEnded};
ghost use Rattle.system_model.specs.CutText.{IsCutInside};
ghost use Rattle.system_model.specs.Frame.{framed};
ghost use Rattle.system_model.specs.System as stands;
ghost use Rattle.system_model.specs.System.{system_of, plan_of, plan_of_frame};
ghost use Rattle.xs_text.specs.Lines.{lines_of};
ghost use Rattle.system_text.specs.Accepted.{IsAccepted};
ghost use Rattle.system_text.specs.Ranges.{IsShortSource};
ghost use Rattle.system_text.specs.Reads.{ReadsSystem, GivesPlan, RefusesFrame, RefusesSource, RefusesPins};

use crate::frame::Frame;
use crate::frame_reader::read_frame;
use crate::link_plans::link_plans;
use crate::node_plans::node_plans;
use crate::script::script_of;
use crate::step_plans::step_plans;
use crate::system_error::{SystemError, refusal};
use crate::wire_plans::wire_plans;
use std::alloc::Global;
use sys_plan::Plan;
use system_model::SysKind;

/// A system text has at most so many bytes.
pub const LONGEST_INPUT: usize = 4_194_304;

/// The plan of the system that the bytes stand for. An error comes exactly where they stand for a refusal, and is
/// that one, with its line; want of memory may come in place of either. Bytes that are a good text cut inside a source or
/// the script are refused at the line that begins it. See docs/SYSTEM_TEXT.md.
#[tactic(auto, using(crate::proofs::Outcomes::outcomes))]
pub fn read_system(alloc: Global, bytes: &[u8]) -> Result<Plan, SystemError>
    ensures exact { ReadsSystem (system_of bytes.now) result }
    ensures ok { IfOk result (λ plan. system_of bytes.now ≡ stands.Plan plan) }
    ensures taken { (plan : PlanRec) → system_of bytes.now ≡ stands.Plan plan → GivesPlan plan result }
    ensures frame { (line : ℕ) (kind : SysKind) → system_of bytes.now ≡ stands.Frame line kind → RefusesFrame line kind result }
    ensures source { (node line : ℕ) (kind : AsmKind) → system_of bytes.now ≡ stands.Source node line kind → RefusesSource node line kind result }
    ensures pins { (line : ℕ) (kind : PinKind) → system_of bytes.now ≡ stands.Pins line kind → RefusesPins line kind result }
    ensures cut { (text : List ℕ) (plan : PlanRec) (line : ℕ) → system_of text ≡ stands.Plan plan → IsCutInside text bytes.now line →
        RefusesFrame line SectionNotEnded result }
{
    read_all(alloc, bytes)
}

// The same, in one clause.
#[tactic(auto, unfolding(system_model::specs::System::system_of))]
fn read_all(alloc: Global, bytes: &[u8]) -> Result<Plan, SystemError>
    ensures { ReadsSystem (system_of bytes.now) result }
{
    if bytes.len() > LONGEST_INPUT {
        return Err(refusal(0, SysKind::TooLong));
    }
    read_plan(alloc, bytes)
}

// The same of bytes that are not too many.
fn read_plan(alloc: Global, bytes: &[u8]) -> Result<Plan, SystemError>
    requires { IsShortSource bytes.now }
    ensures { ReadsSystem (plan_of (framed (lines_of bytes.now))) result }
{
    match read_frame(alloc, bytes) {
        Ok(frame) => plan_of_frame(alloc, &frame),
        Err(error) => Err(error),
    }
}

// The plan of a frame that is accepted.
fn plan_of_frame(alloc: Global, frame: &Frame) -> Result<Plan, SystemError>
    requires { IsAccepted frame.now }
    ensures { ReadsSystem (plan_of_frame frame.now) result }
{
    let given = frame.nodes();
    let links = link_plans(alloc, given, frame.links())?;
    let wires = wire_plans(alloc, given, frame.wires())?;
    let steps = step_plans(alloc, given, frame.steps())?;
    let nodes = node_plans(alloc, frame)?;
    let script = script_of(alloc, frame)?;
    Ok(Plan::of(nodes, links, script, steps, wires))
}
