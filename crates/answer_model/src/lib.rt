//! What the program answers to its words and its input: definitions alone, with the plain types that they speak of. See
//! docs/OUTPUT.md.
#![tactic(auto)]

ghost use Rattle.std.specs.Prelude.{◌≡◌};
ghost use Rattle.answer_model.specs.Loads.{LoadsAreMade};
ghost use Rattle.answer_model.specs.Modes.{ModesAreAlike};
ghost use Rattle.answer_model.specs.PinsStatuses.{PinsStatuses};
ghost use Rattle.answer_model.specs.RouteStatuses.{RouteStatuses};
ghost use Rattle.answer_model.specs.SnapStatuses.{SnapStatuses};
ghost use Rattle.answer_model.specs.StatusNumber.{number_of_status};
ghost use Rattle.answer_model.specs.SystemStatuses.{SystemStatuses};

use load_laws::loads_are_accepted;
use xs_base::Text;

/// The forms of the command words. See docs/OUTPUT.md.
#[derive(Clone, Copy)]
pub enum Form {
    /// `run SLOTS`, and `run SLOTS free` likewise: a run of so many slots, by workers in threads.
    Free(u32),
    /// `run SLOTS serial`: a run of so many slots, all nodes together.
    Serial(u32),
    /// `run SLOTS rounds`: a run of so many slots, round by round: in each round every node runs as far as it may.
    Rounds(u32),
    /// `play SLOTS`: the steps of the system's schedule one by one, in a run of so many slots.
    Play(u32),
    /// `make NUMBER`: what the load of the number comes to.
    Make(u32),
    /// `check`: the source of each node as its image gives it.
    Check,
    /// `save SLOTS`: the snapshot of a run of so many slots.
    Save(u32),
    /// `resume SLOTS`: what a run of so many slots comes to that goes on from a snapshot.
    Resume(u32),
    /// `routes`: whether packets arrive in the system, by the ranks that stand before its text.
    Routes,
    /// `wave SLOTS`: the levels of all pins in a run of so many slots, as a value change dump.
    Wave(u32),
    /// `pinsof N`: the pin script that a wave text gives the node with this number.
    PinsOf(u8),
}

/// How the program ends.
#[derive(Clone, Copy, PartialEq, Eq, Debug)]
pub enum Status {
    /// The words, the input and the run were taken whole.
    Done,
    /// Memory was wanting; nothing was written.
    Memory,
    /// The words are none of the forms.
    Usage,
    /// The frame of the system text was refused, or a snapshot, ranks, or a wave text.
    SystemFault,
    /// A node's source was refused.
    SourceFault,
    /// The pin script was refused.
    ScriptFault,
    /// The input could not be read; nothing was written.
    ReadFault,
    /// The text could not be written whole.
    WriteFault,
}

impl Status {
    /// The number that the program ends with, 0 to 7. See docs/OUTPUT.md.
    pub fn number(self) -> u8
        ensures { result ≡ number_of_status self }
    {
        self as u8
    }
}

/// What is written, and how the program ends.
#[derive(Drop)]
pub struct Answer {
    pub text: Text,
    pub status: Status,
}

/// By which statuses the forms answer that read a system text: exactly by what that text stands for.
pub fn statuses_of_systems()
    ensures { SystemStatuses }
{}

/// By which statuses `resume SLOTS` answers: `SystemFault` exactly where the input is refused as a snapshot or its slot is out of range, and
/// `Done` exactly where it goes on from one, with the rest of the trace. See docs/SNAPSHOTS.md.
pub fn statuses_of_snapshots()
    ensures { SnapStatuses }
{}

/// By which statuses `routes` answers: `Done` exactly where the ranks and the system are taken, whatever the verdict, and `SystemFault` exactly
/// where the ranks or the frame of the system are refused. See docs/ROUTES.md.
pub fn statuses_of_routes()
    ensures { RouteStatuses }
{}

/// By which statuses `pinsof N` answers: `Done` exactly where the input is a wave text of at most 4,194,304 bytes whose wave has the node, and
/// `SystemFault` exactly where it is not. See docs/WAVES.md.
pub fn statuses_of_pins()
    ensures { PinsStatuses }
{}

/// A run answers alike in all modes, whatever its slots and its input are: the same text, the same status, and as many bytes of the input
/// are taken. With `serial` and with `rounds` it waits for nobody. See docs/OUTPUT.md.
pub fn modes_are_alike()
    ensures { ModesAreAlike }
{}

/// To `make NUMBER` the line of the number's load is answered, whatever the number: no load is refused. See docs/LOADS.md.
pub fn loads_are_made()
    ensures { LoadsAreMade }
{
    loads_are_accepted();
}
