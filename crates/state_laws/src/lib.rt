//! What is true of every node that a run reaches, so that a snapshot of it may be read again. See docs/SNAPSHOTS.md.
#![tactic(auto)]

ghost use Rattle.state_laws.specs.Facts.{IsCoreBefore, LinksFit, MayBeKept, NamesThreads, PinsFit, SlavesFit, SwitchFits, WaitAtWhatIsThere};
ghost use Rattle.state_laws.specs.Runs.{KeptInEveryRun};
ghost use Rattle.state_laws.specs.Laws.{IsSoAtFirst, IsSoAtFirstWith, KeptMayBeRead, StaysSo, StaysSoAsPlanned, StaysSoWith};

/// Every slot that a core keeps, of its threads' last issues and of its last division, is before the slot that comes next: as a
/// node starts it keeps none, and each slot leaves it so. It does nothing. See docs/THREADS.md.
pub fn cores_keep_past_slots()
    ensures first { IsSoAtFirst (λ rec. IsCoreBefore 0 rec.core) }
    ensures slot { StaysSo (λ slot rec. IsCoreBefore slot rec.core) }
{}

/// What each paused thread waits at is there, whatever program runs: as a node starts no thread is paused, and each slot leaves
/// it so. It does nothing. See docs/THREADS.md.
pub fn threads_wait_at_what_is_there()
    ensures first { IsSoAtFirst (λ rec. WaitAtWhatIsThere rec.core) }
    ensures slot { StaysSo (λ slot rec. WaitAtWhatIsThere rec.core) }
{}

/// Who enabled what gives events and interrupts is one of the core's eight threads, and so is the owner of a lock: as a node
/// starts there is none, and each slot leaves it so. It does nothing. See docs/EVENTS.md and docs/THREADS.md.
pub fn cores_name_threads()
    ensures first { IsSoAtFirst (λ rec. NamesThreads rec.core) }
    ensures slot { StaysSo (λ slot rec. NamesThreads rec.core) }
{}

/// A synchroniser that is in use has a thread as its master, and one that is not has no slaves. Each slave is a thread, a slave
/// of that synchroniser alone, and not free. So a node starts, and so each slot leaves it. It does nothing. See docs/THREADS.md.
pub fn slaves_have_one_synchroniser()
    ensures first { IsSoAtFirst (λ rec. SlavesFit rec.core) }
    ensures slot { StaysSo (λ slot rec. SlavesFit rec.core) }
{}

/// Of the tokens that a link end sent at most eight are without a credit, and every slot that it keeps is before the one that
/// comes next; a link end is there where it has a gap. So a node starts, and so each slot leaves it. It does nothing. See
/// docs/LINKS.md.
pub fn link_ends_keep_their_windows()
    ensures first { IsSoAtFirstWith (λ gaps rec. LinksFit gaps 0 rec) }
    ensures slot { StaysSoWith (λ gaps slot rec. LinksFit gaps slot rec) }
{}

/// A channel end's network is 0 to 3, its destination is some channel end's, and no token waits to leave one that has none. No
/// channel end and no link end is held by two inputs of the switch, and each that is held is in use, or there; only the inputs of
/// link ends take headers. So a node starts, and so each slot leaves it, where its ways lead to link ends that are there and its
/// networks are 0 to 3. It does nothing. See docs/NETWORKS.md and docs/LINKS.md.
pub fn switch_holds_each_once()
    ensures first { IsSoAtFirstWith (λ gaps rec. SwitchFits gaps rec) }
    ensures slot { StaysSoAsPlanned (λ gaps slot rec. SwitchFits gaps rec) }
{}

/// A port is off and as it was at first; or it has what every port has that is on, its clock is one that the core has, its strobe
/// is another port of one pin, and a transfer has 1, 4, 8, 16 or 32 bits, without buffers as many as the port is wide. What the
/// pins show fits them. So a node starts, and so each slot leaves it, where the operands of its code are in their ranges and what
/// comes from outside fits the pins. It does nothing. See docs/PORTS.md.
pub fn ports_stay_as_they_may_be()
    ensures first { IsSoAtFirst (λ rec. PinsFit rec) }
    ensures slot { StaysSoAsPlanned (λ gaps slot rec. PinsFit rec) }
{}

/// A snapshot may be taken of a node before any slot of a run, and read again: a node as it starts is so, whatever its image, ways
/// and gaps; each slot leaves it so, where the operands of its code are in their ranges, its ways lead to link ends that are there,
/// its networks are 0 to 3, and what comes from outside fits the pins; and what a snapshot keeps of a node that is so says what a
/// reader asks of it, and no slot that is not past. It does nothing. See docs/SNAPSHOTS.md.
pub fn nodes_may_be_kept()
    ensures first { IsSoAtFirstWith (λ gaps rec. MayBeKept gaps 0 rec) }
    ensures slot { StaysSoAsPlanned (λ gaps slot rec. MayBeKept gaps slot rec) }
    ensures read { KeptMayBeRead }
{}

/// So it is of every node of every plan, before every slot of the serial machine, where the operands of its nodes' code are in their
/// ranges, as those of every image are. It does nothing. See docs/SNAPSHOTS.md.
pub fn nodes_of_runs_may_be_kept()
    ensures run { KeptInEveryRun }
{}
