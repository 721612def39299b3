//! Laws of what `xs1_look` tells: how long a timer is waited for, and of whom a circle is. See docs/LOOK.md.
#![tactic(auto)]

ghost use Rattle.look_laws.specs.Circles.{CirclesAreOfThreadsAndInputs, CirclesAreTold, ToldAreCircles, ToldBeginWithTheirLeast};
ghost use Rattle.look_laws.specs.Kept.{GraphsAreOfThreadsAndInputs, InputsStandInTheGraph, ThreadsStandInTheGraph};
ghost use Rattle.look_laws.specs.Moments.{MomentsAreFirst};
ghost use Rattle.look_laws.specs.Runs.{RunsAreKept};
ghost use Rattle.look_laws.specs.Rules.{InputsWaitByTheRules, ThreadsWaitByTheRules};

/// Where a thread waits for a timer, it is told in how many slots the time is after the value: in that slot it is, and in none before it from
/// the slot on in which that is told. This holds of every value, and of every slot, also where the time begins again at 0. It does nothing.
/// See docs/LOOK.md.
pub fn timers_are_waited_for_until_their_moment()
    ensures first { MomentsAreFirst }
{}

/// In the graph of who waits for whom stand the 8 threads and the 40 inputs of each node and nothing else, where so many were kept of each node
/// of the plan, and at each number those for whom that thread or that input waits by itself. It does nothing. See docs/LOOK.md.
pub fn who_waits_stands_in_the_graph()
    ensures vertices { GraphsAreOfThreadsAndInputs }
    ensures threads { ThreadsStandInTheGraph }
    ensures inputs { InputsStandInTheGraph }
{}

/// So it is of what `states` tells: of every plan whose nodes have images, and before every slot of the serial machine, each node is kept with
/// its 8 threads and 40 inputs. It does nothing. See docs/LOOK.md.
pub fn runs_are_kept()
    ensures kept { RunsAreKept }
{
    range_laws::numbers_of_runs_fit();
    saved_laws::saved_parts_are_those_of_the_run();
}

/// In that graph a thread that would own a lock waits for the thread that owns it, the master of a synchroniser for each slave that is not in, a
/// slave that is unstarted or at sync for its master, and a thread that has no room at a channel end for the input of that channel end. An input
/// whose packet waits for a way waits for each input that holds the channel end, or one of the link ends, that it needs, and one that holds a link
/// end for the input at the other end of the link, where the buffer there is full. These wait for no other, and all others for nobody. It
/// does nothing. See docs/LOOK.md.
pub fn who_waits_for_whom()
    ensures threads { ThreadsWaitByTheRules }
    ensures inputs { InputsWaitByTheRules }
{
    who_waits_stands_in_the_graph();
}

/// A circle is told of what was kept of a run exactly where some wait for one another in a circle, and what is told is one: each waits for the
/// next one, the last for the first, none stands there twice, and the first is the least. Whoever is on a circle is a thread or an input of a node
/// of the plan. It does nothing. See docs/LOOK.md.
pub fn circles_are_told()
    ensures told { ToldAreCircles }
    ensures least { ToldBeginWithTheirLeast }
    ensures some { CirclesAreTold }
    ensures members { CirclesAreOfThreadsAndInputs }
{
    circle_search::circles_are_told();
    circle_search::told_circles_are_circles();
    who_waits_stands_in_the_graph();
}
