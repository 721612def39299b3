//! At what threads wait.
ghost use Rattle.std.specs.Prelude.{◌≡◌};
ghost use Rattle.std.specs.List.{list_any};
ghost use Rattle.xs_model.specs.Waits.{thing_of, waits_at, are_same, is_same_thing, is_on, pauses_on};

use xs_model::{Resource, Run, Thing, Thread, Wait};

/// Whether a thread is paused on a resource.
pub fn is_paused_on(threads: &[Thread; 8], resource: Resource) -> bool
    ensures value { result ≡ list_any (λ th. pauses_on resource th.run) threads.now }
{
    for thread in threads {
        if pauses_on(resource, thread.run) {
            return true;
        }
    }
    false
}

/// Whether a thread is paused where one would be with this wait.
pub fn is_waited_at(threads: &[Thread; 8], wait: Wait) -> bool
    ensures value { result ≡ list_any (λ th. waits_at (thing_of wait) th.run) threads.now }
{
    let thing = thing_of(wait);
    for thread in threads {
        if waits_at(thing, thread.run) {
            return true;
        }
    }
    false
}

fn pauses_on(resource: Resource, run: Run) -> bool
    ensures { result ≡ pauses_on resource run }
{
    match run {
        Run::Paused(wait) => is_on(resource, wait),
        _ => false,
    }
}

// Whether a wait names a resource.
fn is_on(resource: Resource, wait: Wait) -> bool
    ensures { result ≡ is_on resource wait }
{
    match (resource, wait) {
        (Resource::Chan { chan: c }, Wait::Room { chan, .. } | Wait::Tokens { chan, .. }) => {
            chan == c
        }
        (Resource::Timer { timer: n }, Wait::Timer { timer }) => timer == n,
        (Resource::Sync { sync: n }, Wait::Slaves { sync }) => sync == n,
        (Resource::Lock { lock: n }, Wait::Lock { lock }) => lock == n,
        (
            Resource::Port { port: p },
            Wait::PortFull { port } | Wait::PortEmpty { port } | Wait::PortIdle { port },
        ) => port == p,
        _ => false,
    }
}

fn waits_at(thing: Option<Thing>, run: Run) -> bool
    ensures { result ≡ waits_at thing run }
{
    match run {
        Run::Paused(wait) => are_same(thing, thing_of(wait)),
        _ => false,
    }
}

// Whether two threads that wait are at the same thing.
fn are_same(one: Option<Thing>, other: Option<Thing>) -> bool
    ensures { result ≡ are_same one other }
{
    match (one, other) {
        (Some(one), Some(other)) => is_same(one, other),
        _ => false,
    }
}

fn is_same(one: Thing, other: Thing) -> bool
    ensures { result ≡ is_same_thing one other }
{
    match (one, other) {
        (Thing::Output { chan: a }, Thing::Output { chan: b }) => a == b,
        (Thing::Input { chan: a }, Thing::Input { chan: b }) => a == b,
        (Thing::Port { port: a }, Thing::Port { port: b }) => a == b,
        (Thing::Timer { timer: a }, Thing::Timer { timer: b }) => a == b,
        _ => false,
    }
}

// At which thing a thread waits, where at most one may wait there.
fn thing_of(wait: Wait) -> Option<Thing>
    ensures { result ≡ thing_of wait }
{
    match wait {
        Wait::Room { chan, .. } => Some(Thing::Output { chan }),
        Wait::Tokens { chan, .. } => Some(Thing::Input { chan }),
        Wait::PortFull { port } | Wait::PortEmpty { port } | Wait::PortIdle { port } => {
            Some(Thing::Port { port })
        }
        Wait::Timer { timer } => Some(Thing::Timer { timer }),
        Wait::Lock { .. } | Wait::Slaves { .. } | Wait::Choice | Wait::Divider => None,
    }
}
