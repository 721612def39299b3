//! `Horizon`, how far a node may run.
ghost use Rattle.std.specs.Prelude.{IfSome, ◌↔◌, true, ◌≡◌, ◌+◌, ◌<◌, ◌≤◌, Some, None, IsNone, length, drop, slice_index_or, slice_set, replicate};
ghost use Rattle.sys_plan.specs.Plan.{arc_count};
ghost use Rattle.sys_plan.specs.declared.system_plan.TheConstants.{ENDS};
ghost use Rattle.ahead_limits.specs.Horizon.{no_arcs, seen_to, seen_at, may_run, first_stop, stops_at, horizon_at, IsBelowAll, NoneStopsBelow, StopsAt};
ghost use Rattle.ahead_limits.specs.Bound.{nearer, least_bound, NoneFrom};
ghost use Rattle.ahead_limits.specs.Schedule.{horizon_of, clock_after};

use crate::plan_horizon::seen_ends;
use std::marker::Model;
use sys_plan::{ENDS, Plan};

/// What was seen of the arc that comes to an end of a node.
#[derive(Clone, Copy)]
pub struct Seen {
    /// The delay of the arc, in slots.
    pub delay: u32,
    /// The slot before which all its entries were seen.
    pub seen: u32,
}

// The horizon of an arc: the first slot for which it is not known what arrives by it.
fn horizon_at(s: Seen) -> u64
    ensures { result ≡ horizon_at s }
{
    u64::from(s.seen) + u64::from(s.delay)
}

// The lesser of a bound and the horizon at an end.
fn nearer(bound: u64, s: Option<Seen>) -> u64
    ensures { result ≡ nearer bound s }
{
    match s {
        None => bound,
        Some(s) => bound.min(horizon_at(s)),
    }
}

// The least of a limit and of the horizon at each of some ends.
fn least_bound(limit: u32, ends: &[Option<Seen>]) -> u64
    ensures { result ≡ least_bound limit ends.now }
{
    ends.iter()
        .fold(u64::from(limit), |bound, s| nearer(bound, *s))
}

// The same of all ends, where from one on no arc comes: those are not gone over.
#[tactic(auto, using(crate::proofs::Reached::least_reached))]
fn bound_of(limit: u32, ends: &[Option<Seen>], reached: u8) -> u64
    requires reached { reached ≤ length ends.now }
    requires none_from { NoneFrom reached ends.now }
    ensures { result ≡ least_bound limit ends.now }
{
    least_bound(limit, &ends[..reached as usize])
}

// What was seen at an end, if it stops a node at its clock.
fn stops_at(clock: u32, s: Option<Seen>) -> Option<u32>
    ensures { result ≡ stops_at clock s }
{
    match s {
        Some(s) if u64::from(clock) == horizon_at(s) => Some(s.seen),
        _ => None,
    }
}

/// How far a node may run: to the limit of the run, and at each arc that comes to it, of a link or a wire, as far as is known what
/// arrives, which is to the slot up to which the arc's history was seen, and its delay. Its ends are counted from 0, below `ENDS`: 0 to 7
/// are of links, and from 8 on of wires. Slots count from 0. Contracts see it as a `HorizonRec` of `Rattle.ahead_limits.specs.Horizon`.
/// No call takes memory. See docs/LOOKAHEAD.md.
#[derive(Drop)]
pub struct Horizon {
    limit: u32,
    ends: [Option<Seen>; ENDS],
    // From this end on no arc comes, so that a node without wires goes over its link ends alone.
    reached: u8,
    // The least of the limit and of the horizon at each end. A node asks in every slot, and what was seen changes once a batch.
    bound: u64,
}

impl Model for Horizon {
    ghost use Rattle.ahead_limits.specs.Horizon.{HorizonRec};

    ghost Value = { HorizonRec };

    ghost use Rattle.std.specs.Prelude.{◌≡◌, ◌≤◌, length};
    ghost use Rattle.sys_plan.specs.declared.system_plan.TheConstants.{ENDS};
    ghost use Rattle.ahead_limits.specs.Bound.{least_bound, NoneFrom};

    ghost view = { λ h. record { limit = h.limit; ends = h.ends } };

    ghost invariant = { λ h. (length h.ends ≡ ENDS) × (h.bound ≡ least_bound h.limit h.ends) × (h.reached ≤ ENDS) × NoneFrom h.reached h.ends };
}

impl Horizon {
    /// The horizon of a node to which no arc comes, in a run of so many slots.
    pub fn new(limit: u32) -> Horizon
        ensures limit { result.limit ≡ limit }
        ensures ends { result.ends ≡ no_arcs }
    {
        Horizon {
            limit,
            ends: [None; ENDS],
            reached: 0,
            bound: u64::from(limit),
        }
    }

    /// The horizon of the node at a position of a plan, in a run of so many slots. Nothing was seen yet.
    #[tactic(auto, using(crate::proofs::Steps::arcs_number))]
    pub fn of(plan: &Plan, node: u8, limit: u32) -> Horizon
        ensures value { result ≡ horizon_of plan.now limit (replicate (arc_count plan.now) 0) node }
    {
        // At most 48 links, which are two arcs each, and 32 wires.
        let nothing = [0; 128];
        let arcs = 2 * plan.links().len() + plan.wires().len();
        Horizon::as_seen(plan, node, limit, &nothing[..arcs])
    }

    /// The horizon of the node at a position of a plan, by the slot up to which each arc was seen.
    pub(crate) fn as_seen(plan: &Plan, node: u8, limit: u32, seen: &[u32]) -> Horizon
        requires links { length seen.now ≡ arc_count plan.now }
        ensures value { result ≡ horizon_of plan.now limit seen.now node }
    {
        let reached = plan.ends_in(node);
        let ends = seen_ends(plan, node, seen, reached);
        Horizon {
            limit,
            bound: bound_of(limit, &ends, reached),
            ends,
            reached,
        }
    }

    /// An arc with this delay in slots comes to an end. Nothing of it was seen yet.
    pub fn add(&mut self, end: u8, delay: u32)
        requires end { end < ENDS }
        ensures ends { self.new ≡ record self.old { ends = slice_set self.old.ends end (Some (record { delay = delay; seen = 0 })) } }
    {
        self.ends[end as usize] = Some(Seen { delay, seen: 0 });
        self.reached = self.reached.max(end + 1);
        self.bound = bound_of(self.limit, &self.ends, self.reached);
    }

    /// The history of the arc that comes to an end was seen up to a slot.
    pub fn see(&mut self, end: u8, published: u32)
        requires end { end < ENDS }
        ensures ends { self.new ≡ record self.old { ends = slice_set self.old.ends end (seen_to published (slice_index_or self.old.ends end None)) } }
    {
        if let Some(s) = &mut self.ends[end as usize] {
            s.seen = published;
        }
        self.bound = bound_of(self.limit, &self.ends, self.reached);
    }

    /// The limit of the run, in slots.
    pub fn limit(&self) -> u32
        ensures value { result ≡ self.now.limit }
    {
        self.limit
    }

    /// The slot up to which the arc that comes to an end was seen, 0 where none comes.
    pub fn seen(&self, end: u8) -> u32
        ensures value { result ≡ seen_at self.now end }
    {
        match self.ends.get(end as usize) {
            Some(Some(s)) => s.seen,
            _ => 0,
        }
    }

    /// Whether a node may run the slot that its clock shows: exactly where the clock is below the limit, and at each end that
    /// an arc comes to below what was seen there and the delay together.
    #[inline]
    pub fn may_run(&self, clock: u32) -> bool
        ensures value { result ≡ may_run self.now clock }
        ensures exactly { (result ≡ true) ↔ IsBelowAll self.now clock }
    {
        u64::from(clock) < self.bound
    }

    /// The clock of a node that is to run so many slots from this clock on: it runs each where it may, and stops where it may not.
    pub fn clock_after(&self, clock: u32, count: u32) -> u32
        ensures value { result ≡ clock_after self.now count clock }
    {
        // The bound is at most the limit, so that it fits.
        let _limit = self.limit;
        let end = (u64::from(clock) + u64::from(count)).min(self.bound);
        u64::from(clock).max(end) as u32
    }

    /// The least end at which the clock is what was seen there and the delay together, and what was seen there. `None`
    /// comes exactly where there is none.
    pub fn first_block(&self, clock: u32) -> Option<(u8, u32)>
        ensures value { result ≡ first_stop clock 0 self.now.ends }
        ensures least { IfSome result (λ stop. StopsAt self.now clock stop.0 stop.1) }
        ensures none { IsNone result → NoneStopsBelow self.now clock ENDS }
    {
        self.first_stop(clock)
    }

    fn first_stop(&self, clock: u32) -> Option<(u8, u32)>
        ensures { result ≡ first_stop clock 0 self.now.ends }
    {
        for end in 0..self.reached as usize {
            if let Some(seen) = stops_at(clock, self.ends[end]) {
                return Some((end as u8, seen));
            }
        }
        None
    }
}
