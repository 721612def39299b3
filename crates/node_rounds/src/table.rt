//! `Table`, the nodes and the lanes of a plan that is run round by round.
ghost use Rattle.std.specs.Prelude.{◌≡◌, ◌==◌, ◌<◌, Some, IfOk, OnOk, [], length};
ghost use Rattle.std.specs.List.{list_all};
ghost use Rattle.sys_plan.specs.declared.system_plan.TheConstants.{ENDS};
ghost use Rattle.sys_plan.specs.Plan.{arc_count, outgoing, incoming};
ghost use Rattle.node_rounds.specs.Rounds.{IsBetween, IsAfter, Turns, clocks_in};
ghost use Rattle.node_rounds.specs.Sends.{Sends, Takes, HandsOn, HandsAllOn, AreFresh};

use crate::seat::{Handed, Seat};
use link_logs::{Got, ReadEnd};
use node_runners::NodeRunner;
use plan_lanes::{Lane, lanes_of, runners_of};
use plan_routes::{Route, route_of};
use plan_stories::PlanStory;
use std::alloc::{AllocError, Global};
use std::sync::Arc;
use sys_plan::Plan;
use xs_base::Batch;

/// The nodes of a plan by position, each with what lies ready for it, and its arcs by number.
#[derive(Drop)]
pub(crate) struct Table {
    // How many slots the run is to have.
    pub(crate) limit: u32,
    pub(crate) seats: Vec<Seat>,
    pub(crate) lanes: Vec<Lane>,
}

impl Table {
    /// Before the first round, in a run of so many slots. The error is want of memory.
    pub(crate) fn new(alloc: Global, plan: &Arc<Plan>, limit: u32) -> Result<Table, AllocError>
        ensures limit { IfOk result (λ table. table.limit ≡ limit) }
        ensures start { IfOk result (λ table. IsAfter plan.now.value 0 table) }
    {
        plan.keeps();
        let runners = runners_of(alloc, plan, limit)?;
        let seats = seats_of(alloc, runners)?;
        let lanes = lanes_of(alloc, plan)?;
        Ok(Table {
            limit,
            seats,
            lanes,
        })
    }

    /// By each arc all that its sender has run is handed on to its receiver, who takes it where it works next. The error is want of memory.
    pub(crate) fn hand_all_on(&mut self, plan: &Plan) -> Result<(), AllocError>
        requires between { IsBetween plan.now self.old }
        ensures all { OnOk result (Turns (HandsAllOn plan.now) self.old self.new) }
    {
        for link in 0..self.lanes.len() {
            self.hand_on(plan, link as u32)?;
        }
        Ok(())
    }

    // By one arc.
    #[tactic(auto, using(crate::proofs::Routes::sender))]
    fn hand_on(&mut self, plan: &Plan, link: u32) -> Result<(), AllocError>
        requires between { IsBetween plan.now self.old }
        requires link { link < arc_count plan.now }
        ensures on { OnOk result (Turns (HandsOn plan.now link) self.old self.new) }
    {
        let Route {
            from,
            from_end,
            to,
            to_end,
        } = route_of(plan, link);
        self.send(plan, link, from, from_end)?;
        self.take(plan, link, to, to_end)
    }

    // A node publishes what it has sent by the end by which an arc leaves.
    fn send(&mut self, plan: &Plan, link: u32, node: u8, end: u8) -> Result<(), AllocError>
        requires between { IsBetween plan.now self.old }
        requires link { link < arc_count plan.now }
        requires there { node < length plan.now.nodes }
        requires inside { end < ENDS }
        requires route { outgoing plan.now node end ≡ Some link }
        ensures sends { OnOk result (Turns (Sends plan.now link node) self.old self.new) }
    {
        let seat = &mut self.seats[node as usize];
        let clock = seat.runner.clock();
        let mut batch = seat.runner.send(end);
        let carries = !batch.entries().is_empty();
        let lane = &mut self.lanes[link as usize];
        lane.log.append(&mut lane.w, clock, &mut batch)?;
        keep(&mut seat.runner, end, carries, batch);
        Ok(())
    }

    // What was published on an arc, and not read, lies ready for the node to whose end the arc comes.
    fn take(&mut self, plan: &Plan, link: u32, node: u8, end: u8) -> Result<(), AllocError>
        requires between { IsBetween plan.now self.old }
        requires link { link < arc_count plan.now }
        requires there { node < length plan.now.nodes }
        requires inside { end < ENDS }
        requires route { incoming plan.now node end ≡ Some link }
        ensures takes { OnOk result (Turns (Takes plan.now link) self.old self.new) }
    {
        let lane = &mut self.lanes[link as usize];
        match lane.log.take(&mut lane.r) {
            Got::Entries { to, batch, .. } => {
                let seat = &mut self.seats[node as usize];
                give_back(
                    &mut lane.r,
                    &mut seat.runner,
                    end,
                    !batch.entries().is_empty(),
                );
                seat.hand(Handed { end, to, batch })?;
                Ok(())
            }
            Got::Nothing { .. } => Ok(()),
            Got::Closed => unreachable!(),
        }
    }

    /// Whether all nodes are at the limit. It takes no memory.
    pub(crate) fn is_at_limit(&self) -> bool
        ensures { result ≡ list_all (λ clock. clock == self.now.limit) (clocks_in self.now) }
    {
        for seat in &self.seats {
            if seat.runner.clock() != self.limit {
                return false;
            }
        }
        true
    }
}

// Keeps the buffer of a batch that was published. One that carried nothing had none, and would take the place of a better one.
fn keep(runner: &mut NodeRunner, end: u8, carried: bool, batch: Batch)
    requires empty { batch.entries ≡ [] }
    ensures same { runner.new ≡ runner.old }
{
    if carried {
        runner.keep(end, batch);
    }
}

// Gives the buffer of what a node took last at one of its ends to the end that reads, which has just parted with its own where it moved something
// out.
fn give_back(r: &mut ReadEnd<PlanStory>, runner: &mut NodeRunner, end: u8, carried: bool)
    ensures reader { r.new ≡ r.old }
    ensures runner { runner.new ≡ runner.old }
{
    if carried {
        r.give_back(runner.spare(end));
    }
}

// The nodes with nothing that lies ready for them. The error is want of memory.
fn seats_of(alloc: Global, runners: Vec<NodeRunner>) -> Result<Vec<Seat>, AllocError>
    ensures seats { IfOk result (λ seats. AreFresh runners.items seats.items) }
{
    let mut seats = Vec::new(alloc);
    for runner in runners {
        seats.push(Seat::new(alloc, runner))?;
    }
    Ok(seats)
}
