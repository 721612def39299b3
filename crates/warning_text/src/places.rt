//! Where links lead from a node. Nodes are named by position.
ghost use Rattle.std.specs.Prelude.{◌≡◌, IfOk, OnOk};
ghost use Rattle.warning_model.specs.Ways.{is_among, put_place, with_link, with_links, with_links_often, led_to};

use std::alloc::{AllocError, Global};
use sys_plan::{LinkPlan, Plan};

/// Whether a node is one of some nodes.
pub(crate) fn is_among(places: &[u8], place: u8) -> bool
    ensures { result ≡ is_among places.now place }
{
    places.iter().any(|p| *p == place)
}

// The error is want of memory, here and below.
fn put_place(places: &mut Vec<u8>, place: u8) -> Result<(), AllocError>
    ensures { OnOk result (places.new.items ≡ put_place places.old.items place) }
{
    if !is_among(places, place) {
        places.push(place)?;
    }
    Ok(())
}

// With the other end of a link of which one end is there.
fn add_link(places: &mut Vec<u8>, link: &LinkPlan) -> Result<(), AllocError>
    ensures { OnOk result (places.new.items ≡ with_link places.old.items link.now) }
{
    if is_among(places, link.a) {
        put_place(places, link.b)
    } else if is_among(places, link.b) {
        put_place(places, link.a)
    } else {
        Ok(())
    }
}

#[tactic(auto, unfolding(warning_model::specs::Ways::with_links))]
fn add_links(places: &mut Vec<u8>, links: &[LinkPlan]) -> Result<(), AllocError>
    ensures { OnOk result (places.new.items ≡ with_links places.old.items links.now) }
{
    for link in links {
        add_link(places, link)?;
    }
    Ok(())
}

// All links so many times.
#[tactic(auto, unfolding(warning_model::specs::Ways::with_links_often))]
fn add_links_often(places: &mut Vec<u8>, times: usize, links: &[LinkPlan]) -> Result<(), AllocError>
    ensures { OnOk result (places.new.items ≡ with_links_often times places.old.items links.now) }
{
    let mut left = times;
    while left > 0 {
        add_links(places, links)?;
        left -= 1;
    }
    Ok(())
}

/// Where links lead from a node, over other nodes or not, and the node itself.
pub(crate) fn led_to(alloc: Global, plan: &Plan, place: u8) -> Result<Vec<u8>, AllocError>
    ensures { IfOk result (λ places. places.items ≡ led_to plan.now place) }
{
    let mut places = Vec::new(alloc);
    places.push(place)?;
    add_links_often(&mut places, plan.nodes().len(), plan.links())?;
    Ok(places)
}
