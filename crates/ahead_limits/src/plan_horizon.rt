//! What is seen of the arcs of a plan, by end of a node.
ghost use Rattle.std.specs.Prelude.{ℕ, ◌≡◌, ◌≤◌, None, map, option_map, length};
ghost use Rattle.sys_plan.specs.Plan.{arc_count, incoming, ends_in};
ghost use Rattle.sys_plan.specs.declared.system_plan.TheConstants.{ENDS};
ghost use Rattle.ahead_limits.specs.Bound.{NoneFrom};
ghost use Rattle.ahead_limits.specs.Schedule.{seen_of_link};

use crate::Seen;
use sys_plan::{ENDS, Plan};

// What is seen of the arc that comes to each end of a node, by what is seen of each arc. From the end `reached` on none comes.
pub(crate) fn seen_ends(plan: &Plan, node: u8, seen: &[u32], reached: u8) -> [Option<Seen>; ENDS]
    requires links { length seen.now ≡ arc_count plan.now }
    requires past { (end : ℕ) → reached ≤ end → incoming plan.now node end ≡ None }
    requires most { reached ≤ ENDS }
    ensures ends { result ≡ map (λ end. option_map (seen_of_link plan.now seen.now) (incoming plan.now node end)) (ends_in plan.now node) }
    ensures none_from { NoneFrom reached result }
{
    let mut ends = [None; ENDS];
    for end in 0..reached {
        ends[end as usize] = seen_end(plan, node, seen, end);
    }
    ends
}

fn seen_end(plan: &Plan, node: u8, seen: &[u32], end: u8) -> Option<Seen>
    requires { length seen.now ≡ arc_count plan.now }
    ensures { result ≡ option_map (seen_of_link plan.now seen.now) (incoming plan.now node end) }
{
    match plan.incoming(node, end) {
        None => None,
        Some(link) => Some(Seen {
            delay: plan.delay(link),
            seen: seen[link as usize],
        }),
    }
}
