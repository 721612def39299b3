//! Kept events and emissions at a few events.
ghost use Rattle.std.specs.Prelude.{◌≡◌};
ghost use Rattle.xs_model.specs.Events.{IsWithinCounts};
ghost use Rattle.xs_model.specs.declared.event.Happen.TheVariants.{Halt};

use std::test::Fail;
use trace_lines::{Emissions, Event, Happen, NodeEvents};
use xs_base::Token;

fn trap() -> Event
    ensures { IsWithinCounts result }
{
    Event {
        slot: 8,
        what: Happen::Trap {
            thread: 0,
            et: 7,
            pc: 0x0004_0008,
            ed: 0,
        },
    }
}

fn halt(slot: u32) -> Event
    ensures { result ≡ record { slot = slot; what = Halt 3 } }
{
    Event {
        slot,
        what: Happen::Halt { thread: 3 },
    }
}

#[test]
fn events_are_kept_in_order(rt: HostRuntime) -> Result<(), Fail> {
    let mut kept = NodeEvents::new(rt.alloc());
    let begins_empty = kept.events().is_empty();
    kept.reserve(2)?;
    kept.add(trap());
    kept.add(halt(9));
    assert!(rt;
        begins_empty
            && matches!(kept.events(), [a, b] if a.slot == 8 && b.slot == 9)
            && kept.more() == 0
    );
    Ok(())
}

#[test]
fn all_that_are_kept_have_room_and_the_rest_is_counted(rt: HostRuntime) -> Result<(), Fail> {
    let mut kept = NodeEvents::new(rt.alloc());
    for slot in 0..262_146u32 {
        kept.reserve(1)?;
        kept.add(halt(slot));
    }
    let counted = kept.more();
    kept.reserve(usize::MAX)?;
    kept.add(trap());
    let events = kept.events();
    assert!(rt; events.len() == 262_144 && events[262_143].slot == 262_143);
    assert_eq!(rt; (counted, kept.more()), (2, 3));
    Ok(())
}

#[test]
fn room_for_more_events_than_are_kept(rt: HostRuntime) -> Result<(), Fail> {
    let mut kept = NodeEvents::new(rt.alloc());
    kept.reserve(usize::MAX)?;
    kept.add(trap());
    kept.reserve(300_000)?;
    kept.add(trap());
    assert_eq!(rt; kept.events().len(), 2);
    Ok(())
}

#[test]
fn emissions_are_read_back_and_cleared(rt: HostRuntime) {
    let mut emissions = Emissions::new();
    emissions.add_event(trap());
    emissions.set_token(3, Token::Byte(7));
    emissions.set_credit(5);
    let tokens = [emissions.token(3), emissions.token(5)];
    let credits = [emissions.credit(3), emissions.credit(5)];
    let count = emissions.events().len();
    assert!(rt; count == 1 && tokens == [Some(Token::Byte(7)), None] && credits == [false, true]);
    emissions.clear();
    assert!(rt;
        emissions.events().is_empty() && emissions.token(3).is_none() && !emissions.credit(5)
    );
}
