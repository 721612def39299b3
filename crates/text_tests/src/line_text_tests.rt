//! The lines of a few events.
ghost use Rattle.xs_model.specs.Events.{IsWithinCounts};

use line_text::line_of;
use std::alloc::{AllocError, Global};
use std::test::Fail;
use xs_base::{Text, Token};
use xs_model::{Event, Happen};

// Whether this is the line of the event of a node.
fn has_line(
    alloc: Global,
    node: u8,
    slot: u32,
    what: Happen,
    line: &str,
) -> Result<bool, AllocError>
    requires { IsWithinCounts (record { slot = slot; what = what }) }
{
    let mut out = Text::new(alloc);
    line_of(alloc, node, Event { slot, what }, &mut out)?;
    Ok(out.bytes() == line.as_bytes())
}

#[test]
fn lines_of_threads_and_pins(rt: HostRuntime) -> Result<(), Fail> {
    let alloc = rt.alloc();
    let trap = Happen::Trap {
        thread: 0,
        et: 7,
        pc: 0x0004_0008,
        ed: 0,
    };
    let halt = Happen::Halt { thread: 0 };
    let drive = Happen::Drive {
        port: 16,
        value: 10,
    };
    let float = Happen::Float { port: 28 };
    assert!(rt;
        has_line(
            alloc,
            0,
            8,
            trap,
            "8 n0.t0 trap 7 pc 0x00040008 data 0x00000000\n"
        )? && has_line(alloc, 0, 8, halt, "8 n0.t0 halt\n")?
            && has_line(alloc, 0, 14, drive, "14 n0 pin 4A 0x0000000a\n")?
            && has_line(alloc, 0, 5, float, "5 n0 pin 32A float\n")?
    );
    Ok(())
}

#[test]
fn lines_of_tokens(rt: HostRuntime) -> Result<(), Fail> {
    let alloc = rt.alloc();
    let ct = Happen::Chan {
        chan: 0,
        token: Token::Ctrl(1),
    };
    let dt = Happen::Chan {
        chan: 0,
        token: Token::Byte(7),
    };
    let lost = Happen::Lost { id: 0x0001_0002 };
    assert!(rt;
        has_line(alloc, 1, 30, ct, "30 n1 chan 0 ct 1\n")?
            && has_line(alloc, 1, 34, dt, "34 n1 chan 0 dt 7\n")?
            && has_line(alloc, 1, 27, lost, "27 n1 lost 0x00010002\n")?
    );
    Ok(())
}
