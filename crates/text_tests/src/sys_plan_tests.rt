//! The ways out of a node and into it, for any link end that is asked for.

use std::test::Fail;
use system_text::read_system;

#[test]
fn no_link_end_from_8_on_has_a_link(rt: HostRuntime) -> Result<(), Fail> {
    let plan = read_system(
        rt.alloc(),
        b"xs1 1\nnode 0 id 0\nnode 1 id 1\nlink 0:7 1:0 delay 5 gap 4\nsource 0\nend\nsource 1\nend",
    )?;
    assert_eq!(rt;
        [plan.outgoing(0, 7), plan.incoming(1, 0)],
        [Some(0), Some(0)]
    );
    for end in 8..=255u8 {
        let found = [
            plan.outgoing(0, end),
            plan.incoming(0, end),
            plan.outgoing(1, end),
            plan.incoming(1, end),
        ];
        assert_eq!(rt; found, [None; 4]);
    }
    Ok(())
}
