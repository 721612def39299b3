//! A node that does nothing, and a script that changes its port 32A in each tenth slot: its wave over 1,000,000 slots, of 4.5 MB, which is too
//! long to be read, and what a wave with fewer changes, of 4.0 MB, gives the node as a script.

ghost use Rattle.std.specs.Prelude.{◌<◌};

use crate::trial::Trial;
use std::alloc::{AllocError, Global};
use xs1_top::Status;

// How many changes a wave has that is too long, and one that is not.
const MANY: u32 = 99_999;

const FEW: u32 = 90_000;

const BEFORE: &str = "xs1 1\nnode 0 id 0\nsource 0\nfreet\nend\npins\n";

// The bits of a change after the first, and its code.
const ONES: &str = "1111111111111111111111111111111 !=\n";

const ZEROS: &str = "0000000000000000000000000000000 !=\n";

// What is declared of the pins of node 0, and that all are 0 in slot 0; and this as lines of a script.
const HEAD: &str =
    "$timescale 1 ns $end\n$scope module n0 $end\n$var wire 1 !! 1A $end\n$var wire 1 !\" 1B $end\n$var wire 1 !# 1C $end\n$var wire 1 !$ 1D $end\n$var wire 1 !% 1E $end\n$var wire 1 !& 1F $end\n$var wire 1 !' 1G $end\n$var wire 1 !( 1H $end\n$var wire 1 !) 1I $end\n$var wire 1 !* 1J $end\n$var wire 1 !+ 1K $end\n$var wire 1 !, 1L $end\n$var wire 1 !- 1M $end\n$var wire 1 !. 1N $end\n$var wire 1 !/ 1O $end\n$var wire 1 !0 1P $end\n$var wire 4 !1 4A $end\n$var wire 4 !2 4B $end\n$var wire 4 !3 4C $end\n$var wire 4 !4 4D $end\n$var wire 4 !5 4E $end\n$var wire 4 !6 4F $end\n$var wire 8 !7 8A $end\n$var wire 8 !8 8B $end\n$var wire 8 !9 8C $end\n$var wire 8 !: 8D $end\n$var wire 16 !; 16A $end\n$var wire 16 !< 16B $end\n$var wire 32 != 32A $end\n$upscope $end\n$enddefinitions $end\n#0\n0!!\n0!\"\n0!#\n0!$\n0!%\n0!&\n0!'\n0!(\n0!)\n0!*\n0!+\n0!,\n0!-\n0!.\n0!/\n0!0\nb0 !1\nb0 !2\nb0 !3\nb0 !4\nb0 !5\nb0 !6\nb0 !7\nb0 !8\nb0 !9\nb0 !:\nb0 !;\nb0 !<\nb0 !=\n";

const FIRST: &str =
    "0 0:1A 0\n0 0:1B 0\n0 0:1C 0\n0 0:1D 0\n0 0:1E 0\n0 0:1F 0\n0 0:1G 0\n0 0:1H 0\n0 0:1I 0\n0 0:1J 0\n0 0:1K 0\n0 0:1L 0\n0 0:1M 0\n0 0:1N 0\n0 0:1O 0\n0 0:1P 0\n0 0:4A 0\n0 0:4B 0\n0 0:4C 0\n0 0:4D 0\n0 0:4E 0\n0 0:4F 0\n0 0:8A 0\n0 0:8B 0\n0 0:8C 0\n0 0:8D 0\n0 0:16A 0\n0 0:16B 0\n0 0:32A 0\n";

/// The wave of its run with many changes. `AllocError` comes where memory runs out.
pub fn written(alloc: Global) -> Result<Trial, AllocError> {
    let mut input = BEFORE.to_string(alloc)?;
    append_script(alloc, &mut input, MANY)?;
    input.push_str("end\n")?;
    Ok(Trial {
        words: "wave 1000000",
        input,
        status: Status::Done,
        text: wave(alloc, MANY)?,
    })
}

/// What is answered to that wave. `AllocError` comes where memory runs out.
pub fn too_long(alloc: Global) -> Result<Trial, AllocError> {
    Ok(Trial {
        words: "pinsof 0",
        input: wave(alloc, MANY)?,
        status: Status::SystemFault,
        text: "system line 0: S10 input too long\n".to_string(alloc)?,
    })
}

/// What is answered to one with fewer changes: the levels of slot 0, and then the script. `AllocError` comes where memory runs out.
pub fn read(alloc: Global) -> Result<Trial, AllocError> {
    let mut text = FIRST.to_string(alloc)?;
    append_script(alloc, &mut text, FEW)?;
    Ok(Trial {
        words: "pinsof 0",
        input: wave(alloc, FEW)?,
        status: Status::Done,
        text,
    })
}

// The lines of so many changes in a script, to all bits and to the last alone by turns.
fn append_script(alloc: Global, text: &mut String, changes: u32) -> Result<(), AllocError>
    requires { changes < 100000 }
{
    for k in 0..changes {
        let value: u32 = if k % 2 == 0 { 0xffff_ffff } else { 0x8000_0000 };
        text.push_str(&format!(in alloc; "{} 0:32A {value}\n", 10 * k + 10)?)?;
    }
    Ok(())
}

// The wave with so many changes.
fn wave(alloc: Global, changes: u32) -> Result<String, AllocError>
    requires { changes < 100000 }
{
    let mut text = HEAD.to_string(alloc)?;
    for k in 0..changes {
        text.push_str(&format!(in alloc; "#{}\nb1", 10 * k + 10)?)?;
        text.push_str(if k % 2 == 0 { ONES } else { ZEROS })?;
    }
    text.push_str("#1000000\n")?;
    Ok(text)
}
