//! The texts of three images.

use std::test::Fail;
use xs_instructions::{FlowIns, Image, Instr, MemIns, ResIns, Symbols, WordIns};
use xs_printer::print_image;

#[test]
fn prints_an_image_without_anything(rt: HostRuntime) -> Result<(), Fail> {
    let image = Image::of(
        Vec::new(rt.alloc()),
        Vec::new(rt.alloc()),
        0x0001_0000,
        Symbols::of_source(rt.alloc(), b""),
    );
    let text = print_image(rt.alloc(), &image)?;
    assert_eq!(rt; text.bytes(), b".data\n.cp\n".as_slice());
    Ok(())
}

#[test]
fn prints_labels_where_they_stand(rt: HostRuntime) -> Result<(), Fail> {
    let mut code = Vec::new(rt.alloc());
    code.push(Instr::Words(WordIns::Ldc(0, 65_535)))?;
    code.push(Instr::Flow(FlowIns::Bt(0, 0)))?;
    code.push(Instr::Flow(FlowIns::Bu(2)))?;
    let mut bytes = Vec::new(rt.alloc());
    bytes.push(1)?;
    bytes.push(255)?;
    let mut labels = Symbols::of_source(rt.alloc(), b"");
    labels.define(rt.alloc(), b"main", 0x0004_0000)?;
    labels.define(rt.alloc(), b"loop", 0x0004_0000)?;
    labels.define(rt.alloc(), b".x$", 0x0004_0008)?;
    labels.define(rt.alloc(), b"end", 0x0004_000c)?;
    labels.define(rt.alloc(), b"table", 0x0001_0000)?;
    labels.define(rt.alloc(), b"tail", 0x0001_0002)?;
    labels.define(rt.alloc(), b"consts", 0x0001_0004)?;
    let image = Image::of(code, bytes, 0x0001_0004, labels);
    let text = print_image(rt.alloc(), &image)?;
    assert_eq!(rt;
        text.bytes(),
        b"main:\nloop:\n  ldc r0, 65535\n  bt r0, main\n.x$:\n  bu .x$\nend:\n.data\ntable:\n  .byte 1\n  .byte 255\ntail:\n.cp\nconsts:\n".as_slice()
    );
    Ok(())
}

#[test]
fn prints_constants_from_cp_at_on(rt: HostRuntime) -> Result<(), Fail> {
    let mut code = Vec::new(rt.alloc());
    code.push(Instr::Memory(MemIns::LdwDp(15, 0)))?;
    code.push(Instr::Resources(ResIns::OutctImm(11, 1)))?;
    let mut bytes = Vec::new(rt.alloc());
    bytes.push(0)?;
    bytes.push(9)?;
    bytes.push(10)?;
    bytes.push(99)?;
    bytes.push(100)?;
    let mut labels = Symbols::of_source(rt.alloc(), b"");
    labels.define(rt.alloc(), b"k", 0x0001_0004)?;
    labels.define(rt.alloc(), b"e", 0x0001_0005)?;
    let image = Image::of(code, bytes, 0x0001_0004, labels);
    let text = print_image(rt.alloc(), &image)?;
    assert_eq!(rt;
        text.bytes(),
        b"  ldw lr, dp[0]\n  outct res[r11], 1\n.data\n  .byte 0\n  .byte 9\n  .byte 10\n  .byte 99\n.cp\nk:\n  .byte 100\ne:\n".as_slice()
    );
    Ok(())
}
