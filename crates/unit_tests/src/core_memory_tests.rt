//! Words, halves and bytes of the memory.
use core_memory::{BadAddress, Ram};
use std::test::Fail;

#[test]
fn bytes_make_words_least_significant_first(rt: HostRuntime) -> Result<(), Fail> {
    let ram = Ram::new(rt.alloc(), &[1, 2, 3, 4])?;
    let words = [
        ram.load32(0x0001_0000)?,
        ram.load32(0x0001_0004)?,
        ram.load32(0x0001_fffc)?,
    ];
    assert!(rt; words == [0x0403_0201, 0, 0]);
    // An image may end inside a word.
    let ram = Ram::new(rt.alloc(), &[0xaa, 0xbb, 0xcc, 0xdd, 0xee])?;
    let words = [ram.load32(0x0001_0000)?, ram.load32(0x0001_0004)?];
    assert!(rt; words == [0xddcc_bbaa, 0x0000_00ee]);
    Ok(())
}

#[test]
fn a_store_changes_one_word(rt: HostRuntime) -> Result<(), Fail> {
    let mut ram = Ram::new(rt.alloc(), &[1, 2, 3, 4])?;
    ram.store32(0x0001_fffc, 0x89ab_cdef)?;
    let words = [
        ram.load32(0x0001_fffc)?,
        ram.load32(0x0001_fff8)?,
        ram.load32(0x0001_0000)?,
    ];
    assert!(rt; words == [0x89ab_cdef, 0, 0x0403_0201]);
    Ok(())
}

#[test]
fn halves_and_bytes_stand_least_significant_first(rt: HostRuntime) -> Result<(), Fail> {
    let ram = Ram::new(rt.alloc(), &[0x01, 0x02, 0xff, 0x7f, 0x00, 0x80, 0xfe])?;
    let halves = [
        ram.load16s(0x0001_0000)?,
        ram.load16s(0x0001_0002)?,
        ram.load16s(0x0001_0004)?,
    ];
    let bytes = [
        ram.load8u(0x0001_0003)?,
        ram.load8u(0x0001_0006)?,
        ram.load8u(0x0001_ffff)?,
    ];
    assert!(rt; halves == [0x0201, 0x7fff, 0xffff_8000] && bytes == [0x7f, 0xfe, 0]);
    Ok(())
}

#[test]
fn a_store_of_a_half_or_a_byte_keeps_its_neighbours(rt: HostRuntime) -> Result<(), Fail> {
    let mut ram = Ram::new(rt.alloc(), &[0x11, 0x22, 0x33, 0x44, 0x55, 0x66])?;
    ram.store16(0x0001_0002, 0x89ab_cdef)?;
    let words = [ram.load32(0x0001_0000)?, ram.load32(0x0001_0004)?];
    assert!(rt; words == [0xcdef_2211, 0x0000_6655]);
    ram.store8(0x0001_0001, 0x89ab_cdef)?;
    let first = ram.load32(0x0001_0000)?;
    ram.store8(0x0001_ffff, 0x80)?;
    let last = [ram.load32(0x0001_fffc)?, ram.load8u(0x0001_ffff)?];
    assert!(rt; first == 0xcdef_ef11 && last == [0x8000_0000, 0x80]);
    Ok(())
}

#[test]
fn bad_addresses_are_refused(rt: HostRuntime) -> Result<(), Fail> {
    let mut ram = Ram::new(rt.alloc(), &[1, 2, 3, 4])?;
    for at in [
        0x0001_0001,
        0x0001_0002,
        0x0000_ffff,
        0x0000_fffc,
        0x0002_0000,
        0xffff_fffc,
    ] {
        let stored = ram.store32(at, 7);
        assert!(rt;
            ram.load32(at) == Err(BadAddress) && stored == Err(BadAddress),
            "{at:x}"
        );
    }
    for at in [0x0001_0003, 0x0000_fffe, 0x0001_ffff, 0x0002_0000] {
        let stored = ram.store16(at, 7);
        assert!(rt;
            ram.load16s(at) == Err(BadAddress) && stored == Err(BadAddress),
            "{at:x}"
        );
    }
    for at in [0x0000_ffff, 0x0002_0000, 0] {
        let stored = ram.store8(at, 7);
        assert!(rt;
            ram.load8u(at) == Err(BadAddress) && stored == Err(BadAddress),
            "{at:x}"
        );
    }
    let last = ram.store32(0x0001_fffe, 1);
    assert!(rt; last == Err(BadAddress) && ram.load32(0x0001_0000)? == 0x0403_0201);
    Ok(())
}
