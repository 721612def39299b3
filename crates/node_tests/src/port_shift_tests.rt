//! Bits that leave a shift register and come in, by hand.
use port_shift::Shift;

#[test]
fn the_lowest_bits_leave_first(rt: HostRuntime) {
    let mut shift = Shift::new(4);
    shift.load(0xABC, 12);
    let before = shift.bits();
    let beats = [shift.beat_out(), shift.beat_out(), shift.beat_out()];
    assert!(rt; before == 12 && beats == [0xC, 0xB, 0xA] && shift.bits() == 0);
}

#[test]
fn bits_that_come_in_later_are_higher(rt: HostRuntime) {
    let mut shift = Shift::new(4);
    shift.beat_in(1, 8);
    let one = [shift.bits(), shift.word(8)];
    shift.beat_in(2, 8);
    let two = [shift.bits(), shift.word(8)];
    shift.beat_in(3, 8);
    let three = [shift.bits(), shift.word(8)];
    shift.clear();
    assert!(rt; [one, two, three] == [[4, 0x01], [8, 0x21], [8, 0x32]] && shift.bits() == 0);
    // A beat may be a whole word.
    let mut shift = Shift::new(32);
    shift.beat_in(0xFFFF_FFFF, 32);
    shift.beat_in(0x8000_0001, 32);
    let before = shift.bits();
    let beat = shift.beat_out();
    assert!(rt; before == 32 && beat == 0x8000_0001 && shift.bits() == 0);
}
