//! Each piece once.
use crate::{Line, mark_name, push, push_hex, push_number, push_place, region_name};
use flash_traits::{Mark, Region};

#[test]
fn appends_each_piece(rt: HostRuntime) {
    let mut line = Line::new();
    push(&mut line, region_name(Region::Guard));
    push(&mut line, b" ");
    push(&mut line, mark_name(Mark::InUse));
    push(&mut line, b" ");
    push_number(&mut line, -1500i32);
    push(&mut line, b" ");
    push_number(&mut line, u64::MAX);
    push(&mut line, b" ");
    push_hex(&mut line, &[0x42, 0xC8, 0x00, 0xFF]);
    push(&mut line, b" ");
    push_place(&mut line, 2, 0x000E);
    let expected = b"guard inuse -1500 18446744073709551615 42C800FF 2 000E";
    assert_eq!(rt; line.as_slice(), expected.as_slice());
}
