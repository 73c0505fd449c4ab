//! Boards, sources and sinks in memory: what they give and keep, and what a failing call leaves.
ghost use Rattle.std.specs.Prelude.{◌≡◌, OnOk};

use super::*;
use arrayvec::ArrayVec;
use std::test::Fail;

// Attaches the image of the smallest size that the board was made with.
fn attach<B: Board>(board: &mut B) -> Result<(), Fail>
    ensures { OnOk result (B.sector_bytes board.new ≡ 16384) }
{
    match board.attach("image", 0, None) {
        Ok(geometry) if geometry.sector_bytes == 16_384 => Ok(()),
        _ => Err(Fail::from("attach")),
    }
}

#[test]
fn the_budget_is_that_of_the_table(rt: HostRuntime) -> Result<(), Fail> {
    let small = budget(Geometry {
        sector_bytes: 16_384,
    });
    let medium = budget(Geometry {
        sector_bytes: 32_768,
    });
    let large = budget(Geometry {
        sector_bytes: 65_536,
    });
    let largest = budget(Geometry {
        sector_bytes: 131_072,
    });
    assert_eq!(rt; [small, medium, large, largest], [47, 1_685, 4_962, 11_516]);
    assert_eq!(rt; LINES, 1_920);
    Ok(())
}

#[test]
fn a_program_clears_bits_and_a_failing_one_leaves_the_halfword(
    rt: HostRuntime,
) -> Result<(), Fail> {
    let alloc = rt.alloc();
    let image = vec![in alloc; 0xFF; 49_152]?;
    let mut board = MemBoard::new(alloc, &image, &[], &[2])?;
    attach(&mut board)?;
    assert_eq!(rt; board.program(Region::S0, 3, 0x00FD), Ok(()));
    assert_eq!(rt; board.program(Region::S0, 3, 0), Err(Failed));
    assert_eq!(rt; board.program(Region::S0, 3, 0x0F0F), Ok(()));
    assert_eq!(rt; board.read(Region::S0, 3), Ok(0x000D));
    Ok(())
}

#[test]
fn a_failing_erase_leaves_odd_offsets_blank(rt: HostRuntime) -> Result<(), Fail> {
    let alloc = rt.alloc();
    let mut board = MemBoard::new(alloc, &[], &[], &[4])?;
    assert_eq!(rt; board.attach("image", 0, None), Err(Failed));
    let Ok(geometry) = board.attach("image", 0, Some(16_384)) else {
        return Err(Fail::from("attach"));
    };
    assert_eq!(rt; geometry.sector_bytes, 16_384);
    assert_eq!(rt; program_pair(&mut board, Region::S1, 6, 1, 2), Ok(()));
    assert_eq!(rt; board.erase(Region::S1), Err(Failed));
    assert_eq!(rt; board.read(Region::S1, 6), Ok(1));
    assert_eq!(rt; board.read(Region::S1, 7), Ok(0xFFFF));
    assert_eq!(rt; board.erase(Region::S1), Ok(()));
    assert_eq!(rt; board.read(Region::S1, 6), Ok(0xFFFF));
    Ok(())
}

#[test]
fn the_feed_comes_in_order_and_then_end(rt: HostRuntime) -> Result<(), Fail> {
    let alloc = rt.alloc();
    let image = vec![in alloc; 0xFF; 49_152]?;
    let Ok(bytes) = ArrayVec::try_from(b"abc".as_slice()) else {
        return Err(Fail::from("bytes"));
    };
    let mut board = SureBoard::new(
        alloc,
        &image,
        &[Feed::Idle, Feed::Datagram { peer: 7, bytes }],
    )?;
    attach(&mut board)?;
    let mut into = [0u8; 2048];
    assert_eq!(rt; board.recv(&mut into), Ok(Event::Idle));
    assert_eq!(rt;
        board.recv(&mut into),
        Ok(Event::Datagram { peer: 7, len: 3 })
    );
    assert!(rt; into.starts_with(b"abc".as_slice()));
    assert_eq!(rt; board.recv(&mut into), Ok(Event::End));
    assert_eq!(rt; board.recv(&mut into), Ok(Event::End));
    Ok(())
}

#[test]
fn sent_gives_what_was_sent(rt: HostRuntime) -> Result<(), Fail> {
    let alloc = rt.alloc();
    let image = vec![in alloc; 0xFF; 49_152]?;
    let mut board = MemBoard::new(alloc, &image, &[], &[1])?;
    attach(&mut board)?;
    assert_eq!(rt; board.send(1, b"lost".as_slice()), Err(Failed));
    assert_eq!(rt; board.send(2, b"kept".as_slice()), Ok(()));
    let Some((peer, bytes)) = board.sent(0) else {
        return Err(Fail::from("sent"));
    };
    assert_eq!(rt; peer, 2);
    assert_eq!(rt; bytes.as_slice(), b"kept".as_slice());
    assert!(rt; board.sent(1).is_none());
    Ok(())
}

#[test]
fn an_image_is_its_halfwords_low_byte_first(rt: HostRuntime) -> Result<(), Fail> {
    let alloc = rt.alloc();
    let image = vec![in alloc; 0xFF; 49_152]?;
    let mut board = SureBoard::new(alloc, &image, &[])?;
    attach(&mut board)?;
    assert_eq!(rt;
        program_pair(&mut board, Region::S1, 0, 0x5BFF, 0x5168),
        Ok(())
    );
    let bytes = board.image(alloc)?;
    assert_eq!(rt; bytes.len(), 49_152);
    assert_eq!(rt;
        bytes[16_384..].first_chunk::<5>(),
        Some(&[0xFF, 0x5B, 0x68, 0x51, 0xFF])
    );
    Ok(())
}

#[test]
fn a_source_gives_what_fits_until_the_end(rt: HostRuntime) -> Result<(), Fail> {
    let alloc = rt.alloc();
    let mut source = MemSource::new(alloc, b"hello".as_slice(), &[1])?;
    let mut into = [0u8; 3];
    assert_eq!(rt; source.read(&mut into), Ok(3));
    assert_eq!(rt; into, *b"hel");
    assert_eq!(rt; source.read(&mut into), Err(Failed));
    assert_eq!(rt; source.read(&mut into), Ok(2));
    assert_eq!(rt; &into[..2], b"lo".as_slice());
    assert_eq!(rt; source.read(&mut into), Ok(0));
    let mut sure = SureSource::new(alloc, b"a".as_slice())?;
    assert_eq!(rt; sure.read(&mut into), Ok(1));
    Ok(())
}

#[test]
fn a_sink_keeps_what_it_has_room_for(rt: HostRuntime) -> Result<(), Fail> {
    let alloc = rt.alloc();
    let mut sink = MemSink::new(alloc, 5, &[1])?;
    assert_eq!(rt; sink.write_all(b"abc".as_slice()), Ok(()));
    assert_eq!(rt; sink.write_all(b"x".as_slice()), Err(Failed));
    assert_eq!(rt; sink.write_all(b"def".as_slice()), Ok(()));
    assert_eq!(rt; sink.write_all(b"g".as_slice()), Ok(()));
    assert_eq!(rt; sink.bytes(), b"abc".as_slice());
    let mut sure = SureSink::new(alloc, 1)?;
    assert_eq!(rt; sure.write_all(b"h".as_slice()), Ok(()));
    assert_eq!(rt; sure.bytes(), b"h".as_slice());
    Ok(())
}
