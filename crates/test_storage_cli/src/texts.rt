//! The texts of a dump and of a report, over images of each kind.
ghost use Rattle.std.specs.Prelude.{◌≡◌, IfOk};

use byteorder::{ByteOrder, LittleEndian};
use flash_board::{Board, Event, Failed, Fault, Geometry, MemBoard, MemSink, Region, SureSink};
use image_report::{ReportError, dump, one_text, report};
use std::alloc::Global;
use std::test::Fail;

// A sector with this mark and nothing else.
const AVAILABLE: [u16; 2] = [0x5BFF, 0x5168];

const IN_USE: [u16; 2] = [0x5BFE, 0x5168];

// A full sector with a valid entry of line 3 and a torn one of line 4.
const FULL: [u16; 12] = [
    0x5BFC, 0x5168, 0x000C, 1, 2, 3, 4, 0x0011, 0xFFFF, 0xFFFF, 0xFFFF, 0xFFFF,
];

// A sector in use whose third halfword begins no entry.
const FOREIGN: [u16; 3] = [0x5BFE, 0x5168, 0x000E];

// A sector in use with one parameter: FORMAT_VERSION is 121.
const VERSION_121: [u16; 12] = [
    0x5BFE, 0x5168, 0x0004, 0x0079, 0xFFFF, 0x003F, 0x0000, 0x0000, 0x4150, 0x0006, 0x0200, 0x0000,
];

// A sector in use with a mission of one waypoint and a fence of one circle: entries of lines 0 and
// 1, where MIS_TOTAL is 1, of lines 160 to 162, and of lines 492 to 494.
const MISSION_AND_FENCE: [u16; 37] = [
    0x5BFE, 0x5168, 0x2000, 0x4150, 0x0006, 0x4214, 0x0000, 0x0001, 0xFFFF, 0x003F, 0x0000, 0x4280,
    0x65AE, 0x0000, 0x0510, 0x0100, 0x0BE8, 0x4C00, 0x4052, 0x621C, 0x17F4, 0x0005, 0x0000, 0x0000,
    0x47B0, 0x00EB, 0x0000, 0x4C5C, 0x4052, 0x621C, 0x17F4, 0x0005, 0xC800, 0x6342, 0x0000, 0x0000,
    0x0000,
];

// A board, attached by the call with the number 0, with an image of 16,384-byte sectors that begin
// with these halfwords.
fn attached(
    alloc: Global,
    s0: &[u16],
    s1: &[u16],
    guard: &[u16],
    fails: &[u32],
) -> Result<MemBoard, Fail>
    ensures { IfOk result (λ board. ⟦<MemBoard as Board>⟧.sector_bytes board ≡ 16384) }
{
    if guard.len() > 8192 || s0.len() > 8192 || s1.len() > 8192 {
        return Err(Fail::from("image"));
    }
    let mut image = vec![in alloc; 0xFF; 49_152]?;
    LittleEndian::write_u16_into(s0, &mut image[..2 * s0.len()]);
    LittleEndian::write_u16_into(s1, &mut image[16_384..16_384 + 2 * s1.len()]);
    LittleEndian::write_u16_into(guard, &mut image[32_768..32_768 + 2 * guard.len()]);
    let mut board = MemBoard::new(alloc, &image, &[], fails)?;
    match board.attach("image", 0, None) {
        Ok(geometry) if geometry.sector_bytes == 16_384 => Ok(board),
        _ => Err(Fail::from("attach")),
    }
}

fn reported(alloc: Global, s0: &[u16], s1: &[u16], guard: &[u16]) -> Result<Vec<u8>, Fail> {
    let mut board = attached(alloc, s0, s1, guard, &[])?;
    let mut out = SureSink::new(alloc, 1_000)?;
    report(alloc, &mut board, &mut out)?;
    Ok(out.bytes().to_vec(alloc)?)
}

fn dumped(alloc: Global, s0: &[u16], s1: &[u16], guard: &[u16]) -> Result<Vec<u8>, Fail> {
    let mut board = attached(alloc, s0, s1, guard, &[])?;
    let mut out = SureSink::new(alloc, 20_000)?;
    dump(alloc, &mut board, &mut out)?;
    Ok(out.bytes().to_vec(alloc)?)
}

#[test]
fn reports_a_new_image(rt: HostRuntime) -> Result<(), Fail> {
    one_text();
    let text = reported(rt.alloc(), &IN_USE, &AVAILABLE, &[])?;
    let expected = b"image 16384\nguard 0\ns0 inuse entries 0 torn 0 free 16380\n\
            s1 available entries 0 torn 0 free 16380\nstate alone\n";
    assert_eq!(rt; text.as_slice(), expected.as_slice());
    Ok(())
}

#[test]
fn reports_each_state(rt: HostRuntime) -> Result<(), Fail> {
    let alloc = rt.alloc();
    let alone = reported(alloc, &AVAILABLE, &IN_USE, &[0, 0])?;
    let expected = b"image 16384\nguard 2\ns0 available entries 0 torn 0 free 16380\n\
            s1 inuse entries 0 torn 0 free 16380\nstate alone\n";
    assert_eq!(rt; alone.as_slice(), expected.as_slice());
    let marked = reported(alloc, &FULL, &AVAILABLE, &[])?;
    let expected = b"image 16384\nguard 0\ns0 full entries 1 torn 1 free 16360\n\
            s1 available entries 0 torn 0 free 16380\nstate marked\n";
    assert_eq!(rt; marked.as_slice(), expected.as_slice());
    let spilled = reported(alloc, &FULL, &IN_USE, &[])?;
    let expected = b"image 16384\nguard 0\ns0 full entries 1 torn 1 free 16360\n\
            s1 inuse entries 0 torn 0 free 16380\nstate spilled\n";
    assert_eq!(rt; spilled.as_slice(), expected.as_slice());
    let voided = reported(alloc, &[0x1234, 0x5678], &IN_USE, &[0])?;
    let expected =
        b"image 16384\nguard 1\ns0 void\ns1 inuse entries 0 torn 0 free 16380\nstate voided\n";
    assert_eq!(rt; voided.as_slice(), expected.as_slice());
    Ok(())
}

#[test]
fn reports_foreign_words_where_they_stand(rt: HostRuntime) -> Result<(), Fail> {
    let alloc = rt.alloc();
    let sector = reported(alloc, &FOREIGN, &AVAILABLE, &[])?;
    let expected =
        b"image 16384\nguard 0\ns0 foreign 2 000E\ns1 available entries 0 torn 0 free 16380\n\
            state foreign\n";
    assert_eq!(rt; sector.as_slice(), expected.as_slice());
    // no sector is void
    let row = reported(alloc, &[0x1234], &IN_USE, &[0, 0x00FF])?;
    let expected = b"image 16384\nguard foreign 1 00FF\ns0 foreign 0 1234\n\
            s1 inuse entries 0 torn 0 free 16380\nstate foreign\n";
    assert_eq!(rt; row.as_slice(), expected.as_slice());
    // each sector by itself is right, but not beside the other
    let both = reported(alloc, &IN_USE, &IN_USE, &[])?;
    let expected = b"image 16384\nguard 0\ns0 inuse entries 0 torn 0 free 16380\n\
            s1 inuse entries 0 torn 0 free 16380\nstate foreign\n";
    assert_eq!(rt; both.as_slice(), expected.as_slice());
    Ok(())
}

#[test]
fn dumps_a_stored_parameter_and_the_defaults(rt: HostRuntime) -> Result<(), Fail> {
    let text = dumped(rt.alloc(), &VERSION_121, &AVAILABLE, &[])?;
    assert!(rt;
        text.starts_with(
            b"image 16384 guard 0 alone\nparam FORMAT_VERSION i16 121\nparam RTL_ALT i32 1500\n\
                param LOG_BITMASK i32 176126\nparam FS_THR_ENABLE i8 1\n"
        )
    );
    let float = b"\nparam FENCE_ALT_MAX f32 42C80000\n";
    assert!(rt;
        text.windows(float.len())
            .any(|part| part == float.as_slice())
    );
    assert!(rt;
        text.ends_with(
            b"\nparam RC16_OPTION i16 0\nmission 0\nfence 0\n\
                sha256 4e5543722d59094574e27e4bda1557b46c94e177d9248778787b2730e4257920\n"
        )
    );
    assert_eq!(rt; text.iter().filter(|byte| **byte == b'\n').count(), 244);
    Ok(())
}

#[test]
fn dumps_a_mission_and_a_fence(rt: HostRuntime) -> Result<(), Fail> {
    let text = dumped(rt.alloc(), &MISSION_AND_FENCE, &AVAILABLE, &[])?;
    let total = b"\nparam MIS_TOTAL i16 1\n";
    assert!(rt;
        text.windows(total.len())
            .any(|part| part == total.as_slice())
    );
    assert!(rt;
        text.ends_with(
            b"\nparam RC16_OPTION i16 0\nmission 1\ncommand 0 16 5 01E80B004C52401C62F41705\n\
                fence 1\nfence 0 5003 473977420 85455970 42C80000\n\
                sha256 ccd7248904735ce63732ead5f49834b45e0549a111b53108f038adac3731a424\n"
        )
    );
    Ok(())
}

#[test]
fn dumps_the_digest_of_zeros(rt: HostRuntime) -> Result<(), Fail> {
    let text = dumped(rt.alloc(), &[0x1234], &IN_USE, &[0])?;
    assert!(rt; text.starts_with(b"image 16384 guard 1 voided\nparam FORMAT_VERSION i16 120\n"));
    assert!(rt;
        text.ends_with(
            b"\nmission 0\nfence 0\n\
                sha256 0299f757a85a1aad6cbe1ad2b0eda925d8df667cd04e646af8917f65cbf24537\n"
        )
    );
    Ok(())
}

#[test]
fn a_foreign_image_is_not_dumped(rt: HostRuntime) -> Result<(), Fail> {
    let alloc = rt.alloc();
    let mut board = attached(alloc, &FOREIGN, &AVAILABLE, &[], &[])?;
    let mut out = SureSink::new(alloc, 1_000)?;
    assert_eq!(rt;
        dump(alloc, &mut board, &mut out),
        Err(ReportError::Foreign {
            region: Region::S0,
            offset: 2,
            word: 0x000E
        })
    );
    assert_eq!(rt; out.bytes().len(), 0);
    Ok(())
}

#[test]
fn a_failing_read_is_told_before_anything_is_printed(rt: HostRuntime) -> Result<(), Fail> {
    let alloc = rt.alloc();
    // the first read, the first after the guard row, and one inside a sector
    for failing in [1, 8_193, 9_000] {
        let mut board = attached(alloc, &IN_USE, &AVAILABLE, &[], &[failing])?;
        let mut out = SureSink::new(alloc, 1_000)?;
        assert_eq!(rt;
            report(alloc, &mut board, &mut out),
            Err(ReportError::Fault(Fault::Read))
        );
        assert_eq!(rt; out.bytes().len(), 0);
        let mut board = attached(alloc, &IN_USE, &AVAILABLE, &[], &[failing])?;
        assert_eq!(rt;
            dump(alloc, &mut board, &mut out),
            Err(ReportError::Fault(Fault::Read))
        );
        assert_eq!(rt; out.bytes().len(), 0);
    }
    Ok(())
}

#[test]
fn a_failing_sink_keeps_the_pieces_before(rt: HostRuntime) -> Result<(), Fail> {
    let alloc = rt.alloc();
    let mut board = attached(alloc, &IN_USE, &AVAILABLE, &[], &[])?;
    let mut out = MemSink::new(alloc, 1_000, &[1])?;
    assert_eq!(rt; dump(alloc, &mut board, &mut out), Err(ReportError::Output));
    assert_eq!(rt; out.bytes(), b"image 16384 guard 0 alone\n".as_slice());
    let mut out = MemSink::new(alloc, 1_000, &[0])?;
    assert_eq!(rt;
        report(alloc, &mut board, &mut out),
        Err(ReportError::Output)
    );
    assert_eq!(rt; out.bytes().len(), 0);
    Ok(())
}

/// A voided image of 16,384-byte sectors: the guard row's count is 1, and sector 1 is in use. Each
/// read of sector 0, which is void, fails. Nothing is told, and each count stands at its end.
#[derive(Drop)]
struct VoidFails;

impl Board for VoidFails {
    ghost use Rattle.std.specs.Prelude.{ℕ, [], ◌-◌, ◌^◌};

    ghost sector_bytes = { λ _. 16384 };

    ghost tells = { λ _. ⊥ };

    ghost words = { λ _. record { s0 = []; s1 = []; guard = [] } };

    ghost has_lists = { λ _ _ _. Unit {0} };

    ghost moment = { λ _. record {
      programs = 2 ^ 64 - 1;
      erases = 2 ^ 64 - 1;
      receptions = 2 ^ 64 - 1;
      sendings = 2 ^ 64 - 1;
    } };

    ghost now = { λ _ _. ⊥ };

    ghost left = { λ _ _ _. ⊥ };

    ghost faults = { λ _ _. 2 ^ 64 - 1 };

    ghost reads = { λ b o now. absurd now };

    ghost counts_now = { λ b t o le now. now };

    ghost only_now = { λ b o left. left };

    ghost shape = { λ b told known. absurd told };

    #[tactic(auto, using(flash_traits::proofs::Counting::raised_at_end))]
    fn attach(&mut self, _name: &str, _port: u16, _make: Option<u32>) -> Result<Geometry, Failed> {
        Err(Failed)
    }

    fn geometry(&self) -> Geometry {
        Geometry {
            sector_bytes: 16_384,
        }
    }

    #[tactic(auto, using(flash_traits::proofs::Counting::raised_at_end))]
    fn read(&mut self, region: Region, at: u32) -> Result<u16, Failed> {
        match (region, at) {
            (Region::S0, _) => Err(Failed),
            (Region::S1, 0) => Ok(0x5BFE),
            (Region::S1, 1) => Ok(0x5168),
            (Region::Guard, 0) => Ok(0),
            _ => Ok(0xFFFF),
        }
    }

    #[tactic(auto, using(flash_traits::proofs::Counting::raised_at_end))]
    fn program(&mut self, _region: Region, _at: u32, _word: u16) -> Result<(), Failed> {
        Err(Failed)
    }

    #[tactic(auto, using(flash_traits::proofs::Counting::raised_at_end))]
    fn erase(&mut self, _region: Region) -> Result<(), Failed> {
        Err(Failed)
    }

    #[tactic(auto, using(flash_traits::proofs::Counting::raised_at_end))]
    fn recv(&mut self, _into: &mut [u8]) -> Result<Event, Failed> {
        Err(Failed)
    }

    #[tactic(auto, using(flash_traits::proofs::Counting::raised_at_end))]
    fn send(&mut self, _peer: u8, _bytes: &[u8]) -> Result<(), Failed> {
        Err(Failed)
    }
}

#[test]
fn reads_nothing_of_a_void_sector(rt: HostRuntime) -> Result<(), Fail> {
    let alloc = rt.alloc();
    let mut out = SureSink::new(alloc, 1_000)?;
    report(alloc, &mut VoidFails, &mut out)?;
    let expected =
        b"image 16384\nguard 1\ns0 void\ns1 inuse entries 0 torn 0 free 16380\nstate voided\n";
    assert_eq!(rt; out.bytes(), expected.as_slice());
    Ok(())
}
