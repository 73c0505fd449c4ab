//! Surveys, recoveries and switches over images of each state, with a loss at each program.
ghost use Rattle.std.specs.Prelude.{◌≡◌, IfOk};

use byteorder::{ByteOrder, LittleEndian};
use flash_board::{Board, Event, Failed, Fault, Geometry, LINES, LogError, MemBoard, Region};
use sector_log::{header_of, scan};
use sector_switch::{CopyStep, Images, RecoverError, Shape, recover, survey};
use std::alloc::Global;
use std::test::Fail;

// The bytes of the storage, eight a line.
const STORAGE_BYTES: usize = 8 * LINES as usize;

// An image of 16,384-byte sectors that begin with these halfwords, and of a guard row with so many
// zeros.
fn image(alloc: Global, guard: usize, s0: &[u16], s1: &[u16]) -> Result<Vec<u8>, Fail> {
    if guard > 8192 || s0.len() > 8192 || s1.len() > 8192 {
        return Err(Fail::from("image"));
    }
    let mut image = vec![in alloc; 0xFF; 49_152]?;
    LittleEndian::write_u16_into(s0, &mut image[..2 * s0.len()]);
    LittleEndian::write_u16_into(s1, &mut image[16_384..16_384 + 2 * s1.len()]);
    image[32_768..32_768 + 2 * guard].fill(0);
    Ok(image)
}

// A board with an image of 16,384-byte sectors, attached by the call with the number 0.
fn attached(alloc: Global, image: &[u8], fails: &[u32]) -> Result<MemBoard, Fail>
    ensures { IfOk result (λ board. ⟦<MemBoard as Board>⟧.sector_bytes board ≡ 16384) }
{
    let mut board = MemBoard::new(alloc, image, &[], fails)?;
    match board.attach("image", 0, None) {
        Ok(geometry) if geometry.sector_bytes == 16_384 => Ok(board),
        _ => Err(Fail::from("attach")),
    }
}

// A sector with this mark and an entry of line 3, and such an entry of line 4.
const FULL: [u16; 7] = [0x5BFC, 0x5168, 0x000C, 0x0201, 0x0403, 0x0605, 0x0807];

const IN_USE: [u16; 7] = [0x5BFE, 0x5168, 0x000C, 0x0201, 0x0403, 0x0605, 0x0807];

const OTHER: [u16; 7] = [0x5BFE, 0x5168, 0x000C, 0x1111, 0x1111, 0x1111, 0x1111];

const AVAILABLE: [u16; 2] = [0x5BFF, 0x5168];

const LINE: [u8; 8] = [1, 2, 3, 4, 5, 6, 7, 8];

// The guard count and line 3 of an image that was recovered.
fn recovered(alloc: Global, guard: usize, s0: &[u16], s1: &[u16]) -> Result<(u16, Vec<u8>), Fail> {
    let image = image(alloc, guard, s0, s1)?;
    let mut board = attached(alloc, &image, &[])?;
    let mut images = Images::new(alloc)?;
    match recover(&mut board, &mut images) {
        Ok(_) => {}
        Err(_) => return Err(Fail::from("recover")),
    }
    match survey(&mut board, &mut images) {
        Ok(survey) if survey.shape == Shape::Alone => {
            let mut line = vec![in alloc; 0; 8]?;
            line.copy_from_slice(&images.whole()[24..32]);
            Ok((survey.kept.guard, line))
        }
        _ => Err(Fail::from("survey")),
    }
}

#[test]
fn each_state_is_recovered_to_one_sector_alone(rt: HostRuntime) -> Result<(), Fail> {
    let alloc = rt.alloc();
    let cases: [(usize, &[u16], &[u16], u16); 5] = [
        (0, &IN_USE, &AVAILABLE, 0),
        // a loss between home's mark full and the other's mark in use
        (0, &FULL, &AVAILABLE, 2),
        (2, &[0x5BFE, 0x5168], &FULL, 4),
        // the void sector holds a whole log of other content
        (1, &OTHER, &IN_USE, 2),
        // the last guard halfword
        (8191, &IN_USE, &[], 8192),
    ];
    for (guard, s0, s1, after) in cases {
        let (count, line) = recovered(alloc, guard, s0, s1)?;
        assert_eq!(rt; count, after, "from {guard}");
        assert_eq!(rt; line.as_slice(), LINE.as_slice(), "from {guard}");
    }
    Ok(())
}

#[test]
fn an_image_that_is_not_understood_is_named(rt: HostRuntime) -> Result<(), Fail> {
    let alloc = rt.alloc();
    let cases: [(usize, &[u16], &[u16], Region, u32, u16); 5] = [
        (
            0,
            &[0x5BFE, 0x5168, 0x000E],
            &AVAILABLE,
            Region::S0,
            2,
            0x000E,
        ),
        // the other's head is tested before home's log
        (0, &[0x5BFE, 0x5168, 0x000E], &IN_USE, Region::S1, 0, 0x5BFE),
        (0, &FULL, &[0x5BFE, 0x5169], Region::S1, 1, 0x5169),
        (0, &[0x5BFF, 0x5168], &AVAILABLE, Region::S0, 0, 0x5BFF),
        (3, &FULL, &[], Region::S0, 0, 0x5BFC),
    ];
    for (guard, s0, s1, region, offset, word) in cases {
        let image = image(alloc, guard, s0, s1)?;
        let mut board = attached(alloc, &image, &[])?;
        let mut images = Images::new(alloc)?;
        let found = RecoverError::Foreign {
            region,
            offset,
            word,
        };
        assert_eq!(rt; recover(&mut board, &mut images).err(), Some(found));
        assert_eq!(rt; board.image(alloc)?.as_slice(), image.as_slice());
    }
    Ok(())
}

#[test]
fn a_guard_row_that_is_used_up_is_met_once_the_copy_is_whole(rt: HostRuntime) -> Result<(), Fail> {
    let alloc = rt.alloc();
    let image = image(alloc, 8192, &FULL, &AVAILABLE)?;
    let mut board = attached(alloc, &image, &[])?;
    let mut images = Images::new(alloc)?;
    let worn = Some(RecoverError::Worn { count: 8192 });
    assert_eq!(rt; recover(&mut board, &mut images).err(), worn);
    let Ok(found) = survey(&mut board, &mut images) else {
        return Err(Fail::from("survey"));
    };
    let Some(other) = found.kept.other else {
        return Err(Fail::from("other"));
    };
    assert_eq!(rt; (found.shape, found.kept.guard), (Shape::Spilled, 8192));
    // one chunk was copied
    assert_eq!(rt; (other.end, other.valid, other.gaps), (35, 1, 0));
    assert_eq!(rt; &images.whole()[24..32], LINE.as_slice());
    Ok(())
}

// What `recover` reads of an image of 16,384-byte sectors with no gap and guard count 0: the guard
// row and each sector with the halfword that is met twice, the four halfwords of the heads, and the
// other sector once more where it is in use.
const READS_BESIDE_AVAILABLE: u32 = 8193 + 4 + 8193 + 8192;

const READS_SPILLED: u32 = 8193 + 4 + 8193 + 2 * 8193;

// A full sector with an entry for each chunk, whose bytes are its number and 1.
fn entry_for_each_chunk(alloc: Global) -> Result<Vec<u16>, Fail> {
    let mut words = Vec::new(alloc);
    words.push(0x5BFC)?;
    words.push(0x5168)?;
    for chunk in 0..240 {
        words.push(0xE000 + 32 * chunk)?;
        for _ in 0..32 {
            words.push(0x0101 * (chunk + 1))?;
        }
    }
    Ok(words)
}

#[test]
fn forty_losses_in_one_copy_take_no_room(rt: HostRuntime) -> Result<(), Fail> {
    let alloc = rt.alloc();
    let home = entry_for_each_chunk(alloc)?;
    let mut image = image(alloc, 0, &home, &[0x5BFE, 0x5168])?;
    // The first loss falls inside the second entry. Behind it a torn last entry is there each time:
    // both scans skip its 32 halfwords, and they are read once to see whether it can be completed.
    let mut lost = READS_SPILLED + 51;
    for _ in 0..40 {
        let mut board = attached(alloc, &image, &[lost])?;
        let mut images = Images::new(alloc)?;
        let fault = Some(RecoverError::Fault(Fault::Flash));
        assert_eq!(rt; recover(&mut board, &mut images).err(), fault);
        image = board.image(alloc)?;
        lost = READS_SPILLED - 32 + 51;
    }
    let mut board = attached(alloc, &image, &[])?;
    let mut images = Images::new(alloc)?;
    let Ok(alone) = recover(&mut board, &mut images) else {
        return Err(Fail::from("recover"));
    };
    assert_eq!(rt; alone.free(), 540);
    let Ok(found) = survey(&mut board, &mut images) else {
        return Err(Fail::from("survey"));
    };
    assert_eq!(rt; (found.shape, found.kept.guard), (Shape::Alone, 2));
    assert_eq!(rt; (found.kept.home.valid, found.kept.home.gaps), (240, 0));
    for chunk in 0..240 {
        let bytes = [1 + chunk as u8; 64];
        assert_eq!(rt;
            &images.whole()[64 * chunk..64 * chunk + 64],
            bytes.as_slice()
        );
    }
    Ok(())
}

#[test]
fn each_loss_of_a_switch_is_recovered(rt: HostRuntime) -> Result<(), Fail> {
    let alloc = rt.alloc();
    let image = image(alloc, 0, &FULL, &AVAILABLE)?;
    // the mark, the 34 programs of a chunk, the guard halfword, the erase, the header and the next
    // guard halfword
    for lost in 1..41 {
        let mut board = attached(alloc, &image, &[READS_BESIDE_AVAILABLE + lost])?;
        let mut images = Images::new(alloc)?;
        let fault = Some(RecoverError::Fault(Fault::Flash));
        assert_eq!(rt;
            recover(&mut board, &mut images).err(),
            fault,
            "loss {lost}"
        );
        assert!(rt; recover(&mut board, &mut images).is_ok(), "loss {lost}");
        let Ok(found) = survey(&mut board, &mut images) else {
            return Err(Fail::from("survey"));
        };
        assert_eq!(rt;
            (found.shape, found.kept.guard),
            (Shape::Alone, 2),
            "loss {lost}"
        );
        assert_eq!(rt; &images.whole()[24..32], LINE.as_slice(), "loss {lost}");
    }
    let mut board = attached(alloc, &image, &[READS_BESIDE_AVAILABLE + 41])?;
    let mut images = Images::new(alloc)?;
    assert!(rt; recover(&mut board, &mut images).is_ok());
    Ok(())
}

#[test]
fn a_switch_goes_through_all_states(rt: HostRuntime) -> Result<(), Fail> {
    let alloc = rt.alloc();
    let image = image(alloc, 0, &IN_USE, &AVAILABLE)?;
    let mut board = attached(alloc, &image, &[])?;
    let mut images = Images::new(alloc)?;
    let Ok(alone) = recover(&mut board, &mut images) else {
        return Err(Fail::from("recover"));
    };
    assert_eq!(rt; alone.free(), 16_370);
    assert!(rt; alone.fits(8));
    let Ok(alone) = alone.append(&mut board, &mut images, 8, &[7; 64]) else {
        return Err(Fail::from("append"));
    };
    let Ok(marked) = alone.spill(&mut board) else {
        return Err(Fail::from("spill"));
    };
    let Ok(spilled) = marked.open(&mut board, &mut images) else {
        return Err(Fail::from("open"));
    };
    // two chunks are left
    assert_eq!(rt; spilled.room(&images), 16_384 - 4 - 2 * 66 - 66);
    let Ok(CopyStep::More(spilled)) = spilled.copy_chunk(&mut board, &mut images) else {
        return Err(Fail::from("copy_chunk"));
    };
    let Ok(spilled) = spilled.append(&mut board, &mut images, 8, &[9; 64]) else {
        return Err(Fail::from("append"));
    };
    let Ok(copied) = spilled.copy(&mut board, &mut images) else {
        return Err(Fail::from("copy"));
    };
    let Ok(voided) = copied.void(&mut board) else {
        return Err(Fail::from("void"));
    };
    let Ok(erased) = voided.erase(&mut board) else {
        return Err(Fail::from("erase"));
    };
    let Ok(alone) = erased.open(&mut board) else {
        return Err(Fail::from("open"));
    };
    assert_eq!(rt; alone.free(), 16_384 - 4 - 2 * 66);
    assert_eq!(rt; &images.whole()[24..32], LINE.as_slice());
    assert_eq!(rt; &images.whole()[64..128], [9; 64].as_slice());
    Ok(())
}

// The plain reading of a sector: the offset behind its last entry, and the first halfword from
// there on that isn't FFFF.
fn read_slowly(words: &[u16]) -> (usize, Option<usize>) {
    let mut end: usize = 2;
    for _ in 0..words.len() {
        let Some(word) = words.get(end).copied() else {
            break;
        };
        let Some(header) = header_of(word) else {
            break;
        };
        let next = end.saturating_add(1 + 4 * header.lines as usize);
        if next > words.len() {
            break;
        }
        end = next;
    }
    for place in end..words.len() {
        if words[place] != 0xFFFF {
            return (end, Some(place));
        }
    }
    (end, None)
}

#[test]
fn a_scan_agrees_with_a_plain_reading(rt: HostRuntime) -> Result<(), Fail> {
    let alloc = rt.alloc();
    let cases: [&[u16]; 8] = [
        &[0x5BFE, 0x5168],
        &[0x5BFE, 0x5168, 0x000C, 1, 2, 3, 4],
        &[0x5BFE, 0x5168, 0x000D, 1, 2, 3, 4, 0x000C, 5, 6, 7, 8],
        &[0x5BFE, 0x5168, 0x200C, 1, 2, 3, 4, 5, 6, 7, 8],
        &[0x5BFE, 0x5168, 0x000C, 1, 2, 3, 4, 0x000E],
        &[0x5BFE, 0x5168, 0x000C, 1, 2, 3, 4, 0xFFFF, 0xFFFF, 9],
        &[0x5BFE, 0x5168, 0x1E00],
        &[0x5BFE, 0x5168, 0xFFFF, 0x000C, 1, 2, 3, 4],
    ];
    for words in cases {
        let mut sector = vec![in alloc; 0xFFFFu16; 8192]?;
        if words.len() > 12 {
            return Err(Fail::from("words"));
        }
        sector[..words.len()].copy_from_slice(words);
        let image = image(alloc, 0, &sector, &AVAILABLE)?;
        let mut board = attached(alloc, &image, &[])?;
        let mut bytes = vec![in alloc; 0u8; STORAGE_BYTES]?;
        let found = match scan(&mut board, Region::S0, &mut bytes) {
            Ok(log) => (log.end as usize, None),
            Err(LogError::Word { offset, word: _ }) => (0, Some(offset as usize)),
            Err(LogError::Fault(_)) => return Err(Fail::from("scan")),
        };
        let (end, place) = read_slowly(&sector);
        let told = if place.is_some() {
            (0, place)
        } else {
            (end, place)
        };
        assert_eq!(rt; found, told);
    }
    Ok(())
}

/// A voided image of 16,384-byte sectors: the guard row's count is 1, and sector 1 is in use. Each
/// read of sector 0, which is void, fails. Nothing is told, and each count stands at its end.
#[derive(Drop)]
struct VoidFails;

impl Board for VoidFails {
    ghost use Rattle.std.specs.Prelude.{ℕ, [], ◌-◌, ◌^◌};

    ghost sector_bytes = { λ _. 16384 };

    ghost tells = { λ _. ⊥ };

    ghost words = { λ _. record { s0 = []; s1 = []; guard = [] } };

    ghost has_lists = { λ _ _ _. Unit {0} };

    ghost moment = { λ _. record {
      programs = 2 ^ 64 - 1;
      erases = 2 ^ 64 - 1;
      receptions = 2 ^ 64 - 1;
      sendings = 2 ^ 64 - 1;
    } };

    ghost now = { λ _ _. ⊥ };

    ghost left = { λ _ _ _. ⊥ };

    ghost faults = { λ _ _. 2 ^ 64 - 1 };

    ghost reads = { λ b o now. absurd now };

    ghost counts_now = { λ b t o le now. now };

    ghost only_now = { λ b o left. left };

    ghost shape = { λ b told known. absurd told };

    #[tactic(auto, using(flash_traits::proofs::Counting::raised_at_end))]
    fn attach(&mut self, _name: &str, _port: u16, _make: Option<u32>) -> Result<Geometry, Failed> {
        Err(Failed)
    }

    fn geometry(&self) -> Geometry {
        Geometry {
            sector_bytes: 16_384,
        }
    }

    #[tactic(auto, using(flash_traits::proofs::Counting::raised_at_end))]
    fn read(&mut self, region: Region, at: u32) -> Result<u16, Failed> {
        match (region, at) {
            (Region::S0, _) => Err(Failed),
            (Region::S1, 0) => Ok(0x5BFE),
            (Region::S1, 1) => Ok(0x5168),
            (Region::Guard, 0) => Ok(0),
            _ => Ok(0xFFFF),
        }
    }

    #[tactic(auto, using(flash_traits::proofs::Counting::raised_at_end))]
    fn program(&mut self, _region: Region, _at: u32, _word: u16) -> Result<(), Failed> {
        Err(Failed)
    }

    #[tactic(auto, using(flash_traits::proofs::Counting::raised_at_end))]
    fn erase(&mut self, _region: Region) -> Result<(), Failed> {
        Err(Failed)
    }

    #[tactic(auto, using(flash_traits::proofs::Counting::raised_at_end))]
    fn recv(&mut self, _into: &mut [u8]) -> Result<Event, Failed> {
        Err(Failed)
    }

    #[tactic(auto, using(flash_traits::proofs::Counting::raised_at_end))]
    fn send(&mut self, _peer: u8, _bytes: &[u8]) -> Result<(), Failed> {
        Err(Failed)
    }
}

#[test]
fn a_survey_reads_nothing_of_a_void_sector(rt: HostRuntime) -> Result<(), Fail> {
    let mut images = Images::new(rt.alloc())?;
    match survey(&mut VoidFails, &mut images) {
        Ok(survey) => assert_eq!(rt; survey.shape, Shape::Voided),
        Err(_) => return Err(Fail::from("survey")),
    }
    Ok(())
}
