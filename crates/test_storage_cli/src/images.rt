//! Images of other lengths, and images with foreign words: the first one is named, and the words
//! are as they were.
ghost use Rattle.std.specs.Prelude.{◌≡◌, ◌≤◌, IfOk, length};

use byteorder::{ByteOrder, LittleEndian};
use flash_board::{Feed, MemBoard, SureSink, SureSource};
use std::alloc::Global;
use std::test::Fail;
use storage_cli::{Status, run};

// The status of a command over an image, what it printed, and the image afterwards.
#[derive(Drop)]
struct Ended {
    status: Status,
    text: Vec<u8>,
    image: Vec<u8>,
}

fn command(alloc: Global, word: &str, image: &[u8]) -> Result<Ended, Fail> {
    let mut board = MemBoard::new(alloc, image, &[Feed::End], &[])?;
    let mut input = SureSource::new(alloc, &[])?;
    let mut out = SureSink::new(alloc, 20_000)?;
    let status = run(alloc, &[word, "a"], &mut board, &mut input, &mut out);
    Ok(Ended {
        status,
        text: Vec::from_slice(alloc, out.bytes())?,
        image: board.image(alloc)?,
    })
}

// A fresh image of this sector size.
fn fresh_image(alloc: Global, sector_bytes: u32) -> Result<Vec<u8>, Fail> {
    let size = sector_bytes as usize;
    let mut image = Vec::from_slice(alloc, &[0xFEu8, 0x5B, 0x68, 0x51])?;
    image.resize(size, 0xFF)?;
    image.extend_from_slice(&[0xFF, 0x5B, 0x68, 0x51])?;
    image.resize(2 * size + 16_384, 0xFF)?;
    Ok(image)
}

#[test]
fn an_image_that_was_cut_is_refused(rt: HostRuntime) -> Result<(), Fail> {
    let alloc = rt.alloc();
    for sector_bytes in [16_384u32, 32_768, 65_536, 131_072] {
        let image = fresh_image(alloc, sector_bytes)?;
        for word in ["serve", "dump", "report"] {
            for cut in [1, 16_384] {
                let ended = command(alloc, word, &image[..image.len().saturating_sub(cut)])?;
                assert_eq!(rt; ended.status, Status(13), "{word} of {sector_bytes}");
                assert_eq!(rt; ended.text.as_slice(), b"error 13 attach\n".as_slice());
            }
        }
        // Cut by a larger sector it has the length of an image with smaller sectors, whose guard
        // row begins where the old sector 1 did.
        if sector_bytes > 16_384 {
            let cut = &image[..image.len().saturating_sub(sector_bytes as usize)];
            for word in ["serve", "dump"] {
                let ended = command(alloc, word, cut)?;
                assert_eq!(rt; ended.status, Status(3), "{word} of {sector_bytes}");
                assert_eq!(rt;
                    ended.text.as_slice(),
                    b"error 3 foreign guard 0 5BFF\n".as_slice()
                );
                assert_eq!(rt; ended.image.as_slice(), cut);
            }
        }
    }
    Ok(())
}

// A region of an image, by the name that it is printed with.
#[derive(Clone, Copy, Debug, PartialEq, Eq)]
enum Part {
    S0,
    S1,
    Guard,
}

impl Part {
    fn name(&self) -> &'static str {
        match self {
            Part::S0 => "s0",
            Part::S1 => "s1",
            Part::Guard => "guard",
        }
    }

    // Where the region begins in an image of 16,384-byte sectors.
    fn start(&self) -> usize
        ensures { result ≤ 32768 }
    {
        match self {
            Part::S0 => 0,
            Part::S1 => 16_384,
            Part::Guard => 32_768,
        }
    }
}

// Offsets of a region, from the first one up to the end.
type Span = (Part, u32, u32);

// An image whose 16,384-byte sectors begin with these halfwords, with so many zeros in its guard
// row, and its places in the order in which they are tested.
#[derive(Drop)]
struct Case {
    guard: usize,
    s0: &'static [u16],
    s1: &'static [u16],
    order: &'static [Span],
}

// Each mark with an entry of line 3 behind it.
const IN_USE: [u16; 7] = [0x5BFE, 0x5168, 0x000C, 1, 2, 3, 4];

const FULL: [u16; 7] = [0x5BFC, 0x5168, 0x000C, 1, 2, 3, 4];

const AVAILABLE: [u16; 2] = [0x5BFF, 0x5168];

// Alone, marked, spilled with sector 1 as home, and with sector 0 void.
const CASES: [Case; 4] = [
    Case {
        guard: 0,
        s0: &IN_USE,
        s1: &AVAILABLE,
        order: &[
            (Part::Guard, 0, 8_192),
            (Part::S0, 0, 1),
            (Part::S0, 1, 2),
            (Part::S1, 0, 1),
            (Part::S1, 1, 2),
            (Part::S0, 2, 3),
            (Part::S0, 7, 8_192),
            (Part::S1, 2, 8_192),
        ],
    },
    Case {
        guard: 0,
        s0: &FULL,
        s1: &AVAILABLE,
        order: &[
            (Part::Guard, 0, 8_192),
            (Part::S0, 0, 1),
            (Part::S0, 1, 2),
            (Part::S1, 0, 1),
            (Part::S1, 1, 2),
            (Part::S0, 2, 3),
            (Part::S0, 7, 8_192),
            (Part::S1, 2, 8_192),
        ],
    },
    Case {
        guard: 2,
        s0: &IN_USE,
        s1: &FULL,
        order: &[
            (Part::Guard, 2, 8_192),
            (Part::S1, 0, 1),
            (Part::S1, 1, 2),
            (Part::S0, 0, 1),
            (Part::S0, 1, 2),
            (Part::S1, 2, 3),
            (Part::S1, 7, 8_192),
            (Part::S0, 2, 3),
            (Part::S0, 7, 8_192),
        ],
    },
    Case {
        guard: 1,
        s0: &[0x1234, 0x5678, 0x000E],
        s1: &IN_USE,
        order: &[
            (Part::Guard, 1, 8_192),
            (Part::S1, 0, 1),
            (Part::S1, 1, 2),
            (Part::S1, 2, 3),
            (Part::S1, 7, 8_192),
        ],
    },
];

// An image of 16,384-byte sectors.
fn image_of(alloc: Global, guard: usize, s0: &[u16], s1: &[u16]) -> Result<Vec<u8>, Fail>
    ensures { IfOk result (λ image. length image.items ≡ 49152) }
{
    if guard > 8_192 || s0.len() > 8_192 || s1.len() > 8_192 {
        return Err(Fail::from("image"));
    }
    let mut image = vec![in alloc; 0xFFu8; 49_152]?;
    LittleEndian::write_u16_into(s0, &mut image[..2 * s0.len()]);
    LittleEndian::write_u16_into(s1, &mut image[16_384..16_384 + 2 * s1.len()]);
    image[32_768..32_768 + 2 * guard].fill(0);
    Ok(image)
}

// The next number of a fixed row of them.
fn next_random(random: &mut u64) -> u32 {
    *random = random
        .wrapping_mul(6_364_136_223_846_793_005)
        .wrapping_add(1_442_695_040_888_963_407);
    (*random >> 33) as u32
}

// Puts a word that is no mark, no signature and no header somewhere into a span. Gives its place.
fn put_foreign(image: &mut Vec<u8>, span: Span, random: &mut u64) -> Option<(u32, u16)> {
    let (part, first, end) = span;
    if first >= end || end > 8_192 || image.len() != 49_152 {
        return None;
    }
    let offset = first + next_random(random) % (end - first);
    // the state of such a header is none
    let word = match (next_random(random) % 0x4000) as u16 * 4 + 2 {
        0x5BFE => 0x5BFA,
        word => word,
    };
    let at = part.start() + 2 * offset as usize;
    image[at..at + 2].copy_from_slice(&word.to_le_bytes());
    Some((offset, word))
}

// A foreign word in this span, one right behind it, and one in each later span.
fn with_foreign(
    alloc: Global,
    case: &Case,
    place: usize,
    random: &mut u64,
) -> Result<(Vec<u8>, Vec<u8>), Fail> {
    let mut image = image_of(alloc, case.guard, case.s0, case.s1)?;
    let Some(span) = case.order.get(place).copied() else {
        return Err(Fail::from("span"));
    };
    let (part, _, end) = span;
    let Some((offset, word)) = put_foreign(&mut image, span, random) else {
        return Err(Fail::from("span"));
    };
    let _ = put_foreign(&mut image, (part, offset.saturating_add(1), end), random);
    for later in case.order.iter().skip(place.saturating_add(1)) {
        let _ = put_foreign(&mut image, *later, random);
    }
    let line = format!(in alloc; "error 3 foreign {} {offset} {word:04X}\n", part.name())?;
    Ok((image, line.into_bytes()))
}

#[test]
fn the_first_foreign_word_is_named_and_nothing_is_changed(rt: HostRuntime) -> Result<(), Fail> {
    let alloc = rt.alloc();
    let mut random = 20_260_101;
    for case in &CASES {
        for place in 0..case.order.len() {
            for _ in 0..4 {
                let (image, line) = with_foreign(alloc, case, place, &mut random)?;
                for word in ["serve", "dump"] {
                    let ended = command(alloc, word, &image)?;
                    assert_eq!(rt; ended.text.as_slice(), line.as_slice(), "{word}");
                    assert_eq!(rt; ended.status, Status(3));
                    assert!(rt; ended.image.as_slice() == image.as_slice());
                }
            }
        }
    }
    Ok(())
}

// A full sector with an entry for each chunk, and a sector in use with so many entries of line 0.
fn crowded_image(alloc: Global, entries: usize) -> Result<Vec<u8>, Fail> {
    let mut home = Vec::from_slice(alloc, &[0x5BFCu16, 0x5168])?;
    for chunk in 0..240 {
        home.push(0xE000 + 32 * chunk)?;
        for _ in 0..32 {
            home.push(0x0101)?;
        }
    }
    let mut other = Vec::from_slice(alloc, &[0x5BFEu16, 0x5168])?;
    for _ in 0..entries {
        other.extend_from_slice(&[0x0000, 7, 7, 7, 7])?;
    }
    image_of(alloc, 0, &home, &other)
}

// 240 chunks are to be copied, each in 66 bytes. 54 entries leave just so much of the other sector.
#[test]
fn a_sector_without_room_for_the_copy_is_foreign(rt: HostRuntime) -> Result<(), Fail> {
    let alloc = rt.alloc();
    let image = crowded_image(alloc, 55)?;
    for word in ["serve", "dump"] {
        let ended = command(alloc, word, &image)?;
        assert_eq!(rt;
            ended.text.as_slice(),
            b"error 3 foreign s1 0 5BFE\n".as_slice()
        );
        assert_eq!(rt; ended.status, Status(3));
        assert!(rt; ended.image.as_slice() == image.as_slice());
    }
    let ended = command(alloc, "serve", &crowded_image(alloc, 54)?)?;
    assert_eq!(rt; ended.status, Status(0));
    Ok(())
}
