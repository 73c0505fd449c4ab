//! What each command answers and prints, and what it hands on to the attach.
ghost use Rattle.std.specs.Prelude.{◌≡◌, IfOk, length};

use arrayvec::ArrayVec;
use flash_board::{
    Board, Event, Failed, Feed, Geometry, MemBoard, Region, SureBoard, SureSink, SureSource,
};
use std::alloc::{AllocError, Global};
use std::test::Fail;
use storage_cli::{Status, run};

// PARAM_REQUEST_READ of index 0, and PARAM_VALUE of FORMAT_VERSION, 120.
const REQUEST: [u8; 28] = [
    0xFE, 0x14, 0x00, 0xFF, 0xBE, 0x14, 0x00, 0x00, 0x01, 0x01, 0, 0, 0, 0, 0, 0, 0, 0, 0, 0, 0, 0,
    0, 0, 0, 0, 0xE7, 0xF2,
];

const VALUE: [u8; 33] = [
    0xFE, 0x19, 0x00, 0x01, 0x01, 0x16, 0x00, 0x00, 0xF0, 0x42, 0xF0, 0x00, 0x00, 0x00, 0x46, 0x4F,
    0x52, 0x4D, 0x41, 0x54, 0x5F, 0x56, 0x45, 0x52, 0x53, 0x49, 0x4F, 0x4E, 0x00, 0x00, 0x04, 0x55,
    0x99,
];

// A fresh image of 131,072-byte sectors.
pub(crate) fn fresh_image(alloc: Global) -> Result<Vec<u8>, AllocError>
    ensures { IfOk result (λ image. length image.items ≡ 278528) }
{
    let mut image = Vec::from_slice(alloc, &[0xFEu8, 0x5B, 0x68, 0x51])?;
    image.resize(131_072, 0xFF)?;
    image.extend_from_slice(&[0xFF, 0x5B, 0x68, 0x51])?;
    image.resize(278_528, 0xFF)?;
    Ok(image)
}

// The status of a call, and what it printed.
fn call<B: Board>(
    alloc: Global,
    words: &[&str],
    board: &mut B,
) -> Result<(Status, Vec<u8>), AllocError> {
    let mut input = SureSource::new(alloc, &[])?;
    let mut out = SureSink::new(alloc, 20_000)?;
    let status = run(alloc, words, board, &mut input, &mut out);
    Ok((status, Vec::from_slice(alloc, out.bytes())?))
}

#[test]
fn serves_a_default_from_a_fresh_image(rt: HostRuntime) -> Result<(), Fail> {
    let alloc = rt.alloc();
    let image = fresh_image(alloc)?;
    let Ok(bytes) = ArrayVec::try_from(REQUEST.as_slice()) else {
        return Err(Fail::from("request"));
    };
    let feed = [Feed::Datagram { peer: 0, bytes }, Feed::End];
    let mut board = SureBoard::new(alloc, &image, &feed)?;
    let (status, text) = call(alloc, &["serve", "a"], &mut board)?;
    assert_eq!(rt; status, Status(0));
    assert_eq!(rt; text.as_slice(), b"served 1 events 1 frames\n".as_slice());
    let Some((peer, frame)) = board.sent(0) else {
        return Err(Fail::from("no frame"));
    };
    assert_eq!(rt; peer, 0);
    assert_eq!(rt; frame.as_slice(), VALUE.as_slice());
    assert!(rt; board.sent(1).is_none());
    Ok(())
}

#[test]
fn serves_an_image_that_format_made(rt: HostRuntime) -> Result<(), Fail> {
    let alloc = rt.alloc();
    let image = vec![in alloc; 0u8; 278_528]?;
    let Ok(bytes) = ArrayVec::try_from(REQUEST.as_slice()) else {
        return Err(Fail::from("request"));
    };
    let feed = [Feed::Datagram { peer: 3, bytes }, Feed::End];
    let mut board = SureBoard::new(alloc, &image, &feed)?;
    let (status, text) = call(alloc, &["format", "a"], &mut board)?;
    assert_eq!(rt; status, Status(0));
    assert!(rt; text.is_empty());
    let (status, text) = call(alloc, &["serve", "a"], &mut board)?;
    assert_eq!(rt; status, Status(0));
    assert_eq!(rt; text.as_slice(), b"served 1 events 1 frames\n".as_slice());
    Ok(())
}

#[derive(Drop)]
struct Case {
    words: &'static [&'static str],
    fails: &'static [u32],
    status: u8,
    line: &'static [u8],
}

const CASES: [Case; 13] = [
    Case {
        words: &[],
        fails: &[],
        status: 1,
        line: b"error 1 words\n",
    },
    Case {
        words: &["serve", "a", "--turns", "0"],
        fails: &[],
        status: 1,
        line: b"error 1 words\n",
    },
    Case {
        words: &["serve", "a", "--turns", "2", "--turns", "2"],
        fails: &[],
        status: 1,
        line: b"error 1 words\n",
    },
    Case {
        words: &["serve", "-a"],
        fails: &[],
        status: 1,
        line: b"error 1 words\n",
    },
    Case {
        words: &["serve", "a", "--turns", "02147483648"],
        fails: &[],
        status: 1,
        line: b"error 1 words\n",
    },
    Case {
        words: &["serve", "a", "--turns", "2"],
        fails: &[],
        status: 8,
        line: b"error 8 turns 2\n",
    },
    Case {
        words: &["serve", "--turns=2", "--", "-a"],
        fails: &[],
        status: 8,
        line: b"error 8 turns 2\n",
    },
    Case {
        words: &["serve", "a"],
        fails: &[0],
        status: 13,
        line: b"error 13 attach\n",
    },
    Case {
        words: &["serve", "a"],
        fails: &[1],
        status: 4,
        line: b"error 4 read\n",
    },
    Case {
        words: &["dump", "a", "--port", "7"],
        fails: &[],
        status: 1,
        line: b"error 1 words\n",
    },
    Case {
        words: &["dump", "a"],
        fails: &[0],
        status: 13,
        line: b"error 13 attach\n",
    },
    Case {
        words: &["dump", "a"],
        fails: &[1],
        status: 4,
        line: b"error 4 read\n",
    },
    Case {
        words: &["report", "a"],
        fails: &[1],
        status: 4,
        line: b"error 4 read\n",
    },
];

#[test]
fn tells_why_it_stopped(rt: HostRuntime) -> Result<(), Fail> {
    let alloc = rt.alloc();
    let image = fresh_image(alloc)?;
    for case in &CASES {
        let feed = [Feed::Idle, Feed::Idle];
        let mut board = MemBoard::new(alloc, &image, &feed, case.fails)?;
        let (status, text) = call(alloc, case.words, &mut board)?;
        assert_eq!(rt; status, Status(case.status));
        assert_eq!(rt; text.as_slice(), case.line);
    }
    Ok(())
}

// Sector 0 is full, sector 1 is available, and the guard row is used up.
fn worn_image(alloc: Global) -> Result<Vec<u8>, AllocError>
    ensures { IfOk result (λ image. length image.items ≡ 278528) }
{
    let mut image = Vec::from_slice(alloc, &[0xFCu8, 0x5B, 0x68, 0x51])?;
    image.resize(131_072, 0xFF)?;
    image.extend_from_slice(&[0xFF, 0x5B, 0x68, 0x51])?;
    image.resize(262_144, 0xFF)?;
    image.resize(278_528, 0)?;
    Ok(image)
}

#[test]
fn tells_that_the_guard_row_is_used_up(rt: HostRuntime) -> Result<(), Fail> {
    let alloc = rt.alloc();
    let image = worn_image(alloc)?;
    let mut board = SureBoard::new(alloc, &image, &[Feed::End])?;
    let (status, text) = call(alloc, &["serve", "a"], &mut board)?;
    assert_eq!(rt; status, Status(7));
    assert_eq!(rt; text.as_slice(), b"error 7 worn 8192\n".as_slice());
    Ok(())
}

/// A board whose calls all fail, with each count at its end. It compares what each attach is given,
/// and counts them.
#[derive(Drop)]
struct Refusing {
    name: &'static str,
    port: u16,
    make: Option<u32>,
    sector_bytes: u32,
    /// The attaches that were given just this.
    right: u32,
    /// All others.
    wrong: u32,
}

impl Board for Refusing {
    ghost use Rattle.std.specs.Prelude.{ℕ, [], ◌-◌, ◌^◌};

    ghost sector_bytes = { λ b. b.sector_bytes };

    ghost tells = { λ _. ⊥ };

    ghost words = { λ _. record { s0 = []; s1 = []; guard = [] } };

    ghost has_lists = { λ _ _ _. Unit {0} };

    ghost moment = { λ _. record {
      programs = 2 ^ 64 - 1;
      erases = 2 ^ 64 - 1;
      receptions = 2 ^ 64 - 1;
      sendings = 2 ^ 64 - 1;
    } };

    ghost now = { λ _ _. ⊥ };

    ghost left = { λ _ _ _. ⊥ };

    ghost faults = { λ _ _. 2 ^ 64 - 1 };

    ghost reads = { λ b o now. absurd now };

    ghost counts_now = { λ b t o le now. now };

    ghost only_now = { λ b o left. left };

    ghost shape = { λ b told known. absurd told };

    #[tactic(auto, using(flash_traits::proofs::Counting::raised_at_end))]
    fn attach(&mut self, name: &str, port: u16, make: Option<u32>) -> Result<Geometry, Failed> {
        if name == self.name && port == self.port && make == self.make {
            self.right = self.right.saturating_add(1);
        } else {
            self.wrong = self.wrong.saturating_add(1);
        }
        Err(Failed)
    }

    fn geometry(&self) -> Geometry {
        Geometry {
            sector_bytes: self.sector_bytes,
        }
    }

    #[tactic(auto, using(flash_traits::proofs::Counting::raised_at_end))]
    fn read(&mut self, _region: Region, _at: u32) -> Result<u16, Failed> {
        Err(Failed)
    }

    #[tactic(auto, using(flash_traits::proofs::Counting::raised_at_end))]
    fn program(&mut self, _region: Region, _at: u32, _word: u16) -> Result<(), Failed> {
        Err(Failed)
    }

    #[tactic(auto, using(flash_traits::proofs::Counting::raised_at_end))]
    fn erase(&mut self, _region: Region) -> Result<(), Failed> {
        Err(Failed)
    }

    #[tactic(auto, using(flash_traits::proofs::Counting::raised_at_end))]
    fn recv(&mut self, _into: &mut [u8]) -> Result<Event, Failed> {
        Err(Failed)
    }

    #[tactic(auto, using(flash_traits::proofs::Counting::raised_at_end))]
    fn send(&mut self, _peer: u8, _bytes: &[u8]) -> Result<(), Failed> {
        Err(Failed)
    }
}

#[test]
fn attaches_once_by_the_words(rt: HostRuntime) -> Result<(), Fail> {
    let alloc = rt.alloc();
    let cases: [(&[&str], &'static str, u16, Option<u32>); 8] = [
        (&["serve", "a.img"], "a.img", 14_550, None),
        (&["serve", "a.img", "--port", "7"], "a.img", 7, None),
        (&["serve", "--turns=2", "--", "-a"], "-a", 14_550, None),
        (&["format", "a.img"], "a.img", 0, Some(131_072)),
        (
            &["format", "a.img", "--sector", "16384"],
            "a.img",
            0,
            Some(16_384),
        ),
        (&["dump", "a.img"], "a.img", 0, None),
        (&["report", "a.img"], "a.img", 0, None),
        (&["replay", "a.img"], "a.img", 0, None),
    ];
    for (words, name, port, make) in cases {
        let mut board = Refusing {
            name,
            port,
            make,
            sector_bytes: 0,
            right: 0,
            wrong: 0,
        };
        let (status, _) = call(alloc, words, &mut board)?;
        assert_eq!(rt; status, Status(13));
        assert_eq!(rt; (board.right, board.wrong), (1, 0));
    }
    Ok(())
}

#[test]
fn reports_and_dumps_an_image_that_format_made(rt: HostRuntime) -> Result<(), Fail> {
    let alloc = rt.alloc();
    let image = vec![in alloc; 0u8; 49_152]?;
    let mut board = MemBoard::new(alloc, &image, &[], &[])?;
    let words = ["format", "a", "--sector", "16384"];
    let (status, _) = call(alloc, &words, &mut board)?;
    assert_eq!(rt; status, Status(0));
    let (status, text) = call(alloc, &["report", "a"], &mut board)?;
    assert_eq!(rt; status, Status(0));
    let expected = b"image 16384\nguard 0\ns0 inuse entries 0 torn 0 free 16380\n\
            s1 available entries 0 torn 0 free 16380\nstate alone\n";
    assert_eq!(rt; text.as_slice(), expected.as_slice());
    let (status, text) = call(alloc, &["dump", "a"], &mut board)?;
    assert_eq!(rt; status, Status(0));
    assert!(rt; text.starts_with(b"image 16384 guard 0 alone\n"));
    Ok(())
}

#[test]
fn dumps_no_foreign_image_and_reports_it(rt: HostRuntime) -> Result<(), Fail> {
    let alloc = rt.alloc();
    // the third halfword of sector 0, 000E, begins no entry
    let mut image = Vec::from_slice(alloc, &[0xFEu8, 0x5B, 0x68, 0x51, 0x0E, 0x00])?;
    image.resize(16_384, 0xFF)?;
    image.extend_from_slice(&[0xFF, 0x5B, 0x68, 0x51])?;
    image.resize(49_152, 0xFF)?;
    let mut board = MemBoard::new(alloc, &image, &[], &[])?;
    let (status, text) = call(alloc, &["dump", "a"], &mut board)?;
    assert_eq!(rt; status, Status(3));
    assert_eq!(rt; text.as_slice(), b"error 3 foreign s0 2 000E\n".as_slice());
    let (status, text) = call(alloc, &["report", "a"], &mut board)?;
    assert_eq!(rt; status, Status(0));
    let expected =
        b"image 16384\nguard 0\ns0 foreign 2 000E\ns1 available entries 0 torn 0 free 16380\n\
            state foreign\n";
    assert_eq!(rt; text.as_slice(), expected.as_slice());
    Ok(())
}
