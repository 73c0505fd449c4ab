//! Frames that are wrong in one thing, and datagrams of every size. What isn't a right frame for
//! the vehicle changes nothing and has no answer, and the next request is answered.
ghost use Rattle.std.specs.Prelude.{IfOk, IsTrue};
ghost use Rattle.flash_board.specs.Kept.{peers_fit};

use super::*;
use mav_crc::crc;

// A PARAM_SET of FENCE_RADIUS to 100 metres as version 2, or with one thing changed.
#[derive(Clone, Copy)]
struct Case {
    what: &'static str,
    v2: bool,
    start_wrong_by: u8,
    incompat: u8,
    compat: u8,
    id: [u8; 3],
    extra: u8,
    target: [u8; 2],
    /// How many bytes of payload there are, and how many the frame says.
    payload: usize,
    says: u8,
    signature: usize,
    crc_wrong_by: u16,
    is_taken: bool,
}

const RIGHT: Case = Case {
    what: "a right frame",
    v2: true,
    start_wrong_by: 0,
    incompat: 0,
    compat: 0,
    id: [23, 0, 0],
    extra: 168,
    target: [1, 1],
    payload: 23,
    says: 23,
    signature: 0,
    crc_wrong_by: 0,
    is_taken: true,
};

const CASES: [Case; 30] = [
    RIGHT,
    Case {
        what: "version 1",
        v2: false,
        ..RIGHT
    },
    Case {
        what: "a target of 0",
        target: [0, 0],
        ..RIGHT
    },
    Case {
        what: "flags that don't matter",
        compat: 0xFF,
        ..RIGHT
    },
    Case {
        what: "a signature",
        incompat: 1,
        signature: 13,
        ..RIGHT
    },
    // what isn't there is 0: the end of the name, and its type, which isn't tested
    Case {
        what: "a payload cut behind the name",
        payload: 18,
        says: 18,
        ..RIGHT
    },
    Case {
        what: "a payload cut behind the name, version 1",
        v2: false,
        payload: 18,
        says: 18,
        ..RIGHT
    },
    Case {
        what: "a longer payload",
        payload: 24,
        says: 24,
        ..RIGHT
    },
    Case {
        what: "the longest payload",
        payload: 255,
        says: 255,
        ..RIGHT
    },
    Case {
        what: "a longer payload, version 1",
        v2: false,
        payload: 255,
        says: 255,
        ..RIGHT
    },
    Case {
        what: "a payload cut in the name",
        payload: 17,
        says: 17,
        is_taken: false,
        ..RIGHT
    },
    Case {
        what: "no payload",
        payload: 0,
        says: 0,
        is_taken: false,
        ..RIGHT
    },
    Case {
        what: "a length that is too small",
        says: 22,
        is_taken: false,
        ..RIGHT
    },
    Case {
        what: "a length that is too large",
        says: 24,
        is_taken: false,
        ..RIGHT
    },
    Case {
        what: "the largest length",
        says: 255,
        is_taken: false,
        ..RIGHT
    },
    Case {
        what: "the largest length, version 1",
        v2: false,
        says: 255,
        is_taken: false,
        ..RIGHT
    },
    // FC, FF, and each version's byte before a heading of the other one
    Case {
        what: "a start byte of no version",
        start_wrong_by: 1,
        is_taken: false,
        ..RIGHT
    },
    Case {
        what: "a start byte of no version, version 1",
        v2: false,
        start_wrong_by: 1,
        is_taken: false,
        ..RIGHT
    },
    Case {
        what: "the start byte of version 1",
        start_wrong_by: 3,
        is_taken: false,
        ..RIGHT
    },
    Case {
        what: "the start byte of version 2, version 1",
        v2: false,
        start_wrong_by: 3,
        is_taken: false,
        ..RIGHT
    },
    Case {
        what: "another system",
        target: [2, 1],
        is_taken: false,
        ..RIGHT
    },
    Case {
        what: "another component",
        target: [1, 190],
        is_taken: false,
        ..RIGHT
    },
    Case {
        what: "a CRC with one wrong bit",
        crc_wrong_by: 1,
        is_taken: false,
        ..RIGHT
    },
    Case {
        what: "a CRC with its bytes exchanged, or any other",
        crc_wrong_by: 0xFFFF,
        is_taken: false,
        ..RIGHT
    },
    Case {
        what: "the extra byte of another message",
        extra: 220,
        is_taken: false,
        ..RIGHT
    },
    Case {
        what: "an unknown flag",
        incompat: 2,
        is_taken: false,
        ..RIGHT
    },
    Case {
        what: "an unknown flag beside a signature",
        incompat: 0x81,
        signature: 13,
        is_taken: false,
        ..RIGHT
    },
    Case {
        what: "a message without an answer",
        id: [22, 0, 0],
        extra: 220,
        is_taken: false,
        ..RIGHT
    },
    Case {
        what: "an id that isn't listed",
        id: [24, 0, 0],
        is_taken: false,
        ..RIGHT
    },
    Case {
        what: "an id of three bytes",
        id: [23, 0, 1],
        is_taken: false,
        ..RIGHT
    },
];

// The first bytes of a PARAM_SET's payload, with this target.
fn payload(target: [u8; 2]) -> [u8; 23] {
    let [system, component] = target;
    [
        0x00, 0x00, 0xC8, 0x42, system, component, b'F', b'E', b'N', b'C', b'E', b'_', b'R', b'A',
        b'D', b'I', b'U', b'S', 0, 0, 0, 0, 9,
    ]
}

// The frame of a case.
fn frame_of(alloc: Global, case: &Case) -> Result<Vec<u8>, Fail> {
    let mut frame = Vec::new(alloc);
    let version = if case.v2 { 0xFD } else { 0xFE };
    frame.push(version ^ case.start_wrong_by)?;
    if case.v2 {
        frame.extend_from_slice(&[case.says, case.incompat, case.compat, 0, 255, 190])?;
        frame.extend_from_slice(&case.id)?;
    } else {
        frame.extend_from_slice(&[case.says, 0, 255, 190, case.id[0]])?;
    }
    let written = payload(case.target);
    for place in 0..case.payload {
        frame.push(written.get(place).copied().unwrap_or(0))?;
    }
    let Some(covered) = frame.get(1..) else {
        return Err(Fail::from("frame"));
    };
    let sum = crc(crc(0xFFFF, covered), &[case.extra]) ^ case.crc_wrong_by;
    frame.extend_from_slice(&sum.to_le_bytes())?;
    for _ in 0..case.signature {
        frame.push(0xA5)?;
    }
    Ok(frame)
}

// The frame, then a datagram of 2,048 zeros, which ends every frame that was begun, and the
// question for the radius.
fn asked_after(alloc: Global, frame: &[u8]) -> Result<Vec<Feed>, Fail>
    ensures { IfOk result (λ feed. IsTrue (peers_fit feed.items)) }
{
    let mut feed = Vec::new(alloc);
    append(&mut feed, datagram(0, frame)?)?;
    append(&mut feed, datagram(0, &[0; 2_048])?)?;
    append(&mut feed, read(12)?)?;
    Ok(feed)
}

#[test]
fn a_frame_that_is_wrong_in_one_thing_changes_nothing(rt: HostRuntime) -> Result<(), Fail> {
    let alloc = rt.alloc();
    let image = formatted_image(alloc)?;
    for case in &CASES {
        let feed = asked_after(alloc, &frame_of(alloc, case)?)?;
        let board = served(alloc, &image, &feed)?;
        let (value, answers) = if case.is_taken {
            (0x42C8_0000, 2)
        } else {
            (0x4396_0000, 1)
        };
        for number in 0..answers {
            let shown = value_sent(&board, number);
            assert_eq!(rt; shown, Some((RADIUS_INDEX, value)), "{}", case.what);
        }
        assert!(rt; board.sent(answers).is_none(), "{}", case.what);
    }
    Ok(())
}

// How many answers a datagram has that holds so many requests and is filled with zeros up to a
// size.
fn answers(alloc: Global, requests: usize, size: usize) -> Result<u32, Fail> {
    let mut bytes = Vec::new(alloc);
    for _ in 0..requests {
        bytes.extend_from_slice(&REQUEST_V1)?;
    }
    bytes.resize(size, 0)?;
    let mut feed = Vec::new(alloc);
    append(&mut feed, datagram(7, &bytes)?)?;
    let board = served(alloc, &formatted_image(alloc)?, &feed)?;
    for number in 0..100 {
        match board.sent(number) {
            None => return Ok(number),
            Some((7, _)) => {}
            Some(_) => return Err(Fail::from("another station was answered")),
        }
    }
    Err(Fail::from("too many answers"))
}

#[test]
fn datagrams_of_every_size_are_read(rt: HostRuntime) -> Result<(), Fail> {
    let alloc = rt.alloc();
    for (requests, size, answered) in [
        (0, 0, 0),
        (0, 1, 0),
        (1, 27, 0),
        (1, 28, 1),
        (73, 2_048, 73),
    ] {
        let found = answers(alloc, requests, size)?;
        assert_eq!(rt; found, answered, "{size} bytes");
    }
    Ok(())
}
